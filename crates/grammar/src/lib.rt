// The symbols of a policy text read by an automaton that writes the policy's words.
#![tactic(auto)]

mod decide;
mod machine;
mod push;
mod reader;
mod steps;
mod words;

pub use reader::parse;
