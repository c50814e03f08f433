// Scripts of calls: lines read as calls on a bench.
#![tactic(auto)]

mod cuts;
mod forwards;
mod lines;
mod needs;
mod numbers;
mod operands;
mod scripts;
mod verbs;
mod words;

pub use needs::{Needs, NoCall};
pub use scripts::{read_calls, write_frames};
