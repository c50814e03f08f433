// The records of which diagrams are made: cells and nodes beside actions, when two of a kind are the same, and the words of diagrams.
#![tactic(auto)]

mod kinds;
mod same;
mod words;

pub use kinds::{Cell, Diagram, Node};
pub use same::Record;
pub use words::NoDiagram;
