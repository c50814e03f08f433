// The counts of the records in store and their guard, diagrams that are handed in by their words, and the sizes of memories.
#![tactic(auto)]

mod counts;
mod memory;
mod operands;

pub use counts::{Counts, Guard};
pub use memory::Sizes;
