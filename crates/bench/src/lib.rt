// A bench: stores and the table in force in lent memory, with six calls, each of which does all of its work or none.
#![tactic(auto)]

mod bench;
mod installing;
mod memories;

pub use bench::Bench;
pub use engine::Shape;
pub use memories::Memories;
