// Scripts of calls performed on a bench, and the record of what came of them.
#![tactic(auto)]

mod answers;
mod run;
mod told;

pub use run::trial;
pub use told::{Short, Told};
