// Actions: what a diagram does to a frame.
#![tactic(auto)]

mod actions;

pub use actions::Action;
pub use frames::WIDTH;
