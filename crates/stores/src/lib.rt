// Records under numbers: equal records get one number.
#![tactic(auto)]

mod store;

pub use store::Store;
