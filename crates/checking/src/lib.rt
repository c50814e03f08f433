// Which words are a legal policy.
#![tactic(auto)]

mod checked;
mod checking;
mod waiting;

pub use checked::CheckedPolicy;
pub use checking::check;
