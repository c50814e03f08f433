// Policy texts and words: what is read from a text, and which words are a legal policy.
#![tactic(auto)]

mod reader;
mod texts;

pub use checking::{CheckedPolicy, check};
pub use reader::read;
pub use texts::read_policy;
