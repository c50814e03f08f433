// Tables of match rows: checked word by word, looked up, and frames forwarded through them.
#![tactic(auto)]

mod check;
mod force;
mod forward;
mod kind;
mod lookup;
mod state;
mod word;

pub use check::{CheckedTable, check_table};
pub use force::TableInForce;
pub use forward::SENT_WORDS;
pub use kind::{NoTableKind, TableKind};
pub use word::TableWord;
