// Too little memory.

// Which memory is too short for a record, and how much would be enough.
#[derive(Clone, Copy, Debug, PartialEq, Eq)]
pub enum Short {
    Words(usize),
    Bytes(usize),
}
