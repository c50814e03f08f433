// What is told of a bench after a series.
use counts::Counts;

#[derive(Clone, Copy, Debug, PartialEq, Eq)]
pub struct Ended {
    // How many records the stores hold.
    pub records: Counts,
    // How many words the table in force has.
    pub table_words: usize,
}
