// What a trial answers.

// How many bytes stand on the page.
#[derive(Clone, Copy, Debug, PartialEq, Eq)]
pub enum Told {
    // The record of the calls, or the line of a wrong size.
    Record(usize),
    // The line that names the script's first line that is no call.
    NoCall(usize),
}

// What a trial lacks, and how much would be enough.
#[derive(Clone, Copy, Debug, PartialEq, Eq)]
pub enum Short {
    // The script has this many calls, which are too many.
    Calls(usize),
    // Words of memory, for frames and for the table.
    Words(usize),
    // Bytes of memory, for the record.
    Bytes(usize),
}
