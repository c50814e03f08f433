// Reads a policy text from standard input and prints the record of what it says, or why it is refused.
#![tactic(auto)]

use format::{TEXT_LIMIT, WORDS_LIMIT};
use reports::report;
use std::io;
use std::io::{ErrorKind, Read, Write};

// The longest line of a word, as `word 32FFFFFF set vlan:=16777215`, and the other lines together.
const WORD_LINE: usize = 33;

const OTHER_LINES: usize = 64;

// As long as the record of a text may be: no text has more words than bytes. So one report is enough.
fn likely_length(text: &[u8]) -> usize {
    OTHER_LINES + WORD_LINE * text.len().min(WORDS_LIMIT)
}

fn main(rt: HostRuntime) -> io::Result<()> {
    let mut text = Vec::new(rt.alloc());
    // One byte over the limit is enough to notice a text that is too long.
    rt.stdin()
        .take(TEXT_LIMIT as u64 + 1)
        .read_to_end(&mut text)?;
    // Where there is less memory, the report says how much it needs.
    let mut record = vec![in rt.alloc(); 0; likely_length(&text)].unwrap_or(Vec::new(rt.alloc()));
    let mut answer = report(&text, &mut record);
    if let Err(needed) = answer {
        record = vec![in rt.alloc(); 0; needed]?;
        answer = report(&text, &mut record);
    }
    let Ok(length) = answer else {
        return Err(io::Error::from(ErrorKind::OutOfMemory));
    };
    rt.stdout().write_all(&record[..length])
}
