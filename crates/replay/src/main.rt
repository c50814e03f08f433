// Replays captured frames through a table and prints the record of what the switch would emit.
#![tactic(auto)]

mod likely;

use anyhow::anyhow;
use likely::likely_length;
use replays::{Kind, Short, replay, words_wanted};
use std::alloc::{AllocError, Global};
use std::io::Write;
use std::{env, fs};

// The line of a refused table has no more bytes.
const LINE: usize = 64;

// Memory for a record of the likely length. Where there is less memory than is likely to do, the replay says how much does.
fn likely_record(
    heap: Global,
    kind: Kind,
    table: &[u8],
    frames: &[u8],
    words: &mut [u32],
) -> Result<Vec<u8>, AllocError> {
    let likely = likely_length(heap, kind, table, frames, words)?;
    Ok(vec![in heap; 0; likely].unwrap_or(Vec::new(heap)))
}

// Prints the record, in memory that is lent for it.
fn print(rt: &HostRuntime, kind: Kind, table: &[u8], frames: &[u8]) -> anyhow::Result<()> {
    let heap = rt.alloc();
    let mut words = vec![in heap; 0; words_wanted(table, frames)]?;
    let mut record = vec![in heap; 0; LINE]?;
    // A replay says how much more it needs: of a legal table, first of words, then of bytes. What was lent goes before more is.
    for _ in 0..3 {
        match replay(kind, table, frames, &mut words, &mut record) {
            Ok(length) => {
                rt.stdout().write_all(&record[..length])?;
                return Ok(());
            }
            Err(Short::Words(count)) => {
                words = Vec::new(heap);
                words = vec![in heap; 0; count]?;
                record = likely_record(heap, kind, table, frames, &mut words)?;
            }
            Err(Short::Bytes(count)) => {
                record = Vec::new(heap);
                record = vec![in heap; 0; count]?;
            }
        }
    }
    Err(anyhow!("too little memory for the record"))
}

// The arguments are the kind of weights, the table's file and the frames' file.
fn run(rt: &HostRuntime) -> anyhow::Result<()> {
    let mut args = env::args(rt)?;
    args.next();
    let (Some(kind), Some(table), Some(frames)) = (args.next(), args.next(), args.next()) else {
        return Err(anyhow!("usage: replay KIND TABLE FRAMES"));
    };
    let kind = kind.as_str().parse::<Kind>()?;
    let table = fs::read(rt, table.as_str())?;
    let frames = fs::read(rt, frames.as_str())?;
    print(rt, kind, &table, &frames)
}

fn main(rt: HostRuntime) -> anyhow::Result<()> {
    run(&rt)
}
