// The compiler to tables of costs, run on a text that is refused: what is negated is no predicate.
#![tactic(auto)]

use compiler::{ANSWER_BYTES, compile_text};
use format::TEXT_LIMIT;
use std::io;
use std::io::Read;
use weights::Cost;

fn main(rt: HostRuntime) -> io::Result<()> {
    let mut text = Vec::new(rt.alloc());
    // One byte over the limit is enough to notice a text that is too long.
    rt.stdin()
        .take(TEXT_LIMIT as u64 + 1)
        .read_to_end(&mut text)?;
    let mut answer = [0; ANSWER_BYTES];
    let size = compile_text::<Cost>(&text, &mut answer);
    rt.write_all(&answer[..size])
}
