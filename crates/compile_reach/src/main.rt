// The compiler to tables of reachability: a policy text on standard input, its table or its refusal on standard output.
#![tactic(auto)]

use compiler::{ANSWER_BYTES, compile_text};
use format::TEXT_LIMIT;
use std::io;
use std::io::Read;
use weights::Reach;

fn main(rt: HostRuntime) -> io::Result<()> {
    let mut text = Vec::new(rt.alloc());
    // One byte over the limit is enough to notice a text that is too long.
    rt.stdin()
        .take(TEXT_LIMIT as u64 + 1)
        .read_to_end(&mut text)?;
    let mut answer = [0; ANSWER_BYTES];
    let size = compile_text::<Reach>(&text, &mut answer);
    rt.write_all(&answer[..size])
}
