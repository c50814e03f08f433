// Policy text to a checked policy.
ghost use Rattle.policy.specs.Texts.{Checks, Judged};

use crate::reader::read;
use checking::{CheckedPolicy, check};
use faults::{CompileFault, zeros_if_refused};

fn read_then_check(text: &[u8], memory: &mut [u32]) -> Result<CheckedPolicy, CompileFault>
    ensures { Checks text.now result memory.old memory.new }
{
    let count = read(text, memory)?;
    Ok(check(&memory[..count])?)
}

// The policy of a text, whose words are then in memory; or why it has none. As for `read`, no trait of conversion takes the memory.
pub fn read_policy(text: &[u8], memory: &mut [u32]) -> Result<CheckedPolicy, CompileFault>
    ensures { Judged text.now result memory.old memory.new }
{
    let answer = read_then_check(text, memory);
    zeros_if_refused(answer, memory)
}
