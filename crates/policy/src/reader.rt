// Policy text to policy words.
ghost use Rattle.policy.specs.Reading.{Read, OnlyAnswer, Scanned};

use faults::{GrammarFault, zeros_if_refused};
use format::TEXT_LIMIT;
use grammar::parse;

fn scan(text: &[u8], out: &mut [u32]) -> Result<usize, GrammarFault>
    ensures { Scanned text.now result out.old out.new }
{
    if text.len() > TEXT_LIMIT {
        return Err(GrammarFault::LongText);
    }
    parse(text, out)
}

// The number of words of a policy text's policy, which are written into `out`; or why it has none. No half-written policy stays.
// No trait of conversion takes the memory that a caller lends, and the count says how much of it is the policy. A struct of text and
// memory would be no plainer: a caller has the two apart.
pub fn read(text: &[u8], out: &mut [u32]) -> Result<usize, GrammarFault>
    ensures answer { Read text.now result out.old out.new }
    ensures only { OnlyAnswer text.now result out.old out.new }
{
    let answer = scan(text, out);
    zeros_if_refused(answer, out)
}
