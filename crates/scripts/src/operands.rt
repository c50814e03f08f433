// The operands of a call.
ghost use Rattle.std.specs.Prelude.{◌≡◌};
ghost use Rattle.scripts.specs.Lines.{one_said, two_said};
ghost use Rattle.scripts.specs.Words.{words};

use super::numbers::operand;
use super::words::first_word;
use calls::Operand;

// The one operand that a text names.
pub(crate) fn one(text: &[u8]) -> Option<Operand>
    ensures { result ≡ one_said (words text.now) }
{
    let (said, behind) = first_word(text)?;
    if first_word(behind).is_some() {
        return None;
    }
    operand(said)
}

// The two operands that a text names.
pub(crate) fn two(text: &[u8]) -> Option<(Operand, Operand)>
    ensures { result ≡ two_said (words text.now) }
{
    let (said, behind) = first_word(text)?;
    let first = operand(said)?;
    Some((first, one(behind)?))
}
