// The lines of a script.
ghost use Rattle.std.specs.Prelude.{◌≡◌, option_map, IfSome};
ghost use Rattle.std.specs.Option.{option_and_then};
ghost use Rattle.scripts.specs.Heard.{heard, Frameless};
ghost use Rattle.scripts.specs.Lines.{call, call_said, forward_said, line_said};
ghost use Rattle.scripts.specs.Words.{words, unblanked};

use super::numbers::number;
use super::operands::{one, two};
use super::verbs::{Verb, is};
use super::words::{first_word, unblanked};
use calls::Call;

// So many words of memory a forward has by default: nine for each of 256 emitted frames.
const DEFAULT_ROOM: usize = 2_304;

// What a line says. The frame of a forward is still its text, which may turn out to be none.
#[derive(Clone, Copy)]
pub(crate) enum Line<'a> {
    // An empty line or a remark.
    Nothing,
    Call(Call<'a>),
    Forward(&'a [u8], usize),
}

fn forward(text: &[u8]) -> Option<Line<'_>>
    ensures says { option_and_then heard result ≡ option_map call (forward_said (words text.now)) }
    ensures frameless { IfSome result Frameless }
{
    let Some((first, behind)) = first_word(text) else {
        return Some(Line::Forward(text, DEFAULT_ROOM));
    };
    if !is(first, "into") {
        return Some(Line::Forward(text, DEFAULT_ROOM));
    }
    let (room, frame) = first_word(behind)?;
    Some(Line::Forward(frame, number(room)? as usize))
}

fn line_of(verb: Verb, text: &[u8]) -> Option<Line<'_>>
    ensures says { option_and_then heard result ≡ option_map call (call_said (words text.now) (unblanked text.now) verb) }
    ensures frameless { IfSome result Frameless }
{
    match verb {
        Verb::Compile => Some(Line::Call(Call::Compile(unblanked(text)))),
        Verb::Union => {
            let (left, right) = two(text)?;
            Some(Line::Call(Call::Union(left, right)))
        }
        Verb::Sequence => {
            let (left, right) = two(text)?;
            Some(Line::Call(Call::Sequence(left, right)))
        }
        Verb::Star => Some(Line::Call(Call::Star(one(text)?))),
        Verb::Install => Some(Line::Call(Call::Install(one(text)?))),
        Verb::Forward => forward(text),
    }
}

pub(crate) fn read_line(line: &[u8]) -> Option<Line<'_>>
    ensures says { option_and_then heard result ≡ line_said line.now }
    ensures frameless { IfSome result Frameless }
{
    let Some((first, behind)) = first_word(line) else {
        return Some(Line::Nothing);
    };
    if first[0] == b'#' {
        return Some(Line::Nothing);
    }
    line_of(Verb::named(first)?, behind)
}
