// Whole scripts.
ghost use Rattle.std.specs.Prelude.{◌≡◌, ℕ, ◌≤◌, List, ◌++◌, length, map, min, take, Some, None, Ok, Err, MatchOption, MatchResult, IsSomeAnd};
ghost use Rattle.scripts.specs.Heard.{Holds, asked_in, CallsRead};
ghost use Rattle.scripts.specs.Lines.{Asked, asked, Meaning, nothing, call, line_said};
ghost use Rattle.scripts.specs.Scripts.{frame_of, frames_of, script_said};

use super::cuts::cut;
use super::forwards::write_frame;
use super::lines::{Line, read_line};
use super::needs::{Needs, NoCall};
use calls::Call;

// One line more, with the words of its frame behind those of the lines before.
fn take_line(line: &[u8], frames: &mut [u32], needs: Needs) -> Option<Needs>
    ensures { (cs : List Asked) → Holds cs needs frames.old → MatchOption result (line_said line.now ≡ None) (λ more. (m : Meaning) × (line_said line.now ≡ Some m) × Holds (cs ++ asked_in m) more frames.new) }
{
    match read_line(line)? {
        Line::Nothing => Some(needs),
        Line::Call(_) => Some(Needs {
            calls: needs.calls.saturating_add(1),
            words: needs.words,
            room: needs.room,
        }),
        Line::Forward(text, room) => {
            let start = needs.words.min(frames.len());
            let count = write_frame(text, &mut frames[start..])?;
            Some(Needs {
                calls: needs.calls.saturating_add(1),
                words: needs.words.saturating_add(count),
                room: needs.room.saturating_add(room),
            })
        }
    }
}

// What a script needs, and the words of its frames one after another if all fit; or its first line that is no call.
pub fn write_frames(script: &[u8], frames: &mut [u32]) -> Result<Needs, NoCall>
    ensures { MatchResult result (λ needs. (cs : List Asked) × (script_said script.now ≡ Ok cs) × Holds cs needs frames.new) (λ e. script_said script.now ≡ Err e.0) }
{
    let mut needs = Needs {
        calls: 0,
        words: 0,
        room: 0,
    };
    let mut number: usize = 1;
    let mut rest = Some(script);
    while let Some(text) = rest {
        let (line, behind) = cut(text, b'\n');
        needs = take_line(line, frames, needs).ok_or(NoCall(number))?;
        number += 1;
        rest = behind;
    }
    Ok(needs)
}

// The call of a line, whose frame's words come first in these; and the words behind them.
fn take_call<'a>(line: &'a [u8], frames: &'a [u32]) -> Option<(Call<'a>, &'a [u32])>
    ensures call { (c : Asked) (more : List ℕ) → line_said line.now ≡ Some (call c) → frames.now ≡ frame_of c ++ more → IsSomeAnd result (λ r. (asked r.0 ≡ c) × (r.1.now ≡ more)) }
    ensures nothing { line_said line.now ≡ Some nothing → result ≡ None }
{
    match read_line(line)? {
        Line::Nothing => None,
        Line::Call(call) => Some((call, frames)),
        Line::Forward(text, room) => {
            let count = write_frame(text, &mut [])?;
            let (frame, others) = frames.split_at_checked(count)?;
            Some((Call::Forward(frame, room), others))
        }
    }
}

// The calls of a script whose frames' words come first in these, and how many there are. As many as fit are kept.
pub fn read_calls<'a>(script: &'a [u8], frames: &'a [u32], calls: &mut [Call<'a>]) -> usize
    ensures { (cs : List Asked) (more : List ℕ) → script_said script.now ≡ Ok cs → frames.now ≡ frames_of cs ++ more → CallsRead cs result calls.new }
{
    let mut count: usize = 0;
    let mut unread = frames;
    let mut rest = Some(script);
    while let Some(text) = rest {
        let (line, behind) = cut(text, b'\n');
        if let Some((call, others)) = take_call(line, unread) {
            if count < calls.len() {
                calls[count] = call;
            }
            count = count.saturating_add(1);
            unread = others;
        }
        rest = behind;
    }
    count
}
