// Answers as values.
ghost use Rattle.std.specs.Prelude.{◌≡◌};
ghost use Rattle.series.specs.Calls.{named, part_length};

use calls::{Call, Operand};
use faults::BenchFault;

#[derive(Clone, Copy, Debug, PartialEq, Eq)]
pub enum Answer {
    // The word of a diagram.
    Word(u32),
    // How many words the table has that was put in force.
    Installed(usize),
    // How many words were written.
    Written(usize),
    Refused(BenchFault),
}

// No diagram has this word.
const NO_WORD: u32 = u32::MAX;

// The word that the operand names after these answers.
pub(crate) fn word_of(operand: Operand, answers: &[Answer]) -> u32
    ensures { result ≡ named answers.now operand }
{
    match operand {
        Operand::Word(word) => word,
        Operand::Answer(place) => match answers.get(place) {
            Some(Answer::Word(word)) => *word,
            _ => NO_WORD,
        },
    }
}

// How many words of memory the call is given for its answer.
pub fn part_len(call: &Call<'_>) -> usize
    ensures { result ≡ part_length call.now }
{
    match call {
        Call::Forward(_, len) => *len,
        _ => 0,
    }
}
