// What becomes of a text.
use faults::Shown;

#[derive(Clone, Copy, Debug, PartialEq, Eq)]
pub enum Outcome {
    Accepted,
    Refused(Shown),
    // Memory is not as it has to be: zeros after a refusal, and as it was behind the words.
    WrongMemory,
}

pub(super) fn shown(number: u32, layer: u32, place: usize) -> Shown {
    Shown {
        number,
        layer,
        place,
    }
}

pub(super) fn refused(number: u32, layer: u32, place: usize) -> Outcome {
    Outcome::Refused(shown(number, layer, place))
}
