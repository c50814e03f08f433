// Calls on a bench, before they are made.
#![tactic(auto)]

// A word of a diagram.
#[derive(Clone, Copy, Debug, PartialEq, Eq)]
pub enum Operand {
    // This word.
    Word(u32),
    // The word that this call of the series answered, counted from 0.
    Answer(usize),
}

#[derive(Clone, Copy, Debug, PartialEq, Eq)]
pub enum Call<'a> {
    // A policy text.
    Compile(&'a [u8]),
    Union(Operand, Operand),
    Sequence(Operand, Operand),
    Star(Operand),
    Install(Operand),
    // A frame's words, and into how many words of memory it is forwarded.
    Forward(&'a [u32], usize),
}
