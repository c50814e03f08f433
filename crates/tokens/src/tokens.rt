// What a policy text is made of.

#[derive(Clone, Copy, Debug, PartialEq, Eq, Hash)]
pub enum Mark {
    Plus,
    Semicolon,
    Star,
    Not,
    Open,
    Close,
    Equals,
    Assign,
}

// A piece of the text: words and numbers are parts of it.
#[derive(Clone, Copy, Debug, PartialEq, Eq, Hash)]
pub enum Token<'a> {
    Word(&'a [u8]),
    Number(&'a [u8]),
    Mark(Mark),
}

// A token and the place of its first byte.
#[derive(Clone, Copy, Debug, PartialEq, Eq, Hash)]
pub struct Placed<'a> {
    pub token: Token<'a>,
    pub place: usize,
}

// A token by what it stands for. A field is its number, as in a setting.
#[derive(Clone, Copy, Debug, PartialEq, Eq, Hash)]
pub enum Symbol {
    Field(u32),
    Number(u32),
    Drop,
    Pass,
    Cost,
    Mark(Mark),
}

// Bytes that stand together: blanks between tokens, letters in a word, digits in a number.
#[derive(Clone, Copy, Debug, PartialEq, Eq, Hash)]
pub enum Class {
    Blank,
    Letter,
    Digit,
}
