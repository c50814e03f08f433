// The lexer: the tokens of a text one by one, each a part of the text with its place.
ghost use Rattle.std.specs.Prelude.{◌≡◌, ◌<◌, ◌≤◌, length, None, MatchOption};
ghost use Rattle.std.specs.List.{prefix_len};
ghost use Rattle.tokens.specs.Lexing.{belongs_to, mark_of, says, front, Starts, Next};

use super::tokens::{Class, Mark, Placed, Token};
use faults::TokenFault;

// Goes through a text from its start. It keeps the whole text and where it is, since places count from the start.
#[derive(Drop)]
pub struct Lexer<'a> {
    text: &'a [u8],
    at: usize,
    ghost inside: { at ≤ length text.now },
}

impl Class {
    fn has(self, b: u8) -> bool
        ensures { result ≡ belongs_to self b }
    {
        match self {
            Class::Blank => matches!(b, b'\t' | b'\n' | b'\r' | b' '),
            Class::Letter => b.is_ascii_alphabetic(),
            Class::Digit => b.is_ascii_digit(),
        }
    }

    // How many bytes of the class come first.
    fn run_len(self, bytes: &[u8]) -> usize
        ensures run { result ≡ prefix_len (belongs_to self) bytes.now }
        ensures most { result ≤ length bytes.now }
    {
        bytes.iter().take_while(|b| self.has(**b)).count()
    }
}

// The mark of one byte. A `TryFrom` would be no plainer: its error could say no more than `None`.
fn single_mark(b: u8) -> Option<Mark>
    ensures { result ≡ mark_of b }
{
    match b {
        b'+' => Some(Mark::Plus),
        b';' => Some(Mark::Semicolon),
        b'*' => Some(Mark::Star),
        b'!' => Some(Mark::Not),
        b'(' => Some(Mark::Open),
        b')' => Some(Mark::Close),
        b'=' => Some(Mark::Equals),
        _ => None,
    }
}

// The token with which bytes begin, and how many bytes it has.
fn front(bytes: &[u8]) -> Option<(Token<'_>, usize)>
    ensures { MatchOption result (front bytes.now ≡ None) (λ t. Starts bytes.now (says t.0) t.1 × (0 < t.1) × (t.1 ≤ length bytes.now)) }
{
    match bytes {
        [b, ..] if Class::Letter.has(*b) => {
            let size = Class::Letter.run_len(bytes);
            Some((Token::Word(&bytes[..size]), size))
        }
        [b, ..] if Class::Digit.has(*b) => {
            let size = Class::Digit.run_len(bytes);
            Some((Token::Number(&bytes[..size]), size))
        }
        [b':', b'=', ..] => Some((Token::Mark(Mark::Assign), 2)),
        [b, ..] => Some((Token::Mark(single_mark(*b)?), 1)),
        [] => None,
    }
}

impl<'a> Lexer<'a> {
    pub fn new(text: &'a [u8]) -> Lexer<'a>
        ensures text { result.text.now ≡ text.now }
        ensures start { result.at ≡ 0 }
    {
        Lexer { text, at: 0 }
    }

    // The next token, or none at the text's end. An `impl Iterator` is no plainer: a lexer that refuses a token refuses it
    // again at each call, so it has no end, a `for` may not run over it, and `next()?` would read `next().transpose()?`.
    pub fn next(&mut self) -> Result<Option<Placed<'a>>, TokenFault>
        ensures text { self.new.text.now ≡ self.old.text.now }
        ensures next { Next self.old.text.now self.old.at result self.new.at }
    {
        let place = self.at + Class::Blank.run_len(&self.text[self.at..]);
        self.at = place;
        let rest = &self.text[place..];
        if rest.is_empty() {
            return Ok(None);
        }
        let (token, size) = front(rest).ok_or(TokenFault::NoToken(place))?;
        self.at += size;
        Ok(Some(Placed { token, place }))
    }
}
