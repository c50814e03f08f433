// What a token stands for.
ghost use Rattle.std.specs.Prelude.{◌≡◌};
ghost use Rattle.tokens.specs.Lexing.{says};
ghost use Rattle.tokens.specs.Symbols.{field_named, symbol_named, number_of, judged};

use super::tokens::{Placed, Symbol, Token};
use faults::TokenFault;
use format::{FIELDS, VALUE_END, field_name};

// A number has at most this many digits.
const DIGITS_LIMIT: usize = 8;

fn field_of(word: &[u8]) -> Option<u32>
    ensures { result ≡ field_named word.now }
{
    (0..FIELDS).find(|field| word == field_name(*field).as_bytes())
}

fn word_symbol(word: &[u8]) -> Option<Symbol>
    ensures { result ≡ symbol_named word.now }
{
    match word {
        b"drop" => Some(Symbol::Drop),
        b"pass" => Some(Symbol::Pass),
        b"cost" => Some(Symbol::Cost),
        _ => field_of(word).map(Symbol::Field),
    }
}

// The number that digits write, or none where they are too many or the number is too large. The definition is of any bytes, of
// which `str::parse` would refuse some.
fn number(digits: &[u8]) -> Option<u32>
    ensures { result ≡ number_of digits.now }
{
    if digits.len() > DIGITS_LIMIT {
        return None;
    }
    let mut value: u32 = 0;
    for d in digits {
        value = value * 10 + u32::from(d.saturating_sub(b'0'));
        if value >= VALUE_END {
            return None;
        }
    }
    Some(value)
}

impl Placed<'_> {
    // What the token stands for. As a `TryFrom` it would read `Symbol::try_from(placed)?`, no plainer than `placed.symbol()?`.
    pub fn symbol(self) -> Result<Symbol, TokenFault>
        ensures { result ≡ judged (says self.entry.token) self.entry.place }
    {
        match self.token {
            Token::Word(word) => word_symbol(word).ok_or(TokenFault::NoToken(self.place)),
            Token::Number(digits) => number(digits)
                .map(Symbol::Number)
                .ok_or(TokenFault::BigNumber(self.place)),
            Token::Mark(mark) => Ok(Symbol::Mark(mark)),
        }
    }
}
