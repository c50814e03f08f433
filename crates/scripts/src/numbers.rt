// Numbers in a script.
ghost use Rattle.std.specs.Prelude.{◌≡◌, ◌<◌, IfSome};
ghost use Rattle.std.specs.Result.{result_ok};
ghost use Rattle.tokens.specs.Lexing.{says};
ghost use Rattle.tokens.specs.Symbols.{symbol_named, number_of, judged};
ghost use Rattle.scripts.specs.Numbers.{field_in, number_said, hex_digit, word_said, operand_said};

use calls::Operand;
use tokens::{Placed, Symbol, Token};

// A word has so many hexadecimal digits.
const WORD_DIGITS: usize = 8;

// What a policy text means by this token.
fn symbol(token: Token<'_>) -> Option<Symbol>
    ensures { result ≡ result_ok (judged (says token.entry) 0) }
{
    Placed { token, place: 0 }.symbol().ok()
}

// The field with this name.
pub(crate) fn field(name: &[u8]) -> Option<u32>
    ensures { result ≡ field_in (symbol_named name.now) }
{
    match symbol(Token::Word(name)) {
        Some(Symbol::Field(field)) => Some(field),
        _ => None,
    }
}

// The number of these digits, if it is not too large.
fn decimal(digits: &[u8]) -> Option<u32>
    ensures { result ≡ number_of digits.now }
{
    match symbol(Token::Number(digits)) {
        Some(Symbol::Number(number)) => Some(number),
        _ => None,
    }
}

pub(crate) fn number(digits: &[u8]) -> Option<u32>
    ensures { result ≡ number_said digits.now }
{
    if digits.is_empty() || !digits.iter().all(|b| b.is_ascii_digit()) {
        return None;
    }
    decimal(digits)
}

fn hex_digit(byte: u8) -> Option<u8>
    ensures digit { result ≡ hex_digit byte }
    ensures below { IfSome result (λ d. d < 16) }
{
    match byte {
        b'0'..=b'9' => Some(byte - b'0'),
        b'A'..=b'F' => Some(byte - b'A' + 10),
        b'a'..=b'f' => Some(byte - b'a' + 10),
        _ => None,
    }
}

// The word of eight hexadecimal digits.
pub(crate) fn word(digits: &[u8]) -> Option<u32>
    ensures { result ≡ word_said digits.now }
{
    if digits.len() != WORD_DIGITS {
        return None;
    }
    let mut word: u32 = 0;
    for byte in digits {
        word = word * 16 + u32::from(hex_digit(*byte)?);
    }
    Some(word)
}

pub(crate) fn operand(said: &[u8]) -> Option<Operand>
    ensures { result ≡ operand_said said.now }
{
    match said {
        [b'$', digits @ ..] => {
            let call = number(digits)?;
            Some(Operand::Answer(call.checked_sub(1)? as usize))
        }
        _ => Some(Operand::Word(word(said)?)),
    }
}
