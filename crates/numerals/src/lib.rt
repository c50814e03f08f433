// Numbers as text, for the records that people read.
#![tactic(auto)]

ghost use Rattle.std.specs.Prelude.{◌≡◌, ◌%◌, decimal};
ghost use Rattle.numerals.specs.Numerals.{hex_digit, hex_word};

use pages::{Page, Print};

// A number in decimal digits, without leading zeros.
#[derive(Clone, Copy, Debug, PartialEq, Eq, PartialOrd, Ord, Hash)]
pub struct Decimal(pub u64);

impl Print for Decimal {
    ghost output = { λ n. decimal n.0 };

    fn print(&self, page: &mut Page<'_>) {
        if self.0 >= 10 {
            Decimal(self.0 / 10).print(page);
        }
        page.push(b'0' + (self.0 % 10) as u8)
    }
}

// A word in eight hexadecimal digits.
#[derive(Clone, Copy, Debug, PartialEq, Eq, PartialOrd, Ord, Hash)]
pub struct Hex(pub u32);

// The last hexadecimal digit of a number.
fn last_digit(n: u32) -> u8
    ensures { result ≡ hex_digit (n % 16) }
{
    let digit = (n % 16) as u8;
    if digit < 10 {
        b'0' + digit
    } else {
        b'A' + (digit - 10)
    }
}

impl Print for Hex {
    ghost output = { λ word. hex_word word.0 };

    fn print(&self, page: &mut Page<'_>) {
        let word = self.0;
        page.push_bytes(&[
            last_digit(word >> 28),
            last_digit(word >> 24),
            last_digit(word >> 20),
            last_digit(word >> 16),
            last_digit(word >> 12),
            last_digit(word >> 8),
            last_digit(word >> 4),
            last_digit(word),
        ])
    }
}
