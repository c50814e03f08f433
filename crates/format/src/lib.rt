// The 32-bit words of which policies, frames and tables are made, and the fields that they name.
#![tactic(auto)]

ghost use Rattle.std.specs.Prelude.{◌≡◌, ◌<◌, ◌≤◌, IfSome, IfNone};
ghost use Rattle.format.specs.Fields.{fields, field_name, range, LegalValue};
ghost use Rattle.format.specs.Words.{value_end, kind_of, field_of, value_of};
ghost use Rattle.format.specs.PolicyWords.{bits_of, Decodes};

mod kinds;
mod settings;

pub use kinds::{NoPolicyKind, PolicyKind};
pub use settings::{Amount, NoPolicyWord, PolicyWord, Setting};

// How many fields a frame has.
pub const FIELDS: u32 = 8;
// A text has at most this many bytes.
pub const TEXT_LIMIT: usize = 16_384;
// A policy has at most this many words.
pub const WORDS_LIMIT: usize = 4_096;
// At most this many `(` and `!` are unfinished at once.
pub const NESTING_LIMIT: usize = 64;
// At most this many operands wait for their operator at once.
pub const WAITING_LIMIT: usize = 256;
// A cost number is at most this.
pub const COST_LIMIT: u32 = 65_535;
// A word's value is below this.
pub const VALUE_END: u32 = 0x100_0000;

// A word of kind 1, field 0 and value 0.
pub const KIND_UNIT: u32 = 0x1000_0000;

// A word of kind 0, field 1 and value 0.
pub const FIELD_UNIT: u32 = VALUE_END;

// A word by its parts. All are numbers, since any 32 bits are a word; the kinds of policies, tables and diagrams are an enum each.
// The parts have no bounds, so there is no way back: policy words, words of a table, frames and diagrams make their own bits.
#[derive(Clone, Copy, Debug, PartialEq, Eq, PartialOrd, Ord, Hash)]
pub struct Word {
    pub kind: u32,
    pub field: u32,
    pub value: u32,
}

impl From<u32> for Word {
    ghost from_gives = { λ bits w. (w.kind ≡ kind_of bits) × (w.field ≡ field_of bits) × (w.value ≡ value_of bits) };

    fn from(bits: u32) -> Word {
        Word {
            kind: bits / KIND_UNIT,
            field: bits / FIELD_UNIT % 16,
            value: bits % FIELD_UNIT,
        }
    }
}

// How many values a field has.
fn range_of(_field: u32) -> u32
    ensures { result ≡ range _field }
{
    FIELD_UNIT
}

// What the fields are called in texts and records, field 0 first.
const FIELD_NAMES: [&str; 8] = ["sw", "pt", "vlan", "type", "srch", "srcl", "dsth", "dstl"];

// What a field is called; a number past the last field has the last name.
pub fn field_name(field: u32) -> &'static str
    ensures { result.now ≡ field_name field }
{
    FIELD_NAMES[field.min(FIELDS - 1) as usize]
}

// Both constructors answer as std's `NonZeroU32::new` does: `TryFrom` would be no plainer, since its error could say no more
// than `None`.
impl Setting {
    // A field and its value, or none where there is no such field or value.
    pub fn new(field: u32, value: u32) -> Option<Setting>
        ensures some { IfSome result (λ s. (s.field ≡ field) × (s.value ≡ value)) }
        ensures none { IfNone result (field < fields → LegalValue field value → ⊥) }
    {
        if field < FIELDS && value < range_of(field) {
            Some(Setting { field, value })
        } else {
            None
        }
    }
}

impl Amount {
    pub fn new(number: u32) -> Option<Amount>
        ensures some { IfSome result (λ a. a.number ≡ number) }
        ensures none { IfNone result (value_end ≤ number) }
    {
        if number < FIELD_UNIT {
            Some(Amount { number })
        } else {
            None
        }
    }
}

impl From<PolicyWord> for u32 {
    ghost from_gives = { λ word bits. bits ≡ bits_of word };

    fn from(word: PolicyWord) -> u32 {
        let (kind, field, value) = match word {
            PolicyWord::Drop => (PolicyKind::Drop, 0, 0),
            PolicyWord::Pass => (PolicyKind::Pass, 0, 0),
            PolicyWord::Test(s) => (PolicyKind::Test, s.field, s.value),
            PolicyWord::Set(s) => (PolicyKind::Set, s.field, s.value),
            PolicyWord::Cost(a) => (PolicyKind::Cost, 0, a.number),
            PolicyWord::Not => (PolicyKind::Not, 0, 0),
            PolicyWord::Union => (PolicyKind::Union, 0, 0),
            PolicyWord::Sequence => (PolicyKind::Sequence, 0, 0),
            PolicyWord::Star => (PolicyKind::Star, 0, 0),
        };
        u32::from(kind) * KIND_UNIT + field * FIELD_UNIT + value
    }
}

impl TryFrom<u32> for PolicyWord {
    type Error = NoPolicyWord;

    ghost try_from_gives = { Decodes };

    fn try_from(bits: u32) -> Result<PolicyWord, NoPolicyWord> {
        let Word { kind, field, value } = Word::from(bits);
        let none = NoPolicyWord(bits);
        let Ok(kind) = PolicyKind::try_from(kind) else {
            return Err(none);
        };
        match (kind, field, value) {
            (PolicyKind::Drop, 0, 0) => Ok(PolicyWord::Drop),
            (PolicyKind::Pass, 0, 0) => Ok(PolicyWord::Pass),
            (PolicyKind::Test, _, _) => Setting::new(field, value)
                .map(PolicyWord::Test)
                .ok_or(none),
            (PolicyKind::Set, _, _) => Setting::new(field, value).map(PolicyWord::Set).ok_or(none),
            (PolicyKind::Cost, 0, number) if number <= COST_LIMIT => {
                Ok(PolicyWord::Cost(Amount { number }))
            }
            (PolicyKind::Not, 0, 0) => Ok(PolicyWord::Not),
            (PolicyKind::Union, 0, 0) => Ok(PolicyWord::Union),
            (PolicyKind::Sequence, 0, 0) => Ok(PolicyWord::Sequence),
            (PolicyKind::Star, 0, 0) => Ok(PolicyWord::Star),
            _ => Err(none),
        }
    }
}
