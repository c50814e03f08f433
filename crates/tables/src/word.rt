// A word of a table.
ghost use Rattle.std.specs.Prelude.{◌≡◌, ◌<◌};
ghost use Rattle.format.specs.Words.{word as bits_of, value_end};
ghost use Rattle.tables.specs.Kinds.{number_of};

use super::kind::{NoTableKind, TableKind};
use format::{FIELD_UNIT, KIND_UNIT, Word};

#[derive(Clone, Copy, Debug, PartialEq, Eq)]
pub struct TableWord {
    pub kind: TableKind,
    pub field: u32,
    pub value: u32,
    ghost field_fits: { field < 16 },
    ghost value_fits: { value < value_end },
}

impl TryFrom<u32> for TableWord {
    ghost use Rattle.tables.specs.TableWords.{IsWord};

    type Error = NoTableKind;

    ghost try_from_gives = { IsWord };

    fn try_from(bits: u32) -> Result<Self, NoTableKind> {
        let Word { kind, field, value } = Word::from(bits);
        let kind = TableKind::try_from(kind)?;
        Ok(TableWord { kind, field, value })
    }
}

impl From<TableWord> for u32 {
    ghost from_gives = { λ w bits. bits ≡ bits_of (number_of w.kind) w.field w.value };

    fn from(word: TableWord) -> u32 {
        u32::from(word.kind) * KIND_UNIT + word.field * FIELD_UNIT + word.value
    }
}
