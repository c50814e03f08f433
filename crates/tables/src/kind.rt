// The kinds of a table's words.
ghost use Rattle.std.specs.Prelude.{◌≡◌, ◌==◌};
ghost use Rattle.format.specs.Words.{kind_of};
ghost use Rattle.tables.specs.Kinds.{number_of, IsKind};

use format::Word;

#[derive(Clone, Copy, Debug, PartialEq, Eq)]
pub enum TableKind {
    Head = 10,
    Match = 11,
    Weight = 12,
    Set = 13,
    End = 14,
}

// A number that is no kind's.
#[derive(Clone, Copy, Debug, PartialEq, Eq)]
pub struct NoTableKind(pub u32);

impl TryFrom<u32> for TableKind {
    type Error = NoTableKind;

    ghost try_from_gives = { IsKind };

    fn try_from(number: u32) -> Result<Self, NoTableKind> {
        match number {
            10 => Ok(TableKind::Head),
            11 => Ok(TableKind::Match),
            12 => Ok(TableKind::Weight),
            13 => Ok(TableKind::Set),
            14 => Ok(TableKind::End),
            _ => Err(NoTableKind(number)),
        }
    }
}

impl From<TableKind> for u32 {
    ghost from_gives = { λ kind n. n ≡ number_of kind };

    fn from(kind: TableKind) -> u32 {
        kind as u32
    }
}

impl TableKind {
    // Whether a word is of this kind.
    pub(crate) fn marks(self, bits: u32) -> bool
        ensures { result ≡ (kind_of bits == number_of self) }
    {
        Word::from(bits).kind == u32::from(self)
    }
}
