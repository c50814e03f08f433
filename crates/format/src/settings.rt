// Fields with their values, and the words of a policy.
ghost use Rattle.std.specs.Prelude.{◌<◌};
ghost use Rattle.format.specs.Fields.{fields, LegalValue};
ghost use Rattle.format.specs.Words.{value_end};

// A field and a legal value of it. A field is its number and no enum, since a frame and an action are lists that it indexes.
#[derive(Clone, Copy, Debug, PartialEq, Eq, PartialOrd, Ord, Hash)]
pub struct Setting {
    pub field: u32,
    pub value: u32,
    ghost exists: { field < fields },
    ghost legal: { LegalValue field value },
}

// A number of 24 bits.
#[derive(Clone, Copy, Debug, PartialEq, Eq, PartialOrd, Ord, Hash)]
pub struct Amount {
    pub number: u32,
    ghost fits: { number < value_end },
}

#[derive(Clone, Copy, Debug, PartialEq, Eq, PartialOrd, Ord, Hash)]
pub enum PolicyWord {
    Drop,
    Pass,
    Test(Setting),
    Set(Setting),
    Cost(Amount),
    Not,
    Union,
    Sequence,
    Star,
}

// Bits that no legal policy word has.
#[derive(Clone, Copy, Debug, PartialEq, Eq, Hash)]
pub struct NoPolicyWord(pub u32);
