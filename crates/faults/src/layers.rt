// The refusals of each layer. A layer's fault holds the fault of the layer below whole.
ghost use Rattle.std.specs.Prelude.{◌≡◌};
ghost use Rattle.faults.specs.declared.layers.GrammarFault.TheVariants.{Token};
ghost use Rattle.faults.specs.declared.layers.CompileFault.TheVariants.{Text, Check};
ghost use Rattle.faults.specs.declared.layers.BenchFault.TheVariants.{Text as BenchText, Store, Table, Frame};

// Why a text has no token at a byte. The number is the place of the token's first byte.
#[derive(Clone, Copy, Debug, PartialEq, Eq, Hash)]
pub enum TokenFault {
    // No token starts here, or the word is unknown.
    NoToken(usize),
    // A number of over eight digits, or too large.
    BigNumber(usize),
}

// Why a text is no policy. The number is the place of a token's first byte, or the text's length at its end.
#[derive(Clone, Copy, Debug, PartialEq, Eq, Hash)]
pub enum GrammarFault {
    Token(TokenFault),
    // No policy text begins so.
    Unexpected(usize),
    // Too many `(` and `!` are not yet finished.
    TooDeep(usize),
    // The words needed pass the memory or the limit.
    NoRoom(usize),
    // The text itself is too long.
    LongText,
}

// Why words are no legal policy. The number is the place of a word, or their count at their end.
#[derive(Clone, Copy, Debug, PartialEq, Eq, Hash)]
pub enum CheckFault {
    // The policy has too many words.
    LongPolicy,
    // No policy has such a word.
    BadWord(usize),
    // An operator lacks operands, or not one policy is left at the end.
    BadOperands(usize),
    // What is negated is no predicate.
    NoPredicate(usize),
    // Too many operands wait for their operator.
    TooMany(usize),
}

// The memories that a bench is lent, by their numbers.
#[derive(Clone, Copy, Debug, PartialEq, Eq, PartialOrd, Ord, Hash)]
pub enum Memory {
    Actions = 1,
    Cells,
    Nodes,
    Table,
}

// Why the stores refuse.
#[derive(Clone, Copy, Debug, PartialEq, Eq, Hash)]
pub enum StoreFault {
    // The records held and requested pass a store's size.
    Full,
    // The operand at this place is no word of a diagram in the stores.
    NotHeld(usize),
    // This memory has a size outside its range.
    BadMemory(Memory),
}

// Why a policy text cannot be used: the fault of whichever layer refused it.
#[derive(Clone, Copy, Debug, PartialEq, Eq, Hash)]
pub enum CompileFault {
    Text(GrammarFault),
    Check(CheckFault),
}

// Why words are no legal table, or a table is not put in force.
#[derive(Clone, Copy, Debug, PartialEq, Eq, Hash)]
pub enum TableFault {
    // No legal table begins with the words up to this one, or they end here too early.
    Illegal(usize),
    // The table is longer than its memory.
    Full,
}

// Why a frame cannot be forwarded.
#[derive(Clone, Copy, Debug, PartialEq, Eq, Hash)]
pub enum FrameFault {
    // The frame has not one word for each field.
    Length,
    // The word at this place is not its field's.
    BadWord(usize),
    // The emitted frames do not fit the memory.
    NoRoom,
}

// Why a call is refused, or the text that it would compile: the fault of whichever layer refused it.
#[derive(Clone, Copy, Debug, PartialEq, Eq, Hash)]
pub enum BenchFault {
    Text(CompileFault),
    Store(StoreFault),
    Table(TableFault),
    Frame(FrameFault),
}

// By a rule of the project a fault goes up by `From` and `?`, so each step has its own impl.
impl From<TokenFault> for GrammarFault {
    ghost from_gives = { λ e r. r ≡ Token e };

    fn from(fault: TokenFault) -> GrammarFault {
        GrammarFault::Token(fault)
    }
}

impl From<GrammarFault> for CompileFault {
    ghost from_gives = { λ e r. r ≡ Text e };

    fn from(fault: GrammarFault) -> CompileFault {
        CompileFault::Text(fault)
    }
}

impl From<CheckFault> for CompileFault {
    ghost from_gives = { λ e r. r ≡ Check e };

    fn from(fault: CheckFault) -> CompileFault {
        CompileFault::Check(fault)
    }
}

impl From<CompileFault> for BenchFault {
    ghost from_gives = { λ e r. r ≡ BenchText e };

    fn from(fault: CompileFault) -> BenchFault {
        BenchFault::Text(fault)
    }
}

impl From<StoreFault> for BenchFault {
    ghost from_gives = { λ e r. r ≡ Store e };

    fn from(fault: StoreFault) -> BenchFault {
        BenchFault::Store(fault)
    }
}

impl From<TableFault> for BenchFault {
    ghost from_gives = { λ e r. r ≡ Table e };

    fn from(fault: TableFault) -> BenchFault {
        BenchFault::Table(fault)
    }
}

impl From<FrameFault> for BenchFault {
    ghost from_gives = { λ e r. r ≡ Frame e };

    fn from(fault: FrameFault) -> BenchFault {
        BenchFault::Frame(fault)
    }
}
