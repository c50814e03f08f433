// Every refusal by its layer, and what a person is shown of it.
#![tactic(auto)]

ghost use Rattle.std.specs.Prelude.{◌≡◌};
ghost use Rattle.faults.specs.Lines.{refused_line};
ghost use Rattle.faults.specs.Shows.{shown, token_shown, grammar_shown, check_shown, compile_shown, bench_shown, store_shown, table_shown, frame_shown};

mod layers;
mod refusals;

use format::{FIELDS, TEXT_LIMIT, WORDS_LIMIT};
pub use layers::{
    BenchFault, CheckFault, CompileFault, FrameFault, GrammarFault, Memory, StoreFault, TableFault,
    TokenFault,
};
use numerals::Decimal;
use pages::{Page, Print};
pub use refusals::zeros_if_refused;

// What a person is shown of a refusal: its number, the layer that refused, and the place.
// Numbers and no enums, since a person looks these up in the list of refusals; the code tells refusals apart by the faults.
#[derive(Clone, Copy, Debug, PartialEq, Eq, Hash)]
pub struct Shown {
    pub number: u32,
    pub layer: u32,
    pub place: usize,
}

impl Shown {
    fn of(number: u32, layer: u32, place: usize) -> Shown
        ensures { result ≡ shown number layer place }
    {
        Shown {
            number,
            layer,
            place,
        }
    }
}

// The line by which a refusal is told.
impl Print for Shown {
    ghost output = { refused_line };

    fn print(&self, page: &mut Page<'_>) {
        page.push_str("refused ");
        Decimal(self.number as u64).print(page);
        page.push_str(" layer ");
        Decimal(self.layer as u64).print(page);
        page.push_str(" place ");
        Decimal(self.place as u64).print(page);
        page.push(b'\n')
    }
}

impl From<TokenFault> for Shown {
    ghost from_gives = { λ f s. s ≡ token_shown f };

    fn from(fault: TokenFault) -> Shown {
        let (number, place) = match fault {
            TokenFault::NoToken(place) => (1, place),
            TokenFault::BigNumber(place) => (2, place),
        };
        Shown::of(number, 1, place)
    }
}

impl From<GrammarFault> for Shown {
    ghost from_gives = { λ f s. s ≡ grammar_shown f };

    fn from(fault: GrammarFault) -> Shown {
        let (number, place) = match fault {
            GrammarFault::Token(fault) => return Shown::from(fault),
            GrammarFault::Unexpected(place) => (3, place),
            GrammarFault::TooDeep(place) => (4, place),
            GrammarFault::NoRoom(place) => (5, place),
            GrammarFault::LongText => (5, TEXT_LIMIT),
        };
        Shown::of(number, 2, place)
    }
}

impl From<CheckFault> for Shown {
    ghost from_gives = { λ f s. s ≡ check_shown f };

    fn from(fault: CheckFault) -> Shown {
        let (number, place) = match fault {
            CheckFault::LongPolicy => (5, WORDS_LIMIT),
            CheckFault::BadWord(place) => (6, place),
            CheckFault::BadOperands(place) => (7, place),
            CheckFault::NoPredicate(place) => (8, place),
            CheckFault::TooMany(place) => (4, place),
        };
        Shown::of(number, 3, place)
    }
}

impl From<CompileFault> for Shown {
    ghost from_gives = { λ f s. s ≡ compile_shown f };

    fn from(fault: CompileFault) -> Shown {
        match fault {
            CompileFault::Text(fault) => Shown::from(fault),
            CompileFault::Check(fault) => Shown::from(fault),
        }
    }
}

impl From<StoreFault> for Shown {
    ghost from_gives = { λ f s. s ≡ store_shown f };

    fn from(fault: StoreFault) -> Shown {
        let (number, place) = match fault {
            StoreFault::Full => (9, 0),
            StoreFault::NotHeld(place) => (10, place),
            StoreFault::BadMemory(memory) => (14, memory as usize),
        };
        Shown::of(number, 4, place)
    }
}

impl From<TableFault> for Shown {
    ghost from_gives = { λ f s. s ≡ table_shown f };

    fn from(fault: TableFault) -> Shown {
        let (number, place) = match fault {
            TableFault::Illegal(place) => (15, place),
            TableFault::Full => (11, 0),
        };
        Shown::of(number, 5, place)
    }
}

impl From<FrameFault> for Shown {
    ghost from_gives = { λ f s. s ≡ frame_shown f };

    fn from(fault: FrameFault) -> Shown {
        let (number, place) = match fault {
            FrameFault::Length => (12, FIELDS as usize),
            FrameFault::BadWord(place) => (12, place),
            FrameFault::NoRoom => (13, 0),
        };
        Shown::of(number, 6, place)
    }
}

impl From<BenchFault> for Shown {
    ghost from_gives = { λ f s. s ≡ bench_shown f };

    fn from(fault: BenchFault) -> Shown {
        match fault {
            BenchFault::Text(fault) => Shown::from(fault),
            BenchFault::Store(fault) => Shown::from(fault),
            BenchFault::Table(fault) => Shown::from(fault),
            BenchFault::Frame(fault) => Shown::from(fault),
        }
    }
}
