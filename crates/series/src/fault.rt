// Why no series was performed.
ghost use Rattle.std.specs.Prelude.{◌≡◌};
ghost use Rattle.series.specs.declared.fault.SeriesFault.TheVariants.{Memory};

use faults::StoreFault;

#[derive(Clone, Copy, Debug, PartialEq, Eq)]
pub enum SeriesFault {
    // The memories of the bench are refused.
    Memory(StoreFault),
    // There is memory for fewer answers than these.
    Answers(usize),
    // There is memory for fewer words of forwarded frames than these.
    Written(usize),
    // There is memory for fewer words of the table in force than these.
    InForce(usize),
}

impl From<StoreFault> for SeriesFault {
    ghost from_gives = { λ e r. r ≡ Memory e };

    fn from(fault: StoreFault) -> SeriesFault {
        SeriesFault::Memory(fault)
    }
}
