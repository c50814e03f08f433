// The kinds of a policy's words.
ghost use Rattle.std.specs.Prelude.{◌≡◌};
ghost use Rattle.format.specs.PolicyKinds.{number_of, IsKind};

#[derive(Clone, Copy, Debug, PartialEq, Eq, PartialOrd, Ord, Hash)]
pub enum PolicyKind {
    Drop,
    Pass,
    Test,
    Set,
    Cost,
    Not,
    Union,
    Sequence,
    Star,
}

// A number that is no kind's.
#[derive(Clone, Copy, Debug, PartialEq, Eq, Hash)]
pub struct NoPolicyKind(pub u32);

impl TryFrom<u32> for PolicyKind {
    type Error = NoPolicyKind;

    ghost try_from_gives = { IsKind };

    fn try_from(number: u32) -> Result<PolicyKind, NoPolicyKind> {
        match number {
            0 => Ok(PolicyKind::Drop),
            1 => Ok(PolicyKind::Pass),
            2 => Ok(PolicyKind::Test),
            3 => Ok(PolicyKind::Set),
            4 => Ok(PolicyKind::Cost),
            5 => Ok(PolicyKind::Not),
            6 => Ok(PolicyKind::Union),
            7 => Ok(PolicyKind::Sequence),
            8 => Ok(PolicyKind::Star),
            _ => Err(NoPolicyKind(number)),
        }
    }
}

impl From<PolicyKind> for u32 {
    ghost from_gives = { λ kind n. n ≡ number_of kind };

    fn from(kind: PolicyKind) -> u32 {
        kind as u32
    }
}
