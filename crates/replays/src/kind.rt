// The kinds of weights by their names.
ghost use Rattle.std.specs.Prelude.{◌≡◌, ◌≢◌, Some, MatchResult, codes};
ghost use Rattle.replays.specs.declared.kind.Kind.{Kind};
ghost use Rattle.replays.specs.Kinds.{kind_name};

use std::error::Error;
use std::fmt;
use std::str::FromStr;

// The kinds of weights that a table can have.
#[derive(Clone, Copy, Debug, PartialEq, Eq)]
pub enum Kind {
    Reach,
    Cost,
}

// Why a text is no kind: it names none.
#[derive(Clone, Copy, Debug, PartialEq, Eq)]
pub struct UnknownKind;

impl fmt::Display for UnknownKind {
    ghost output = { λ _. Some (codes "the kind is reach or cost") };

    fn fmt<W: fmt::Write>(&self, f: &mut fmt::Formatter<W>) -> fmt::Result {
        write!(f, "the kind is reach or cost")
    }
}

impl Error for UnknownKind {}

impl FromStr for Kind {
    type Err = UnknownKind;

    ghost from_str_gives = { λ text r. MatchResult r (λ kind. text ≡ kind_name kind) (λ _. (kind : Kind) → text ≢ kind_name kind) };

    fn from_str(text: &str) -> Result<Kind, UnknownKind> {
        match text {
            "reach" => Ok(Kind::Reach),
            "cost" => Ok(Kind::Cost),
            _ => Err(UnknownKind),
        }
    }
}
