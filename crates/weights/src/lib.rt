// Weight kinds: what the weights of a policy are and how they combine.
#![tactic(auto)]

ghost use Rattle.std.specs.Prelude.{◌≡◌, ◌≤◌};
ghost use Rattle.format.specs.Limits.{cost_limit};
ghost use Rattle.weights.specs.Weights.{Ops, Laws, Weight};

mod bounds;
mod cost;
mod reach;

pub use bounds::{common_bound, least_upper_bound};
pub use cost::Cost;
use format::VALUE_END;
pub use reach::Reach;

// The greatest number that is a weight of any kind.
pub const TOP: u32 = VALUE_END - 1;

// A kind is a type and never a value. Its functions answer for every number; the laws hold for its weights.
pub trait WeightKind {
    ghost ops: { Ops };

    fn is_weight(a: u32) -> bool
        ensures value { result ≡ ops.is a };

    fn zero() -> u32
        ensures value { result ≡ ops.zero }
        ensures weight { Weight ops result };

    fn one() -> u32
        ensures value { result ≡ ops.one }
        ensures weight { Weight ops result };

    fn join(a: u32, b: u32) -> u32
        ensures value { result ≡ ops.join a b }
        ensures weight { Weight ops a → Weight ops b → Weight ops result };

    fn times(a: u32, b: u32) -> u32
        ensures value { result ≡ ops.times a b }
        ensures weight { Weight ops a → Weight ops b → Weight ops result };

    // The weight that a cost number means.
    fn cost(n: u32) -> u32
        ensures value { result ≡ ops.cost n }
        ensures weight { n ≤ cost_limit → Weight ops result };

    ghost lawful: { Laws ops };
}
