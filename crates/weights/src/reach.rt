// The kind that says whether a frame is emitted: 1 yes, 0 no.
ghost use Rattle.weights.specs.Kinds.{reach_ops};
ghost use Rattle.std.proofs.Common.{rules};

use crate::WeightKind;

pub struct Reach;

impl WeightKind for Reach {
    ghost ops = { reach_ops };

    ghost lawful = { Prim.search rules };

    fn is_weight(a: u32) -> bool {
        a < 2
    }

    fn zero() -> u32 {
        0
    }

    fn one() -> u32 {
        1
    }

    fn join(a: u32, b: u32) -> u32 {
        a.max(b)
    }

    fn times(a: u32, b: u32) -> u32 {
        a.min(b)
    }

    fn cost(_n: u32) -> u32 {
        Self::one()
    }
}
