// The kind that says at which least cost a frame is emitted; at the greatest number it is not.
ghost use Rattle.weights.specs.Kinds.{cost_ops};
ghost use Rattle.std.proofs.Common.{rules};

use crate::{TOP, WeightKind};

pub struct Cost;

impl WeightKind for Cost {
    ghost ops = { cost_ops };

    ghost lawful = { Prim.search rules };

    fn is_weight(a: u32) -> bool {
        a <= TOP
    }

    fn zero() -> u32 {
        TOP
    }

    fn one() -> u32 {
        0
    }

    fn join(a: u32, b: u32) -> u32 {
        a.min(b)
    }

    fn times(a: u32, b: u32) -> u32 {
        a.saturating_add(b).min(TOP)
    }

    fn cost(n: u32) -> u32 {
        n
    }
}
