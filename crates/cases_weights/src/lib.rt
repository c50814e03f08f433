// A third weight kind, written over the trait alone, and a small case of walks.
#![tactic(auto)]

ghost use Rattle.std.specs.Prelude.{◌≡◌, bit_or, refl};
ghost use Rattle.std.proofs.Common.{sym, ◌∙◌, ap, arith};
ghost use Rattle.cases_weights.specs.Ports.{port_ops, all_ports};
ghost use Rattle.cases_weights.specs.Ways.{least_cost};
ghost use Rattle.std.specs.Int.Bits.{or_self, and_zero_r};
ghost use Rattle.std.proofs.lemmas.Nat.{or_comm, or_lt, and_le_l};
ghost use Rattle.std.proofs.lemmas.Bool.{lt-ltb};
ghost use Rattle.cases_weights.specs.Masks.{or_assoc, and_assoc, and_or, or_and, or_absorbs};
ghost use Rattle.cases_weights.specs.PortWeightsLemmas.{below, all_right, all_left};

use weights::WeightKind;

const ALL_PORTS: u32 = 0xffff;

// The ports, of sixteen, over which a frame may leave.
pub struct Ports;

impl WeightKind for Ports {
    ghost ops = { port_ops };

    ghost lawful = { record {
      below_end = λ a w. let h = below a w in omega arith;
      zero_weight = refl;
      one_weight = refl;
      join_weight = λ a b v w. lt-ltb _ _ (or_lt 16 a b (below a v) (below b w));
      times_weight = λ a b v w. let h = below a v in let k = and_le_l a b in lt-ltb _ _ (omega arith);
      cost_weight = λ n h. refl;
      join_associative = λ a b c u v w. or_assoc a b c;
      join_commutative = λ a b v w. or_comm a b;
      join_idempotent = λ a w. or_self a;
      zero_neutral = λ a w. refl;
      times_associative = λ a b c u v w. and_assoc a b c;
      one_neutral_left = all_left;
      one_neutral_right = all_right;
      zero_absorbs_left = λ a w. refl;
      zero_absorbs_right = λ a w. and_zero_r a;
      times_distributes_left = λ a b c u v w. and_or a b c;
      times_distributes_right = λ a b c u v w. or_and a b c;
      one_absorbs_join = λ a w. ap (bit_or all_ports) (sym (all_left a w)) ∙ or_absorbs all_ports a;
      one_is_not_zero = λ e. omega arith;
    } };

    fn is_weight(a: u32) -> bool {
        a <= ALL_PORTS
    }

    fn zero() -> u32 {
        0
    }

    fn one() -> u32 {
        ALL_PORTS
    }

    fn join(a: u32, b: u32) -> u32 {
        a | b
    }

    fn times(a: u32, b: u32) -> u32 {
        a & b
    }

    fn cost(_n: u32) -> u32 {
        Self::one()
    }
}

// The way over two steps is cheaper than the one step, and a third round finds nothing better.
pub fn cheapest() -> u32
    ensures one { least_cost 1 1 3 ≡ 9 }
    ensures two { least_cost 2 1 3 ≡ result }
    ensures three { least_cost 3 1 3 ≡ result }
{
    8
}

#[cfg(test)]
mod tests {
    use super::*;
    use weights::{Cost, Reach, TOP, least_upper_bound};

    #[test]
    fn reach(rt: HostRuntime) {
        assert_eq!(rt; Reach::join(0, 1), 1);
        assert_eq!(rt; Reach::times(0, 1), 0);
        assert_eq!(rt; Reach::cost(7), 1);
        assert!(rt; Reach::is_weight(1) && !Reach::is_weight(2));
    }

    #[test]
    fn costs_stop_at_the_top(rt: HostRuntime) {
        assert_eq!(rt; Cost::times(4, 5), 9);
        assert_eq!(rt; Cost::times(TOP, 1), TOP);
        assert_eq!(rt; Cost::times(u32::MAX, u32::MAX), TOP);
        assert_eq!(rt; Cost::join(9, 8), 8);
        assert!(rt; Cost::is_weight(TOP) && !Cost::is_weight(TOP + 1));
    }

    #[test]
    fn ports(rt: HostRuntime) {
        assert_eq!(rt; Ports::join(0b0011, 0b0101), 0b0111);
        assert_eq!(rt; Ports::times(0b0011, 0b0101), 0b0001);
    }

    #[test]
    fn bounds(rt: HostRuntime) {
        assert_eq!(rt; least_upper_bound::<Ports>(0b0011, 0b0101), Some(0b0111));
        assert_eq!(rt; least_upper_bound::<Cost>(9, 8), Some(8));
        assert_eq!(rt; least_upper_bound::<Reach>(1, 2), None);
    }
}
