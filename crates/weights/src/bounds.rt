// Least upper bounds in the order that join gives the weights.
ghost use Rattle.std.specs.Prelude.{◌≡◌, ℕ, IfSome, IfNone};
ghost use Rattle.weights.specs.Weights.{Weight};
ghost use Rattle.weights.specs.Order.{Lub, two};

use crate::WeightKind;

// The least upper bound of two weights, which is their join; none where one is no weight of the kind.
pub fn least_upper_bound<K: WeightKind>(a: u32, b: u32) -> Option<u32>
    ensures some { IfSome result (λ c. (c ≡ K.WeightKind.ops.join a b) × Lub K.WeightKind.ops (two a b) c) }
    ensures none { IfNone result (Weight K.WeightKind.ops a → Weight K.WeightKind.ops b → ⊥) }
{
    if !K::is_weight(a) || !K::is_weight(b) {
        return None;
    }
    Some(K::join(a, b))
}

// The bound that both are. Numbers that differ are never both the least upper bound of one family,
// whatever it is indexed by.
pub fn common_bound<K: WeightKind, I>(a: u32, b: u32) -> Option<u32>
    ensures some { IfSome result (λ c. (c ≡ a) × (c ≡ b)) }
    ensures none { IfNone result ((f : I → ℕ) → Lub K.WeightKind.ops f a → Lub K.WeightKind.ops f b → ⊥) }
{
    if a == b { Some(a) } else { None }
}
