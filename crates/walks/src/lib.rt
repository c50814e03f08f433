// Walks over weighted steps: how many rounds of star are enough.
#![tactic(auto)]

ghost use Rattle.std.specs.Prelude.{◌≡◌, ◌<◌, ◌≤◌, IfSome, IfNone};
ghost use Rattle.walks.specs.Walks.{Same, Steps, Weighed};
ghost use Rattle.walks.specs.Rounds.{Rounds};

use weights::WeightKind;

// How many rounds are enough from a state whose walks meet so many others, whatever the states and
// the steps are; none where that passes the limit.
pub fn enough_rounds<K: WeightKind, X>(others: u32, limit: u32) -> Option<u32>
    ensures some { IfSome result (λ k. (k ≡ others) × (k ≤ limit) × ((same : Same X) (step : Steps X) → Weighed K.WeightKind.ops step → Rounds K.WeightKind.ops same step k)) }
    ensures none { IfNone result (limit < others) }
{
    if others <= limit { Some(others) } else { None }
}
