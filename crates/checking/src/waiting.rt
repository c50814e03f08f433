ghost use Rattle.std.specs.Prelude.{◌≤◌, length};
ghost use Rattle.format.specs.Limits.{waiting_limit};

use arrayvec::ArrayVec;
use format::WAITING_LIMIT;

// The operands that wait for an operator, the last one at the end. All that matters of each is whether it is a predicate. The place
// that a fault tells is that of the word at hand, so it is no field here.
#[derive(Drop)]
pub struct Waiting {
    pub predicates: ArrayVec<bool, WAITING_LIMIT>,
    ghost fits: { length predicates.items ≤ waiting_limit },
}
