// Memories that are lent to a bench.
ghost use Rattle.std.specs.Prelude.{length};
ghost use Rattle.counts.specs.Memory.{AllFit};

use actions::Action;
use records::{Cell, Node};

// Memories whose sizes fit. Whoever lends them asks `Sizes::judge` before, which takes numbers alone and so writes nothing.
#[derive(Drop)]
pub struct Memories<'a> {
    pub actions: &'a mut [Action],
    pub cells: &'a mut [Cell],
    pub nodes: &'a mut [Node],
    pub table: &'a mut [u32],
    ghost fit: { AllFit (record { actions = length actions.now; cells = length cells.now; nodes = length nodes.now; table_words = length table.now }) },
}
