// The sizes of the memories that a bench is lent.
ghost use Rattle.std.specs.Prelude.{◌≡◌, MatchResult};
ghost use Rattle.faults.specs.declared.layers.StoreFault.TheVariants.{BadMemory};
ghost use Rattle.counts.specs.Memory.{Between, AllFit, Unfit};

use faults::{Memory, StoreFault};

// At most so many actions, cells, nodes and table words.
pub const ACTIONS_LIMIT: usize = 4_096;

pub const CELLS_LIMIT: usize = 16_384;

pub const NODES_LIMIT: usize = 16_384;

pub const TABLE_LIMIT: usize = 65_536;

// How many records and words the memories have room for.
#[derive(Clone, Copy)]
pub struct Sizes {
    pub actions: usize,
    pub cells: usize,
    pub nodes: usize,
    pub table_words: usize,
}

// Whether a memory has a size from the least to the most.
fn judge(memory: Memory, least: usize, most: usize, size: usize) -> Result<(), StoreFault>
    ensures { MatchResult result (λ _. Between least most size) (λ f. (f ≡ BadMemory memory) × (Between least most size → ⊥)) }
{
    if (least..=most).contains(&size) {
        Ok(())
    } else {
        Err(StoreFault::BadMemory(memory))
    }
}

impl Sizes {
    // The first memory that is too small or too large is refused.
    pub fn judge(self) -> Result<(), StoreFault>
        ensures { MatchResult result (λ _. AllFit self) (λ f. Unfit self f) }
    {
        judge(Memory::Actions, 1, ACTIONS_LIMIT, self.actions)?;
        judge(Memory::Cells, 1, CELLS_LIMIT, self.cells)?;
        judge(Memory::Nodes, 1, NODES_LIMIT, self.nodes)?;
        judge(Memory::Table, 2, TABLE_LIMIT, self.table_words)?;
        Ok(())
    }
}
