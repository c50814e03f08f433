// Diagrams that are handed in by their words.
ghost use Rattle.std.specs.Prelude.{◌≡◌, MatchResult};
ghost use Rattle.faults.specs.declared.layers.StoreFault.TheVariants.{NotHeld};
ghost use Rattle.records.specs.Words.{word_of, Held};

use super::counts::Counts;
use faults::StoreFault;
use records::Diagram;

impl Counts {
    // The diagram whose word is given as the operand at a place.
    pub fn operand(self, place: usize, bits: u32) -> Result<Diagram, StoreFault>
        ensures { MatchResult result (λ d. (word_of d ≡ bits) × Held self.cells self.nodes d) (λ f. (f ≡ NotHeld place) × ((d : Diagram) → word_of d ≡ bits → Held self.cells self.nodes d → ⊥)) }
    {
        let fault = StoreFault::NotHeld(place);
        let diagram = Diagram::try_from(bits).map_err(|_| fault)?;
        let held = match diagram {
            Diagram::Leaf(first) => first.number <= self.cells,
            Diagram::Branch(node) => 0 < node.number && node.number <= self.nodes,
        };
        if held { Ok(diagram) } else { Err(fault) }
    }
}
