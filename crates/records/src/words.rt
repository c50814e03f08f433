// Diagrams by their 32-bit words.
ghost use Rattle.std.specs.Prelude.{◌≡◌, MatchResult, ◌≢◌};
ghost use Rattle.records.specs.declared.kinds.Diagram.{Diagram};
ghost use Rattle.records.specs.Words.{word_of, ItsWord};

use super::kinds::Diagram;
use format::{Amount, KIND_UNIT, Word};

// The kinds of the words of leaves and of nodes. They are numbers in these two conversions alone: `Diagram` is the enum of
// the kinds, with what each carries.
const LEAF: u32 = 0;

const BRANCH: u32 = 1;

// A word that is no diagram's.
#[derive(Clone, Copy, PartialEq, Eq, Debug)]
pub struct NoDiagram(pub u32);

impl TryFrom<u32> for Diagram {
    type Error = NoDiagram;

    ghost try_from_gives = { λ bits result. MatchResult result (λ d. word_of d ≡ bits) (λ e. (e.0 ≡ bits) × ((d : Diagram) → word_of d ≢ bits)) };

    fn try_from(bits: u32) -> Result<Diagram, NoDiagram> {
        let Word { kind, field, value } = Word::from(bits);
        let number = Amount { number: value };
        match (kind, field) {
            (LEAF, 0) => Ok(Diagram::Leaf(number)),
            (BRANCH, 0) => Ok(Diagram::Branch(number)),
            _ => Err(NoDiagram(bits)),
        }
    }
}

impl From<Diagram> for u32 {
    ghost from_gives = { λ diagram bits. ItsWord diagram bits };

    fn from(diagram: Diagram) -> u32 {
        match diagram {
            Diagram::Leaf(first) => LEAF * KIND_UNIT + first.number,
            Diagram::Branch(node) => BRANCH * KIND_UNIT + node.number,
        }
    }
}

impl Diagram {
    // The diagram that drops every frame.
    pub fn drop_all() -> Diagram
        ensures { word_of result ≡ 0 }
    {
        Diagram::Leaf(Amount { number: 0 })
    }
}
