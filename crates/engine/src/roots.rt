// What the union of two diagrams is made of.
ghost use Rattle.std.specs.Prelude.{◌≡◌, ◌<◌, ◌≤◌, None, Some, ◌≢◌, Decides, MatchOption, MatchResult, OnOk};
ghost use Rattle.meaning.specs.Constructions.{root, first_root, off};
ghost use Rattle.engine.specs.Contents.{contents};
ghost use Rattle.requests.specs.Rules.{Joins};
ghost use Rattle.engine.specs.State.{state, Present, Names, diagram_of};
ghost use Rattle.engine.specs.Done.{Done, SoundStores, NothingLost};
ghost use Rattle.engine.specs.Cells.{LeavesFormed, number_of};
ghost use Rattle.engine.specs.Leaves.{IsDrop, tested, Split};

use super::enter::node;
use super::memory::Stores;
use super::merging::{CellList, Selection, merge};
use counts::Counts;
use faults::StoreFault;
use format::{Amount, Setting};
use records::{Diagram, Node};
use weights::WeightKind;

// Whether the word is that of drop.
pub(crate) fn is_drop(diagram: Diagram) -> bool
    ensures { Decides result (IsDrop diagram) }
{
    match diagram {
        Diagram::Leaf(first) => first.number == 0,
        Diagram::Branch(_) => false,
    }
}

// The root test, if there is one.
pub(crate) fn root(stores: &Stores<'_>, counts: &Counts, diagram: Diagram) -> Option<Setting>
    requires good { SoundStores counts.now stores.now }
    requires present { Present (state (contents counts.now stores.now)) diagram }
    ensures { tested result ≡ root (diagram_of (state (contents counts.now stores.now)) diagram) }
{
    match diagram {
        Diagram::Leaf(_) => None,
        Diagram::Branch(number) => Some(node(stores, counts, number).test),
    }
}

// The smaller of two tests.
pub(crate) fn earlier(test: Setting, other: Setting) -> Setting
    ensures { Some (result.field, result.value) ≡ first_root (Some (test.field, test.value)) (Some (other.field, other.value)) }
{
    if (test.field, test.value) <= (other.field, other.value) {
        test
    } else {
        other
    }
}

// The smaller root test of two diagrams, if there is one.
pub(crate) fn first_root(
    stores: &Stores<'_>,
    counts: &Counts,
    left: Diagram,
    right: Diagram,
) -> Option<Setting>
    requires good { SoundStores counts.now stores.now }
    requires left { Present (state (contents counts.now stores.now)) left }
    requires right { Present (state (contents counts.now stores.now)) right }
    ensures { let s = state (contents counts.now stores.now) in tested result ≡ first_root (root (diagram_of s left)) (root (diagram_of s right)) }
{
    let left = root(stores, counts, left);
    let right = root(stores, counts, right);
    match (left, right) {
        (Some(test), Some(other)) => Some(earlier(test, other)),
        (Some(test), None) => Some(test),
        (None, other) => other,
    }
}

// The root, if it has this test.
pub(crate) fn split(
    stores: &Stores<'_>,
    counts: &Counts,
    diagram: Diagram,
    test: Setting,
) -> Option<Node>
    requires good { SoundStores counts.now stores.now }
    requires present { Present (state (contents counts.now stores.now)) diagram }
    ensures { let s = state (contents counts.now stores.now) in MatchOption result (root (diagram_of s diagram) ≢ Some (test.field, test.value)) (λ x. Split s (diagram_of s diagram) test.field test.value x) }
{
    match diagram {
        Diagram::Leaf(_) => None,
        Diagram::Branch(number) => {
            let root = node(stores, counts, number);
            if root.test.field == test.field && root.test.value == test.value {
                Some(root)
            } else {
                None
            }
        }
    }
}

// The no side of a root of this test, else the diagram itself.
pub(crate) fn off(stores: &Stores<'_>, counts: &Counts, diagram: Diagram, test: Setting) -> Diagram
    requires good { SoundStores counts.now stores.now }
    requires present { Present (state (contents counts.now stores.now)) diagram }
    ensures { let s = state (contents counts.now stores.now) in Names s result (off (diagram_of s diagram) test.field test.value) }
{
    match split(stores, counts, diagram, test) {
        Some(root) => root.no,
        None => diagram,
    }
}

// The number in a word.
fn number(diagram: Diagram) -> Amount
    ensures { result ≡ number_of diagram }
{
    match diagram {
        Diagram::Leaf(number) | Diagram::Branch(number) => number,
    }
}

// Two leaves.
pub(crate) fn join_leaves<K: WeightKind>(
    stores: &mut Stores<'_>,
    counts: &mut Counts,
    left: Diagram,
    right: Diagram,
) -> Result<Diagram, StoreFault>
    requires good { SoundStores counts.old stores.old }
    requires left { Present (state (contents counts.old stores.old)) left }
    requires right { Present (state (contents counts.old stores.old)) right }
    requires no_test { let s = state (contents counts.old stores.old) in first_root (root (diagram_of s left)) (root (diagram_of s right)) ≡ None }
    requires leaves { LeavesFormed K.WeightKind.ops (state (contents counts.old stores.old)) }
    ensures done { let s = state (contents counts.old stores.old) in Done (Joins K.WeightKind.ops (diagram_of s left) (diagram_of s right)) counts.old stores.old counts.new stores.new result }
    ensures kept { NothingLost counts.old stores.old counts.new stores.new }
    ensures leaves { OnOk result (LeavesFormed K.WeightKind.ops (state (contents counts.new stores.new))) }
{
    let left = CellList {
        view: Selection::All,
        first: number(left),
    };
    let right = CellList {
        view: Selection::All,
        first: number(right),
    };
    let leaf = merge::<K>(stores, counts, left, right)?;
    Ok(Diagram::Leaf(leaf))
}
