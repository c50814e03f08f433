// Whether the rows of a diagram are no longer than so many words.
ghost use Rattle.std.specs.Prelude.{◌≡◌, ℕ, ◌<◌, ◌≤◌, [], ◌∷◌, length};
ghost use Rattle.std.specs.List.{filter};
ghost use Rattle.std.specs.Option.{is_some};
ghost use Rattle.engine.specs.Done.{SoundStores};
ghost use Rattle.engine.specs.Listing.{Fits, ShortWay, cells_words, leaf_words, rows_words};
ghost use Rattle.engine.specs.Puts.{LeafInStore, cells_from, InStore, diagram_in, way_words};

use super::enter::{action, cell, node};
use super::memory::Stores;
use super::way::Way;
use actions::Action;
use counts::Counts;
use format::Amount;
use records::Diagram;

// How many fields an action sets.
fn set_count(kept: &Action) -> usize
    ensures { result ≡ length (filter is_some kept.now.sets) }
{
    kept.sets.iter().filter(|set| set.is_some()).count()
}

// What is left of the room behind the words of a cell with this action: one for its weight, and one for each field that is set.
fn cell_fits(kept: &Action, room: usize) -> Option<usize>
    ensures { (weight : ℕ) → Fits room (cells_words ((kept.now.sets, weight) ∷ [])) result }
{
    room.checked_sub(1 + set_count(kept))
}

// What is left of the room behind the words of a leaf's cells.
fn cells_fit(stores: &Stores<'_>, counts: &Counts, first: Amount, room: usize) -> Option<usize>
    requires good { SoundStores counts.now stores.now }
    requires present { LeafInStore counts.now stores.now first }
    ensures { Fits room (cells_words (cells_from counts.now stores.now first)) result }
{
    let mut rest = first;
    let mut left = room;
    'cells: while rest.number != 0 {
        let own = cell(stores, counts, rest);
        left = cell_fits(&action(stores, counts, own.action), left)?;
        rest = own.rest;
    }
    Some(left)
}

// What is left of the room behind the row of a leaf.
fn leaf_fits(
    stores: &Stores<'_>,
    counts: &Counts,
    way: &Way,
    first: Amount,
    room: usize,
) -> Option<usize>
    requires good { SoundStores counts.now stores.now }
    requires present { LeafInStore counts.now stores.now first }
    ensures { Fits room (leaf_words (way_words way.now) (cells_from counts.now stores.now first)) result }
{
    cells_fit(stores, counts, first, room.checked_sub(1 + way.count)?)
}

// What is left of the room behind the rows of a diagram.
pub(crate) fn rows_fit(
    stores: &Stores<'_>,
    counts: &Counts,
    way: &Way,
    diagram: Diagram,
    room: usize,
) -> Option<usize>
    requires good { SoundStores counts.now stores.now }
    requires present { InStore counts.now stores.now diagram }
    requires short { ShortWay (way_words way.now) (diagram_in counts.now stores.now diagram) }
    ensures { Fits room (rows_words (way_words way.now) (diagram_in counts.now stores.now diagram)) result }
{
    let mut rest = diagram;
    let mut left = room;
    'tests: loop {
        let number = match rest {
            Diagram::Leaf(first) => return leaf_fits(stores, counts, way, first, left),
            Diagram::Branch(number) => number,
        };
        let root = node(stores, counts, number);
        let behind = way.with(root.test);
        left = rows_fit(stores, counts, &behind, root.yes, left)?;
        rest = root.no;
    }
}
