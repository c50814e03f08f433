// The table of a diagram, written.
ghost use Rattle.std.specs.Prelude.{◌≡◌, ◌<◌, ◌≤◌, [], ◌∷◌, length};
ghost use Rattle.format.specs.Words.{value_end};
ghost use Rattle.meaning.specs.Diagrams.{Formed};
ghost use Rattle.engine.specs.Done.{SoundStores};
ghost use Rattle.engine.specs.Listed.{Listed};
ghost use Rattle.engine.specs.Listing.{ShortWay, set_words, cells_words, leaf_words, rows_words, leaf_count};
ghost use Rattle.engine.specs.Puts.{Puts, RoomFor, LeafInStore, cells_from, InStore, diagram_in, way_words};

use super::enter::{action, cell, node};
use super::fitting::rows_fit;
use super::memory::Stores;
use super::sheet::Sheet;
use super::way::Way;
use actions::{Action, WIDTH};
use counts::Counts;
use faults::TableFault;
use format::Amount;
use records::Diagram;
use tables::{TableKind, TableWord};
use weights::WeightKind;

// Writes words.
fn put_words(sheet: &mut Sheet<'_>, words: &[u32])
    requires { RoomFor sheet.old words.now }
    ensures { Puts sheet.old words.now 0 sheet.new }
{
    'words: for word in words {
        sheet.push(*word);
    }
}

// Writes the set words of an action.
fn put_sets(sheet: &mut Sheet<'_>, kept: &Action)
    requires { RoomFor sheet.old (set_words 0 kept.now.sets) }
    ensures { Puts sheet.old (set_words 0 kept.now.sets) 0 sheet.new }
{
    'fields: for field in 0..WIDTH {
        if let Some(value) = kept.sets[field] {
            let word = TableWord {
                kind: TableKind::Set,
                field: field as u32,
                value,
            };
            sheet.push(u32::from(word));
        }
    }
}

// Writes the words of a cell: its weight, and each field that its action sets.
fn put_cell(sheet: &mut Sheet<'_>, weight: Amount, kept: &Action)
    requires { RoomFor sheet.old (cells_words ((kept.now.sets, weight.number) ∷ [])) }
    ensures { Puts sheet.old (cells_words ((kept.now.sets, weight.number) ∷ [])) 0 sheet.new }
{
    let word = TableWord {
        kind: TableKind::Weight,
        field: 0,
        value: weight.number,
    };
    sheet.push(u32::from(word));
    put_sets(sheet, kept);
}

// Writes the words of a leaf's cells.
fn put_cells(stores: &Stores<'_>, counts: &Counts, sheet: &mut Sheet<'_>, first: Amount)
    requires good { SoundStores counts.now stores.now }
    requires present { LeafInStore counts.now stores.now first }
    requires room { RoomFor sheet.old (cells_words (cells_from counts.now stores.now first)) }
    ensures { Puts sheet.old (cells_words (cells_from counts.now stores.now first)) 0 sheet.new }
{
    let mut rest = first;
    'cells: while rest.number != 0 {
        let own = cell(stores, counts, rest);
        put_cell(sheet, own.weight, &action(stores, counts, own.action));
        rest = own.rest;
    }
}

// How many cells a leaf has.
fn count_cells(stores: &Stores<'_>, counts: &Counts, first: Amount) -> u32
    requires good { SoundStores counts.now stores.now }
    requires present { LeafInStore counts.now stores.now first }
    requires few { length (cells_from counts.now stores.now first) < value_end }
    ensures { result ≡ length (cells_from counts.now stores.now first) }
{
    let mut rest = first;
    let mut count = 0;
    'cells: while rest.number != 0 {
        rest = cell(stores, counts, rest).rest;
        count += 1;
    }
    count
}

// Writes the row of a leaf.
fn put_leaf(stores: &Stores<'_>, counts: &Counts, sheet: &mut Sheet<'_>, way: &Way, first: Amount)
    requires good { SoundStores counts.now stores.now }
    requires present { LeafInStore counts.now stores.now first }
    requires countable { length sheet.old.words.now ≤ value_end }
    requires room { RoomFor sheet.old (leaf_words (way_words way.now) (cells_from counts.now stores.now first)) }
    ensures { Puts sheet.old (leaf_words (way_words way.now) (cells_from counts.now stores.now first)) 1 sheet.new }
{
    let head = TableWord {
        kind: TableKind::Head,
        field: way.count as u32,
        value: count_cells(stores, counts, first),
    };
    sheet.push(u32::from(head));
    sheet.rows += 1;
    put_words(sheet, &way.words[..way.count]);
    put_cells(stores, counts, sheet, first)
}

// Writes the rows of a diagram.
fn put_rows(
    stores: &Stores<'_>,
    counts: &Counts,
    sheet: &mut Sheet<'_>,
    way: &Way,
    diagram: Diagram,
)
    requires good { SoundStores counts.now stores.now }
    requires present { InStore counts.now stores.now diagram }
    requires short { ShortWay (way_words way.now) (diagram_in counts.now stores.now diagram) }
    requires countable { length sheet.old.words.now ≤ value_end }
    requires room { RoomFor sheet.old (rows_words (way_words way.now) (diagram_in counts.now stores.now diagram)) }
    ensures { let d = diagram_in counts.now stores.now diagram in Puts sheet.old (rows_words (way_words way.now) d) (leaf_count d) sheet.new }
{
    let mut rest = diagram;
    'tests: loop {
        let number = match rest {
            Diagram::Leaf(first) => return put_leaf(stores, counts, sheet, way, first),
            Diagram::Branch(number) => number,
        };
        let root = node(stores, counts, number);
        let behind = way.with(root.test);
        put_rows(stores, counts, sheet, &behind, root.yes);
        rest = root.no;
    }
}

// Writes the table of a diagram, if it is no longer than the memory.
pub(crate) fn list<K: WeightKind>(
    stores: &Stores<'_>,
    counts: &Counts,
    diagram: Diagram,
    out: &mut [u32],
) -> Result<usize, TableFault>
    requires good { SoundStores counts.now stores.now }
    requires present { InStore counts.now stores.now diagram }
    requires formed { Formed K.WeightKind.ops (diagram_in counts.now stores.now diagram) }
    requires countable { length out.old ≤ value_end }
    ensures { Listed (diagram_in counts.now stores.now diagram) out.old result out.new }
{
    let way = Way::none();
    let Some(left) = rows_fit(stores, counts, &way, diagram, out.len()) else {
        return Err(TableFault::Full);
    };
    if left == 0 {
        return Err(TableFault::Full);
    }
    let mut sheet = Sheet::empty(out);
    put_rows(stores, counts, &mut sheet, &way, diagram);
    let end = TableWord {
        kind: TableKind::End,
        field: 0,
        value: sheet.rows as u32,
    };
    sheet.push(u32::from(end));
    Ok(sheet.count)
}
