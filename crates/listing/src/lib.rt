// The table that lists a diagram: its leaves as rows, yes before no.
#![tactic(auto)]

ghost use Rattle.std.specs.Prelude.{◌≡◌, ◌+◌, ◌<◌, ◌≤◌, IfSome, IfNone, ◌≢◌};
ghost use Rattle.format.specs.Words.{word, value_end};
ghost use Rattle.tables.specs.Rows.{LegalRows, table_words};
ghost use Rattle.meaning.specs.Constructions.{drop_diagram};
ghost use Rattle.listing.specs.Rows.{rows_of};
ghost use Rattle.listing.specs.Tables.{FirstMatchIsTheLeafReached, ListsLegally, ShortLists, EmitsWhatTheDiagramGives, DropEmitsNothing};

use format::VALUE_END;
use tables::{TableKind, TableWord};
use weights::WeightKind;

// The place of the row of the leaf at this place, which is the same: rows stand as the leaves do, and the
// first that matches a frame is that of the leaf that the frame reaches. None where there is no such leaf.
#[tactic(auto, using(crate::proofs::Leaves::first_match))]
pub fn row_of_leaf(place: u32, leaves: u32) -> Option<u32>
    ensures some { IfSome result (λ i. (i ≡ place) × (i < leaves) × FirstMatchIsTheLeafReached) }
    ensures none { IfNone result (leaves ≤ place) }
{
    if place < leaves { Some(place) } else { None }
}

// The end word of the table of a diagram that has so many leaves, none of them more than so many cells; such
// a table is legal. None where a word cannot count the leaves or the cells.
pub fn end_word<K: WeightKind>(leaves: u32, cells: u32) -> Option<u32>
    ensures some { IfSome result (λ w. (w ≡ word 14 0 leaves) × (leaves < value_end) × (cells < value_end) × ListsLegally K.WeightKind.ops leaves cells) }
    ensures none { IfNone result (leaves < value_end → cells < value_end → ⊥) }
{
    if leaves >= VALUE_END || cells >= VALUE_END {
        return None;
    }
    let end = TableWord {
        kind: TableKind::End,
        field: 0,
        value: leaves,
    };
    Some(u32::from(end))
}

// How many leaves at most a diagram has whose table has so many words: each row has a head, and an end word
// follows. Such a table is legal. None where there is no end word, or a word might not count what is listed.
#[tactic(auto, using(crate::proofs::Legal::short_lists))]
pub fn most_leaves<K: WeightKind>(words: u32) -> Option<u32>
    ensures some { IfSome result (λ n. (n + 1 ≡ words) × (words ≤ value_end) × ShortLists K.WeightKind.ops words n) }
    ensures none { IfNone result (0 < words → words ≤ value_end → ⊥) }
{
    if words > VALUE_END {
        return None;
    }
    words.checked_sub(1)
}

// The weight at which the table of a diagram emits a frame to which the diagram gives this weight: the same.
// None where it is zero, and the frame is not emitted.
pub fn emitted_weight<K: WeightKind>(given: u32) -> Option<u32>
    ensures some { IfSome result (λ w. (w ≡ given) × (given ≢ K.WeightKind.ops.zero) × EmitsWhatTheDiagramGives K.WeightKind.ops) }
    ensures none { IfNone result (given ≡ K.WeightKind.ops.zero) }
{
    if given == K::zero() {
        return None;
    }
    Some(given)
}

// The table of the diagram that drops every frame.
pub fn drop_table<K: WeightKind>() -> [u32; 2]
    ensures words { result ≡ table_words (rows_of drop_diagram) }
    ensures legal { LegalRows K.WeightKind.ops (rows_of drop_diagram) }
    ensures nothing { DropEmitsNothing K.WeightKind.ops }
{
    let head = TableWord {
        kind: TableKind::Head,
        field: 0,
        value: 0,
    };
    let end = TableWord {
        kind: TableKind::End,
        field: 0,
        value: 1,
    };
    [u32::from(head), u32::from(end)]
}
