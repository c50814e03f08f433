// The row that decides for a frame.
ghost use Rattle.std.specs.Prelude.{◌≡◌, ◌≤◌, false, length, take, drop, MatchOption};
ghost use Rattle.std.specs.Iterator.{YieldsFirstRef, item_count};
ghost use Rattle.std.specs.List.{AllByRecursion};
ghost use Rattle.tables.specs.Rows.{OfItsRows};
ghost use Rattle.tables.specs.Emits.{holds};
ghost use Rattle.format.specs.Words.{field_of};
ghost use Rattle.tables.specs.Scans.{closes, body_length, match_holds, matches_hold, row_holds, first_row, counted, heads_past};
ghost use Rattle.tables.specs.Forwards.{Decides};

use super::check::CheckedTable;
use super::kind::TableKind;
use format::{FIELDS, Word};
use frames::Frame;
use weights::WeightKind;

// Whether a word is a head or an end, before which a row is over.
fn closes_row(bits: u32) -> bool
    ensures { result ≡ closes bits }
{
    TableKind::Head.marks(bits) || TableKind::End.marks(bits)
}

// How many words stand before the next head or end.
fn body_length(words: &[u32]) -> usize
    ensures { (result ≡ body_length words.now) × (result ≤ length words.now) }
{
    words
        .iter()
        .position(|bits| closes_row(*bits))
        .unwrap_or(words.len())
}

// The words from the next head or end on.
fn from_next(words: &[u32]) -> &[u32]
    ensures next { result.now ≡ drop (body_length words.now) words.now }
    ensures shorter { length result.now ≤ length words.now }
{
    &words[body_length(words)..]
}

// Whether a match holds of a frame. The field of a match is one of the frame's, so the remainder is the field itself: it
// spares the test for a field that no frame has.
fn match_holds(bits: u32, frame: &Frame) -> bool
    ensures { result ≡ match_holds bits frame.now.values }
{
    let word = Word::from(bits);
    frame.value(word.field % FIELDS) == word.value
}

// The matches that a head counts, of the words behind it.
fn matches_of(head: u32, body: &[u32]) -> &[u32]
    ensures { result.now ≡ take (field_of head) body.now }
{
    body.get(..Word::from(head).field as usize).unwrap_or(body)
}

// Whether every one of some matches holds.
fn matches_hold(matches: &[u32], frame: &Frame) -> bool
    ensures { result ≡ matches_hold matches.now frame.now.values }
{
    matches.iter().all(|bits| match_holds(*bits, frame))
}

// Whether the matches of the row with which words begin hold.
fn row_holds(words: &[u32], frame: &Frame) -> bool
    ensures { result ≡ row_holds words.now frame.now.values }
{
    match words.split_first() {
        Some((head, body)) => matches_hold(matches_of(*head, body), frame),
        None => false,
    }
}

// The row with which words begin.
fn first_row(words: &[u32]) -> &[u32]
    ensures { result.now ≡ first_row words.now }
{
    match words.split_first() {
        Some((_, body)) => &words[..1 + body_length(body)],
        None => words,
    }
}

// How many matches and weights a head counts.
fn counted(head: u32) -> usize
    ensures { result ≡ counted head }
{
    let word = Word::from(head);
    (word.field + word.value) as usize
}

// The rows with which words begin, each as the words from its head on. What a head counts is passed over at once, since
// the next head comes no earlier; only where none stands there, behind sets, is each word looked at.
#[derive(Drop)]
struct Rows<'a> {
    words: &'a [u32],
}

impl<'a> Iterator for Rows<'a> {
    type Item = &'a [u32];

    ghost next_gives = { YieldsFirstRef (λ s. heads_past 0 s.words.now) };

    ghost remaining = { item_count (λ s. heads_past 0 s.words.now) };

    fn next(&mut self) -> Option<&'a [u32]> {
        while let Some((bits, later)) = self.words.split_first() {
            if TableKind::Head.marks(*bits) {
                let row = self.words;
                self.words = later.get(counted(*bits)..)?;
                return Some(row);
            }
            if TableKind::End.marks(*bits) {
                return None;
            }
            self.words = from_next(later);
        }
        None
    }
}

impl<'a, K: WeightKind> CheckedTable<'a, K> {
    // The first row whose matches all hold, as a part of the table.
    pub fn lookup(&self, frame: &Frame) -> Option<&'a [u32]>
        ensures { OfItsRows K.WeightKind.ops self.now.words.now (λ rows. MatchOption result (AllByRecursion (λ x. holds x.matches frame.now.values ≡ false) rows) (λ found. Decides rows frame.now.values self.now.words.now found.now)) }
    {
        let mut rows = Rows { words: self.words };
        let row = rows.find(|row| row_holds(row, frame))?;
        Some(first_row(row))
    }
}
