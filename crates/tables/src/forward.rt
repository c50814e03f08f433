// Frames forwarded through a checked table.
ghost use Rattle.std.specs.Prelude.{◌≡◌, ◌+◌, ◌≤◌, List, [], ◌∷◌, ◌++◌, option_map, length, drop, replicate, ◌<◌, IfOk, MatchResult, OnErr};
ghost use Rattle.std.specs.Iterator.{YieldsFirstBy, item_count};
ghost use Rattle.format.specs.Words.{value_of};
ghost use Rattle.tables.specs.Rows.{OfItsRows};
ghost use Rattle.faults.specs.declared.layers.FrameFault.TheVariants.{NoRoom};
ghost use Rattle.tables.specs.Emits.{Sent as SentAt, sent_length, sent_words};
ghost use Rattle.tables.specs.Scans.{RowSent, RowFull, applied as applied_to, sends, NextSent, above, values_of, sent_of};
ghost use Rattle.tables.specs.Forwards.{Answered, Refused};

use super::check::CheckedTable;
use super::kind::TableKind;
use super::word::TableWord;
use faults::{FrameFault, zeros_if_refused};
use format::{Setting, VALUE_END, Word};
use frames::{Frame, WIDTH};
use std::cmp::Ordering;
use weights::WeightKind;

// An emitted frame has a weight word and a word for each field.
pub const SENT_WORDS: usize = 1 + WIDTH;

// The frame after the set words with which words begin.
fn applied(words: &[u32], frame: Frame) -> Frame
    ensures { result.values ≡ applied_to words.now frame.values }
{
    // The values are changed where they stand: a `Frame::with` for each word copies the frame each time.
    let mut values = frame.values;
    for bits in words {
        if !TableKind::Set.marks(*bits) {
            return Frame { values };
        }
        let word = Word::from(*bits);
        if let Some(setting) = Setting::new(word.field, word.value) {
            values[setting.field as usize] = setting.value;
        }
    }
    Frame { values }
}

// A frame that a row sends on, and its weight.
#[derive(Clone, Copy)]
struct Sent {
    frame: Frame,
    weight: u32,
}

// What a row sends for a frame: at each weight word, the frame that the set words behind it make.
#[derive(Clone, Copy)]
struct Emissions<'a> {
    row: &'a [u32],
    frame: Frame,
}

impl Iterator for Emissions<'_> {
    type Item = Sent;

    ghost next_gives = { YieldsFirstBy sent_of (λ s. sends s.row.now s.frame.values) };

    ghost remaining = { item_count (λ s. sends s.row.now s.frame.values) };

    fn next(&mut self) -> Option<Sent> {
        while let Some((bits, later)) = self.row.split_first() {
            self.row = later;
            if TableKind::Weight.marks(*bits) {
                return Some(Sent {
                    frame: applied(later, self.frame),
                    weight: Word::from(*bits).value,
                });
            }
        }
        None
    }
}

impl Emissions<'_> {
    // The least frame that is sent and comes after the last one, with the joined weight at which it is sent. One scan finds
    // both, since each frame that a row sends is made anew.
    fn next_after<K: WeightKind>(self, last: Option<Frame>) -> Option<Sent>
        ensures { NextSent K.WeightKind.ops (values_of last) (sends self.entry.row.now self.entry.frame.values) (option_map sent_of result) }
    {
        let mut best = None;
        for sent in self {
            take_in::<K>(&mut best, last.as_ref(), &sent);
        }
        best
    }
}

// Whether a frame comes after the last one, if there is one.
#[tactic(auto, using(crate::proofs::Order::lt_before))]
fn comes_after(frame: &Frame, last: Option<&Frame>) -> bool
    ensures { result ≡ above (option_map (λ s. s.now.values) last.entry) frame.now.values }
{
    last.is_none_or(|last| last.cmp(frame).is_lt())
}

// Takes one more frame that is sent into the best of a scan: an equal frame joins its weight, a lesser one that comes after
// the last takes its place.
fn take_in<K: WeightKind>(best: &mut Option<Sent>, last: Option<&Frame>, sent: &Sent)
    ensures { (xs : List SentAt) → NextSent K.WeightKind.ops (option_map (λ s. s.now.values) last.entry) xs (option_map sent_of best.old) → NextSent K.WeightKind.ops (option_map (λ s. s.now.values) last.entry) (xs ++ (sent_of sent.now ∷ [])) (option_map sent_of best.new) }
{
    if !comes_after(&sent.frame, last) {
        return;
    }
    match best {
        None => *best = Some(first::<K>(sent)),
        Some(found) => match sent.frame.cmp(&found.frame) {
            Ordering::Less => *found = first::<K>(sent),
            Ordering::Equal => found.weight = K::join(found.weight, sent.weight),
            Ordering::Greater => {}
        },
    }
}

// A frame that is sent for the first time.
fn first<K: WeightKind>(sent: &Sent) -> Sent
    ensures { sent_of result ≡ record { frame = sent.now.frame.values; weight = K.WeightKind.ops.join K.WeightKind.ops.zero sent.now.weight } }
{
    Sent {
        frame: sent.frame,
        weight: K::join(K::zero(), sent.weight),
    }
}

// An emitted frame in words: a weight word and the frame's words.
fn sent_words(weight: u32, frame: &Frame) -> [u32; SENT_WORDS]
    ensures { result ≡ sent_words (record { frame = frame.now.values; weight = value_of weight }) }
{
    let [a, b, c, d, e, f, g, h] = <[u32; WIDTH]>::from(frame);
    // A weight has 24 bits: the remainder is the weight itself.
    let first = TableWord {
        kind: TableKind::Weight,
        field: 0,
        value: weight % VALUE_END,
    };
    [u32::from(first), a, b, c, d, e, f, g, h]
}

// Puts words at the front, if there is room. Tried: written in the loop below, through `out[count..].first_chunk_mut()`,
// the check does not know these words afterwards.
fn put(words: [u32; SENT_WORDS], room: &mut [u32]) -> Result<(), FrameFault>
    ensures { MatchResult result (λ _. (sent_length ≤ length room.old) × (room.new ≡ words ++ drop sent_length room.old)) (λ e. (e ≡ NoRoom) × (length room.old < sent_length)) }
{
    *room.first_chunk_mut().ok_or(FrameFault::NoRoom)? = words;
    Ok(())
}

// Writes what is sent, as far as there is room.
fn send_all<K: WeightKind>(emissions: Emissions<'_>, out: &mut [u32]) -> Result<usize, FrameFault>
    ensures { MatchResult result (λ n. RowSent K.WeightKind.ops (sends emissions.entry.row.now emissions.entry.frame.values) out.old n out.new) (λ e. (e ≡ NoRoom) × RowFull (sends emissions.entry.row.now emissions.entry.frame.values) (length out.old)) }
{
    // Tried: after a loop over `chunks_exact_mut`, or one that moves on to the rest from `split_first_chunk_mut`, the check
    // knows none of the words of `out`. A `for` over `successors` is refused, which may have no end. So the words are
    // counted and the last frame is kept here.
    let mut count = 0;
    let mut last = None;
    while let Some(next) = emissions.next_after::<K>(last) {
        put(sent_words(next.weight, &next.frame), &mut out[count..])?;
        count += SENT_WORDS;
        last = Some(next.frame);
    }
    Ok(count)
}

impl<'a, K: WeightKind> CheckedTable<'a, K> {
    // Writes the answer to a frame, as far as there is room.
    fn answer(&self, frame: &[u32], out: &mut [u32]) -> Result<usize, FrameFault>
        ensures within { IfOk result (λ n. n ≤ length out.old) }
        ensures exact { OfItsRows K.WeightKind.ops self.now.words.now (λ rows. MatchResult result (λ n. Answered K.WeightKind.ops rows frame.now out.old n out.new) (λ e. Refused K.WeightKind.ops rows frame.now (length out.old) e)) }
    {
        let frame = Frame::try_from(frame)?;
        match self.lookup(&frame) {
            Some(row) => send_all::<K>(Emissions { row, frame }, out),
            None => Ok(0),
        }
    }

    // Writes what becomes of a frame: the frames that go out, in ascending order and none twice, nine words each, the weight first.
    // The answer is the number of words written into the memory, which is lent by a rule of the project; a refusal leaves zeros.
    pub fn forward(&self, frame: &[u32], out: &mut [u32]) -> Result<usize, FrameFault>
        ensures exact { OfItsRows K.WeightKind.ops self.now.words.now (λ rows. MatchResult result (λ n. Answered K.WeightKind.ops rows frame.now out.old n out.new) (λ e. Refused K.WeightKind.ops rows frame.now (length out.old) e)) }
        ensures within { IfOk result (λ n. n ≤ length out.old) }
        ensures zeros { OnErr result (out.new ≡ replicate (length out.old) 0) }
    {
        let answer = self.answer(frame, out);
        zeros_if_refused(answer, out)
    }
}
