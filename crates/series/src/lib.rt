// Whole series of calls.
#![tactic(auto)]

ghost use Rattle.std.specs.Prelude.{◌≡◌, ◌≤◌, ◌↔◌, length, min, Err, IfOk, OnErr, MatchResult};
ghost use Rattle.series.specs.declared.fault.SeriesFault.{SeriesFault};
ghost use Rattle.series.specs.Calls.{parts_length};
ghost use Rattle.series.specs.Series.{most, Ends, Performs, TooShort, Unperformed, lent_of};
ghost use Rattle.series.specs.Turns.{Enough};
ghost use Rattle.bench.specs.Sizes.{sizes};

mod answering;
mod answers;
mod ended;
mod fault;
#[cfg(test)]
mod tests;

use actions::Action;
use answering::answer_all;
pub use answers::{Answer, part_len};
use bench::{Bench, Memories};
use calls::Call;
use counts::Sizes;
pub use ended::Ended;
pub use fault::SeriesFault;
use records::{Cell, Node};
use weights::WeightKind;

// How many words of memory the calls take, or the most that can be said.
fn parts_len(calls: &[Call<'_>]) -> usize
    ensures { result ≡ min (parts_length calls.now) most }
{
    let mut needed: usize = 0;
    for call in calls {
        needed = needed.saturating_add(part_len(call));
    }
    needed
}

// Judges what is lent for the answers of these calls.
fn judge_lent(
    calls: &[Call<'_>],
    table_words: usize,
    answers: &[Answer],
    written: &[u32],
    in_force: &[u32],
) -> Result<(), SeriesFault>
    ensures { let lent = lent_of answers.now written.now in_force.now in
        MatchResult result (λ _. Enough calls.now table_words lent) (TooShort calls.now table_words lent) }
{
    if answers.len() < calls.len() {
        return Err(SeriesFault::Answers(calls.len()));
    }
    let needed = parts_len(calls);
    if written.len() < needed {
        return Err(SeriesFault::Written(needed));
    }
    if in_force.len() < table_words {
        return Err(SeriesFault::InForce(table_words));
    }
    Ok(())
}

// What is told of a bench at the end.
fn end<K: WeightKind>(bench: &Bench<'_, K>, in_force: &mut [u32]) -> Ended
    requires { length bench.now.table ≤ length in_force.old }
    ensures { Ends bench.now result in_force.old in_force.new }
{
    let table = bench.table();
    let words = table.words();
    let table_words = words.len();
    in_force[..table_words].copy_from_slice(words);
    Ended {
        records: bench.records(),
        table_words,
    }
}

// Opens a bench in the first four memories, makes the calls one after another, and answers each. The words of forwarded frames
// are written into `written`, and the table in force at the end into `in_force`.
pub fn perform<K: WeightKind>(
    actions: &mut [Action],
    cells: &mut [Cell],
    nodes: &mut [Node],
    table: &mut [u32],
    calls: &[Call<'_>],
    answers: &mut [Answer],
    written: &mut [u32],
    in_force: &mut [u32],
) -> Result<Ended, SeriesFault>
    ensures refused { let z = sizes actions.old cells.old nodes.old table.old in
        let lent = lent_of answers.old written.old in_force.old in
        (f : SeriesFault) → (result ≡ Err f) ↔ Unperformed z calls.now lent f }
    ensures performed { let z = sizes actions.old cells.old nodes.old table.old in
        let lent = lent_of answers.old written.old in_force.old in
        let left = lent_of answers.new written.new in_force.new in
        IfOk result (Performs K.WeightKind.ops z calls.now lent left) }
    ensures actions { OnErr result (actions.new ≡ actions.old) }
    ensures cells { OnErr result (cells.new ≡ cells.old) }
    ensures nodes { OnErr result (nodes.new ≡ nodes.old) }
    ensures table { OnErr result (table.new ≡ table.old) }
    ensures answers { OnErr result (answers.new ≡ answers.old) }
    ensures written { OnErr result (written.new ≡ written.old) }
    ensures in_force { OnErr result (in_force.new ≡ in_force.old) }
{
    let table_words = table.len();
    let sizes = Sizes {
        actions: actions.len(),
        cells: cells.len(),
        nodes: nodes.len(),
        table_words,
    };
    sizes.judge()?;
    judge_lent(calls, table_words, answers, written, in_force)?;
    let memories = Memories {
        actions,
        cells,
        nodes,
        table,
    };
    let mut bench: Bench<K> = Bench::open(memories);
    answer_all(&mut bench, calls, answers, written);
    Ok(end(&bench, in_force))
}
