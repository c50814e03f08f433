// A whole trial.
ghost use Rattle.std.specs.Prelude.{◌≡◌, ◌≤◌, length, IfOk};
ghost use Rattle.bench.specs.Sizes.{sizes};
ghost use Rattle.pages.specs.Pages.{Printed, PrintedSome, SaysSome};
ghost use Rattle.replays.specs.Replays.{kind_ops};
ghost use Rattle.series.specs.Calls.{parts_length};
ghost use Rattle.trials.specs.Records.{no_call_line};
ghost use Rattle.trials.specs.Trials.{Tells, TellsScript, Tried, calls_limit, told_length};
ghost use Rattle.trials.specs.Ready.{Ready};

use super::answers::print_record;
use super::told::{Short, Told};
use actions::Action;
use calls::{Call, Operand};
use faults::Shown;
use numerals::Decimal;
use pages::{Page, Print};
use records::{Cell, Node};
use replays::Kind;
use scripts::{NoCall, read_calls, write_frames};
use series::{Answer, SeriesFault, perform};
use weights::{Cost, Reach, WeightKind};

// A script has at most this many calls.
const CALLS: usize = 1_024;

// The line that names a line which is no call, and how long it is.
fn tell_no_call(line: usize, out: &mut [u8]) -> Result<usize, usize>
    ensures { Printed (no_call_line line) out.old result out.new }
{
    let mut page = Page::new(out);
    page.push_str("line ");
    Decimal(line as u64).print(&mut page);
    page.push_str(": no call\n");
    page.finish()
}

// Performs the calls and prints what came of them.
fn print_calls<K: WeightKind>(
    page: &mut Page<'_>,
    calls: &[Call<'_>],
    actions: &mut [Action],
    cells: &mut [Cell],
    nodes: &mut [Node],
    table: &mut [u32],
    written: &mut [u32],
    in_force: &mut [u32],
)
    requires few { length calls.now ≤ calls_limit }
    requires written { parts_length calls.now ≤ length written.old }
    requires in_force { length table.old ≤ length in_force.old }
    ensures { SaysSome (Tells K.WeightKind.ops (sizes actions.old cells.old nodes.old table.old) calls.now) page.old page.new }
{
    let mut answers = [Answer::Installed(0); CALLS];
    let ended = perform::<K>(
        actions,
        cells,
        nodes,
        table,
        calls,
        &mut answers,
        written,
        in_force,
    );
    let fault = match ended {
        Ok(ended) => return print_record(page, calls, &answers, written, in_force, ended),
        Err(fault) => fault,
    };
    match fault {
        SeriesFault::Memory(fault) => Shown::from(fault).print(page),
        _ => unreachable!(),
    }
}

// The record of a script whose frames' words are these, and how long it is.
fn tell_script<'a, K: WeightKind>(
    script: &'a [u8],
    frames: &'a [u32],
    actions: &mut [Action],
    cells: &mut [Cell],
    nodes: &mut [Node],
    table: &mut [u32],
    written: &mut [u32],
    in_force: &mut [u32],
    out: &mut [u8],
) -> Result<usize, usize>
    requires ready { Ready script.now frames.now (length written.old) }
    requires in_force { length table.old ≤ length in_force.old }
    ensures { PrintedSome (TellsScript K.WeightKind.ops (sizes actions.old cells.old nodes.old table.old) script.now) out.old result out.new }
{
    let mut calls = [Call::Install(Operand::Answer(0)); CALLS];
    let count = read_calls(script, frames, &mut calls);
    let calls = &calls[..count];
    let mut page = Page::new(out);
    print_calls::<K>(
        &mut page, calls, actions, cells, nodes, table, written, in_force,
    );
    page.finish()
}

// Reads a script, performs its calls on a bench opened in the first four memories, and tells what came of them, or what is wrong.
// The words are for the script's frames, for what the calls forward and for the table in force at the end.
fn try_script<K: WeightKind>(
    script: &[u8],
    actions: &mut [Action],
    cells: &mut [Cell],
    nodes: &mut [Node],
    table: &mut [u32],
    words: &mut [u32],
    out: &mut [u8],
) -> Result<Told, Short>
    ensures { Tried K.WeightKind.ops (sizes actions.old cells.old nodes.old table.old) script.now (length words.old) out.old result out.new }
{
    let needs = match write_frames(script, words) {
        Ok(needs) => needs,
        Err(NoCall(line)) => {
            return match tell_no_call(line, out) {
                Ok(size) => Ok(Told::NoCall(size)),
                Err(size) => Err(Short::Bytes(size)),
            };
        }
    };
    if CALLS < needs.calls {
        return Err(Short::Calls(needs.calls));
    }
    let wanted = needs.words.saturating_add(needs.room);
    let wanted = wanted.saturating_add(table.len());
    if words.len() < wanted {
        return Err(Short::Words(wanted));
    }
    let (frames, words) = words.split_at_mut(needs.words);
    let (written, in_force) = words.split_at_mut(needs.room);
    let told = tell_script::<K>(
        script, frames, actions, cells, nodes, table, written, in_force, out,
    );
    match told {
        Ok(size) => Ok(Told::Record(size)),
        Err(size) => Err(Short::Bytes(size)),
    }
}

// The same on a bench of any kind of weights.
pub fn trial(
    kind: Kind,
    script: &[u8],
    actions: &mut [Action],
    cells: &mut [Cell],
    nodes: &mut [Node],
    table: &mut [u32],
    words: &mut [u32],
    out: &mut [u8],
) -> Result<Told, Short>
    ensures tried { Tried (kind_ops kind) (sizes actions.old cells.old nodes.old table.old) script.now (length words.old) out.old result out.new }
    ensures within { IfOk result (λ told. told_length told ≤ length out.old) }
{
    // A kind of weights is a type and no value: so the value picks the instance here.
    match kind {
        Kind::Reach => try_script::<Reach>(script, actions, cells, nodes, table, words, out),
        Kind::Cost => try_script::<Cost>(script, actions, cells, nodes, table, words, out),
    }
}
