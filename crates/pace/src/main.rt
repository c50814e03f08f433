// Compiles a policy text again and again, each time in empty stores, and prints how many records it adds. Standard error gets the
// nanoseconds of each round, for `tools/speed`.
#![tactic(auto)]

use actions::Action;
use anyhow::anyhow;
use checking::CheckedPolicy;
use counts::Counts;
use engine::Engine;
use format::{Amount, Setting, TEXT_LIMIT, WORDS_LIMIT};
use policy::read_policy;
use records::{Cell, Diagram, Node};
use std::env;
use std::io::Read;
use std::time::Instant;
use weights::{Cost, Reach, WeightKind};

// Each of the rounds, and what is in store after the last.
fn rounds<K: WeightKind>(
    rt: &HostRuntime,
    policy: &CheckedPolicy,
    sizes: [usize; 3],
    rounds: usize,
) -> anyhow::Result<Counts> {
    let none = Amount { number: 0 };
    let cell = Cell {
        action: none,
        weight: none,
        rest: none,
    };
    let node = Node {
        test: Setting { field: 0, value: 0 },
        yes: Diagram::Leaf(none),
        no: Diagram::Leaf(none),
    };
    let [actions, cells, nodes] = sizes;
    let mut actions = vec![in rt.alloc(); Action::keep_all(); actions]?;
    let mut cells = vec![in rt.alloc(); cell; cells]?;
    let mut nodes = vec![in rt.alloc(); node; nodes]?;
    let mut records = Counts::none();
    for _ in 0..rounds {
        let mut engine = Engine::<K>::open(&mut actions, &mut cells, &mut nodes);
        let start = Instant::now(rt)?;
        let answer = engine.compile(policy);
        let took = start.elapsed(rt)?;
        if answer.is_err() {
            return Err(anyhow!("the stores are too small for the policy"));
        }
        records = engine.records();
        eprintln!(rt; "{}", took.as_nanos())?;
    }
    Ok(records)
}

fn size(argument: Option<String>) -> anyhow::Result<usize> {
    let Some(argument) = argument else {
        return Err(anyhow!("usage: pace KIND ACTIONS CELLS NODES ROUNDS < POLICY"));
    };
    Ok(argument.as_str().parse::<usize>()?)
}

fn run(rt: &HostRuntime) -> anyhow::Result<()> {
    let mut args = env::args(rt)?;
    args.next();
    let kind = args.next();
    let sizes = [size(args.next())?, size(args.next())?, size(args.next())?];
    let count = size(args.next())?;
    let mut text = Vec::new(rt.alloc());
    rt.stdin()
        .take(TEXT_LIMIT as u64 + 1)
        .read_to_end(&mut text)?;
    let Ok(policy) = read_policy(&text, &mut [0; WORDS_LIMIT]) else {
        return Err(anyhow!("the text is no policy"));
    };
    let records = match kind.as_deref() {
        Some("reach") => rounds::<Reach>(rt, &policy, sizes, count)?,
        Some("cost") => rounds::<Cost>(rt, &policy, sizes, count)?,
        _ => return Err(anyhow!("the kinds are reach and cost")),
    };
    let Counts {
        actions,
        cells,
        nodes,
    } = records;
    println!(rt; "{actions} actions, {cells} cells, {nodes} nodes")?;
    Ok(())
}

fn main(rt: HostRuntime) -> anyhow::Result<()> {
    run(&rt)
}
