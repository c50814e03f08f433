// Performs the calls of a script from standard input on a bench, and prints the record of what came of them.
#![tactic(auto)]

use actions::Action;
use anyhow::anyhow;
use format::{Amount, Setting};
use records::{Cell, Diagram, Node};
use replays::Kind;
use std::env;
use std::io::{Read, Write};
use std::process::ExitCode;
use trials::{Short, Told, trial};

// No memory may be so long, so a longer one is refused as this one is.
const TOO_LONG: usize = 1 << 20;

// How much memory a trial asks for, or the length of its record.
fn wanted(answer: Result<Told, Short>) -> usize {
    match answer {
        Ok(Told::Record(length)) => length,
        Ok(Told::NoCall(length)) => length,
        Err(Short::Calls(_)) => 0,
        Err(Short::Words(count)) => count,
        Err(Short::Bytes(count)) => count,
    }
}

fn size(argument: Option<String>) -> anyhow::Result<usize> {
    let Some(argument) = argument else {
        return Err(anyhow!("usage: trial KIND [ACTIONS CELLS NODES TABLE]"));
    };
    Ok(argument.as_str().parse::<usize>()?)
}

// Prints the script's record, and gives the status to end with.
fn tell(
    rt: &HostRuntime,
    kind: Kind,
    sizes: [usize; 4],
    script: &[u8],
) -> anyhow::Result<ExitCode> {
    let none = Amount { number: 0 };
    let cell = Cell {
        action: none,
        weight: none,
        rest: none,
    };
    let node = Node {
        test: Setting { field: 0, value: 0 },
        yes: Diagram::Leaf(none),
        no: Diagram::Leaf(none),
    };
    let [actions, cells, nodes, table] = sizes;
    let mut actions = vec![in rt.alloc(); Action::keep_all(); actions.min(TOO_LONG)]?;
    let mut cells = vec![in rt.alloc(); cell; cells.min(TOO_LONG)]?;
    let mut nodes = vec![in rt.alloc(); node; nodes.min(TOO_LONG)]?;
    let mut table = vec![in rt.alloc(); 0; table.min(TOO_LONG)]?;
    // Without memory a trial says how much it needs: first of words, then of bytes.
    let count = wanted(trial(
        kind,
        script,
        &mut actions,
        &mut cells,
        &mut nodes,
        &mut table,
        &mut [],
        &mut [],
    ));
    let mut words = vec![in rt.alloc(); 0; count]?;
    let count = wanted(trial(
        kind,
        script,
        &mut actions,
        &mut cells,
        &mut nodes,
        &mut table,
        &mut words,
        &mut [],
    ));
    let mut record = vec![in rt.alloc(); 0; count]?;
    let told = trial(
        kind,
        script,
        &mut actions,
        &mut cells,
        &mut nodes,
        &mut table,
        &mut words,
        &mut record,
    );
    match told {
        Ok(Told::Record(length)) => {
            rt.stdout().write_all(&record[..length])?;
            Ok(ExitCode::SUCCESS)
        }
        Ok(Told::NoCall(length)) => {
            rt.stdout().write_all(&record[..length])?;
            Ok(ExitCode::FAILURE)
        }
        Err(Short::Calls(_)) => Err(anyhow!("the script has more than 1024 calls")),
        Err(_) => Err(anyhow!("too little memory for the record")),
    }
}

// The arguments are the kind of weights and, if they are not the usual ones, the sizes of the four memories.
fn run(rt: &HostRuntime) -> anyhow::Result<ExitCode> {
    let mut args = env::args(rt)?;
    args.next();
    let Some(kind) = args.next() else {
        return Err(anyhow!("usage: trial KIND [ACTIONS CELLS NODES TABLE]"));
    };
    let kind = kind.as_str().parse::<Kind>()?;
    let sizes = match args.next() {
        None => [256, 512, 512, 1_024],
        actions => [
            size(actions)?,
            size(args.next())?,
            size(args.next())?,
            size(args.next())?,
        ],
    };
    if args.next().is_some() {
        return Err(anyhow!("usage: trial KIND [ACTIONS CELLS NODES TABLE]"));
    }
    let mut script = Vec::new(rt.alloc());
    rt.stdin().read_to_end(&mut script)?;
    tell(rt, kind, sizes, &script)
}

fn main(rt: HostRuntime) -> anyhow::Result<ExitCode> {
    run(&rt)
}
