// What is written of a text.
ghost use Rattle.std.specs.Prelude.{◌≡◌};
ghost use Rattle.pages.specs.Pages.{Says};
ghost use Rattle.compiler.specs.Texts.{bytes_of_words};
ghost use Rattle.compiler.specs.Printing.{PrintsTable, PrintsAnswer};

use super::TABLE_WORDS;
use super::installing::put_in_force;
use actions::Action;
use bench::{Bench, Memories};
use faults::{BenchFault, Shown};
use format::{Amount, Setting};
use pages::{Page, Print, print_each};
use records::{Cell, Diagram, Node};
use weights::WeightKind;

const ACTIONS: usize = 256;

const CELLS: usize = 512;

const NODES: usize = 512;

// A word of a table as four bytes.
#[derive(Clone, Copy)]
struct WordBytes(u32);

impl From<u32> for WordBytes {
    ghost from_gives = { λ bits word. word.0 ≡ bits };

    fn from(bits: u32) -> WordBytes {
        WordBytes(bits)
    }
}

impl Print for WordBytes {
    ghost use Rattle.std.specs.Int.{to_be_bytes, w32};

    ghost output = { λ word. to_be_bytes w32 word.0 };

    fn print(&self, page: &mut Page<'_>) {
        page.push_bytes(&self.0.to_be_bytes())
    }
}

// Prints the words of a table, each most significant byte first.
fn print_words(words: &[u32], page: &mut Page<'_>)
    ensures { Says page.old (bytes_of_words words.now) page.new }
{
    print_each::<WordBytes>(page, words)
}

// Prints the table of a policy text, or nothing if the text is refused.
fn print_table<K: WeightKind>(text: &[u8], page: &mut Page<'_>) -> Result<(), BenchFault>
    ensures { PrintsTable K.WeightKind.ops text.now page.old result page.new }
{
    let nothing = Amount { number: 0 };
    let cell = Cell {
        action: nothing,
        weight: nothing,
        rest: nothing,
    };
    let node = Node {
        test: Setting { field: 0, value: 0 },
        yes: Diagram::drop_all(),
        no: Diagram::drop_all(),
    };
    let mut actions = [Action::keep_all(); ACTIONS];
    let mut cells = [cell; CELLS];
    let mut nodes = [node; NODES];
    let mut table = [0; TABLE_WORDS];
    let memories = Memories {
        actions: &mut actions,
        cells: &mut cells,
        nodes: &mut nodes,
        table: &mut table,
    };
    let mut bench: Bench<K> = Bench::open(memories);
    put_in_force(&mut bench, text)?;
    print_words(bench.table().words(), page);
    Ok(())
}

// Prints the table, or the line of the refusal.
pub(crate) fn print_answer<K: WeightKind>(text: &[u8], page: &mut Page<'_>)
    ensures { PrintsAnswer K.WeightKind.ops text.now page.old page.new }
{
    match print_table::<K>(text, page) {
        Ok(()) => (),
        Err(fault) => Shown::from(fault).print(page),
    }
}
