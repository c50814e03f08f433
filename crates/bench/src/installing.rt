// Putting a table in force.
ghost use Rattle.std.specs.Prelude.{◌≡◌, ◌≤◌, length};
ghost use Rattle.format.specs.Words.{value_end};
ghost use Rattle.bench.specs.Installs.{Installs};

use engine::Engine;
use faults::BenchFault;
use tables::TableInForce;
use weights::WeightKind;

// Puts the table of a diagram in store in force, if it is no longer than its memory. The answer is how many words it has.
pub(crate) fn put_in_force<K: WeightKind>(
    engine: &Engine<'_, K>,
    word: u32,
    table: &mut TableInForce<'_, K>,
) -> Result<usize, BenchFault>
    requires { length table.old.words.now ≤ value_end }
    ensures installs { Installs K.WeightKind.ops engine.now.stored word table.old.words.now table.old.count result table.new.words.now table.new.count }
    ensures lender { table.new.words.ghost_name ≡ table.old.words.ghost_name }
{
    let count = engine.list(word, table.words)?;
    table.count = count;
    Ok(count)
}
