// The table of a text on a bench.
ghost use Rattle.compiler.specs.Printing.{PutsInForce};

use bench::Bench;
use faults::BenchFault;
use weights::WeightKind;

// Puts the table of a policy text in force. The answer is how many words it has.
pub(crate) fn put_in_force<K: WeightKind>(
    bench: &mut Bench<'_, K>,
    text: &[u8],
) -> Result<usize, BenchFault>
    ensures { PutsInForce K.WeightKind.ops text.now bench.old result bench.new }
{
    let word = bench.compile_text(text)?;
    bench.install(word)
}
