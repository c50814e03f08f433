// Calls on a bench, and their answers.
ghost use Rattle.std.specs.Prelude.{◌≡◌, ◌≤◌, length};
ghost use Rattle.series.specs.Calls.{part_length, parts_length};
ghost use Rattle.series.specs.Turns.{answer_of, Answered, Went};

use super::answers::{Answer, part_len, word_of};
use bench::Bench;
use calls::Call;
use faults::BenchFault;
use weights::WeightKind;

// Makes one call, whose operands may name the answers given; a frame is forwarded into the words.
fn make<K: WeightKind>(
    bench: &mut Bench<'_, K>,
    given: &[Answer],
    call: &Call<'_>,
    words: &mut [u32],
) -> Result<Answer, BenchFault>
    requires { length words.old ≡ part_length call.now }
    ensures { Answered K.WeightKind.ops given.now call.now bench.old (answer_of result) words.old words.new bench.new }
{
    match call {
        Call::Compile(text) => bench.compile_text(text).map(Answer::Word),
        Call::Union(left, right) => bench
            .union(word_of(*left, given), word_of(*right, given))
            .map(Answer::Word),
        Call::Sequence(first, second) => bench
            .sequence(word_of(*first, given), word_of(*second, given))
            .map(Answer::Word),
        Call::Star(operand) => bench.star(word_of(*operand, given)).map(Answer::Word),
        Call::Install(operand) => bench
            .install(word_of(*operand, given))
            .map(Answer::Installed),
        Call::Forward(frame, _) => bench.forward(frame, words).map(Answer::Written),
    }
}

// Makes one call, and tells a refusal as an answer too.
fn answer<K: WeightKind>(
    bench: &mut Bench<'_, K>,
    given: &[Answer],
    call: &Call<'_>,
    words: &mut [u32],
) -> Answer
    requires { length words.old ≡ part_length call.now }
    ensures { Answered K.WeightKind.ops given.now call.now bench.old result words.old words.new bench.new }
{
    make(bench, given, call, words).unwrap_or_else(Answer::Refused)
}

// The answers to calls, one after another.
pub(crate) fn answer_all<K: WeightKind>(
    bench: &mut Bench<'_, K>,
    calls: &[Call<'_>],
    answers: &mut [Answer],
    written: &mut [u32],
)
    requires answers { length calls.now ≤ length answers.old }
    requires written { parts_length calls.now ≤ length written.old }
    ensures { Went K.WeightKind.ops bench.old calls.now answers.old answers.new written.old written.new bench.new }
{
    let mut from = 0;
    for (place, call) in calls.iter().enumerate() {
        let to = from + part_len(call);
        let given = answer(bench, &answers[..place], call, &mut written[from..to]);
        answers[place] = given;
        from = to;
    }
}
