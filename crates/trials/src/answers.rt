// The answers to calls, line by line.
ghost use Rattle.std.specs.Prelude.{ℕ, ◌≤◌, List, length};
ghost use Rattle.pages.specs.Pages.{Says};
ghost use Rattle.series.specs.Calls.{parts_length};
ghost use Rattle.series.specs.Series.{lent_of};
ghost use Rattle.series.specs.declared.answers.Answer.TheVariants.{Word, Installed, Written};
ghost use Rattle.trials.specs.Records.{answer_said, answers_said, numbered, record_said, records_line};

use calls::Call;
use counts::Counts;
use faults::Shown;
use lines::Table;
use numerals::{Decimal, Hex};
use pages::{Page, Print};
use replays::Emitted;
use series::{Answer, Ended, part_len};
use tables::SENT_WORDS;

fn print_word(page: &mut Page<'_>, word: u32)
    ensures { (part : List ℕ) → Says page.old (answer_said (Word word) part) page.new }
{
    page.push_str("word ");
    Hex(word).print(page);
    page.push(b'\n')
}

fn print_installed(page: &mut Page<'_>, words: usize)
    ensures { (part : List ℕ) → Says page.old (answer_said (Installed words) part) page.new }
{
    page.push_str("installed ");
    Decimal(words as u64).print(page);
    page.push_str(" words\n")
}

fn print_written(page: &mut Page<'_>, count: usize, part: &[u32])
    ensures { Says page.old (answer_said (Written count) part.now) page.new }
{
    page.push_str("emitted ");
    Decimal((count / SENT_WORDS) as u64).print(page);
    page.push_str(" frames\n");
    Emitted(&part[..count.min(part.len())]).print(page)
}

// What an answer says, with its part of the words.
fn print_answer(page: &mut Page<'_>, answer: Answer, part: &[u32])
    ensures { Says page.old (answer_said answer part.now) page.new }
{
    match answer {
        Answer::Word(word) => print_word(page, word),
        Answer::Installed(words) => print_installed(page, words),
        Answer::Written(count) => print_written(page, count, part),
        Answer::Refused(fault) => Shown::from(fault).print(page),
    }
}

// The same behind the number of the call.
fn print_numbered(page: &mut Page<'_>, number: usize, answer: Answer, part: &[u32])
    ensures { Says page.old (numbered number (answer_said answer part.now)) page.new }
{
    Decimal(number as u64).print(page);
    page.push(b' ');
    print_answer(page, answer, part)
}

// The answers to calls, each with its part of the words.
fn print_answers(page: &mut Page<'_>, calls: &[Call<'_>], answers: &[Answer], words: &[u32])
    requires answers { length calls.now ≤ length answers.now }
    requires words { parts_length calls.now ≤ length words.now }
    ensures { Says page.old (answers_said 1 calls.now answers.now words.now) page.new }
{
    let mut rest = words;
    for (place, call) in calls.iter().enumerate() {
        let (part, others) = rest.split_at(part_len(call));
        print_numbered(page, place + 1, answers[place], part);
        rest = others;
    }
}

fn print_records(page: &mut Page<'_>, held: Counts)
    ensures { Says page.old (records_line held) page.new }
{
    page.push_str("records ");
    Decimal(held.actions as u64).print(page);
    page.push(b' ');
    Decimal(held.cells as u64).print(page);
    page.push(b' ');
    Decimal(held.nodes as u64).print(page);
    page.push(b'\n')
}

// The record of calls that ended so.
pub(crate) fn print_record(
    page: &mut Page<'_>,
    calls: &[Call<'_>],
    answers: &[Answer],
    words: &[u32],
    in_force: &[u32],
    ended: Ended,
)
    requires answers { length calls.now ≤ length answers.now }
    requires words { parts_length calls.now ≤ length words.now }
    requires table { ended.table_words ≤ length in_force.now }
    ensures { Says page.old (record_said calls.now (lent_of answers.now words.now in_force.now) ended) page.new }
{
    print_answers(page, calls, answers, words);
    print_records(page, ended.records);
    Table(&in_force[..ended.table_words]).print(page)
}
