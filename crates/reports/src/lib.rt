// The record of a policy as a technician reads it.
#![tactic(auto)]

ghost use Rattle.std.specs.Prelude.{◌≡◌, ◌≤◌, ◌++◌, length, decimal, IfOk};
ghost use Rattle.format.specs.Fields.{field_name};
ghost use Rattle.pages.specs.Pages.{Says, SaysSome, PrintedSome};
ghost use Rattle.reports.specs.Lines.{kind_name, details, word_line, accepted_record};
ghost use Rattle.reports.specs.Reports.{Tells, OnlyReport};

use faults::Shown;
use format::{PolicyKind, WORDS_LIMIT, Word, field_name};
use numerals::{Decimal, Hex};
use pages::{Page, Print, print_each};
use policy::read_policy;

// What the kind of this number is called.
fn kind_name(number: u32) -> &'static str
    ensures { result.now ≡ kind_name number }
{
    match PolicyKind::try_from(number) {
        Ok(PolicyKind::Drop) => "drop",
        Ok(PolicyKind::Pass) => "pass",
        Ok(PolicyKind::Test) => "test ",
        Ok(PolicyKind::Set) => "set ",
        Ok(PolicyKind::Cost) => "cost ",
        Ok(PolicyKind::Not) => "not",
        Ok(PolicyKind::Union) => "union",
        Ok(PolicyKind::Sequence) => "sequence",
        Ok(PolicyKind::Star) => "star",
        Err(_) => "unknown",
    }
}

// A field and a value with a sign between them.
fn print_setting(page: &mut Page<'_>, word: Word, sign: &str)
    ensures { Says page.old (field_name word.field ++ (sign.now ++ decimal word.value)) page.new }
{
    page.push_str(field_name(word.field));
    page.push_str(sign);
    Decimal(word.value as u64).print(page)
}

// What the word of these bits says beside its kind.
fn print_details(page: &mut Page<'_>, bits: u32)
    ensures { Says page.old (details bits) page.new }
{
    let word = Word::from(bits);
    if word.kind == u32::from(PolicyKind::Test) {
        print_setting(page, word, "=")
    } else if word.kind == u32::from(PolicyKind::Set) {
        print_setting(page, word, ":=")
    } else if word.kind == u32::from(PolicyKind::Cost) {
        Decimal(word.value as u64).print(page)
    } else {
        page.push_str("")
    }
}

// A line for a word: its digits, and what it says.
#[derive(Clone, Copy)]
struct WordLine(u32);

impl From<u32> for WordLine {
    ghost from_gives = { λ bits w. w.0 ≡ bits };

    fn from(bits: u32) -> WordLine {
        WordLine(bits)
    }
}

impl Print for WordLine {
    ghost output = { λ w. word_line w.0 };

    fn print(&self, page: &mut Page<'_>) {
        page.push_str("word ");
        Hex(self.0).print(page);
        page.push(b' ');
        page.push_str(kind_name(Word::from(self.0).kind));
        print_details(page, self.0);
        page.push(b'\n')
    }
}

// The record of an accepted text.
#[derive(Clone, Copy)]
struct Accepted<'a> {
    text: &'a [u8],
    words: &'a [u32],
}

impl Print for Accepted<'_> {
    ghost output = { λ a. accepted_record a.text.now a.words.now };

    fn print(&self, page: &mut Page<'_>) {
        page.push_str("read ");
        Decimal(self.text.len() as u64).print(page);
        page.push_str(" bytes\n");
        print_each::<WordLine>(page, self.words);
        page.push_str("accepted ");
        Decimal(self.words.len() as u64).print(page);
        page.push_str(" words\n")
    }
}

// What a policy text says word by word, or just why it is refused.
fn print_report(page: &mut Page<'_>, text: &[u8])
    ensures { SaysSome (Tells text.now) page.old page.new }
{
    let mut memory = [0; WORDS_LIMIT];
    match read_policy(text, &mut memory) {
        Ok(policy) => {
            let words = policy.words();
            Accepted { text, words }.print(page)
        }
        Err(fault) => Shown::from(fault).print(page),
    }
}

// The record of a policy text, in lent memory, and how many bytes it has; or how many bytes of memory it needs.
pub fn report(text: &[u8], out: &mut [u8]) -> Result<usize, usize>
    ensures record { PrintedSome (Tells text.now) out.old result out.new }
    ensures only { OnlyReport text.now result out.old out.new }
    ensures within { IfOk result (λ n. n ≤ length out.old) }
{
    let mut page = Page::new(out);
    print_report(&mut page, text);
    page.finish()
}
