// What words say to a person.
#![tactic(auto)]

ghost use Rattle.std.specs.Prelude.{◌≡◌};
ghost use Rattle.pages.specs.Pages.{Says};
ghost use Rattle.lines.specs.Lines.{setting, weight_said, head_said, end_said, table_word_said, frame_word_said, table_lines, spaced_hex, words_line};

use format::{FIELDS, Word, field_name};
use frames::FRAME_KIND;
use numerals::{Decimal, Hex};
use pages::{Page, Print, print_each};
use tables::TableKind;

// A field and a value between a label and a sign.
fn print_setting(page: &mut Page<'_>, label: &str, sign: &str, bits: u32)
    ensures { Says page.old (setting label.now sign.now bits) page.new }
{
    let word = Word::from(bits);
    page.push_str(label);
    page.push_str(field_name(word.field));
    page.push_str(sign);
    Decimal(word.value as u64).print(page)
}

fn print_weight(page: &mut Page<'_>, bits: u32)
    ensures { Says page.old (weight_said bits) page.new }
{
    page.push_str(" at weight ");
    Decimal(Word::from(bits).value as u64).print(page)
}

fn print_head(page: &mut Page<'_>, bits: u32)
    ensures { Says page.old (head_said bits) page.new }
{
    let word = Word::from(bits);
    page.push_str("\nrow with ");
    Decimal(word.field as u64).print(page);
    page.push_str(" matches and ");
    Decimal(word.value as u64).print(page);
    page.push_str(" emissions:")
}

fn print_end(page: &mut Page<'_>, bits: u32)
    ensures { Says page.old (end_said bits) page.new }
{
    page.push_str("\nend of ");
    Decimal(Word::from(bits).value as u64).print(page);
    page.push_str(" rows\n")
}

// A word of a table.
#[derive(Clone, Copy)]
struct TableSaid(u32);

// Three types here owe `print_each` their `From`, and each writes it: the repository's own macros may write no impl.
impl From<u32> for TableSaid {
    ghost from_gives = { λ bits w. w.0 ≡ bits };

    fn from(bits: u32) -> TableSaid {
        TableSaid(bits)
    }
}

impl Print for TableSaid {
    ghost output = { λ w. table_word_said w.0 };

    fn print(&self, page: &mut Page<'_>) {
        match TableKind::try_from(Word::from(self.0).kind) {
            Ok(TableKind::Head) => print_head(page, self.0),
            Ok(TableKind::Match) => print_setting(page, " if ", "=", self.0),
            Ok(TableKind::Weight) => print_weight(page, self.0),
            Ok(TableKind::Set) => print_setting(page, " set ", ":=", self.0),
            Ok(TableKind::End) => print_end(page, self.0),
            Err(_) => page.push_str(" ?"),
        }
    }
}

// A table in words, a line for each row.
#[derive(Clone, Copy, Debug, PartialEq, Eq)]
pub struct Table<'a>(pub &'a [u32]);

impl Print for Table<'_> {
    ghost output = { λ t. table_lines t.0.now };

    fn print(&self, page: &mut Page<'_>) {
        page.push_str("table of ");
        Decimal(self.0.len() as u64).print(page);
        page.push_str(" words");
        print_each::<TableSaid>(page, self.0)
    }
}

// A word of a frame or of an answer.
#[derive(Clone, Copy)]
struct FrameSaid(u32);

impl From<u32> for FrameSaid {
    ghost from_gives = { λ bits w. w.0 ≡ bits };

    fn from(bits: u32) -> FrameSaid {
        FrameSaid(bits)
    }
}

impl Print for FrameSaid {
    ghost output = { λ w. frame_word_said w.0 };

    fn print(&self, page: &mut Page<'_>) {
        let word = Word::from(self.0);
        if word.kind == FRAME_KIND && word.field < FIELDS {
            print_setting(page, " ", "=", self.0)
        } else if word.kind == u32::from(TableKind::Weight) {
            print_weight(page, self.0)
        } else {
            page.push_str(" ?")
        }
    }
}

// A word in hexadecimal digits, behind a space.
#[derive(Clone, Copy)]
struct SpacedHex(u32);

impl From<u32> for SpacedHex {
    ghost from_gives = { λ bits w. w.0 ≡ bits };

    fn from(bits: u32) -> SpacedHex {
        SpacedHex(bits)
    }
}

impl Print for SpacedHex {
    ghost output = { λ w. spaced_hex w.0 };

    fn print(&self, page: &mut Page<'_>) {
        page.push(b' ');
        Hex(self.0).print(page)
    }
}

// A line: a title, words in hexadecimal digits, and what they say.
#[derive(Clone, Copy, Debug, PartialEq, Eq)]
pub struct Line<'a> {
    pub title: &'a str,
    pub words: &'a [u32],
}

impl Print for Line<'_> {
    ghost output = { λ l. words_line l.title.now l.words.now };

    fn print(&self, page: &mut Page<'_>) {
        page.push_str(self.title);
        print_each::<SpacedHex>(page, self.words);
        page.push(b':');
        print_each::<FrameSaid>(page, self.words);
        page.push(b'\n')
    }
}
