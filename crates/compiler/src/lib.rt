// Policy texts compiled to the bytes of tables.
#![tactic(auto)]

ghost use Rattle.std.specs.Prelude.{◌≡◌, ℕ, ◌+◌, ◌≤◌, List, length, take, drop};
ghost use Rattle.format.specs.Limits.{text_limit};
ghost use Rattle.compiler.specs.Known.{KnownTexts};
ghost use Rattle.compiler.specs.Texts.{Compiles, OnlyBytes};

mod installing;
#[cfg(test)]
mod tests;
mod writing;

use pages::Page;
use weights::WeightKind;
use writing::print_answer;

// How many table words there is room for.
const TABLE_WORDS: usize = 1_024;

// What is written of a text is no longer than this: four bytes for each word of a table.
pub const ANSWER_BYTES: usize = 4 * TABLE_WORDS;

// Writes the table of a policy text, each word most significant byte first, or the line of its refusal. The answer is how many
// bytes that is; the memory behind them stays.
pub fn compile_text<K: WeightKind>(text: &[u8], out: &mut [u8; ANSWER_BYTES]) -> usize
    ensures fits { result ≤ length out.old }
    ensures bytes { Compiles K.WeightKind.ops text.now (take result out.new) }
    ensures only { OnlyBytes K.WeightKind.ops text.now (take result out.new) }
    // What stands behind the byte past the limit makes no difference, so it need not be read.
    ensures front { (whole : List ℕ) → text.now ≡ take (text_limit + 1) whole → Compiles K.WeightKind.ops whole (take result out.new) }
    ensures rest { drop result out.new ≡ drop result out.old }
{
    let mut page = Page::new(out);
    print_answer::<K>(text, &mut page);
    match page.finish() {
        Ok(size) | Err(size) => size,
    }
}

// What `compile_text` writes for a text whose table is known, and for one whose refusal is.
pub fn known_texts_give_known_bytes()
    ensures { KnownTexts }
{}
