// A whole text.
ghost use Rattle.std.specs.Prelude.{◌≡◌, ℕ, List, length};
ghost use Rattle.tokens.specs.declared.tokens.Symbol.{Symbol as Sym};
ghost use Rattle.grammar.specs.Reading.{Answers, room_in};
ghost use Rattle.grammar.specs.Standing.{Stands, Finished, final};

use super::machine::{Machine, Mode};
use faults::GrammarFault;
use format::WORDS_LIMIT;
use tokens::Lexer;

impl Machine<'_> {
    // Whether a sentence may end here.
    fn may_end(&self) -> bool
        ensures { result ≡ final self.now.mode self.now.stack.items }
    {
        matches!(self.mode, Mode::Operator) && self.stack.is_empty()
    }

    // Ends the sentence, and says how many words it has.
    fn finish(&mut self, place: usize) -> Result<usize, GrammarFault>
        requires { (was : List ℕ) × (ss : List Sym) × Stands was ss self.old }
        ensures finished { (was : List ℕ) (ss : List Sym) → Stands was ss self.old → Finished was ss place result self.new.memory.now }
        ensures lender { self.new.memory.ghost_name ≡ self.old.memory.ghost_name }
    {
        if !self.may_end() {
            return Err(GrammarFault::Unexpected(place));
        }
        self.end_sum();
        Ok(self.written)
    }
}

// Reads a text, and writes the words of its policy, for which all of the memory is room.
fn parse_into(text: &[u8], memory: &mut [u32]) -> Result<usize, GrammarFault>
    ensures { Answers text.now (length memory.old) result memory.old memory.new }
{
    let mut machine = Machine::new(memory);
    let mut lexer = Lexer::new(text);
    while let Some(placed) = lexer.next()? {
        machine.push(placed.symbol()?, placed.place)?;
    }
    machine.finish(text.len())
}

// Reads a text, and writes the words of its policy.
pub fn parse(text: &[u8], out: &mut [u32]) -> Result<usize, GrammarFault>
    ensures { Answers text.now (room_in (length out.old)) result out.old out.new }
{
    let room = out.len().min(WORDS_LIMIT);
    parse_into(text, &mut out[..room])
}
