// One symbol after another.
ghost use Rattle.std.specs.Prelude.{◌≡◌, ℕ, ◌+◌, ◌<◌, ◌≤◌, ◌==◌, ◌&&◌, List, length, MatchOption};
ghost use Rattle.arrayvec.specs.ArrayVec.{array_vec_len};
ghost use Rattle.format.specs.Limits.{nesting_limit};
ghost use Rattle.tokens.specs.declared.tokens.Symbol.{Symbol as Sym};
ghost use Rattle.grammar.specs.Outlines.{opens};
ghost use Rattle.grammar.specs.Sentences.{needs};
ghost use Rattle.grammar.specs.Standing.{Stands, Pushed};

use super::machine::Machine;
use faults::GrammarFault;
use tokens::{Mark, Symbol};

fn words_for(symbol: Symbol) -> usize
    ensures { result ≡ needs symbol }
{
    match symbol {
        Symbol::Number(_) | Symbol::Mark(Mark::Open | Mark::Close | Mark::Equals | Mark::Assign) =>
            0,
        _ => 1,
    }
}

impl Machine<'_> {
    // Whether a symbol opens one more than may be unfinished at once.
    fn nests_too_deep(&self, symbol: Symbol) -> bool
        ensures { result ≡ (opens symbol && (array_vec_len self.now.stack == nesting_limit)) }
    {
        matches!(symbol, Symbol::Mark(Mark::Not | Mark::Open)) && self.stack.is_full()
    }

    // The words needed after a symbol, where the memory has room for them.
    fn needed_after(&self, symbol: Symbol) -> Option<usize>
        requires { self.now.needed ≤ length self.now.memory.now }
        ensures { MatchOption result (length self.now.memory.now < self.now.needed + needs symbol) (λ n. (n ≡ self.now.needed + needs symbol) × (n ≤ length self.now.memory.now)) }
    {
        let needed = self.needed + words_for(symbol);
        (needed <= self.memory.len()).then_some(needed)
    }

    // Takes one more symbol. It and its place are a pair here alone: `Placed` holds the token and not what it stands for.
    pub(crate) fn push(&mut self, symbol: Symbol, place: usize) -> Result<(), GrammarFault>
        requires { (was : List ℕ) × (ss : List Sym) × Stands was ss self.old }
        ensures pushed { (was : List ℕ) (ss : List Sym) → Stands was ss self.old → Pushed was ss symbol place result self.new }
        ensures lender { self.new.memory.ghost_name ≡ self.old.memory.ghost_name }
    {
        let action = self
            .mode
            .decide(!self.stack.is_empty(), symbol)
            .ok_or(GrammarFault::Unexpected(place))?;
        if self.nests_too_deep(symbol) {
            return Err(GrammarFault::TooDeep(place));
        }
        self.needed = self
            .needed_after(symbol)
            .ok_or(GrammarFault::NoRoom(place))?;
        self.perform(action);
        Ok(())
    }
}
