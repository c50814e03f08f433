// The words of a policy written one after another into the lent memory.
ghost use Rattle.std.specs.Prelude.{◌+◌, ◌<◌, ◌≤◌, [], ◌∷◌, length};
ghost use Rattle.format.specs.PolicyWords.{bits_of};
ghost use Rattle.grammar.specs.Outlines.{Emitted, output, KeepsState, chain_words, level_words};

use super::machine::Machine;
use format::PolicyWord;

impl Machine<'_> {
    // Writes a word behind the last.
    pub(crate) fn emit(&mut self, word: PolicyWord)
        requires { self.old.written < length self.old.memory.now }
        ensures emitted { Emitted (output self.old) (output self.new) (bits_of word ∷ []) }
        ensures kept { KeepsState self.old self.new }
    {
        self.memory[self.written] = u32::from(word);
        self.written += 1;
    }

    // Ends a chain: its `;` now has both operands.
    pub(crate) fn end_chain(&mut self)
        requires { self.old.written + length (chain_words self.old.level.chain) ≤ length self.old.memory.now }
        ensures emitted { Emitted (output self.old) (output self.new) (chain_words self.old.level.chain) }
        ensures kept { KeepsState self.old self.new }
    {
        if self.level.chain {
            self.emit(PolicyWord::Sequence);
        }
    }

    // Ends a sum, its last chain first.
    pub(crate) fn end_sum(&mut self)
        requires { self.old.written + length (level_words self.old.level) ≤ length self.old.memory.now }
        ensures emitted { Emitted (output self.old) (output self.new) (level_words self.old.level) }
        ensures kept { KeepsState self.old self.new }
    {
        self.end_chain();
        if self.level.sum {
            self.emit(PolicyWord::Union);
        }
    }
}
