// What each action does to the automaton and to the memory.
ghost use Rattle.std.specs.Prelude.{◌≡◌, ◌+◌, ◌<◌, ◌≤◌, List, [], ◌∷◌, ◌++◌, length, Some};
ghost use Rattle.arrayvec.specs.ArrayVec.{array_vec_len};
ghost use Rattle.format.specs.Limits.{nesting_limit};
ghost use Rattle.format.specs.Policy.{Policy, postfix};
ghost use Rattle.format.specs.PolicyWords.{bits_of};
ghost use Rattle.grammar.specs.declared.machine.Mode.TheVariants.{Operand as AtOperand, Operator};
ghost use Rattle.grammar.specs.Trees.{Act, operand, closing, Opened, rest};
ghost use Rattle.grammar.specs.Outlines.{Stacked, Emitted, output, frame_level, not_words, DecidesAct, Possible, Performs};

use super::machine::{Action, Frame, Level, Machine, Mode};
use format::PolicyWord;

impl Frame {
    // Which operators waited before it.
    fn level(self) -> Level
        ensures { result ≡ frame_level self }
    {
        match self {
            Frame::Negation => Level::default(),
            Frame::Group(level) => level,
        }
    }
}

impl Machine<'_> {
    // Finishes each `!` before the operand just written.
    fn complete(&mut self)
        requires { (os : List Opened) × Stacked os self.old.stack.items × (self.old.written + length (not_words os) ≤ length self.old.memory.now) }
        ensures mode { self.new.mode ≡ Operator }
        ensures level { self.new.level ≡ self.old.level }
        ensures settled { (os : List Opened) → Stacked os self.old.stack.items → Stacked (rest os) self.new.stack.items × Emitted (output self.old) (output self.new) (not_words os) }
    {
        while let Some(Frame::Negation) = self.stack.last() {
            self.stack.pop();
            self.emit(PolicyWord::Not);
        }
        self.mode = Mode::Operator;
    }

    fn operand(&mut self, word: PolicyWord)
        requires { (p : Policy) × (postfix p ≡ bits_of word ∷ []) × Possible (operand p) self.old }
        ensures { (p : Policy) → postfix p ≡ bits_of word ∷ [] → Performs (operand p) self.old self.new }
    {
        self.emit(word);
        self.complete();
    }

    // Something is begun that an operand finishes.
    fn nest(&mut self, frame: Frame)
        requires { array_vec_len self.old.stack < nesting_limit }
        ensures mode { self.new.mode ≡ AtOperand }
        ensures level { self.new.level ≡ self.old.level }
        ensures stack { self.new.stack.items ≡ self.old.stack.items ++ frame ∷ [] }
        ensures words { Emitted (output self.old) (output self.new) [] }
    {
        self.stack.push(frame);
        self.mode = Mode::Operand;
    }

    // The sum in the latest bracket is an operand of what waited before the bracket.
    fn close(&mut self)
        requires { Possible closing self.old }
        ensures { Performs closing self.old self.new }
    {
        self.end_sum();
        self.level = self.stack.pop().map(Frame::level).unwrap_or_default();
        self.complete();
    }

    pub(crate) fn perform(&mut self, action: Action)
        requires { (a : Act) × DecidesAct (Some a) (Some action) × Possible a self.old }
        ensures { (a : Act) → DecidesAct (Some a) (Some action) → Performs a self.old self.new }
    {
        match action {
            Action::Expect(mode) => self.mode = mode,
            Action::Operand(word) => self.operand(word),
            Action::Negate => self.nest(Frame::Negation),
            Action::Open => {
                self.nest(Frame::Group(self.level));
                self.level = Level::default();
            }
            Action::Star => self.emit(PolicyWord::Star),
            Action::Chain => {
                self.end_chain();
                self.level.chain = true;
                self.mode = Mode::Operand;
            }
            Action::Sum => {
                self.end_sum();
                self.level = Level {
                    sum: true,
                    chain: false,
                };
                self.mode = Mode::Operand;
            }
            Action::Close => self.close(),
        }
    }
}
