// The automaton's state: what it expects next, and what waits for an operand.
ghost use Rattle.std.specs.Prelude.{◌≡◌, []};
ghost use Rattle.grammar.specs.Standing.{Stands};

use arrayvec::ArrayVec;
use format::{NESTING_LIMIT, PolicyWord};

// What the automaton expects.
#[derive(Clone, Copy)]
pub enum Mode {
    // an operand, or `!` or `(` before it
    Operand,
    // an operator, `)` or the end, after an operand
    Operator,
    // `=` or `:=`, after a field
    Relation(u32),
    // the value of a test, after a field and `=`
    Tested(u32),
    // the value of a set, after a field and `:=`
    Assigned(u32),
    // the number of a cost
    Price,
}

// Which operators wait for their right operand inside the latest bracket: each may without the other.
#[derive(Clone, Copy, Default)]
pub struct Level {
    pub sum: bool,
    pub chain: bool,
}

// What is not yet finished: a `!`, or a `(` with the operators that waited before it. The free places of a stack hold the default.
#[derive(Clone, Copy, Default)]
pub enum Frame {
    #[default]
    Negation,
    Group(Level),
}

// What a symbol makes the automaton do. It is a value that `perform` switches on, for a symbol may still be refused once this is
// decided: steps run in the arms of `decide` would each ask for depth and room.
#[derive(Clone, Copy)]
pub enum Action {
    Expect(Mode),
    Operand(PolicyWord),
    Negate,
    Open,
    Star,
    Chain,
    Sum,
    Close,
}

// The words go into lent memory, by a rule of the project: `written` of them stand there, and the symbols read so far need `needed`.
// That it `Stands` after those symbols is no ghost field: it does not hold between the steps of one symbol.
#[derive(Drop)]
pub struct Machine<'a> {
    pub mode: Mode,
    pub level: Level,
    pub stack: ArrayVec<Frame, NESTING_LIMIT>,
    pub memory: &'a mut [u32],
    pub needed: usize,
    pub written: usize,
}

impl<'a> Machine<'a> {
    // Nothing is read yet.
    pub(crate) fn new(memory: &'a mut [u32]) -> Machine<'a>
        ensures stands { Stands memory.old [] result }
        ensures lender { result.memory.ghost_name ≡ memory.entry.ghost_name }
    {
        Machine {
            mode: Mode::Operand,
            level: Level::default(),
            stack: ArrayVec::new(),
            memory,
            needed: 0,
            written: 0,
        }
    }
}
