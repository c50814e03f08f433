// What the automaton does at each symbol.
ghost use Rattle.grammar.specs.Trees.{first, later, relation, decision};
ghost use Rattle.grammar.specs.Outlines.{DecidesAct, OfNumber};

use super::machine::{Action, Mode};
use format::{Amount, FIELDS, PolicyWord, Setting};
use tokens::{Mark, Symbol};

fn at_operand(symbol: Symbol) -> Option<Action>
    ensures { DecidesAct (first symbol) result }
{
    match symbol {
        Symbol::Drop => Some(Action::Operand(PolicyWord::Drop)),
        Symbol::Pass => Some(Action::Operand(PolicyWord::Pass)),
        Symbol::Cost => Some(Action::Expect(Mode::Price)),
        Symbol::Field(field) if field < FIELDS => Some(Action::Expect(Mode::Relation(field))),
        Symbol::Mark(Mark::Not) => Some(Action::Negate),
        Symbol::Mark(Mark::Open) => Some(Action::Open),
        _ => None,
    }
}

fn at_operator(bracketed: bool, symbol: Symbol) -> Option<Action>
    ensures { DecidesAct (later bracketed symbol) result }
{
    match symbol {
        Symbol::Mark(Mark::Plus) => Some(Action::Sum),
        Symbol::Mark(Mark::Semicolon) => Some(Action::Chain),
        Symbol::Mark(Mark::Star) => Some(Action::Star),
        Symbol::Mark(Mark::Close) if bracketed => Some(Action::Close),
        _ => None,
    }
}

fn at_relation(field: u32, symbol: Symbol) -> Option<Action>
    ensures { DecidesAct (relation field symbol) result }
{
    match symbol {
        Symbol::Mark(Mark::Equals) => Some(Action::Expect(Mode::Tested(field))),
        Symbol::Mark(Mark::Assign) => Some(Action::Expect(Mode::Assigned(field))),
        _ => None,
    }
}

// A number is an operand where a word is made of it.
fn at_value<F: FnOnce(u32) -> Option<PolicyWord>>(symbol: Symbol, word: F) -> Option<Action>
    requires { F.IsAlwaysCallable word }
    ensures { OfNumber (F.post word) symbol result }
{
    let Symbol::Number(number) = symbol else {
        return None;
    };
    word(number).map(Action::Operand)
}

impl Mode {
    // What to do at a symbol, or none where no sentence goes on with it; `bracketed` says whether a bracket is open.
    pub(crate) fn decide(self, bracketed: bool, symbol: Symbol) -> Option<Action>
        ensures { DecidesAct (decision self bracketed symbol) result }
    {
        match self {
            Mode::Operand => at_operand(symbol),
            Mode::Operator => at_operator(bracketed, symbol),
            Mode::Relation(field) => at_relation(field, symbol),
            Mode::Tested(field) => {
                at_value(symbol, |n| Setting::new(field, n).map(PolicyWord::Test))
            }
            Mode::Assigned(field) => {
                at_value(symbol, |n| Setting::new(field, n).map(PolicyWord::Set))
            }
            Mode::Price => at_value(symbol, |n| Amount::new(n).map(PolicyWord::Cost)),
        }
    }
}
