// The check of a table, word by word.
ghost use Rattle.std.specs.Prelude.{◌≡◌, ◌+◌, ◌<◌, ◌≤◌, MatchResult};
ghost use Rattle.faults.specs.declared.layers.TableFault.TheVariants.{Illegal, Full};
ghost use Rattle.format.specs.Fields.{fields};
ghost use Rattle.format.specs.Words.{word, value_end};
ghost use Rattle.weights.specs.Weights.{Ops, Laws};
ghost use Rattle.tables.specs.declared.state.State.TheVariants.{Head, Matches, Emissions, Sets, End};
ghost use Rattle.tables.specs.Rows.{LegalTable};
ghost use Rattle.tables.specs.Checking.{Takes, Open, Stops, next_due};

use super::kind::TableKind;
use super::state::{Checker, State};
use super::word::TableWord;
use faults::TableFault;
use format::{FIELDS, Setting, VALUE_END};
use std::marker::PhantomData;
use weights::WeightKind;

// The words of a legal table of the kind K: those of the check, or of a table in force.
#[derive(Drop)]
pub struct CheckedTable<'a, K: WeightKind> {
    pub(crate) words: &'a [u32],
    pub(crate) kind: PhantomData<K>,
    ghost legal: { ∥ LegalTable K.WeightKind.ops words.now ∥₁ },
}

impl<'a, K: WeightKind> CheckedTable<'a, K> {
    // The very slice that was checked.
    pub fn words(&self) -> &'a [u32]
        ensures { result ≡ self.now.words }
    {
        self.words
    }
}

impl State {
    // The state in which so many matches of fields from the first number on and so many emissions are due.
    fn due(from: u32, matches: u32, emissions: u32) -> State
        ensures { result ≡ next_due from matches emissions }
    {
        match (matches, emissions) {
            (0, 0) => State::Head,
            (0, due) => State::Emissions { due },
            (due, emissions) => State::Matches {
                from,
                due,
                emissions,
            },
        }
    }
}

impl Checker {
    // Not `Default`, which cannot be derived beside a ghost field.
    fn start() -> Checker
        ensures { (result.state ≡ Head) × (result.rows ≡ 0) }
    {
        Checker {
            state: State::Head,
            rows: 0,
        }
    }

    // A head where a row may begin.
    fn head(self, next: TableWord) -> Option<Checker>
        ensures { (o : Ops) → Takes o self.rows Head (word 10 next.field next.value) result }
    {
        if self.rows + 1 >= VALUE_END || next.field > FIELDS {
            return None;
        }
        Some(Checker {
            state: State::due(0, next.field, next.value),
            rows: self.rows + 1,
        })
    }

    // The end where a row may begin.
    fn end(self, next: TableWord) -> Option<Checker>
        ensures { (o : Ops) → Takes o self.rows Head (word 14 next.field next.value) result }
    {
        if next.field != 0 || next.value != self.rows {
            return None;
        }
        // Each field is written out, here and below: `..self` is refused beside a ghost field.
        Some(Checker {
            state: State::End,
            rows: self.rows,
        })
    }

    // A match where so many are due of fields from `from` on, and then so many emissions.
    fn matched(self, from: u32, due: u32, emissions: u32, setting: Setting) -> Option<Checker>
        requires { Open self.rows (Matches from due emissions) }
        ensures { (o : Ops) → Takes o self.rows (Matches from due emissions) (word 11 setting.field setting.value) result }
    {
        if setting.field < from || setting.field + due > FIELDS {
            return None;
        }
        Some(Checker {
            state: State::due(setting.field + 1, due - 1, emissions),
            rows: self.rows,
        })
    }

    // A weight where so many emissions are due.
    fn weight<K: WeightKind>(self, due: u32, next: TableWord) -> Option<Checker>
        ensures { Takes K.WeightKind.ops self.rows (Emissions due) (word 12 next.field next.value) result }
    {
        if due == 0 || next.field != 0 || next.value == K::zero() || !K::is_weight(next.value) {
            return None;
        }
        Some(Checker {
            state: State::Sets {
                from: 0,
                due: due - 1,
            },
            rows: self.rows,
        })
    }

    // A set where fields from `from` on may be set.
    fn set(self, from: u32, due: u32, setting: Setting) -> Option<Checker>
        ensures { (o : Ops) → Laws o → Takes o self.rows (Sets from due) (word 13 setting.field setting.value) result }
    {
        if setting.field < from {
            return None;
        }
        Some(Checker {
            state: State::Sets {
                from: setting.field + 1,
                due,
            },
            rows: self.rows,
        })
    }

    // Takes one more word, if a legal table can go on so.
    fn step<K: WeightKind>(self, bits: u32) -> Option<Checker>
        requires { Open self.rows self.state }
        ensures { Takes K.WeightKind.ops self.rows self.state bits result }
    {
        let next = TableWord::try_from(bits).ok()?;
        // The state and the word's kind are matched at once: a rule of the project.
        match (self.state, next.kind) {
            (State::Head | State::Sets { from: _, due: 0 }, TableKind::Head) => self.head(next),
            (State::Head | State::Sets { from: _, due: 0 }, TableKind::End) => self.end(next),
            (
                State::Matches {
                    from,
                    due,
                    emissions,
                },
                TableKind::Match,
            ) => self.matched(from, due, emissions, Setting::new(next.field, next.value)?),
            (State::Emissions { due } | State::Sets { from: _, due }, TableKind::Weight) => {
                self.weight::<K>(due, next)
            }
            (State::Sets { from, due }, TableKind::Set) => {
                self.set(from, due, Setting::new(next.field, next.value)?)
            }
            _ => None,
        }
    }
}

// Words as a table of the kind K, or the place where they are none. As a `TryFrom` this would be no plainer: the name
// says what is done.
pub fn check_table<'a, K: WeightKind>(words: &'a [u32]) -> Result<CheckedTable<'a, K>, TableFault>
    ensures { MatchResult result (λ t. (t.words.now ≡ words.now) × LegalTable K.WeightKind.ops words.now) (λ e. elim e [ Illegal i ↦ Stops K.WeightKind.ops words.now i | Full ↦ ⊥ ]) }
{
    let mut checker = Checker::start();
    for (place, bits) in words.iter().enumerate() {
        checker = checker.step::<K>(*bits).ok_or(TableFault::Illegal(place))?;
    }
    match checker.state {
        State::End => Ok(CheckedTable {
            words,
            kind: PhantomData,
        }),
        _ => Err(TableFault::Illegal(words.len())),
    }
}
