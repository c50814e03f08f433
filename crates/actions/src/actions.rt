// Actions, and what is done with them.
ghost use Rattle.std.specs.Prelude.{◌≡◌, ℕ, ◌<◌, length, set, Some, slice_index};
ghost use Rattle.std.specs.Ordering.{MatchOrdering};
ghost use Rattle.format.specs.Actions.{apply, compose, narrow_action, keep_all, SetBelow, ActionBelow, LegalSets};
ghost use Rattle.format.specs.Fields.{fields, LegalValue};

use format::Setting;
use frames::{Frame, WIDTH};
use std::array;
use std::cmp::Ordering;

// For each field the value that it is set to, or none, which keeps the field.
#[derive(Clone, Copy, PartialEq, Eq, PartialOrd, Ord, Debug)]
pub struct Action {
    pub sets: [Option<u32>; WIDTH],
    ghost whole: { length sets ≡ fields },
    ghost legal: { LegalSets sets },
}

impl Action {
    // The action that keeps every field.
    pub fn keep_all() -> Action
        ensures { result.sets ≡ keep_all }
    {
        Action {
            sets: [None; WIDTH],
        }
    }

    // The action that sets one field.
    pub fn setting(to: Setting) -> Action
        ensures { result.sets ≡ set keep_all to.field (Some to.value) }
    {
        let mut sets = [None; WIDTH];
        sets[to.field as usize] = Some(to.value);
        Action { sets }
    }

    // The first field that differs decides: keeping it is below setting it. The derived order, with what it promises here.
    pub fn compare(&self, other: &Action) -> Ordering
        ensures { MatchOrdering result (ActionBelow self.now.sets other.now.sets) (self.now ≡ other.now) (ActionBelow other.now.sets self.now.sets) }
    {
        self.cmp(other)
    }

    // This action and then the other.
    pub fn then(&self, other: &Action) -> Action
        ensures { result.sets ≡ compose self.now.sets other.now.sets }
    {
        let sets = array::from_fn(|field| other.sets[field].or(self.sets[field]));
        Action { sets }
    }

    // The action on a frame that is known to pass the test.
    pub fn narrow(&self, test: Setting) -> Action
        ensures { result.sets ≡ narrow_action self.now.sets test.field test.value }
    {
        let field = test.field as usize;
        let mut sets = self.sets;
        sets[field] = sets[field].filter(|value| *value != test.value);
        Action { sets }
    }

    // The frame after the action.
    pub fn apply(&self, frame: &Frame) -> Frame
        ensures { result.values ≡ apply self.now.sets frame.now.values }
    {
        let values = array::from_fn(|field| self.sets[field].unwrap_or(frame.values[field]));
        Frame { values }
    }
}
