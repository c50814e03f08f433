// When two records are the same.
ghost use Rattle.std.specs.Prelude.{◌≡◌, Decides};

use super::kinds::{Cell, Node};
use actions::Action;

// What a store holds. By a rule of the project each kind has an impl of its own that promises this; so the equal bodies are no
// default body here.
pub trait Record: Copy {
    // Whether the contents are equal.
    fn same(&self, other: &Self) -> bool
        ensures { Decides result (self.now ≡ other.now) };
}

impl Record for Action {
    fn same(&self, action: &Action) -> bool {
        self == action
    }
}

impl Record for Cell {
    fn same(&self, cell: &Cell) -> bool {
        self == cell
    }
}

impl Record for Node {
    fn same(&self, node: &Node) -> bool {
        self == node
    }
}
