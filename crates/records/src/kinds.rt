// The kinds of record beside actions. They name one another by number and not by `Box`: records stand in lent memory, a rule of
// the project.
use format::{Amount, Setting};

// A pair of an action and a weight, and the cell of the rest of the list: 0 is no cell, as in the word of a diagram.
#[derive(Clone, Copy, PartialEq, Eq, PartialOrd, Ord, Debug)]
pub struct Cell {
    pub action: Amount,
    pub weight: Amount,
    pub rest: Amount,
}

// The word of a diagram inside the library: a list's first cell, or a node.
#[derive(Clone, Copy, PartialEq, Eq, PartialOrd, Ord, Debug)]
pub enum Diagram {
    Leaf(Amount),
    Branch(Amount),
}

// A test and the diagrams of its two sides.
#[derive(Clone, Copy, PartialEq, Eq, PartialOrd, Ord, Debug)]
pub struct Node {
    pub test: Setting,
    pub yes: Diagram,
    pub no: Diagram,
}
