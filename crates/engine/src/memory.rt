// The three stores together, each in memory that a caller lent.
use actions::Action;
use records::{Cell, Node};
use stores::Store;

#[derive(Drop)]
pub struct Stores<'a> {
    pub actions: Store<'a, Action>,
    pub cells: Store<'a, Cell>,
    pub nodes: Store<'a, Node>,
}
