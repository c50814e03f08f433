// What a diagram in store is at its top.
use actions::Action;
use format::Setting;

// All that it is made of goes by words of its own.
#[derive(Clone, Copy)]
pub enum Shape {
    // A leaf with no cell.
    Drop,
    // A leaf: its first cell, and the leaf of the cells behind it.
    Cell {
        action: Action,
        weight: u32,
        rest: u32,
    },
    Test {
        test: Setting,
        yes: u32,
        no: u32,
    },
}
