// A frame inside the program.
ghost use Rattle.std.specs.Prelude.{ℕ, ◌<◌, slice_index};
ghost use Rattle.format.specs.Fields.{fields, LegalValue};

use format::FIELDS;

// How many values a frame has.
pub const WIDTH: usize = FIELDS as usize;

// The values of the fields, field 0 first, each legal.
#[derive(Clone, Copy, PartialEq, Eq, PartialOrd, Ord, Debug)]
pub struct Frame {
    pub values: [u32; WIDTH],
    ghost legal: { (f : ℕ) → f < fields → LegalValue f (slice_index values f) },
}
