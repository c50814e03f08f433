// How much memory a script needs.

#[derive(Clone, Copy, Debug, PartialEq, Eq)]
pub struct Needs {
    pub calls: usize,
    // The words of all frames.
    pub words: usize,
    // The words of memory into which all frames are forwarded.
    pub room: usize,
}

// The number of the first line that is neither a call nor empty nor a remark, counted from 1.
#[derive(Clone, Copy, Debug, PartialEq, Eq)]
pub struct NoCall(pub usize);
