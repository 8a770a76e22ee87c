// How a node stands with the rule that it names.
use mtl::line::Window;

// The interval between a node's row and the row beside it, if there is one, against the line's window.
#[derive(Clone, Copy)]
pub struct Interval {
    pub window: Window,
    pub gap: Option<u32>,
}

// How a node stands with its rule, as far as the line's kind, the count and the interval tell.
// No Result: Check asks about each of these at its own place among its questions, so `?` passes none of them on.
#[derive(Clone, Copy, Debug, PartialEq, Eq)]
pub enum Standing {
    OtherKind,
    WrongCount,
    OutsideInterval,
    Fits,
}
