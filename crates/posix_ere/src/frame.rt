//! Where the reading of an expression stands.
ghost use Rattle.std.specs.Prelude.{◌≡◌};
ghost use Rattle.posix_ere.specs.Machine.{new_frame};

use crate::bracket::Bracket;
use crate::interval::Interval;

// The alternatives of an open group, or of the whole: its number, how many branches ended, how many pieces the last
// branch has, and whether the last of them may be repeated.
#[derive(Clone, Copy, Debug, PartialEq, Eq, Drop)]
pub(crate) struct Frame {
    pub(crate) number: u32,
    pub(crate) branches: u32,
    pub(crate) pieces: u32,
    pub(crate) repeatable: bool,
}

impl Frame {
    pub(crate) fn new(number: u32) -> Frame
        ensures { result ≡ new_frame number }
    {
        Frame {
            number,
            branches: 0,
            pieces: 0,
            repeatable: false,
        }
    }
}

// What a byte is a part of.
#[derive(Clone, Copy, Drop)]
pub(crate) enum Mode {
    Plain,
    Escape,
    Interval(Interval),
    Bracket(Bracket),
}
