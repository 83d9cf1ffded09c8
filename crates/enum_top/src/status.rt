//! How a run ends.
ghost use Rattle.std.specs.Prelude.{◌≡◌};
ghost use Rattle.enum_top.specs.Endings.{code_of, code_of_cause, code_of_ending, code_of_why};

use crate::cause::Cause;
use crate::why::Why;
use enum_base::Bytes;

/// What a whole text comes to.
#[derive(Clone, Copy, Debug, PartialEq, Eq)]
pub enum Ending {
    /// The job is done; for a report, it has an end or more.
    Done,
    /// The report has no end.
    Nothing,
    /// The report is a loop.
    Loop,
}

/// The whole text of a command, and what it comes to.
#[derive(Drop)]
pub(crate) struct Printed {
    pub(crate) ending: Ending,
    pub(crate) text: Bytes,
}

/// How a run ended.
#[derive(Clone, Copy, Debug, PartialEq, Eq)]
pub enum Status {
    /// The text was printed.
    Ended(Ending),
    /// It ended without a text.
    Refused(Why),
}

impl Status {
    /// The exit code: 0 to 6.
    pub fn code(self) -> u8
        ensures { result ≡ code_of self }
    {
        match self {
            Status::Ended(ending) => ending.code(),
            Status::Refused(why) => why.code(),
        }
    }
}

impl Ending {
    fn code(self) -> u8
        ensures { result ≡ code_of_ending self }
    {
        match self {
            Ending::Done => 0,
            Ending::Nothing => 1,
            Ending::Loop => 4,
        }
    }
}

impl Why {
    fn code(self) -> u8
        ensures { result ≡ code_of_why self }
    {
        match self {
            Why::Usage => 2,
            Why::Judged(cause) => cause.code(),
            Why::Outside(_) => 5,
            Why::Memory => 6,
        }
    }
}

impl Cause {
    // What is ill-formed has one code.
    fn code(self) -> u8
        ensures { result ≡ code_of_cause self }
    {
        3
    }
}
