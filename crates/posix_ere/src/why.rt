//! Why and where an expression is broken.
ghost use Rattle.std.specs.Prelude.{◌≡◌};
ghost use Rattle.posix_ere.specs.Ascii.{is_printable};
ghost use Rattle.posix_ere.specs.BracketMachine.{reason_at};
ghost use Rattle.posix_ere.specs.declared.why.EreFault.TheVariants as EreFault;

use std::alloc::AllocError;

/// Why no text goes on at the place in `Broken`: what stands there, or what is open there. One alone fits.
#[derive(Clone, Copy, Debug, PartialEq, Eq, Drop)]
pub enum Why {
    /// The end of the text inside a group.
    OpenGroup,
    /// A `)` with no open group.
    StrayClose,
    /// The end of the text inside a bracket.
    OpenBracket,
    /// A range's end that is less than its start or no element, or a `-` that may only be last.
    BadRange,
    /// Inside a class name or its closing.
    BadClass,
    /// Inside an interval.
    BadInterval,
    /// A repeat at the start of the text, of a group or of a branch, or after an anchor.
    NothingToRepeat,
    /// After a backslash outside a bracket.
    BadEscape,
    /// A collating symbol or an equivalence class.
    Collating,
    /// A byte outside 0x20 to 0x7E.
    NotAscii,
}

/// Why a text is refused.
#[derive(Clone, Copy, Debug, PartialEq, Eq, Drop)]
pub enum EreFault {
    /// The text has no tree: the length in bytes of its longest prefix that some text with a tree has, and why.
    Broken { at: u8, why: Why },
    /// The text has a tree that weighs more than 512: the weight, at most 1,000,000.
    TooHeavy { weight: u32 },
    /// Out of memory; the text may have a tree.
    Memory,
}

impl From<AllocError> for EreFault {
    ghost from_gives = { λ _ e. e ≡ EreFault.Memory };

    fn from(_: AllocError) -> EreFault {
        EreFault::Memory
    }
}

// A byte from the space to the tilde.
pub(crate) fn is_printable(byte: u8) -> bool
    ensures { result ≡ is_printable byte }
{
    32 <= byte && byte <= 126
}

impl Why {
    // This reason at a byte, or that the byte is not printable.
    pub(crate) fn at(self, byte: u8) -> Why
        ensures { result ≡ reason_at byte self }
    {
        if is_printable(byte) {
            self
        } else {
            Why::NotAscii
        }
    }
}
