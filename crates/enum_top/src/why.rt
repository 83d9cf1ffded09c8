//! Why a run ends without a text, and the line that tells it.
ghost use Rattle.std.specs.Prelude.{◌≡◌};
ghost use Rattle.enum_base.specs.Writing.{Takes};
ghost use Rattle.request_words.specs.Words.{texts_of};
ghost use Rattle.enum_top.specs.FaultLines.{line_of, outside_line};
ghost use Rattle.enum_top.specs.declared.why.Why.TheVariants.{Judged, Memory};

use crate::cause::Cause;
use crate::objects::Object;
use enum_base::{Failed, MemoryFault, Sink, write_whole};

/// Why a run ends without a text.
#[derive(Clone, Copy, Debug, PartialEq, Eq)]
pub enum Why {
    /// The words are no request.
    Usage,
    /// The request comes to no text, for this cause: what it asks, or what a file or the input holds, is ill-formed.
    Judged(Cause),
    /// A call of this object failed.
    Outside(Object),
    /// Memory was out.
    Memory,
}

impl From<MemoryFault> for Why {
    ghost from_gives = { λ _ why. why ≡ Memory };

    fn from(_: MemoryFault) -> Why {
        Why::Memory
    }
}

impl From<Cause> for Why {
    ghost from_gives = { λ cause why. why ≡ Judged cause };

    fn from(cause: Cause) -> Why {
        Why::Judged(cause)
    }
}

impl Why {
    /// Writes the line that tells it, until a write fails. Takes no memory.
    pub(crate) fn tell<E: Sink>(&self, words: &[String], err: &mut E) -> Result<(), Failed>
        ensures { Takes (E.state err.old) (E.state err.new) (line_of (texts_of words.now) self.now) }
    {
        match self {
            Why::Usage => write_whole(err, b"enumd: usage\n"),
            Why::Judged(cause) => cause.tell(words, err),
            Why::Outside(object) => write_whole(err, outside_bytes(*object)),
            Why::Memory => write_whole(err, b"enumd: memory\n"),
        }
    }
}

fn outside_bytes(object: Object) -> &'static [u8]
    ensures { result.now ≡ outside_line object }
{
    match object {
        Object::Shelf => b"enumd: outside shelf\n",
        Object::Input => b"enumd: outside input\n",
        Object::Output => b"enumd: outside output\n",
    }
}
