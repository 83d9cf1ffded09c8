//! What is ill-formed, and the line that tells it.
ghost use Rattle.std.specs.Prelude.{◌++◌, codes};
ghost use Rattle.enum_base.specs.Writing.{Takes};
ghost use Rattle.request_words.specs.Words.{texts_of};
ghost use Rattle.enum_top.specs.FaultLines.{cause_line, file_line};

use dns_name::NameFault;
use dns_wire::DecodeFault;
use enum_app::NumberFault;
use enum_base::{Failed, FaultWords, Sink, write_three, write_two, write_whole};
use request_words::text_at;
use service_field::ServiceFault;
use snaptr_app::DomainFault;
use zone_db::{AddFault, ZoneFault};
use zone_text::TextFault;

/// What is ill-formed. A file is named by the place of its name among the words.
#[derive(Clone, Copy, Debug, PartialEq, Eq)]
pub enum Cause {
    /// The string is no number.
    Number(NumberFault),
    /// The string is no domain.
    Domain(DomainFault),
    /// The wanted list.
    Want(ServiceFault),
    /// The apex is no name.
    Apex(NameFault),
    /// The domain of the number is too long for a name.
    Key,
    /// This file is not there.
    Absent(usize),
    /// The text of this file breaks.
    Text { file: usize, fault: TextFault },
    /// The records of this file make no zone.
    Zone { file: usize, fault: ZoneFault },
    /// The zone of this file does not go to those of the files before it.
    Set { file: usize, fault: AddFault },
    /// The input has more than 16 MiB.
    InputTooLarge,
    /// The digits of the input are no bytes in hexadecimal.
    Hex,
    /// The bytes are no message.
    Message(DecodeFault),
}

// How the lines begin that go on.
const STRING: &[u8] = b"enumd: ill-formed string ";

const WANT: &[u8] = b"enumd: ill-formed want ";

const APEX: &[u8] = b"enumd: ill-formed apex ";

const FILE: &[u8] = b"enumd: ill-formed file ";

const TEXT: &[u8] = b"enumd: ill-formed text ";

const ZONE: &[u8] = b"enumd: ill-formed zone ";

const MESSAGE: &[u8] = b"enumd: ill-formed message ";

impl Cause {
    /// Writes the line that tells it, until a write fails. Takes no memory.
    pub(crate) fn tell<E: Sink>(&self, words: &[String], err: &mut E) -> Result<(), Failed>
        ensures { Takes (E.state err.old) (E.state err.new) (cause_line (texts_of words.now) self.now) }
    {
        match self {
            Cause::Number(fault) => tell_fault(err, STRING, &fault.words()),
            Cause::Domain(fault) => tell_fault(err, STRING, &fault.words()),
            Cause::Want(fault) => tell_fault(err, WANT, &fault.words()),
            Cause::Apex(fault) => tell_fault(err, APEX, &fault.words()),
            Cause::Key => write_whole(err, b"enumd: ill-formed key NameTooLong\n"),
            Cause::Absent(place) => write_three(
                err,
                FILE,
                text_at(words, *place).as_bytes(),
                b"\n",
            ),
            Cause::Text { file, fault } => tell_file(err, TEXT, words, *file, &fault.words()),
            Cause::Zone { file, fault } => tell_file(err, ZONE, words, *file, &fault.words()),
            Cause::Set { file, fault } => tell_file(err, ZONE, words, *file, &fault.words()),
            Cause::InputTooLarge => write_whole(err, b"enumd: ill-formed input TooLarge\n"),
            Cause::Hex => write_whole(err, b"enumd: ill-formed hex\n"),
            Cause::Message(fault) => tell_fault(err, MESSAGE, &fault.words()),
        }
    }
}

// The line of a fault.
fn tell_fault<E: Sink>(err: &mut E, head: &[u8], fault: &FaultWords) -> Result<(), Failed>
    ensures { Takes (E.state err.old) (E.state err.new) (head.now ++ fault.now ++ codes "\n") }
{
    write_three(err, head, fault.as_slice(), b"\n")
}

// The line of what a file is, whose name is the word at a place.
fn tell_file<E: Sink>(
    err: &mut E,
    head: &[u8],
    words: &[String],
    file: usize,
    fault: &FaultWords,
) -> Result<(), Failed>
    ensures { Takes (E.state err.old) (E.state err.new) (file_line head.now (texts_of words.now) file fault.now) }
{
    write_three(err, head, text_at(words, file).as_bytes(), b" ")?;
    write_two(err, fault.as_slice(), b"\n")
}
