//! The records of a zone file.
ghost use Rattle.std.specs.Prelude.{◌≡◌, ◌+◌, [], None, IsErrOf};
ghost use Rattle.enum_base.specs.Loading.{AreTaken, TakesAtMost};
ghost use Rattle.enum_base.specs.Outside.{WhereTold};
ghost use Rattle.request_words.specs.Words.{text_at, texts_of};
ghost use Rattle.zone_text.specs.Zone.{most_bytes};
ghost use Rattle.enum_top.specs.Handling.{ReadsShelf};
ghost use Rattle.enum_top.specs.Running.{DoesAlone, DoesOnShelf, LeftText, Refuses};
ghost use Rattle.enum_top.specs.ZoneFiles.{TextAt, Texts};

use crate::cause::Cause;
use crate::objects::Object;
use crate::why::Why;
use dns_name::Name;
use dns_wire::Records;
use enum_base::Shelf;
use request_words::text_at;
use std::alloc::Global;
use zone_text::{TextFault, TextWhy, ZoneReader, broken_stays_broken};

// How many bytes are read at once.
const PIECE: usize = 4096;

/// Reads the records of the file whose name is the word at `place`. Relative names end at the root (RFC 1035, 5.1). Of
/// a file at most 64 MiB and 4,096 bytes are read; reading stops where the text breaks.
pub(crate) fn read_text<S: Shelf>(
    alloc: Global,
    words: &[String],
    place: usize,
    shelf: &mut S,
) -> Result<Records, Why>
    ensures does { DoesOnShelf (TextAt (S.state shelf.old).files (texts_of words.now) place) result }
    ensures shelf { ReadsShelf (S.state shelf.old) (S.state shelf.new) (IsErrOf result (Why.Outside Object.Shelf)) }
    ensures taken { ¬ IsErrOf result (Why.Outside Object.Shelf)
        → WhereTold (S.state shelf.old).files (TakesAtMost (most_bytes + 4096) (text_at (texts_of words.now) place) (S.state shelf.new).left) }
{
    match shelf.fetch(text_at(words, place)) {
        Ok(true) => read_rest(alloc, place, shelf),
        Ok(false) => Err(Why::Judged(Cause::Absent(place))),
        Err(_) => Err(Why::Outside(Object::Shelf)),
    }
}

// Reads the records of what is left of the fetched file.
fn read_rest<S: Shelf>(alloc: Global, place: usize, shelf: &mut S) -> Result<Records, Why>
    requires { (S.state shelf.old).given ≡ 0 }
    ensures does { DoesOnShelf (LeftText (S.state shelf.old).left place) result }
    ensures shelf { ReadsShelf (S.state shelf.old) (S.state shelf.new) (IsErrOf result (Why.Outside Object.Shelf)) }
    ensures taken { ¬ IsErrOf result (Why.Outside Object.Shelf)
        → AreTaken (most_bytes + 4096) (S.state shelf.old).left (S.state shelf.new).left }
{
    broken_stays_broken();
    let mut reader = ZoneReader::new(alloc, Name::root());
    let mut buffer = [0; PIECE];
    'pieces: loop {
        let count = match shelf.read(&mut buffer) {
            Ok(count) => count,
            Err(_) => return Err(Why::Outside(Object::Shelf)),
        };
        if count == 0 {
            return records_of(place, reader);
        }
        if let Err(fault) = reader.feed(&buffer[..count]) {
            return Err(refusal_of(place, fault));
        }
    }
}

// The records of a text that was fed whole.
fn records_of(place: usize, reader: ZoneReader) -> Result<Records, Why>
    requires root { reader.origin ≡ [] }
    requires unbroken { reader.fault ≡ None }
    ensures { DoesAlone (Texts place reader.text) result }
{
    match reader.end() {
        Ok(records) => Ok(records),
        Err(fault) => Err(refusal_of(place, fault)),
    }
}

// Why a text stops a run.
fn refusal_of(place: usize, fault: TextFault) -> Why
    ensures { Refuses place fault result }
{
    match fault.why {
        TextWhy::Memory => Why::Memory,
        _ => Why::Judged(Cause::Text { file: place, fault }),
    }
}
