//! The reader of zone texts.
ghost use Rattle.std.specs.Prelude.{◌≡◌, ◌≢◌, ◌++◌, ◌≤◌, [], length, take, drop, ℕ, List, Some, None, IfOk, IfErr, OnOk};
ghost use Rattle.zone_token.specs.declared.fault.TextWhy.{TextWhy as Why};
ghost use Rattle.zone_token.specs.declared.fault.TextWhy.TheVariants.{Memory};
ghost use Rattle.zone_text.specs.declared.fault.TextFault.{TextFault as Fault};
ghost use Rattle.zone_text.specs.Zone.{most_bytes, ZoneSays, ZoneBreaks, BreaksSoFar};
ghost use Rattle.std.specs.Prelude.{Ok, Err};
ghost use Rattle.dns_name.specs.Name.{Labels};
ghost use Rattle.zone_token.specs.Entries.{entries_of};
ghost use Rattle.zone_text.specs.Read.{IsReading, seen};
ghost use Rattle.zone_text.specs.Reading.{run, unread};
ghost use Rattle.zone_token.specs.declared.spot.Spot.{Spot as Here};

use crate::fault::TextFault;
use crate::progress::{MOST_BYTES, Progress};
use crate::scan::read_ended;
use dns_name::Name;
use dns_wire::Records;
use enum_base::{Bytes, MemoryFault};
use http_server::Log;
use std::alloc::Global;
use std::marker::Model;
use zone_token::{Spot, TextWhy};

/// Reads a zone text that comes in pieces. It keeps the entry that has not ended, and the records. After a fault it answers
/// the same fault.
#[derive(Drop)]
pub struct ZoneReader {
    alloc: Global,
    origin: Name,
    // The text so far, for proofs alone, which takes no memory: of each piece what was held with it, and where it begins there.
    fed: Log<Bytes, usize>,
    // The entry that has not ended.
    left: Bytes,
    // Where it leads to.
    spot: Spot,
    progress: Progress,
    fault: Option<TextFault>,
}

// Clauses see the origin, the text so far, and the fault that was told.
impl Model for ZoneReader {
    ghost use Rattle.std.specs.Prelude.{◌≡◌, None};
    ghost use Rattle.zone_text.specs.Fed.{Fed, fed_text};

    ghost Value = { Fed };

    ghost use Rattle.zone_text.specs.Read.{IsReading};

    ghost view = { λ r. record { origin = r.origin; text = fed_text r.fed.items; fault = r.fault } };

    ghost invariant = { λ r. r.fault ≡ None → IsReading r.origin (fed_text r.fed.items) r.progress r.left r.spot };
}

impl ZoneReader {
    /// A reader that was fed nothing, which takes no memory. Names without a last dot end with the origin.
    pub fn new(alloc: Global, origin: Name) -> ZoneReader
        ensures { result ≡ record { origin = origin; text = []; fault = None } }
    {
        ZoneReader {
            alloc,
            origin,
            fed: Log::new(),
            left: Bytes::new(alloc),
            spot: Spot::beginning(),
            progress: Progress::new(alloc, origin),
            fault: None,
        }
    }

    /// Takes the next piece of the text. Refuses where an entry that ended so far is broken, or the text has a byte too
    /// many; then the piece is dropped, and each later call answers the same fault.
    pub fn feed(&mut self, piece: &[u8]) -> Result<(), TextFault>
        ensures fed { OnOk result (self.new ≡ record self.old { text = self.old.text ++ piece.now }) }
        ensures within { OnOk result (length self.new.text ≤ most_bytes) }
        ensures sound { OnOk result ((line : ℕ) (why : Why) → BreaksSoFar (self.old.text ++ piece.now) self.old.origin line why → ⊥) }
        ensures broken { self.old.fault ≡ None
            → IfErr result (λ fault. fault.why ≢ Memory → BreaksSoFar (self.old.text ++ piece.now) self.old.origin fault.line fault.why) }
        ensures told { (fault : Fault) → self.old.fault ≡ Some fault → result ≡ Err fault }
        ensures kept { IfErr result (λ fault. self.new.fault ≡ Some fault) }
    {
        if let Some(fault) = self.fault {
            return Err(fault);
        }
        let piece = &piece[..piece.len().min(MOST_BYTES + 1)];
        let at = self.left.as_slice().len();
        if self.left.push_slice(piece).is_err() {
            let fault = self.progress.fault(TextWhy::Memory);
            self.fault = Some(fault);
            return Err(fault);
        }
        self.fed = self.fed.and(&self.left, &at);
        match advance(
            self.alloc,
            &mut self.left,
            at,
            self.spot,
            &mut self.progress,
        ) {
            Ok(spot) => {
                self.spot = spot;
                Ok(())
            }
            Err(fault) => {
                self.fault = Some(fault);
                Err(fault)
            }
        }
    }

    /// The records of the text, or its first fault.
    pub fn end(self) -> Result<Records, TextFault>
        ensures says { IfOk result (λ records. ZoneSays self.text self.origin records) }
        ensures breaks { self.fault ≡ None
            → IfErr result (λ fault. fault.why ≢ Memory → ZoneBreaks self.text self.origin fault.line fault.why) }
        ensures told { (fault : Fault) → self.fault ≡ Some fault → result ≡ Err fault }
    {
        if let Some(fault) = self.fault {
            return Err(fault);
        }
        let ZoneReader {
            alloc,
            left,
            mut progress,
            ..
        } = self;
        finish(alloc, left.as_slice(), &mut progress)?;
        Ok(progress.records)
    }
}

// Reads the entries that end in a piece, which stands after the entry that has not ended, and drops them.
fn advance(
    alloc: Global,
    left: &mut Bytes,
    at: usize,
    spot: Spot,
    progress: &mut Progress,
) -> Result<Spot, TextFault>
    requires { at ≤ length left.old }
    ensures reading { IfOk result (λ last. (origin : Labels) (text : List ℕ) → IsReading origin text progress.old (take at left.old) spot
        → IsReading origin (text ++ drop at left.old) progress.new left.new last) }
    ensures broken { IfErr result (λ fault. fault.why ≢ Memory → (origin : Labels) (text more : List ℕ)
        → IsReading origin text progress.old (take at left.old) spot
        → BreaksSoFar (text ++ (drop at left.old ++ more)) origin fault.line fault.why) }
{
    let begun = read_ended(alloc, left.as_slice(), at, spot, progress)?;
    if left.as_slice().len() - begun.from > MOST_BYTES - progress.size {
        return Err(progress.fault(TextWhy::TooLarge));
    }
    if drop_front(alloc, left, begun.from).is_err() {
        return Err(progress.fault(TextWhy::Memory));
    }
    Ok(begun.spot)
}

// Drops the first bytes. What is left goes into memory of its own size.
fn drop_front(alloc: Global, bytes: &mut Bytes, count: usize) -> Result<(), MemoryFault>
    requires { count ≤ length bytes.old }
    ensures { OnOk result (bytes.new ≡ drop count bytes.old) }
{
    if count == 0 {
        return Ok(());
    }
    let mut rest = Bytes::new(alloc);
    rest.push_slice(&bytes.as_slice()[count..])?;
    *bytes = rest;
    Ok(())
}

// Reads the last entry of a text, which no line feed ends.
fn finish(alloc: Global, left: &[u8], progress: &mut Progress) -> Result<(), TextFault>
    ensures ok { OnOk result ((origin : Labels) (text : List ℕ) (spot : Here) → IsReading origin text progress.old left.now spot
        → run (unread origin) (entries_of text) ≡ Ok (seen progress.new)) }
    ensures err { IfErr result (λ fault. fault.why ≢ Memory → (origin : Labels) (text : List ℕ) (spot : Here)
        → IsReading origin text progress.old left.now spot → run (unread origin) (entries_of text) ≡ Err fault) }
{
    if left.is_empty() {
        return Ok(());
    }
    progress.read(alloc, left)
}
