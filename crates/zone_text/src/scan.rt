//! The entries of a text that comes in pieces.
ghost use Rattle.std.specs.Prelude.{◌≡◌, ◌≢◌, ◌+◌, ◌-◌, ◌≤◌, length, take, drop, slice_index, ◌<◌, ◌++◌, ◌∷◌, [], IfOk, IfErr, Ok, Err};
ghost use Rattle.zone_token.specs.declared.fault.TextWhy.TheVariants.{Memory};
ghost use Rattle.zone_token.specs.Entries.{ended_from, still_size};
ghost use Rattle.zone_text.specs.Read.{seen};
ghost use Rattle.zone_text.specs.Reading.{rest_from, run};

use crate::fault::TextFault;
use crate::progress::Progress;
use std::alloc::Global;
use zone_token::Spot;

/// An entry that has not ended.
#[derive(Clone, Copy, Debug)]
pub(crate) struct Begun {
    /// Where it begins.
    pub(crate) from: usize,
    /// The spot to which it leads.
    pub(crate) spot: Spot,
}

/// Reads the entries that end in a text. Its bytes before a place were looked at before: they end none, and lead to a spot.
pub(crate) fn read_ended(
    alloc: Global,
    text: &[u8],
    at: usize,
    spot: Spot,
    progress: &mut Progress,
) -> Result<Begun, TextFault>
    requires { at ≤ length text.now }
    ensures ok { IfOk result (λ _. run (seen progress.old) (ended_from (take at text.now) spot (drop at text.now)) ≡ Ok (seen progress.new)) }
    ensures rest { IfOk result (λ begun. rest_from (take at text.now) spot (drop at text.now) ≡ (drop begun.from text.now, begun.spot)) }
    ensures within { IfOk result (λ begun. begun.from ≤ length text.now) }
    ensures err { IfErr result (λ fault. fault.why ≢ Memory
        → run (seen progress.old) (ended_from (take at text.now) spot (drop at text.now)) ≡ Err fault) }
{
    let mut spot = spot;
    let mut from = 0;
    let mut here = next_turn(text, at, spot);
    while here < text.len() {
        let byte = text[here];
        if spot.is_end(byte) {
            progress.read(alloc, entry_of(text, from, here))?;
            spot = Spot::beginning();
            from = here + 1;
        } else {
            spot = spot.after(byte);
        }
        here = next_turn(text, here + 1, spot);
    }
    Ok(Begun { from, spot })
}

// The place of the first byte from there on that may change the spot.
fn next_turn(text: &[u8], at: usize, spot: Spot) -> usize
    requires { at ≤ length text.now }
    ensures value { result ≡ at + still_size spot (drop at text.now) }
    ensures within { result ≤ length text.now }
{
    at + spot.still_size(&text[at..])
}

// The bytes from a place to another and with the byte there.
fn entry_of(text: &[u8], from: usize, to: usize) -> &[u8]
    requires { (from ≤ to) × (to < length text.now) }
    ensures { result.now ≡ take (to - from) (drop from text.now) ++ slice_index text.now to ∷ [] }
{
    &text[from..to + 1]
}
