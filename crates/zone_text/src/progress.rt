//! What was read of a text.
ghost use Rattle.std.specs.Prelude.{◌≡◌, ◌≢◌, ◌+◌, ◌∷◌, [], ◌++◌, ◌≤◌, IsTrue, length, map, IfErr, OnOk, Ok, Err};
ghost use Rattle.std.specs.List.{list_all};
ghost use Rattle.dns_wire.specs.Kinds.{is_whole};
ghost use Rattle.zone_token.specs.declared.fault.TextWhy.TheVariants.{Memory};
ghost use Rattle.zone_token.specs.Tokens.{tokens_of};
ghost use Rattle.zone_text.specs.Meaning.{is_whole_meaning};
ghost use Rattle.zone_text.specs.Zone.{lines_in, most_bytes, said_in, advanced, unless_full};
ghost use Rattle.zone_text.specs.Reading.{is_plain, said_of};

use crate::fault::TextFault;
use crate::meaning::{Meaning, Standing, Statement};
use dns_name::Name;
use dns_wire::{Record, Records};
use std::alloc::Global;
use zone_token::{TextWhy, Token, is_blank_entry, read_tokens};

/// The most bytes of a text: 64 MiB.
pub(crate) const MOST_BYTES: usize = 67_108_864;

// The most records of a text.
const MOST_RECORDS: usize = 100_000;

/// The entries so far: what stands after them, where they end, and their records.
#[derive(Drop)]
pub(crate) struct Progress {
    pub(crate) standing: Standing,
    /// The line after them, counted from 1.
    pub(crate) line: u32,
    /// How many bytes they have.
    pub(crate) size: usize,
    pub(crate) records: Records,
    ghost within: { size ≤ most_bytes },
    ghost lines: { line ≤ size + 1 },
    ghost plain: { IsTrue (list_all is_plain records) },
}

// How many line feeds there are.
fn lines_in(bytes: &[u8]) -> usize
    ensures value { result ≡ lines_in bytes.now }
    ensures most { result ≤ length bytes.now }
{
    bytes.iter().filter(|byte| **byte == b'\n').count()
}

impl Standing {
    // What stands after an entry of this meaning.
    fn advance(&mut self, meaning: &Meaning)
        ensures { self.new ≡ advanced self.old meaning.now }
    {
        match meaning {
            Meaning::Nothing => {}
            Meaning::Origin(name) => self.origin = *name,
            Meaning::DefaultTtl(ttl) => self.default_ttl = Some(*ttl),
            Meaning::Record(said) => {
                self.owner = Some(said.owner);
                self.last_ttl = Some(said.ttl);
            }
        }
    }
}

// Appends the record.
fn push(records: &mut Records, said: Statement) -> Result<(), TextWhy>
    requires whole { IsTrue (is_whole said.content) }
    requires plain { IsTrue (list_all is_plain records.old) }
    ensures ok { OnOk result (map said_of records.new ≡ map said_of records.old ++ said ∷ []) }
    ensures plain { IsTrue (list_all is_plain records.new) }
    ensures err { IfErr result (λ why. why ≡ Memory) }
{
    records.push(Record::new(said.owner, said.ttl, said.content))?;
    Ok(())
}

// Appends what the entry states, unless there are too many.
fn append(records: &mut Records, meaning: Meaning) -> Result<(), TextWhy>
    requires whole { IsTrue (is_whole_meaning meaning) }
    requires plain { IsTrue (list_all is_plain records.old) }
    ensures ok { OnOk result (map said_of records.new ≡ map said_of records.old ++ said_in meaning) }
    ensures fits { OnOk result (unless_full (length records.old) meaning ≡ Ok meaning) }
    ensures plain { IsTrue (list_all is_plain records.new) }
    ensures err { IfErr result (λ why. why ≢ Memory → unless_full (length records.old) meaning ≡ Err why) }
{
    match meaning {
        Meaning::Record(said) => {
            if records.as_slice().len() == MOST_RECORDS {
                return Err(TextWhy::TooMany);
            }
            push(records, said)
        }
        _ => Ok(()),
    }
}

impl Progress {
    ghost use Rattle.zone_text.specs.Read.{seen};
    ghost use Rattle.zone_text.specs.Reading.{unread};

    /// No entry yet.
    pub(crate) fn new(alloc: Global, origin: Name) -> Progress
        ensures { seen result ≡ unread origin }
    {
        Progress {
            standing: Standing {
                origin,
                owner: None,
                default_ttl: None,
                last_ttl: None,
            },
            line: 1,
            size: 0,
            records: Records::new(alloc),
        }
    }

    ghost use Rattle.zone_text.specs.Zone.{entry_within};
    ghost use Rattle.zone_text.specs.Reading.{step};

    /// A fault of the entry that begins here.
    pub(crate) fn fault(&self, why: TextWhy) -> TextFault
        ensures { result ≡ record { line = self.now.line; why = why } }
    {
        TextFault {
            line: self.line,
            why,
        }
    }

    // An entry goes by: its lines and its bytes.
    fn pass(&mut self, entry: &[u8])
        requires { self.old.size + length entry.now ≤ most_bytes }
        ensures { seen self.new ≡ record (seen self.old) { line = self.old.line + lines_in entry.now; size = self.old.size + length entry.now } }
    {
        self.line += lines_in(entry) as u32;
        self.size += entry.len();
    }

    // One entry more of these tokens, or why it is broken.
    fn read_said(&mut self, alloc: Global, entry: &[u8], tokens: &[Token]) -> Result<(), TextWhy>
        requires { self.old.size + length entry.now ≤ most_bytes }
        ensures ok { OnOk result (tokens_of entry.now ≡ Ok tokens.now → step (seen self.old) entry.now ≡ Ok (seen self.new)) }
        ensures err { IfErr result (λ why. why ≢ Memory → tokens_of entry.now ≡ Ok tokens.now
            → entry_within (self.old.size + length entry.now) (length self.old.records) self.old.standing entry.now ≡ Err why) }
    {
        let meaning = self.standing.read_entry(alloc, entry, tokens)?;
        self.standing.advance(&meaning);
        append(&mut self.records, meaning)?;
        self.pass(entry);
        Ok(())
    }

    // One entry more, or why it is broken. A blank one only goes by.
    fn try_read(&mut self, alloc: Global, entry: &[u8]) -> Result<(), TextWhy>
        ensures ok { OnOk result (step (seen self.old) entry.now ≡ Ok (seen self.new)) }
        ensures err { IfErr result (λ why. why ≢ Memory
            → entry_within (self.old.size + length entry.now) (length self.old.records) self.old.standing entry.now ≡ Err why) }
    {
        if entry.len() > MOST_BYTES - self.size {
            return Err(TextWhy::TooLarge);
        }
        if is_blank_entry(entry) {
            self.pass(entry);
            return Ok(());
        }
        let tokens = read_tokens(alloc, entry)?;
        self.read_said(alloc, entry, tokens.as_slice())
    }

    /// One entry more, or its fault with the line on which it begins.
    pub(crate) fn read(&mut self, alloc: Global, entry: &[u8]) -> Result<(), TextFault>
        ensures ok { OnOk result (step (seen self.old) entry.now ≡ Ok (seen self.new)) }
        ensures err { IfErr result (λ fault. fault.why ≢ Memory → step (seen self.old) entry.now ≡ Err fault) }
    {
        let line = self.line;
        match self.try_read(alloc, entry) {
            Ok(()) => Ok(()),
            Err(why) => Err(TextFault { line, why }),
        }
    }
}
