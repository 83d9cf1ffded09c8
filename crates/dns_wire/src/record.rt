//! Records.
ghost use Rattle.dns_wire.specs.Kinds.{belongs};
ghost use Rattle.std.specs.Prelude.{◌≡◌, IsTrue, IfOk};

use crate::content::Content;
use crate::kinds;
use dns_name::Name;
use enum_base::{List, MemoryFault};
use std::alloc::Global;

/// A record (RFC 1035, 3.2.1): its content belongs to its kind and class.
#[derive(Drop)]
pub struct Record {
    pub owner: Name,
    pub kind: u16,
    pub class: u16,
    /// For how many seconds the record may be kept.
    pub ttl: u32,
    pub content: Content,
    ghost belongs: { IsTrue (belongs kind class content) },
}

impl Record {
    ghost use Rattle.dns_wire.specs.Kinds.{kind_of, is_whole, internet};

    /// A record of one of the ten kinds, in the class of the internet.
    pub fn new(owner: Name, ttl: u32, content: Content) -> Record
        requires { IsTrue (is_whole content) }
        ensures owner { result.owner ≡ owner }
        ensures kind { result.kind ≡ kind_of content }
        ensures class { result.class ≡ internet }
        ensures ttl { result.ttl ≡ ttl }
        ensures content { result.content ≡ content }
    {
        let kind = content.kind();
        Record {
            owner,
            kind,
            class: kinds::INTERNET,
            ttl,
            content,
        }
    }

    /// A record that is equal to this one.
    ///
    /// # Errors
    /// Out of memory.
    pub fn copy(&self, alloc: Global) -> Result<Record, MemoryFault>
        ensures { IfOk result (λ copy. copy ≡ self.now) }
    {
        Ok(Record {
            owner: self.owner,
            kind: self.kind,
            class: self.class,
            ttl: self.ttl,
            content: self.content.copy(alloc)?,
        })
    }
}

/// A list of records.
pub type Records = List<Record>;
