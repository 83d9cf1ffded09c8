//! The domains that were asked for.
ghost use Rattle.std.specs.Prelude.{◌≡◌, ◌↔◌, [], ◌∷◌, ◌++◌, length, Contains, IsTrue, OnOk, OnErr};

use crate::domain::Domain;
use dns_name::Name;
use enum_base::MemoryFault;
use indexmap::IndexSet;
use std::alloc::Global;
use std::marker::Model;

// Domains in the order in which they were asked for, each once.
#[derive(Drop)]
pub(crate) struct Asked {
    set: IndexSet<Domain>,
}

impl Model for Asked {
    ghost use Rattle.std.specs.Prelude.{List, ℕ, map};

    ghost Value = { List (List (List ℕ)) };

    ghost view = { λ a. map (λ d. d.name) a.set.keys };
}

impl Asked {
    pub(crate) fn new(alloc: Global) -> Asked
        ensures { result ≡ [] }
    {
        Asked {
            set: IndexSet::new(alloc),
        }
    }

    // Whether the domain was asked for.
    pub(crate) fn has(&self, name: &Name) -> bool
        ensures { IsTrue result ↔ Contains self.now name.now }
    {
        self.set.contains(&Domain { name: *name })
    }

    pub(crate) fn len(&self) -> usize
        ensures { result ≡ length self.now }
    {
        self.set.len()
    }

    // Adds a domain that was not asked for.
    pub(crate) fn push(&mut self, name: &Name) -> Result<(), MemoryFault>
        requires new { ¬ Contains self.old name.now }
        ensures ok { OnOk result (self.new ≡ self.old ++ name.now ∷ []) }
        ensures err { OnErr result (self.new ≡ self.old) }
    {
        self.set.insert(Domain { name: *name })?;
        Ok(())
    }
}
