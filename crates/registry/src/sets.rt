//! Records but for the SOA, in canonical order.
ghost use Rattle.std.specs.Prelude.{◌≡◌, [], ◌++◌, List, OnOk, OnErr};
ghost use Rattle.dns_name.specs.Name.{folded_labels};
ghost use Rattle.zone_build.specs.Zone.{IsRising, IsSet};
ghost use Rattle.registry.specs.Holding.{IsHeld, IsPut};
ghost use Rattle.dns_wire.specs.declared.record.Record.{Record};

use crate::copies::copy_all;
use crate::set_key::SetKey;
use dns_name::Name;
use dns_wire::{Record, Records};
use enum_base::MemoryFault;
use std::alloc::Global;
use std::collections::BTreeMap;
use std::marker::Model;

/// Records in canonical order, which are found by owner and kind, and changed, by one look-up.
#[derive(Drop)]
pub(crate) struct Sets {
    map: BTreeMap<SetKey, Records>,
}

impl Model for Sets {
    ghost use Rattle.std.specs.Prelude as std;
    ghost use Rattle.std.specs.List.{AllByRecursion};
    ghost use Rattle.std.specs.List.Sorted.{IsStrictlySortedBy};
    ghost use Rattle.std.specs.Map.{keys_of};
    ghost use Rattle.registry.specs.Keys.{key_order};
    ghost use Rattle.registry.specs.Holding.{IsEntry, records_in};
    ghost use Rattle.dns_wire.specs.declared.record.Record as record_type;

    ghost Value = { std.List record_type.Record };

    ghost view = { λ s. records_in s.map.entries };

    ghost invariant = { λ s. record { rising : IsStrictlySortedBy key_order (keys_of s.map.entries); each : AllByRecursion IsEntry s.map.entries } };
}

impl Sets {
    pub(crate) fn new(alloc: Global) -> Sets
        ensures { result ≡ [] }
    {
        Sets {
            map: BTreeMap::new(alloc),
        }
    }

    /// The set of that owner and kind.
    pub(crate) fn set(&self, owner: &Name, kind: u16) -> &[Record]
        ensures set { IsSet self.now owner.now kind result.now }
        ensures held { IsHeld (folded_labels owner.now) kind result.now }
        ensures rising { IsRising self.now }
    {
        // That the owner is a name is a clause of `wire`.
        let _wire = owner.wire();
        match self.map.get(&SetKey::new(owner, kind)) {
            Some(set) => set.as_slice(),
            None => &[],
        }
    }

    /// Puts the set of that owner and kind in the place of the one that is there.
    pub(crate) fn put(&mut self, owner: &Name, kind: u16, set: Records) -> Result<(), MemoryFault>
        requires { IsHeld (folded_labels owner.now) kind set }
        ensures put { OnOk result ((was : List Record) → IsSet self.old owner.now kind was → IsPut self.old self.new was set) }
        ensures rising { OnOk result (IsRising self.new) }
        ensures err { OnErr result (self.new ≡ self.old) }
    {
        let _wire = owner.wire();
        self.map.insert(SetKey::new(owner, kind), set)?;
        Ok(())
    }

    /// Appends copies of the records.
    pub(crate) fn copy_to(&self, alloc: Global, to: &mut Records) -> Result<(), MemoryFault>
        ensures { OnOk result (to.new ≡ to.old ++ self.now) }
    {
        for set in self.map.values() {
            copy_all(alloc, set.as_slice(), to)?;
        }
        Ok(())
    }

    /// Takes the set of that owner and kind away.
    pub(crate) fn take(&mut self, owner: &Name, kind: u16)
        ensures taken { (was : List Record) → IsSet self.old owner.now kind was → IsPut self.old self.new was [] }
        ensures rising { IsRising self.new }
    {
        let _wire = owner.wire();
        let _ = self.map.remove(&SetKey::new(owner, kind));
    }
}
