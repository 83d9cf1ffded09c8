//! Registries.
ghost use Rattle.std.specs.Prelude.{◌≡◌, ◌⊎◌, Err, List, IfOk, IfErr, OnErr, OnOk};
ghost use Rattle.naptr_data.specs.Zones.{Labels};
ghost use Rattle.dns_wire.specs.Kinds.{naptr};
ghost use Rattle.zone_db.specs.LookUp.{AreRulesOf};
ghost use Rattle.zone_build.specs.Zone.{IsSet, IsValid};
ghost use Rattle.registry.specs.Commands.{IsDone, IsRefusal, add, drop_alias, remove, set_alias};
ghost use Rattle.registry.specs.declared.fault.RegistryFault.{RegistryFault};
ghost use Rattle.registry.specs.declared.fault.RegistryFault.TheVariants as RegistryFault;
ghost use Rattle.dns_wire.specs.declared.record.Record.{Record};

use crate::fault::RegistryFault;
use crate::filling::filled;
use crate::laws::one_refusal;
use crate::listing::rules_in;
use crate::sets::Sets;
use dns_name::Name;
use dns_wire::{Record, Records, kinds};
use enum_base::MemoryFault;
use naptr_data::{Naptr, Rules};
use service_field::DddsApp;
use std::alloc::Global;
use std::marker::Model;
use zone_build::{Zone, one_zone, one_zone_fault};

/// A valid zone that commands change.
#[derive(Drop)]
pub struct Registry {
    pub(crate) alloc: Global,
    pub(crate) apex: Name,
    pub(crate) soa: Record,
    pub(crate) sets: Sets,
}

// Clauses see the zone.
impl Model for Registry {
    ghost use Rattle.std.specs.Prelude.{◌∷◌};
    ghost use Rattle.zone_build.specs.Zone as zone;

    ghost Value = { zone.Zone };

    ghost view = { λ r. record { apex = r.apex; records = r.soa ∷ r.sets } };

    ghost invariant = { λ r. zone.IsValid (record { apex = r.apex; records = r.soa ∷ r.sets }) };
}

impl Registry {
    /// The registry of a zone. Rules that are there stay, those that are not well formed too.
    ///
    /// # Errors
    /// Out of memory.
    pub fn from_zone(alloc: Global, zone: Zone) -> Result<Registry, MemoryFault>
        ensures { IfOk result (λ registry. registry ≡ zone) }
    {
        let records = zone.records();
        Ok(Registry {
            alloc,
            apex: zone.apex(),
            soa: records[0].copy(alloc)?,
            sets: filled(alloc, &records[1..])?,
        })
    }

    /// Adds the rule at the owner, with the TTL of the rules that are there, or else 3,600 seconds.
    ///
    /// # Errors
    /// The first that holds: the rule is not well formed for the application; the owner is outside the zone; the rule is
    /// there; an alias is there; the rules there would be too large a set; out of memory. The registry is as it was then.
    pub fn add<P: DddsApp>(
        &mut self,
        app: &P,
        owner: &Name,
        rule: &Naptr,
    ) -> Result<(), RegistryFault>
        ensures ok { OnOk result (IsDone (add (P.meaning app.now) owner.now rule.now) self.old self.new) }
        ensures err { IfErr result (λ fault. (fault ≡ RegistryFault.Memory)
            ⊎ IsRefusal (add (P.meaning app.now) owner.now rule.now) self.old fault) }
        ensures same { OnErr result (self.new ≡ self.old) }
        ensures refuses { (fault : RegistryFault) → IsRefusal (add (P.meaning app.now) owner.now rule.now) self.old fault →
            (result ≡ Err fault) ⊎ (result ≡ Err RegistryFault.Memory) }
    {
        one_refusal();
        if let Some(fault) = self.add_fault(app, owner, rule) {
            return Err(fault);
        }
        self.put_rule(owner, rule)?;
        Ok(())
    }

    /// Takes the rule at the owner away.
    ///
    /// # Errors
    /// The first that holds: the owner is outside the zone; the rule is not there; out of memory. The registry is as it
    /// was then.
    pub fn remove(&mut self, owner: &Name, rule: &Naptr) -> Result<(), RegistryFault>
        ensures ok { OnOk result (IsDone (remove owner.now rule.now) self.old self.new) }
        ensures err { IfErr result (λ fault. (fault ≡ RegistryFault.Memory)
            ⊎ IsRefusal (remove owner.now rule.now) self.old fault) }
        ensures same { OnErr result (self.new ≡ self.old) }
        ensures refuses { (fault : RegistryFault) → IsRefusal (remove owner.now rule.now) self.old fault →
            (result ≡ Err fault) ⊎ (result ≡ Err RegistryFault.Memory) }
    {
        one_refusal();
        if let Some(fault) = self.remove_fault(owner, rule) {
            return Err(fault);
        }
        self.take_rule(owner, rule)?;
        Ok(())
    }

    /// Makes the owner an alias of the target, with a TTL of 3,600 seconds.
    ///
    /// # Errors
    /// The first that holds: the owner is outside the zone; an alias is there; any other record is there; out of memory.
    /// The registry is as it was then.
    pub fn set_alias(&mut self, owner: &Name, target: &Name) -> Result<(), RegistryFault>
        ensures ok { OnOk result (IsDone (set_alias owner.now target.now) self.old self.new) }
        ensures err { IfErr result (λ fault. (fault ≡ RegistryFault.Memory)
            ⊎ IsRefusal (set_alias owner.now target.now) self.old fault) }
        ensures same { OnErr result (self.new ≡ self.old) }
        ensures refuses { (fault : RegistryFault) → IsRefusal (set_alias owner.now target.now) self.old fault →
            (result ≡ Err fault) ⊎ (result ≡ Err RegistryFault.Memory) }
    {
        one_refusal();
        if let Some(fault) = self.set_alias_fault(owner, target) {
            return Err(fault);
        }
        self.put_alias(owner, target)?;
        Ok(())
    }

    /// Takes the alias at the owner away.
    ///
    /// # Errors
    /// The first that holds: the owner is outside the zone; no alias is there. The registry is as it was then.
    pub fn drop_alias(&mut self, owner: &Name) -> Result<(), RegistryFault>
        ensures ok { OnOk result (IsDone (drop_alias owner.now) self.old self.new) }
        ensures err { IfErr result (IsRefusal (drop_alias owner.now) self.old) }
        ensures same { OnErr result (self.new ≡ self.old) }
        ensures refuses { (fault : RegistryFault) → IsRefusal (drop_alias owner.now) self.old fault → result ≡ Err fault }
    {
        one_refusal();
        if let Some(fault) = self.drop_alias_fault(owner) {
            return Err(fault);
        }
        self.take_alias(owner);
        Ok(())
    }

    /// The rules at the owner, in the order of rules.
    ///
    /// # Errors
    /// Out of memory.
    pub fn rules_of(&self, alloc: Global, owner: &Name) -> Result<Rules, MemoryFault>
        ensures { IfOk result (λ rules. (set : List Record) × IsSet self.now.records owner.now naptr set × AreRulesOf set rules) }
    {
        rules_in(alloc, self.set(owner, kinds::NAPTR))
    }

    /// The zone of the registry.
    ///
    /// # Errors
    /// Out of memory.
    pub fn to_zone(&self, alloc: Global) -> Result<Zone, MemoryFault>
        ensures { IfOk result (λ zone. zone ≡ self.now) }
    {
        one_zone();
        one_zone_fault();
        let mut records = Records::new(alloc);
        records.push(self.soa.copy(alloc)?)?;
        self.sets.copy_to(alloc, &mut records)?;
        match Zone::build(alloc, records) {
            Ok(zone) => Ok(zone),
            Err(_) => Err(MemoryFault),
        }
    }
}
