//! Why a registry refuses a command.
ghost use Rattle.std.specs.Prelude.{◌≡◌, ◌⊎◌, IfNone, MatchOption};
ghost use Rattle.dns_wire.specs.Kinds.{cname};
ghost use Rattle.zone_db.specs.LookUp.{HasKind};
ghost use Rattle.registry.specs.Commands.{HasRule, IsRefusal, Refuses, add, drop_alias, remove, set_alias};
ghost use Rattle.registry.specs.declared.fault.RegistryFault.{RegistryFault};
ghost use Rattle.registry.specs.declared.fault.RegistryFault.TheVariants as RegistryFault;

use crate::fault::RegistryFault;
use crate::registry::Registry;
use dns_name::Name;
use dns_wire::kinds;
use naptr_data::Naptr;
use rule_check::{RuleFault, check_rule};
use service_field::DddsApp;

impl Registry {
    /// Why `add` is refused, where it is.
    pub(crate) fn add_fault<P: DddsApp>(
        &self,
        app: &P,
        owner: &Name,
        rule: &Naptr,
    ) -> Option<RegistryFault>
        ensures { MatchOption result
            ((f : RegistryFault) → ¬ Refuses (add (P.meaning app.now) owner.now rule.now) self.now f)
            (λ f. (f ≡ RegistryFault.Memory) ⊎ IsRefusal (add (P.meaning app.now) owner.now rule.now) self.now f) }
    {
        match check_rule(self.alloc, app, rule) {
            Err(RuleFault::Memory) => return Some(RegistryFault::Memory),
            Err(fault) => return Some(RegistryFault::IllFormed(fault)),
            Ok(()) => {}
        }
        if self.is_outside(owner) {
            return Some(RegistryFault::OutsideZone);
        }
        if self.has_rule(owner, rule) {
            return Some(RegistryFault::Duplicate);
        }
        if self.has_kind(owner, kinds::CNAME) {
            return Some(RegistryFault::AliasClash);
        }
        if !self.has_room(owner, rule) {
            return Some(RegistryFault::SetTooLarge);
        }
        None
    }

    /// Why `remove` is refused, where it is.
    pub(crate) fn remove_fault(&self, owner: &Name, rule: &Naptr) -> Option<RegistryFault>
        ensures fault { MatchOption result
            ((f : RegistryFault) → ¬ Refuses (remove owner.now rule.now) self.now f)
            (IsRefusal (remove owner.now rule.now) self.now) }
        ensures there { IfNone result (HasRule self.now owner.now rule.now) }
    {
        if self.is_outside(owner) {
            Some(RegistryFault::OutsideZone)
        } else if !self.has_rule(owner, rule) {
            Some(RegistryFault::Absent)
        } else {
            None
        }
    }

    /// Why `set_alias` is refused, where it is.
    pub(crate) fn set_alias_fault(&self, owner: &Name, target: &Name) -> Option<RegistryFault>
        ensures { MatchOption result
            ((f : RegistryFault) → ¬ Refuses (set_alias owner.now target.now) self.now f)
            (IsRefusal (set_alias owner.now target.now) self.now) }
    {
        if self.is_outside(owner) {
            Some(RegistryFault::OutsideZone)
        } else if self.has_kind(owner, kinds::CNAME) {
            Some(RegistryFault::Duplicate)
        } else if self.has_record(owner) {
            Some(RegistryFault::AliasClash)
        } else {
            None
        }
    }

    /// Why `drop_alias` is refused, where it is.
    pub(crate) fn drop_alias_fault(&self, owner: &Name) -> Option<RegistryFault>
        ensures fault { MatchOption result
            ((f : RegistryFault) → ¬ Refuses (drop_alias owner.now) self.now f)
            (IsRefusal (drop_alias owner.now) self.now) }
        ensures there { IfNone result (HasKind self.now owner.now cname) }
    {
        if self.is_outside(owner) {
            Some(RegistryFault::OutsideZone)
        } else if !self.has_kind(owner, kinds::CNAME) {
            Some(RegistryFault::Absent)
        } else {
            None
        }
    }
}
