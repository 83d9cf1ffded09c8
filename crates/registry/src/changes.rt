//! What commands change.
ghost use Rattle.std.specs.Prelude.{◌≡◌, OnErr, OnOk};
ghost use Rattle.dns_name.specs.Name.{IsBelow};
ghost use Rattle.dns_wire.specs.Kinds.{cname};
ghost use Rattle.dns_wire.specs.declared.content.Content.TheVariants as content;
ghost use Rattle.dns_wire.specs.declared.record.Record.{Record};
ghost use Rattle.zone_db.specs.LookUp.{HasKind};
ghost use Rattle.zone_build.specs.Zone.{IsIn};
ghost use Rattle.registry.specs.Commands.{HasNoRoom, HasRecord, HasRule, IsNew, IsRuleAt, IsWith};

use crate::copies::{with_record, without_record};
use crate::fresh::fresh_record;
use crate::place::{Place, place_of};
use crate::registry::Registry;
use dns_name::Name;
use dns_wire::{Content, kinds};
use enum_base::MemoryFault;
use naptr_data::Naptr;

impl Registry {
    /// Puts the rule at its place among the rules at the owner.
    pub(crate) fn put_rule(&mut self, owner: &Name, rule: &Naptr) -> Result<(), MemoryFault>
        requires inside { IsBelow owner.now self.old.apex }
        requires new { ¬ HasRule self.old owner.now rule.now }
        requires unaliased { ¬ HasKind self.old owner.now cname }
        requires room { ¬ HasNoRoom self.old owner.now rule.now }
        ensures ok { OnOk result ((one : Record) × IsNew self.old owner.now (content.Naptr rule.now) one × IsWith self.old one self.new) }
        ensures err { OnErr result (self.new ≡ self.old) }
    {
        let set = self.sets.set(owner, kinds::NAPTR);
        let at = place_of(set, rule).at();
        let one = fresh_record(owner, set, Content::Naptr(*rule));
        let more = with_record(self.alloc, set, at, one)?;
        self.sets.put(owner, kinds::NAPTR, more)?;
        Ok(())
    }

    /// Takes the rule away from the rules at the owner.
    pub(crate) fn take_rule(&mut self, owner: &Name, rule: &Naptr) -> Result<(), MemoryFault>
        requires { HasRule self.old owner.now rule.now }
        ensures ok { OnOk result ((one : Record) × IsRuleAt owner.now rule.now one × IsWith self.new one self.old) }
        ensures err { OnErr result (self.new ≡ self.old) }
    {
        let set = self.sets.set(owner, kinds::NAPTR);
        if set.len() < 2 {
            self.sets.take(owner, kinds::NAPTR);
            return Ok(());
        }
        match place_of(set, rule) {
            Place::Taken(at) => {
                let less = without_record(self.alloc, set, at)?;
                self.sets.put(owner, kinds::NAPTR, less)?;
                Ok(())
            }
            Place::Free(_) => Ok(()),
        }
    }

    /// Makes the owner an alias.
    pub(crate) fn put_alias(&mut self, owner: &Name, target: &Name) -> Result<(), MemoryFault>
        requires inside { IsBelow owner.now self.old.apex }
        requires new { ¬ HasRecord self.old owner.now }
        ensures ok { OnOk result ((one : Record) × IsNew self.old owner.now (content.Cname target.now) one × IsWith self.old one self.new) }
        ensures err { OnErr result (self.new ≡ self.old) }
    {
        let set = self.sets.set(owner, kinds::CNAME);
        // That the target is a name is a clause of `wire`.
        let _wire = target.wire();
        let one = fresh_record(owner, set, Content::Cname(*target));
        let more = with_record(self.alloc, set, set.len(), one)?;
        self.sets.put(owner, kinds::CNAME, more)?;
        Ok(())
    }

    /// Takes the alias at the owner away.
    pub(crate) fn take_alias(&mut self, owner: &Name)
        requires { HasKind self.old owner.now cname }
        ensures { (one : Record) × IsIn owner.now cname one × IsWith self.new one self.old }
    {
        // That an alias is a set of its own is a clause of `set`.
        let _alias = self.sets.set(owner, kinds::CNAME);
        self.sets.take(owner, kinds::CNAME);
    }
}
