//! Sources of rules.
ghost use Rattle.std.specs.Prelude.{◌≡◌, IfOk};
ghost use Rattle.dns_name.specs.Name.{folded_labels};
ghost use Rattle.enum_base.specs.Causes.{one_more};
ghost use Rattle.enum_base.specs.Outside.{WhereTold};
ghost use Rattle.naptr_data.specs.Sources.{RuleSourceState, HasFewRules, KeepsNames, Fetches, AreKept, HasTrouble};
ghost use Rattle.naptr_data.specs.Zones.{IsOffer};

use crate::offer::Offer;
use dns_name::Name;
use std::alloc::Global;

/// Why a source has no answer.
#[derive(Clone, Copy, Debug, PartialEq, Eq)]
pub enum SourceFault {
    /// Out of memory.
    Memory,
    /// The source had trouble, which it counts.
    Trouble,
}

/// Who is asked for the rules at a name (RFC 3403, section 4).
pub trait RuleSource {
    /// What it tells of itself.
    ghost state: { Self → RuleSourceState };

    /// What is at a name; the case of its letters decides nothing.
    ///
    /// # Errors
    /// `Trouble`, only where its count rose, and `Memory`.
    fn offer(&mut self, alloc: Global, name: &Name) -> Result<Offer, SourceFault>
        ensures zones { (state self.new).zones ≡ (state self.old).zones }
        ensures offered { IfOk result (λ offer. WhereTold (state self.old).zones (λ zones. IsOffer zones name.now offer)) }
        ensures few { IfOk result HasFewRules }
        ensures asks { (state self.new).asks ≡ one_more (state self.old).asks }
        ensures trouble { HasTrouble (state self.old) (state self.new) result }
        ensures room { (state self.new).room ≡ (state self.old).room }
        ensures keeps { KeepsNames (state self.old).room (folded_labels name.now) (state self.old).kept (state self.new).kept result }
        ensures fetched { Fetches (folded_labels name.now) (state self.old).kept (state self.old).fetched (state self.new).fetched }
        ensures before { AreKept (state self.old).kept (state self.old).fetched }
        ensures after { AreKept (state self.new).kept (state self.new).fetched }
        ensures lent { (state self.new).lent ≡ (state self.old).lent };
}

impl<T: RuleSource> RuleSource for &mut T {
    ghost use Rattle.std.specs.Prelude.{◌∷◌};

    ghost state = { λ s. record (T.state s.now) { lent = s.ghost_name ∷ (T.state s.now).lent } };

    fn offer(&mut self, alloc: Global, name: &Name) -> Result<Offer, SourceFault> {
        (**self).offer(alloc, name)
    }
}
