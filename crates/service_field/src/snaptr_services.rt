//! The services of S-NAPTR and U-NAPTR rules.
ghost use Rattle.std.specs.Prelude.{◌≡◌, IfOk, Ok};
ghost use Rattle.std.specs.Result.{result_err};
ghost use Rattle.std.specs.List.{list_any};
ghost use Rattle.service_field.specs.Fitting.{offers, same_tag};
ghost use Rattle.service_field.specs.Tags.{Item, first_tag, other_tags, tags_of};
ghost use Rattle.service_field.specs.Services.{SpellsSnaptr};
ghost use Rattle.service_field.specs.Faults.{snaptr_fault};

use crate::ServiceFault;
use crate::form::Form;
use crate::tags::first_tag;
use enum_base::same_folded;
use std::marker::Model;

/// Well-formed services of S-NAPTR: a service and its protocols (RFC 3958, section 6.5).
#[derive(Debug, Drop)]
pub struct SnaptrServices<'a> {
    text: &'a [u8],
}

// Clauses see the tags: the service first, and then the protocols.
impl<'a> Model for SnaptrServices<'a> {
    ghost use Rattle.std.specs.Prelude.{List, ℕ};
    ghost use Rattle.service_field.specs.Tags.{IsItem, tags_of};
    ghost use Rattle.service_field.specs.declared.alphabet.Alphabet.TheVariants.{Snaptr};

    ghost Value = { List (List ℕ) };

    ghost view = { λ s. tags_of s.text.now };

    ghost invariant = { λ s. IsItem Snaptr (tags_of s.text.now) };
}

/// Reads the services of an S-NAPTR or U-NAPTR rule: tags with colons between them, the service first. A tag is a
/// letter and up to 31 letters, digits, `+`, `-` or `.` (RFC 3958, section 6.5). `NoE2u` never comes.
pub fn read_snaptr(text: &[u8]) -> Result<SnaptrServices<'_>, ServiceFault>
    // The first fault from left to right.
    ensures fault { result_err result ≡ snaptr_fault text.now }
    // What is read is spelled so.
    ensures spelled { IfOk result (λ item. SpellsSnaptr text.now item) }
    // What is spelled so is read.
    ensures only { (item : Item) → SpellsSnaptr text.now item → result ≡ Ok item }
{
    let text = Form::SnaptrTags.read(text)?;
    Ok(SnaptrServices { text })
}

impl<'a> SnaptrServices<'a> {
    /// Whether it has the service of an item, and its protocols.
    pub(crate) fn offers(&self, item: &[u8]) -> bool
        ensures { result ≡ offers (tags_of item.now) self.now }
    {
        self.has_service(first_tag(item))
            && item
                .split(|b| *b == b':')
                .skip(1)
                .all(|protocol| self.has_protocol(protocol))
    }

    fn has_service(&self, service: &[u8]) -> bool
        ensures { result ≡ same_tag service.now (first_tag self.now) }
    {
        same_folded(service, first_tag(self.text))
    }

    fn has_protocol(&self, protocol: &[u8]) -> bool
        ensures { result ≡ list_any (same_tag protocol.now) (other_tags self.now) }
    {
        self.text
            .split(|b| *b == b':')
            .skip(1)
            .any(|other| same_folded(protocol, other))
    }
}
