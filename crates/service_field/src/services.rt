//! The services of ENUM rules.
ghost use Rattle.std.specs.Prelude.{◌≡◌, ◌≤◌, ◌↔◌, List, Some, drop, length, slice_get, option_map, IsNone, IfOk, MatchResult, Ok};
ghost use Rattle.std.specs.Result.{result_err};
ghost use Rattle.std.specs.List.{list_any};
ghost use Rattle.service_field.specs.Fitting.{begins};
ghost use Rattle.service_field.specs.Tags.{AreItems, IsItem, Item, first_tag, tags_of};
ghost use Rattle.service_field.specs.Services.{SpellsServices};
ghost use Rattle.service_field.specs.Faults.{form_fault, services_fault};
ghost use Rattle.service_field.specs.declared.alphabet.Alphabet.TheVariants.{Enum};
ghost use Rattle.service_field.specs.declared.form.Form.TheVariants.{EnumItems};

use crate::ServiceFault;
use crate::fitting::begins;
use crate::form::Form;
use crate::tags::first_tag;
use enum_base::same_folded;
use std::marker::Model;

/// Well-formed services of ENUM: one item or more, each a type with subtypes (RFC 6116, section 3.4.3).
#[derive(Debug, Drop)]
pub struct EnumServices<'a> {
    // What stands after `E2U+`.
    items: &'a [u8],
}

// Clauses see the items, each a list of tags.
impl<'a> Model for EnumServices<'a> {
    ghost use Rattle.std.specs.Prelude.{List, ℕ};
    ghost use Rattle.service_field.specs.Tags.{AreItems, IsItem, items_of};
    ghost use Rattle.service_field.specs.Services.{plus};
    ghost use Rattle.service_field.specs.declared.alphabet.Alphabet.TheVariants.{Enum};

    ghost Value = { List (List (List ℕ)) };

    ghost view = { λ s. items_of plus s.items.now };

    ghost invariant = { λ s. AreItems (IsItem Enum) (items_of plus s.items.now) };
}

/// Reads the services of an ENUM rule: `E2U` in any case, and then items, each after a `+`, of tags with
/// colons between them. A tag has 1 to 32 letters, digits or `-` (RFC 6116, section 3.4.3).
pub fn read_enum(text: &[u8]) -> Result<EnumServices<'_>, ServiceFault>
    // The first fault from left to right.
    ensures fault { result_err result ≡ services_fault text.now }
    // What is read is spelled so.
    ensures spelled { IfOk result (λ items. SpellsServices text.now items) }
    // What is spelled so is read.
    ensures only { (items : List Item) → SpellsServices text.now items → result ≡ Ok items }
{
    let items = after_e2u(text)?;
    match Form::EnumItems.fault(4, items) {
        Some(fault) => Err(fault),
        None => Ok(EnumServices { items }),
    }
}

// What stands after `E2U+`, or the first fault of these four bytes.
fn after_e2u(text: &[u8]) -> Result<&[u8], ServiceFault>
    ensures { MatchResult result
        (λ items. (items.now ≡ drop 4 text.now) × (services_fault text.now ≡ form_fault EnumItems 4 items.now))
        (λ fault. services_fault text.now ≡ Some fault) }
{
    if text.is_empty() {
        return Err(ServiceFault::Empty);
    }
    let (head, rest) = text.split_at(text.len().min(3));
    if !same_folded(head, b"e2u") {
        return Err(ServiceFault::NoE2u);
    }
    match rest {
        [] => Err(ServiceFault::BadTag { at: 3 }),
        [b'+', items @ ..] => Ok(items),
        _ => Err(ServiceFault::Trailing { at: 3 }),
    }
}

impl<'a> EnumServices<'a> {
    /// The type of an item, which is its first tag; items are counted from 0.
    pub fn type_at(&self, k: usize) -> Option<&[u8]>
        ensures value { option_map (λ tag. tag.now) result ≡ option_map first_tag (slice_get self.now k) }
        ensures none { IsNone result ↔ (length self.now ≤ k) }
        // What services are: items in a row.
        ensures items { AreItems (IsItem Enum) self.now }
    {
        match self.items.split(|b| *b == b'+').nth(k) {
            Some(item) => Some(first_tag(item)),
            None => None,
        }
    }

    /// Whether some item begins with these tags.
    pub(crate) fn has_item(&self, tags: &[u8]) -> bool
        ensures { result ≡ list_any (begins (tags_of tags.now)) self.now }
    {
        self.items
            .split(|b| *b == b'+')
            .any(|item| begins(tags, item))
    }
}
