//! Which services are wanted.
ghost use Rattle.std.specs.Prelude.{◌≡◌, List, Some, OnOk, IfOk, IsOk};
ghost use Rattle.std.specs.Result.{result_err};
ghost use Rattle.service_field.specs.Tags.{Item};
ghost use Rattle.service_field.specs.Services.{SpellsSnaptrWanted, SpellsWanted, wanted_items};
ghost use Rattle.service_field.specs.Faults.{snaptr_wanted_fault, wanted_fault};
ghost use Rattle.service_field.specs.Wanted.{wanted_text};

use crate::ServiceFault;
use crate::form::Form;

/// The services that a rule may serve.
#[derive(Clone, Copy, Debug)]
pub enum Wanted<'a> {
    /// Any services.
    Any,
    /// Those of a list, as it stands in the text.
    List(&'a [u8]),
}

/// Reads a wanted list of ENUM: items with commas between them, of tags with colons between them. `NoE2u` never
/// comes.
pub fn want_enum(text: &[u8]) -> Result<Wanted<'_>, ServiceFault>
    // The first fault from left to right.
    ensures fault { result_err result ≡ wanted_fault text.now }
    // What is read is the text, which is spelled so.
    ensures list { IfOk result (λ wanted. wanted_text wanted ≡ Some text.now) }
    ensures spelled { OnOk result (SpellsWanted text.now (wanted_items text.now)) }
    // What is spelled so is read.
    ensures only { (items : List Item) → SpellsWanted text.now items → IsOk result × (items ≡ wanted_items text.now) }
{
    Ok(Wanted::List(Form::EnumList.read(text)?))
}

/// Reads a wanted list of S-NAPTR: items with commas between them, each a service, or a service and a protocol with
/// a colon between them. `NoE2u` never comes.
pub fn want_snaptr(text: &[u8]) -> Result<Wanted<'_>, ServiceFault>
    // The first fault from left to right.
    ensures fault { result_err result ≡ snaptr_wanted_fault text.now }
    // What is read is the text, which is spelled so.
    ensures list { IfOk result (λ wanted. wanted_text wanted ≡ Some text.now) }
    ensures spelled { OnOk result (SpellsSnaptrWanted text.now (wanted_items text.now)) }
    // What is spelled so is read.
    ensures only { (items : List Item) → SpellsSnaptrWanted text.now items → IsOk result × (items ≡ wanted_items text.now) }
{
    Ok(Wanted::List(Form::SnaptrList.read(text)?))
}
