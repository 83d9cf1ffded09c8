//! Which services serve what is wanted.
ghost use Rattle.std.specs.Prelude.{◌≡◌, ◌↔◌, IsTrue};
ghost use Rattle.service_field.specs.Tags.{tags_of};
ghost use Rattle.service_field.specs.Fitting.{Fits, SnaptrFits, begins, ends, items_serve, snaptr_serves};
ghost use Rattle.service_field.specs.Wanted.{wanted_text};

use crate::alphabet::Alphabet;
use crate::tags::{is_item, is_pair};
use crate::{EnumServices, SnaptrServices, Wanted};
use enum_base::same_folded;

/// Whether services of ENUM serve what is wanted: some well-formed item of the list has tags that some item of the
/// services begins with, without regard to case. Where anything is wanted, all services serve.
pub fn fits_enum(wanted: Wanted<'_>, services: EnumServices<'_>) -> bool
    ensures fits { IsTrue result ↔ Fits (wanted_text wanted.entry) services.entry }
    ensures decided { result ≡ items_serve (wanted_text wanted.entry) services.entry }
{
    match wanted {
        Wanted::Any => true,
        Wanted::List(text) => text.split(|b| *b == b',').any(|item| is_item(Alphabet::Enum, item)
            && services.has_item(item)),
    }
}

/// Whether services of S-NAPTR serve what is wanted: some well-formed item of the list has their service, and one of
/// their protocols where it has a protocol, without regard to case. Where anything is wanted, all services serve.
pub fn fits_snaptr(wanted: Wanted<'_>, services: SnaptrServices<'_>) -> bool
    ensures fits { IsTrue result ↔ SnaptrFits (wanted_text wanted.entry) services.entry }
    ensures decided { result ≡ snaptr_serves (wanted_text wanted.entry) services.entry }
{
    match wanted {
        Wanted::Any => true,
        Wanted::List(text) => text
            .split(|b| *b == b',')
            .any(|item| is_pair(item) && services.offers(item)),
    }
}

/// Whether an item begins with these tags.
pub(crate) fn begins(tags: &[u8], item: &[u8]) -> bool
    ensures { result ≡ begins (tags_of tags.now) (tags_of item.now) }
{
    let (front, rest) = item.split_at(item.len().min(tags.len()));
    same_folded(front, tags) && ends(rest)
}

// Whether no further byte belongs to the tag before.
fn ends(rest: &[u8]) -> bool
    ensures { result ≡ ends rest.now }
{
    match rest {
        [b, ..] => *b == b':',
        [] => true,
    }
}
