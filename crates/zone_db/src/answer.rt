//! What is answered from the records at a name.
ghost use Rattle.std.specs.Prelude.{◌↔◌, IsTrue};
ghost use Rattle.zone_db.specs.LookUp.{AsksFor};
ghost use Rattle.zone_db.specs.Seeking.{IsLeastKind, IsAnswer};

use crate::found::Found;
use crate::soa::soa_of;
use dns_name::Name;
use zone_build::Zone;

/// An alias, the set that was asked for, or the SOA where there is none.
pub(crate) fn answer<'a>(zone: &'a Zone, source: &Name, asked: u16) -> Found<'a>
    ensures { IsAnswer zone.now source.now asked result }
{
    let aliases = zone.set(source, 5);
    if !answers(asked, 5) && aliases.len() > 0 {
        return Found::Alias(aliases);
    }
    match least_kind(zone, source, asked) {
        Some(kind) => Found::Set(zone.set(source, kind)),
        None => Found::NoSet(soa_of(zone)),
    }
}

// Whether a question for one kind is answered by records of another.
fn answers(asked: u16, kind: u16) -> bool
    ensures { IsTrue result ↔ AsksFor asked kind }
{
    asked == kind || asked == 255
}

// The least kind of the records at the name that answer the question.
fn least_kind(zone: &Zone, source: &Name, asked: u16) -> Option<u16>
    ensures { IsLeastKind zone.now.records source.now asked result }
{
    if asked == 255 {
        return zone.least_kind(source);
    }
    let set = zone.set(source, asked);
    if set.len() > 0 {
        return Some(asked);
    }
    None
}
