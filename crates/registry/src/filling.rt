//! Sets of given records.
ghost use Rattle.std.specs.Prelude.{◌≡◌, ◌++◌, ◌∷◌, [], Contains, IfOk, OnOk};
ghost use Rattle.std.specs.declared.cmp.Ordering.TheVariants.{Less};
ghost use Rattle.dns_name.specs.Name.{folded_labels};
ghost use Rattle.zone_build.specs.Zone.{IsRising, order_of};
ghost use Rattle.dns_wire.specs.declared.record.Record.{Record};

use crate::copies::with_record;
use crate::sets::Sets;
use dns_wire::Record;
use enum_base::MemoryFault;
use std::alloc::Global;

/// The sets of records that rise.
pub(crate) fn filled(alloc: Global, records: &[Record]) -> Result<Sets, MemoryFault>
    requires rising { IsRising records.now }
    requires folded { (one : Record) → Contains records.now one → folded_labels one.owner ≡ one.owner }
    ensures { IfOk result (λ sets. sets ≡ records.now) }
{
    let mut sets = Sets::new(alloc);
    for one in records {
        append(alloc, &mut sets, one)?;
    }
    Ok(sets)
}

// Adds a record that comes after all that are there.
fn append(alloc: Global, sets: &mut Sets, one: &Record) -> Result<(), MemoryFault>
    requires folded { folded_labels one.now.owner ≡ one.now.owner }
    requires later { (other : Record) → Contains sets.old other → order_of other one.now ≡ Less }
    ensures { OnOk result (sets.new ≡ sets.old ++ one.now ∷ []) }
{
    let set = sets.set(&one.owner, one.kind);
    let more = with_record(alloc, set, set.len(), one.copy(alloc)?)?;
    sets.put(&one.owner, one.kind, more)?;
    Ok(())
}
