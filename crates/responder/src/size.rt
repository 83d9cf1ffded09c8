//! How many bytes records have.
ghost use Rattle.std.specs.Prelude.{◌≡◌, length};
ghost use Rattle.dns_wire.specs.Encoding.{record_wire};
ghost use Rattle.responder.specs.Sizes.{IsLeft, size};

use dns_wire::Record;

/// What the records leave of that many bytes, if they have no more.
pub(crate) fn after_records(records: &[Record], room: usize) -> Option<usize>
    ensures { IsLeft room (size records.now) result }
{
    let mut left = room;
    for one in records {
        left = after_record(one, left)?;
    }
    Some(left)
}

// What the record leaves of that many bytes.
fn after_record(one: &Record, room: usize) -> Option<usize>
    ensures { IsLeft room (length (record_wire one.now)) result }
{
    let left = room.checked_sub(one.owner.wire().len() + 10)?;
    left.checked_sub(one.content.rdata_len())
}
