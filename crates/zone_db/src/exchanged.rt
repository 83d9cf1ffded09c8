//! What a link keeps of its exchanges.
ghost use Rattle.std.specs.Prelude.{◌≡◌, ◌≤◌, [], length, take};
ghost use Rattle.enum_base.specs.Causes.{one_more};
ghost use Rattle.zone_db.specs.Links.{recent_after};

use crate::way::Way;
use enum_base::Failed;
use std::marker::Model;

/// How many exchanges were begun, the last query with its way, and how many exchanges failed last. It takes no memory.
#[derive(Drop)]
pub struct Exchanged {
    count: u64,
    way: Way,
    row: [u8; 512],
    len: usize,
    recent: u8,
}

impl Model for Exchanged {
    ghost use Rattle.std.specs.Prelude.{take, ◌≤◌};
    ghost use Rattle.zone_db.specs.Links.{Kept};

    ghost Value = { Kept };

    ghost view = { λ e. record { exchanges = e.count; way = e.way; query = take e.len e.row; recent = e.recent } };

    ghost invariant = { λ e. e.len ≤ 512 };
}

impl Exchanged {
    /// No exchange was begun.
    pub fn none() -> Exchanged
        ensures { result ≡ record { exchanges = 0; way = Way.Datagram; query = []; recent = 0 } }
    {
        Exchanged {
            count: 0,
            way: Way::Datagram,
            row: [0; 512],
            len: 0,
            recent: 0,
        }
    }

    /// How many were begun.
    pub fn count(&self) -> u64
        ensures { result ≡ self.now.exchanges }
    {
        self.count
    }

    /// One more exchange is begun with this query.
    pub fn begin(&mut self, way: Way, query: &[u8])
        requires { length query.now ≤ 512 }
        ensures { self.new ≡ record { exchanges = one_more self.old.exchanges; way = way; query = query.now; recent = self.old.recent } }
    {
        self.count = self.count.saturating_add(1);
        self.way = way;
        self.len = copy_row(query, &mut self.row);
    }

    /// The exchange has ended so.
    pub fn end(&mut self, how: &Result<(), Failed>)
        ensures { self.new ≡ record self.old { recent = recent_after self.old.recent how.now } }
    {
        self.recent = match how {
            Ok(()) => 0,
            Err(_) => self.recent.saturating_add(1).min(3),
        };
    }
}

// Copies the bytes into the front of a row, and says how many they are.
fn copy_row(from: &[u8], row: &mut [u8; 512]) -> usize
    requires { length from.now ≤ 512 }
    ensures count { result ≡ length from.now }
    ensures copied { take result row.new ≡ from.now }
{
    row[..from.len()].copy_from_slice(from);
    from.len()
}
