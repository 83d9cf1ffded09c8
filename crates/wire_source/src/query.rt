//! Queries for the rules at a name.
ghost use Rattle.std.specs.Prelude.{◌≡◌, ◌<◌, ◌≤◌, ◌+◌, ◌^◌, ◌++◌, length};
ghost use Rattle.std.specs.Int.{w16, to_be_bytes};
ghost use Rattle.dns_name.specs.Name.{IsName};
ghost use Rattle.wire_source.specs.Queries.{query_bytes};

use dns_name::Name;
use dns_wire::kinds::{INTERNET, NAPTR};
use enum_base::Buffer;

/// A query, in a row of the most bytes that a link takes.
pub(crate) type Query = Buffer<512>;

// The bits of a query, in which RD alone is set (RFC 1035, 4.1.1).
const RD: u16 = 0x0100;

/// The query of that number for the rules at a name. Takes no memory.
pub(crate) fn query_for(id: u16, name: &Name) -> Query
    ensures bytes { result ≡ query_bytes id name.now }
    ensures name { IsName name.now }
    ensures number { id < 2 ^ 16 }
{
    let mut query = Query::new();
    push_number(&mut query, id);
    push_number(&mut query, RD);
    // One question, and no records.
    push_number(&mut query, 1);
    push_number(&mut query, 0);
    push_number(&mut query, 0);
    push_number(&mut query, 0);
    query.push_slice(name.wire());
    push_number(&mut query, NAPTR);
    push_number(&mut query, INTERNET);
    query
}

// A number of 16 bits, the high byte first.
fn push_number(query: &mut Query, number: u16)
    requires { length query.old + 2 ≤ 512 }
    ensures { query.new ≡ query.old ++ to_be_bytes w16 number }
{
    query.push_slice(&number.to_be_bytes());
}
