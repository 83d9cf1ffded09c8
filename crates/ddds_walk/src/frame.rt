//! Where a walk stands.

use crate::edge::Edges;
use dns_name::Name;
use enum_base::List;

// A domain on the way, its edges, and the rank of the one that is followed next or that the way goes on by.
#[derive(Drop)]
pub(crate) struct Frame {
    // `None` is the root, from which one edge leads to each key.
    pub(crate) domain: Option<Name>,
    pub(crate) edges: Edges,
    pub(crate) rank: u32,
}

// A list of frames, the first one lowest.
pub(crate) type Frames = List<Frame>;
