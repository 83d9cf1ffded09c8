//! Laws of replies.
ghost use Rattle.responder.specs.Laws.{EachQueryHasAReply, FoundIsReady, StreamsAreWhole, ZonesHaveOneReply};

/// What is found in zones can be said: sets are not large, and hold what they were looked up for.
pub fn found_is_ready()
    ensures { FoundIsReady }
{}

/// Zones have one reply to a query.
pub fn one_reply()
    ensures { ZonesHaveOneReply }
{}

/// Each query over zones has a reply, or nothing is said to it.
pub fn some_reply()
    ensures { EachQueryHasAReply }
{}

/// No reply on a stream is cut short: TC is clear.
pub fn stream_is_whole()
    ensures { StreamsAreWhole }
{}
