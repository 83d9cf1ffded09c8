//! Ways of messages.

/// How a message travels (RFC 1035, 4.2).
#[derive(Clone, Copy, Debug, PartialEq, Eq)]
pub enum Way {
    /// By itself, with a limit on its size (RFC 1035, 4.2.1).
    Datagram,
    /// With its length before it (RFC 1035, 4.2.2).
    Stream,
}
