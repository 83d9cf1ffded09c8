//! Why a server's rules cannot be had.
use dns_wire::DecodeFault;

/// What was wrong with the last try.
#[derive(Clone, Copy, Debug, PartialEq, Eq)]
pub enum Trouble {
    /// The exchange failed.
    LinkFault,
    /// What came is no message (RFC 1035, 4.1).
    BadReply(DecodeFault),
    /// What came is no reply to the query, or was cut short on a stream.
    WrongReply,
    /// The reply tells a fault of the server: an RCODE other than NOERROR, NXDOMAIN and REFUSED (RFC 1035, 4.1.1).
    Server { rcode: u8 },
}
