//! What words ask for.
use crate::places::Places;

/// An application whose strings are resolved.
#[derive(Clone, Copy, Debug, PartialEq, Eq)]
pub enum AppName {
    /// ENUM (RFC 6116).
    Enum,
    /// S-NAPTR (RFC 3958).
    Snaptr,
    /// U-NAPTR (RFC 4848).
    Unaptr,
}

/// Where rules come from.
#[derive(Clone, Copy, Debug)]
pub enum Origin {
    /// From zone files of these names.
    Files(Places),
}

/// A string that is to be resolved; each text by its place among the words, from 0.
#[derive(Clone, Copy, Debug)]
pub struct Resolution {
    pub app: AppName,
    pub string: usize,
    pub want: Option<usize>,
    pub apexes: Places,
    pub origin: Origin,
}

/// What the words ask for.
#[derive(Clone, Copy, Debug)]
pub enum Request {
    /// The ends of a string.
    Resolve(Resolution),
    /// The message in hexadecimal that the input is.
    Show,
}
