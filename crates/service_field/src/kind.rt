//! What the flags of a rule mean.

/// What a rule gives, as its flags tell (RFC 3403, section 4.1).
#[derive(Clone, Copy, Debug, PartialEq, Eq)]
pub enum Kind {
    /// The next domain: the rule is not terminal.
    Step,
    /// A URI, by REGEXP.
    TerminalUri,
    /// The domain of REPLACEMENT, to be looked up under this flag.
    TerminalName(u8),
    /// Flags that the application does not know.
    Unknown,
}
