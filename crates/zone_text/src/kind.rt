//! The ten types of records.
ghost use Rattle.std.specs.Prelude.{◌≡◌};

use zone_token::is_word;

/// A type of records that zone texts have.
#[derive(Clone, Copy, Debug, PartialEq, Eq)]
pub(crate) enum Kind {
    A,
    Ns,
    Cname,
    Soa,
    Ptr,
    Mx,
    Txt,
    Aaaa,
    Srv,
    Naptr,
}

impl Kind {
    ghost use Rattle.zone_text.specs.Data.{kind_of_text};
    ghost use Rattle.zone_text.specs.Meaning.{needs_no_ttl};

    /// The type of a word, in any case.
    #[tactic(auto, unfolding(crate::specs::Data::kind_of_text))]
    pub(crate) fn read(text: &[u8]) -> Option<Kind>
        ensures { result ≡ kind_of_text text.now }
    {
        if is_word(text, b"A") {
            Some(Kind::A)
        } else if is_word(text, b"NS") {
            Some(Kind::Ns)
        } else if is_word(text, b"CNAME") {
            Some(Kind::Cname)
        } else if is_word(text, b"SOA") {
            Some(Kind::Soa)
        } else if is_word(text, b"PTR") {
            Some(Kind::Ptr)
        } else if is_word(text, b"MX") {
            Some(Kind::Mx)
        } else if is_word(text, b"TXT") {
            Some(Kind::Txt)
        } else if is_word(text, b"AAAA") {
            Some(Kind::Aaaa)
        } else if is_word(text, b"SRV") {
            Some(Kind::Srv)
        } else if is_word(text, b"NAPTR") {
            Some(Kind::Naptr)
        } else {
            None
        }
    }

    /// Whether a TTL may be wanting: an SOA has one of its own.
    pub(crate) fn needs_no_ttl(self) -> bool
        ensures { result ≡ needs_no_ttl self }
    {
        self == Kind::Soa
    }
}
