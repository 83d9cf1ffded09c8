//! Why an entry is broken.
ghost use Rattle.std.specs.Prelude.{◌≡◌, ◌≤◌, length};
ghost use Rattle.zone_token.specs.FaultWords.{name_of};

use enum_base::MemoryFault;

/// What is wrong with the first broken entry of a zone text.
#[derive(Clone, Copy, Debug, PartialEq, Eq)]
pub enum TextWhy {
    /// A byte, an escape or a parenthesis that may not stand where it stands.
    BadToken,
    /// A quoted text that does not end in its line.
    OpenQuote,
    /// Parentheses that do not end.
    OpenParen,
    /// No name where a name has to stand, or one that is ill-formed.
    BadName,
    /// An ill-formed TTL, or one above 2,147,483,647.
    BadTtl,
    /// A record without a TTL, and no TTL before it.
    NoTtl,
    /// A type that is none of the ten, or no type.
    UnknownType,
    /// A word with `$` that is neither `$ORIGIN` nor `$TTL`.
    UnknownDirective,
    /// Data that are not those of the type, or a token too many.
    BadData,
    /// A record without an owner, and no record before it.
    NoOwner,
    /// A class other than IN.
    WrongClass,
    /// More than 100,000 records.
    TooMany,
    /// More than 64 MiB.
    TooLarge,
    /// Memory was wanting.
    Memory,
}

impl From<MemoryFault> for TextWhy {
    ghost use Rattle.std.specs.Prelude.{◌≡◌};
    ghost use Rattle.zone_token.specs.declared.fault.TextWhy.TheVariants.{Memory};

    ghost from_gives = { λ _ why. why ≡ Memory };

    fn from(_: MemoryFault) -> Self {
        TextWhy::Memory
    }
}

impl TextWhy {
    /// The name of the reason.
    pub fn name(self) -> &'static str
        ensures value { result.now ≡ name_of self }
        ensures short { length result.now ≤ 40 }
    {
        match self {
            TextWhy::BadToken => "BadToken",
            TextWhy::OpenQuote => "OpenQuote",
            TextWhy::OpenParen => "OpenParen",
            TextWhy::BadName => "BadName",
            TextWhy::BadTtl => "BadTtl",
            TextWhy::NoTtl => "NoTtl",
            TextWhy::UnknownType => "UnknownType",
            TextWhy::UnknownDirective => "UnknownDirective",
            TextWhy::BadData => "BadData",
            TextWhy::NoOwner => "NoOwner",
            TextWhy::WrongClass => "WrongClass",
            TextWhy::TooMany => "TooMany",
            TextWhy::TooLarge => "TooLarge",
            TextWhy::Memory => "Memory",
        }
    }
}
