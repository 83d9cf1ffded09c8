//! A substitution, split.
ghost use Rattle.std.specs.Prelude.{◌≡◌, ◌+◌, ◌≤◌, true, length, Result};
ghost use Rattle.subst_expr.specs.Pieces.{is_delimiter};
ghost use Rattle.subst_expr.specs.Scans.{split_at};
ghost use Rattle.subst_expr.specs.Split.{Splits, SplitsRest};

use crate::scan::{
    first_bad_escape, first_bad_flag, first_unprintable, halves, is_delimiter, undone,
};
use enum_base::Text255;

/// A substitution between delimiters.
#[derive(Clone, Copy, Debug, PartialEq, Eq)]
pub struct Subst {
    /// The expression, with each escaped delimiter as the delimiter alone.
    pub ere: Text255,
    /// The replacement, as it stands.
    pub repl: Text255,
    /// The place in the text at which the replacement begins.
    pub repl_at: u8,
    /// The byte between the parts.
    pub delim: u8,
    /// Whether case is ignored.
    pub fold: bool,
}

/// Why a text is no substitution: the first that holds, in this order. Places are counted from 0.
#[derive(Clone, Copy, Debug, PartialEq, Eq)]
pub enum SubstFault {
    /// There is no byte.
    Empty,
    /// The first byte outside 0x20 to 0x7E is at this place.
    NotPrintable { at: usize },
    /// The first byte is no delimiter.
    BadDelimiter,
    /// There are not three delimiters outside pairs, but one or two.
    MissingDelimiter { found: u8 },
    /// The first byte that is no flag is at this place.
    BadFlag { at: usize },
    /// The first backslash of the replacement that begins no escape is at this place.
    BadEscape { at: usize },
}

impl Subst {
    /// Splits a text into its parts. A backslash and the byte after it are one pair, and a delimiter in a
    /// pair does not divide (RFC 3402, section 3.2).
    pub fn split(text: &Text255) -> Result<Subst, SubstFault>
        ensures answer { Splits text.now result }
        // No other answer is one.
        ensures only { (other : Result Subst SubstFault) → Splits text.now other → result ≡ other }
    {
        split_bytes(text.as_bytes())
    }
}

fn split_bytes(text: &[u8]) -> Result<Subst, SubstFault>
    requires { length text.now ≤ 255 }
    ensures { Splits text.now result }
{
    let [delim, rest @ ..] = text else {
        return Err(SubstFault::Empty);
    };
    if let Some(at) = first_unprintable(text) {
        return Err(SubstFault::NotPrintable { at });
    }
    if !is_delimiter(*delim) {
        return Err(SubstFault::BadDelimiter);
    }
    split_rest(*delim, rest)
}

// The answer for the bytes after the first delimiter.
fn split_rest(delim: u8, rest: &[u8]) -> Result<Subst, SubstFault>
    requires delimiter { is_delimiter delim ≡ true }
    requires short { length rest.now ≤ 254 }
    ensures { SplitsRest delim rest.now result }
{
    let Some((ere, tail)) = halves(delim, rest) else {
        return Err(SubstFault::MissingDelimiter { found: 1 });
    };
    let Some((repl, flags)) = halves(delim, tail) else {
        return Err(SubstFault::MissingDelimiter { found: 2 });
    };
    split_at(delim, ere, repl, flags)
}

// The answer for a text with those parts.
fn split_at(delim: u8, ere: &[u8], repl: &[u8], flags: &[u8]) -> Result<Subst, SubstFault>
    requires { length ere.now + length repl.now + length flags.now ≤ 252 }
    ensures { result ≡ split_at delim ere.now repl.now flags.now }
{
    let repl_at = 2 + ere.len();
    let flags_at = repl_at + repl.len() + 1;
    if let Some(k) = first_bad_flag(flags) {
        return Err(SubstFault::BadFlag { at: flags_at + k });
    }
    if let Some(at) = first_bad_escape(delim, repl_at, repl) {
        return Err(SubstFault::BadEscape { at });
    }
    Ok(Subst {
        ere: short_text(undone(delim, ere).as_slice()),
        repl: short_text(repl),
        repl_at: repl_at as u8,
        delim,
        fold: !flags.is_empty(),
    })
}

fn short_text(bytes: &[u8]) -> Text255
    requires { length bytes.now ≤ 255 }
    ensures { result ≡ bytes.now }
{
    Text255::from_bytes(bytes).unwrap()
}
