//! What provisioning asks of the REGEXP of a rule that gives a URI.
ghost use Rattle.std.specs.Prelude.{◌≡◌, ◌↔◌, ◌≤◌, ◌==◌, ◌&&◌, ◌⊎◌, not, false, length, IsTrue};
ghost use Rattle.subst_expr.specs.Pieces.{backslash};
ghost use Rattle.rule_check.specs.Checking.{literal_from};
ghost use Rattle.rule_check.specs.WellFormed.{BeginsWithScheme, GivesScheme, HasScheme, HasWhole, TakesWhole};

use crate::uri::{halves, is_scheme};
use enum_base::{Buffer, Text255};
use subst_expr::Subst;
use subst_expr::laws::split_has_pieces;

/// Whether the replacement begins with a scheme and a colon as literal text.
pub(crate) fn has_scheme(regexp: &Text255) -> bool
    ensures { IsTrue result ↔ HasScheme regexp.now }
{
    split_has_pieces();
    match Subst::split(regexp) {
        Ok(subst) => gives_scheme(&subst),
        Err(_) => false,
    }
}

// The same of a split, whose replacement is made of pieces.
fn gives_scheme(subst: &Subst) -> bool
    ensures { IsTrue result ↔ BeginsWithScheme (literal_from false subst.now.repl) }
{
    begins_with_scheme(literal_front(subst.repl.as_bytes()).as_slice())
}

// Whether the text begins with a scheme and a colon.
fn begins_with_scheme(text: &[u8]) -> bool
    ensures { IsTrue result ↔ BeginsWithScheme text.now }
{
    match halves(text) {
        Some((scheme, _)) => is_scheme(scheme),
        None => false,
    }
}

// The literal text that a replacement begins with, up to its first back reference.
fn literal_front(repl: &[u8]) -> Buffer<255>
    requires { length repl.now ≤ 255 }
    ensures { result ≡ literal_from false repl.now }
{
    let mut text = Buffer::new();
    let mut escaped = false;
    for b in repl {
        if escaped && matches!(*b, b'1'..=b'9') {
            return text;
        }
        escaped = begins_pair(escaped, *b);
        if !escaped {
            text.push(*b);
        }
    }
    text
}

// Whether the byte escapes the next one.
fn begins_pair(escaped: bool, b: u8) -> bool
    ensures { result ≡ (not escaped && b == backslash) }
{
    !escaped && b == b'\\'
}

/// Whether the expression is one of the two that take the whole string.
pub(crate) fn has_whole(regexp: &Text255) -> bool
    ensures { IsTrue result ↔ HasWhole regexp.now }
{
    match Subst::split(regexp) {
        Ok(subst) => takes_whole(subst.ere.as_bytes()),
        Err(_) => false,
    }
}

fn takes_whole(ere: &[u8]) -> bool
    ensures { IsTrue result ↔ TakesWhole ere.now }
{
    matches!(ere, b".*" | b"^.*$")
}
