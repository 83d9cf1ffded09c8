//! The order of bytes without regard to the case of ASCII letters.
ghost use Rattle.std.specs.Prelude.{◌≡◌};
ghost use Rattle.std.specs.Ordering.{nat_cmp};
ghost use Rattle.std.specs.Cmp.Lexicographic.{slice_cmp};
ghost use Rattle.enum_base.specs.Folding.{folded};

use enum_base::fold_byte;
use std::cmp::Ordering;

/// The order of two texts, byte by byte, with `A` to `Z` as small letters.
pub(crate) fn cmp_folded_bytes(one: &[u8], other: &[u8]) -> Ordering
    ensures { result ≡ slice_cmp nat_cmp (folded one.now) (folded other.now) }
{
    for at in 0..one.len().min(other.len()) {
        match fold_byte(one[at]).cmp(&fold_byte(other[at])) {
            Ordering::Equal => {}
            apart => return apart,
        }
    }
    one.len().cmp(&other.len())
}
