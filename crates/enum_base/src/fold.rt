//! ASCII letters in one case.
ghost use Rattle.std.specs.Prelude.{◌≡◌, ◌↔◌, IsTrue};
ghost use Rattle.enum_base.specs.Folding.{folded, folded_byte};

/// `A` to `Z` made small; all else as it is.
pub fn fold_byte(b: u8) -> u8
    ensures { result ≡ folded_byte b }
{
    b.to_ascii_lowercase()
}

/// Whether the two are equal but for the case of ASCII letters.
pub fn same_folded(a: &[u8], b: &[u8]) -> bool
    ensures { IsTrue result ↔ (folded a.now ≡ folded b.now) }
{
    a.eq_ignore_ascii_case(b)
}
