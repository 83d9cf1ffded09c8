//! Well-formed rules: the text splits, its expression has a tree, and each back reference names a group of it.
ghost use Rattle.std.specs.Prelude.{◌≡◌, ◌≢◌, ◌⊎◌, Err, IfOk};
ghost use Rattle.std.specs.Result.{IfErr};
ghost use Rattle.posix_ere.specs.Nodes.{whole};
ghost use Rattle.subst_expr.specs.Regexp.{IsRegexp, IsWellFormed, IsRegexpFault, ere_fault};
ghost use Rattle.subst_expr.specs.declared.regexp.RegexpFault.{RegexpFault};
ghost use Rattle.subst_expr.specs.declared.regexp.RegexpFault.TheVariants as RegexpFault;

use crate::expand::first_missing;
use crate::laws::{one_fault, one_reading};
use crate::subst::{Subst, SubstFault};
use enum_base::Text255;
use posix_ere::{Ere, EreFault};
use std::alloc::Allocator;

/// Why a text is no well-formed rule: the first that holds, in this order.
#[derive(Clone, Copy, Debug, PartialEq, Eq, Drop)]
pub enum RegexpFault {
    /// It does not split.
    Split(SubstFault),
    /// Its expression is broken or too heavy. A place is counted in the expression with its delimiters undone.
    Ere(EreFault),
    /// The first back reference to a group that the expression lacks: the place in the text of its backslash.
    NoGroup { at: usize },
    /// Memory is wanting.
    Memory,
}

impl From<EreFault> for RegexpFault {
    ghost from_gives = { λ e f. f ≡ ere_fault e };

    fn from(fault: EreFault) -> RegexpFault {
        match fault {
            EreFault::Memory => RegexpFault::Memory,
            fault => RegexpFault::Ere(fault),
        }
    }
}

/// Whether a text is a well-formed rule.
///
/// # Errors
/// The first fault of the text, and `Memory`. `Ere` never holds `EreFault::Memory`.
pub fn check<A: Allocator + Copy>(alloc: A, text: &Text255) -> Result<(), RegexpFault>
    ensures ok { IfOk result (λ _. IsWellFormed text.now) }
    ensures err { IfErr result (λ fault. IsRegexpFault text.now fault) }

    // A well-formed text is accepted and any other refused with its fault, or want of memory is told.
    ensures accepts { IsWellFormed text.now → IfErr result (λ fault. fault ≡ RegexpFault.Memory) }
    ensures refuses { (fault : RegexpFault) → fault ≢ RegexpFault.Memory → IsRegexpFault text.now fault →
        (result ≡ Err fault) ⊎ (result ≡ Err RegexpFault.Memory) }
{
    one_fault();
    one_reading();
    checked(alloc, text)
}

// The same, without the conditions the other way round.
fn checked<A: Allocator + Copy>(alloc: A, text: &Text255) -> Result<(), RegexpFault>
    ensures ok { IfOk result (λ _. IsWellFormed text.now) }
    ensures err { IfErr result (λ fault. IsRegexpFault text.now fault) }
{
    read(alloc, text)?;
    Ok(())
}

/// The split of a well-formed rule, and its expression.
pub(crate) fn read<A: Allocator + Copy>(
    alloc: A,
    text: &Text255,
) -> Result<(Subst, Ere<A>), RegexpFault>
    ensures ok { IfOk result (λ parts. IsRegexp text.now parts.0 (whole parts.1)) }
    ensures err { IfErr result (λ fault. IsRegexpFault text.now fault) }
{
    let subst = match Subst::split(text) {
        Ok(subst) => subst,
        Err(fault) => return Err(RegexpFault::Split(fault)),
    };
    let ere = Ere::read(alloc, subst.ere.as_bytes())?;
    let start = usize::from(subst.repl_at);
    match first_missing(ere.groups(), start, subst.repl.as_bytes()) {
        Some(at) => Err(RegexpFault::NoGroup { at }),
        None => Ok((subst, ere)),
    }
}
