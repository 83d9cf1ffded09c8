//! A rule applied to an original string.
ghost use Rattle.std.specs.Prelude.{◌≡◌, ◌≢◌, ◌⊎◌, ◌<◌, ◌≤◌, ℕ, List, [], Ok, Err, IfOk, OnErr, length};
ghost use Rattle.std.specs.Result.{IfErr};
ghost use Rattle.posix_ere.specs.Nodes.{whole};
ghost use Rattle.subst_expr.specs.Output.{IsOutput, IsUnmatched, IsApplied, IsApplyFault, IsAnswer, TellsExpansion, apply_fault};
ghost use Rattle.subst_expr.specs.Pieces.{Piece};
ghost use Rattle.subst_expr.specs.Regexp.{IsRegexpFault};
ghost use Rattle.subst_expr.specs.Replacement.{HasPieces};
ghost use Rattle.subst_expr.specs.declared.regexp.RegexpFault.{RegexpFault};
ghost use Rattle.subst_expr.specs.declared.regexp.RegexpFault.TheVariants as RegexpFault;
ghost use Rattle.subst_expr.specs.declared.rule.Applied.TheVariants as Applied;
ghost use Rattle.subst_expr.specs.declared.rule.ApplyFault.TheVariants as ApplyFault;

use crate::expand::expansion;
use crate::laws::{one_fault, one_output, one_reading};
use crate::regexp::{RegexpFault, read};
use crate::subst::Subst;
use enum_base::{Bytes, MemoryFault, Steps, Text255};
use posix_ere::Ere;
use std::alloc::Allocator;
use std::sync::ledger::Ledger;
use submatch::Matcher;

/// What a rule gave.
#[derive(Clone, Copy, Debug, PartialEq, Eq)]
pub enum Applied {
    /// The output was appended.
    Output,
    /// There is no match, or the output is empty.
    NoMatch,
}

/// Why a rule was not applied.
#[derive(Clone, Copy, Debug, PartialEq, Eq, Drop)]
pub enum ApplyFault {
    /// The text is no well-formed rule. The fault is never `RegexpFault::Memory`.
    IllFormed(RegexpFault),
    /// The output has more than 1,024 bytes.
    TooLong,
    /// Memory is wanting.
    Memory,
}

impl From<RegexpFault> for ApplyFault {
    ghost from_gives = { λ e f. f ≡ apply_fault e };

    fn from(fault: RegexpFault) -> ApplyFault {
        match fault {
            RegexpFault::Memory => ApplyFault::Memory,
            fault => ApplyFault::IllFormed(fault),
        }
    }
}

impl From<MemoryFault> for ApplyFault {
    ghost from_gives = { λ _ f. f ≡ ApplyFault.Memory };

    fn from(_: MemoryFault) -> ApplyFault {
        ApplyFault::Memory
    }
}

/// Appends the output of a rule over an original string of at most 255 bytes: the replacement, in which each back
/// reference is what its group took of that string (RFC 3402, section 3.2). The text outside the match is dropped.
///
/// # Errors
/// `IllFormed` where `check` refuses the text, `TooLong` for an output of more than 1,024 bytes, and `Memory`.
pub fn apply<A: Allocator + Copy, L: Ledger>(
    alloc: A,
    text: &Text255,
    aus: &[u8],
    out: &mut Bytes,
    steps: &mut Steps<L>,
) -> Result<Applied, ApplyFault>
    requires short { length aus.now ≤ 255 }
    ensures ok { IfOk result (λ applied. IsApplied text.now aus.now out.old out.new applied) }
    ensures err { IfErr result (λ fault. IsApplyFault text.now aus.now fault) }
    ensures kept { OnErr result (out.new ≡ out.old) }

    // Each answer comes where its condition holds, or want of memory in its place.
    ensures output { (bytes : List ℕ) → IsOutput text.now aus.now bytes → 0 < length bytes →
        length bytes ≤ 1024 → IsAnswer result (Ok Applied.Output) }
    ensures no_match { IsUnmatched text.now aus.now ⊎ IsOutput text.now aus.now [] →
        IsAnswer result (Ok Applied.NoMatch) }
    ensures too_long { (bytes : List ℕ) → IsOutput text.now aus.now bytes → 1024 < length bytes →
        IsAnswer result (Err ApplyFault.TooLong) }
    ensures ill_formed { (fault : RegexpFault) → fault ≢ RegexpFault.Memory → IsRegexpFault text.now fault →
        IsAnswer result (Err (ApplyFault.IllFormed fault)) }
{
    one_fault();
    one_reading();
    one_output();
    append_output(alloc, text, aus, out, steps)
}

// The same, without the conditions the other way round.
fn append_output<A: Allocator + Copy, L: Ledger>(
    alloc: A,
    text: &Text255,
    aus: &[u8],
    out: &mut Bytes,
    steps: &mut Steps<L>,
) -> Result<Applied, ApplyFault>
    requires { length aus.now ≤ 255 }
    ensures ok { IfOk result (λ applied. IsApplied text.now aus.now out.old out.new applied) }
    ensures err { IfErr result (λ fault. IsApplyFault text.now aus.now fault) }
    ensures kept { OnErr result (out.new ≡ out.old) }
{
    let (subst, ere) = read(alloc, text)?;
    let Some(bytes) = output(alloc, &subst, &ere, aus, steps)? else {
        return Ok(Applied::NoMatch);
    };
    match bytes.as_slice() {
        [] => Ok(Applied::NoMatch),
        bytes if bytes.len() > 1024 => Err(ApplyFault::TooLong),
        bytes => {
            out.push_slice(bytes)?;
            Ok(Applied::Output)
        }
    }
}

// The expansion of the replacement by the best match.
fn output<A: Allocator + Copy, L: Ledger>(
    alloc: A,
    subst: &Subst,
    ere: &Ere<A>,
    aus: &[u8],
    steps: &mut Steps<L>,
) -> Result<Option<Bytes<A>>, MemoryFault>
    requires short { length aus.now ≤ 255 }
    requires pieces { (pieces : List Piece) × HasPieces subst.now pieces }
    ensures { IfOk result (TellsExpansion subst.now (whole ere.now) aus.now) }
{
    let mut matcher = Matcher::new(ere);
    match matcher.find(alloc, aus, subst.fold, steps)? {
        Some(spans) => Ok(Some(expansion(alloc, subst.repl.as_bytes(), aus, &spans)?)),
        None => Ok(None),
    }
}
