//! What the expression of a rule gives.
ghost use Rattle.std.specs.Prelude.{◌≡◌, ◌<◌, List, ℕ, IfOk, MatchOption};
ghost use Rattle.ddds_walk.specs.Rules.{HasOutput};

use bumpalo::Bump;
use enum_base::{Bytes, MemoryFault, Steps, Text255};
use naptr_data::Naptr;
use std::alloc::Global;
use std::marker::Brand;
use std::sync::ledger::{Blank, Ledger};
use subst_expr::laws::{one_output, one_reading};
use subst_expr::{Applied, ApplyFault, apply};

// What REGEXP gives over the original string: 1 to 1,024 bytes, or nothing (RFC 3402, section 3.2). Only the output
// outlives the call; the tables of the expression are given up at its end.
pub(crate) fn output_of(
    alloc: Global,
    rule: &Naptr,
    aus: &Text255,
) -> Result<Option<Bytes>, MemoryFault>
    ensures { IfOk result (λ output. MatchOption output
        ((bytes : List ℕ) → ¬ HasOutput rule.now aus.now bytes) (HasOutput rule.now aus.now)) }
{
    output_inner::<Brand>(alloc, rule, aus, Blank::new(1))
}

// The same, with steps counted in a ledger.
fn output_inner<L: Ledger>(
    alloc: Global,
    rule: &Naptr,
    aus: &Text255,
    blank: Blank,
) -> Result<Option<Bytes>, MemoryFault>
    requires name { blank.name ≡ L.name }
    requires parts { blank.parts ≡ L.parts }
    requires some { 0 < L.parts }
    ensures { IfOk result (λ output. MatchOption output
        ((bytes : List ℕ) → ¬ HasOutput rule.now aus.now bytes) (HasOutput rule.now aus.now)) }
{
    one_output();
    one_reading();
    let bump = Bump::new(alloc);
    let mut steps = Steps::<L>::start(blank);
    let mut output = Bytes::new(alloc);
    match apply(&bump, &rule.regexp, aus.as_bytes(), &mut output, &mut steps) {
        Ok(Applied::Output) => Ok(Some(output)),
        Ok(Applied::NoMatch) => Ok(None),
        Err(ApplyFault::IllFormed(_)) => Ok(None),
        Err(ApplyFault::TooLong) => Ok(None),
        Err(ApplyFault::Memory) => Err(MemoryFault),
    }
}
