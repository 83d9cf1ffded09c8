//! That a count of steps has no bytes.
ghost use Rattle.std.specs.Prelude.{◌≡◌, ◌<◌};

use enum_base::Steps;
use std::marker::Brand;
use std::sync::ledger::{Blank, Ledger};

/// The size of a count of steps.
pub fn size_of_steps() -> usize {
    two_steps::<Brand>(Blank::new(1))
}

// The size of a count of two steps.
fn two_steps<L: Ledger>(blank: Blank) -> usize
    requires name { blank.name ≡ L.name }
    requires parts { blank.parts ≡ L.parts }
    requires some { 0 < L.parts }
{
    let mut steps = Steps::<L>::start(blank);
    steps.tick();
    steps.tick();
    size_of_val(&steps)
}
