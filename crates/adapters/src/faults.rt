//! Counts of faults, and what answers of the system say of them.
ghost use Rattle.std.specs.Prelude.{◌≡◌, ◌≤◌};
ghost use Rattle.enum_base.specs.Causes.{HasCause, one_more};
ghost use Rattle.adapters.specs.Saying.{passed_on};

use enum_base::Failed;
use std::io;
use std::marker::Model;

/// How many calls of an object failed; it stays at its greatest value.
#[derive(Drop)]
pub(crate) struct Faults {
    count: u64,
}

impl Model for Faults {
    ghost use Rattle.std.specs.Prelude.{ℕ};

    ghost Value = { ℕ };

    ghost view = { λ f. f.count };
}

impl Faults {
    /// None.
    pub(crate) fn none() -> Faults
        ensures { result ≡ 0 }
    {
        Faults { count: 0 }
    }

    /// How many.
    pub(crate) fn count(&self) -> u64
        ensures { result ≡ self.now }
    {
        self.count
    }

    /// Counts one more.
    pub(crate) fn raise(&mut self) -> Failed
        ensures raised { self.new ≡ one_more self.old }
        ensures later { self.old ≤ self.new }
    {
        self.count = self.count.saturating_add(1);
        Failed
    }

    /// Passes on what the system answered. Each error is counted, that of an interrupted call too.
    pub(crate) fn pass<T: Drop>(&mut self, answer: io::Result<T>) -> Result<T, Failed>
        ensures passed { result ≡ passed_on answer }
        ensures cause { HasCause self.old self.new result }
    {
        match answer {
            Ok(answer) => Ok(answer),
            Err(_) => Err(self.raise()),
        }
    }
}
