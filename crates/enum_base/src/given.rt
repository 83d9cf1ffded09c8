//! How much of files was given.
ghost use Rattle.std.specs.Prelude.{◌≡◌, max};
ghost use Rattle.enum_base.specs.Causes.{many_more};

use std::marker::Model;

/// How many bytes of the file at hand were given, and the most that were of one file. Both stay at their greatest
/// value. Each shelf keeps them.
#[derive(Drop)]
pub struct Given {
    now: u64,
    most: u64,
}

impl Model for Given {
    ghost use Rattle.enum_base.specs.Outside.{GivenBytes};

    ghost Value = { GivenBytes };

    ghost view = { λ g. record { now = g.now; most = g.most } };
}

impl Given {
    /// None of any file.
    pub fn none() -> Given
        ensures { result ≡ record { now = 0; most = 0 } }
    {
        Given { now: 0, most: 0 }
    }

    /// A file is fetched, of which none is given yet.
    pub fn begin(&mut self)
        ensures { self.new ≡ record self.old { now = 0 } }
    {
        self.now = 0;
    }

    /// So many bytes more are given of it.
    pub fn add(&mut self, count: usize)
        ensures now { self.new.now ≡ many_more self.old.now count }
        ensures most { self.new.most ≡ max self.old.most self.new.now }
    {
        self.now = self.now.saturating_add(count as u64);
        self.most = self.most.max(self.now);
    }
}
