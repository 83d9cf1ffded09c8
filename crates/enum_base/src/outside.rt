//! Where files and input come from and where output goes.
ghost use Rattle.std.specs.Prelude.{◌≡◌, ◌<◌, ◌≤◌, max, take, length, None, IfOk, OnOk, OnErr};
ghost use Rattle.enum_base.specs.Causes.{HasCause, many_more};
ghost use Rattle.enum_base.specs.Outside.{ShelfState, SinkState, SourceState, Finds, Opens, AreFirst, EndsAtEnd, after, with_more};

use crate::Failed;

/// Files by name, of which one at a time is read from its start to its end.
pub trait Shelf {
    /// What it tells.
    ghost state: { Self → ShelfState };

    /// Opens the file of that name at its start; `false` where there is none.
    fn fetch(&mut self, name: &str) -> Result<bool, Failed>
        ensures files { (state self.new).files ≡ (state self.old).files }
        ensures found { IfOk result (λ found. Finds (state self.old).files name.now found) }
        ensures left { IfOk result (λ _. Opens (state self.old).files name.now (state self.new).left) }
        ensures untold { (state self.old).files ≡ None → (state self.new).left ≡ None }
        ensures begins { OnOk result ((state self.new).given ≡ 0) }
        ensures uncounted { OnErr result ((state self.new).given ≡ (state self.old).given) }
        ensures greatest { (state self.new).most_given ≡ (state self.old).most_given }
        ensures cause { HasCause (state self.old).faults (state self.new).faults result };

    /// Reads some bytes of the file into the front of `buf`, and says how many: 0 is the end, where
    /// `buf` is not empty.
    fn read(&mut self, buf: &mut [u8]) -> Result<usize, Failed>
        ensures files { (state self.new).files ≡ (state self.old).files }
        ensures bound { IfOk result (λ n. n ≤ length buf.new) }
        ensures given { IfOk result (λ n. AreFirst n (take n buf.new) (state self.old).left) }
        ensures left { IfOk result (λ n. (state self.new).left ≡ after n (state self.old).left) }
        ensures untold { (state self.old).left ≡ None → (state self.new).left ≡ None }
        ensures counts { IfOk result (λ n. (state self.new).given ≡ many_more (state self.old).given n) }
        ensures uncounted { OnErr result (((state self.new).given ≡ (state self.old).given)
            × ((state self.new).most_given ≡ (state self.old).most_given)) }
        ensures greatest { OnOk result ((state self.new).most_given ≡ max (state self.old).most_given (state self.new).given) }
        ensures ends { IfOk result (λ n. 0 < length buf.new → EndsAtEnd n (state self.old).left) }
        ensures cause { HasCause (state self.old).faults (state self.new).faults result };
}

/// Where input is read from, from its start to its end.
pub trait Source {
    /// What it tells.
    ghost state: { Self → SourceState };

    /// Reads some bytes into the front of `buf`, and says how many: 0 is the end, where `buf` is not empty.
    fn read(&mut self, buf: &mut [u8]) -> Result<usize, Failed>
        ensures bound { IfOk result (λ n. n ≤ length buf.new) }
        ensures given { IfOk result (λ n. AreFirst n (take n buf.new) (state self.old).left) }
        ensures left { IfOk result (λ n. (state self.new).left ≡ after n (state self.old).left) }
        ensures untold { (state self.old).left ≡ None → (state self.new).left ≡ None }
        ensures ends { IfOk result (λ n. 0 < length buf.new → EndsAtEnd n (state self.old).left) }
        ensures cause { HasCause (state self.old).faults (state self.new).faults result };
}

/// Where bytes are written to.
pub trait Sink {
    /// What it tells.
    ghost state: { Self → SinkState };

    /// Writes the first bytes of `bytes`, and says how many: at least one, where there is one.
    fn write(&mut self, bytes: &[u8]) -> Result<usize, Failed>
        ensures bound { IfOk result (λ n. n ≤ length bytes.now) }
        ensures some { IfOk result (λ n. 0 < length bytes.now → 0 < n) }
        ensures appended { IfOk result (λ n. (state self.new).held ≡ with_more (state self.old).held (take n bytes.now)) }
        ensures kept { OnErr result ((state self.new).held ≡ (state self.old).held) }
        ensures cause { HasCause (state self.old).faults (state self.new).faults result };
}
