//! A shelf in memory.
ghost use Rattle.std.specs.Prelude.{◌≡◌, ◌↔◌, ◌<◌, ◌≤◌, max, [], ◌∷◌, ◌++◌, take, drop, length, position, bytes_eq};
ghost use Rattle.std.specs.Prelude.{Contains, Option, Some, None, IsSome, unwrap_or, IsErr, IfOk, OnOk, OnErr};
ghost use Rattle.enum_base.specs.Causes.{HasCause, many_more, one_more};
ghost use Rattle.enum_base.specs.Outside.{Finds, Opens, AreFirst, EndsAtEnd, after, file_of};
ghost use Rattle.enum_base.specs.Memory.{ReadsListed, chosen_bytes, IsPlace};

use crate::calls::{Calls, copy_front};
use crate::{Bytes, Failed, Given, MemoryFault, Ranks, Shelf};
use std::alloc::Global;
use std::marker::Model;

/// A shelf in memory, which fails at listed calls. Calls of `fetch` and `read` are counted from 1.
#[derive(Drop)]
pub struct MemShelf {
    alloc: Global,
    // each name with its bytes
    files: Vec<(Bytes, Bytes)>,
    // the place of the fetched file, and how much of it was read
    chosen: Option<usize>,
    at: usize,
    given: Given,
    calls: Calls,
}

impl Model for MemShelf {
    ghost use Rattle.std.specs.Prelude.{drop};
    ghost use Rattle.enum_base.specs.Memory.{MemoryShelf, chosen_bytes, IsOpenAt};

    ghost Value = { MemoryShelf };

    ghost view = { λ s. record {
      files = s.files.items;
      left = drop s.at (chosen_bytes s.files.items s.chosen);
      given = s.given.now;
      most_given = s.given.most;
      failing = s.calls.failing;
      calls = s.calls.made;
      faults = s.calls.faults;
    } };

    ghost invariant = { λ s. IsOpenAt s.files.items s.chosen s.at };
}

impl MemShelf {
    /// An empty shelf, which takes no memory. Each call whose number `failing` has will fail.
    pub fn new(alloc: Global, failing: Ranks) -> Self
        ensures { result ≡ record { files = []; left = []; given = 0; most_given = 0; failing = failing; calls = 0; faults = 0 } }
    {
        MemShelf {
            alloc,
            files: Vec::new(alloc),
            chosen: None,
            at: 0,
            given: Given::none(),
            calls: Calls::new(failing),
        }
    }

    /// Adds a file. Of several with one name the first is fetched.
    pub fn put(&mut self, name: &str, bytes: &[u8]) -> Result<(), MemoryFault>
        ensures ok { OnOk result (self.new ≡ record self.old { files = self.old.files ++ (name.now, bytes.now) ∷ [] }) }
        ensures err { OnErr result (self.new ≡ self.old) }
    {
        let mut key = Bytes::new(self.alloc);
        key.push_slice(name.as_bytes())?;
        let mut content = Bytes::new(self.alloc);
        content.push_slice(bytes)?;
        self.files.push((key, content))?;
        Ok(())
    }
}

impl Shelf for MemShelf {
    ghost state = { λ s. record { files = Some s.files; left = Some s.left; given = s.given; most_given = s.most_given; faults = s.faults } };

    fn fetch(&mut self, name: &str) -> Result<bool, Failed>
        ensures files { Some self.new.files ≡ Some self.old.files }
        ensures found { IfOk result (λ found. Finds (Some self.old.files) name.now found) }
        ensures left { IfOk result (λ _. Opens (Some self.old.files) name.now (Some self.new.left)) }
        ensures untold { Some self.old.files ≡ None → Some self.new.left ≡ None }
        ensures begins { OnOk result (self.new.given ≡ 0) }
        ensures uncounted { OnErr result (self.new.given ≡ self.old.given) }
        ensures greatest { self.new.most_given ≡ self.old.most_given }
        ensures cause { HasCause self.old.faults self.new.faults result }
        // It fails exactly at the listed calls, and is counted.
        ensures listed { IsErr result ↔ Contains self.old.failing (one_more self.old.calls) }
        ensures counted { self.new.calls ≡ one_more self.old.calls }
        ensures failing { self.new.failing ≡ self.old.failing }
        ensures raised { OnErr result (self.new.faults ≡ one_more self.old.faults) }
        ensures kept { OnErr result (self.new.left ≡ self.old.left) }
    {
        self.calls.begin()?;
        self.chosen = place_of(&self.files, name.as_bytes());
        self.at = 0;
        self.given.begin();
        Ok(self.chosen.is_some())
    }

    fn read(&mut self, buf: &mut [u8]) -> Result<usize, Failed>
        ensures files { Some self.new.files ≡ Some self.old.files }
        ensures bound { IfOk result (λ n. n ≤ length buf.new) }
        ensures given { IfOk result (λ n. AreFirst n (take n buf.new) (Some self.old.left)) }
        ensures left { IfOk result (λ n. Some self.new.left ≡ after n (Some self.old.left)) }
        ensures untold { Some self.old.left ≡ None → Some self.new.left ≡ None }
        ensures counts { IfOk result (λ n. self.new.given ≡ many_more self.old.given n) }
        ensures uncounted { OnErr result ((self.new.given ≡ self.old.given) × (self.new.most_given ≡ self.old.most_given)) }
        ensures greatest { OnOk result (self.new.most_given ≡ max self.old.most_given self.new.given) }
        ensures ends { IfOk result (λ n. 0 < length buf.new → EndsAtEnd n (Some self.old.left)) }
        ensures cause { HasCause self.old.faults self.new.faults result }
        ensures reads { ReadsListed self.old.failing self.old.calls self.new.calls self.old.faults self.new.faults
            self.old.left self.new.left (length buf.new) result }
        ensures failing { self.new.failing ≡ self.old.failing }
    {
        self.calls.begin()?;
        let bytes = bytes_of(&self.files, self.chosen);
        let count = copy_front(&bytes[self.at..], buf);
        self.at += count;
        self.given.add(count);
        Ok(count)
    }
}

// The place of the file that a fetch of that name opens.
fn place_of(files: &[(Bytes, Bytes)], name: &[u8]) -> Option<usize>
    ensures place { IsPlace files.now result }
    ensures found { IsSome result ↔ IsSome (file_of files.now name.now) }
    ensures bytes { chosen_bytes files.now result ≡ unwrap_or (file_of files.now name.now) [] }
{
    first_named(files, name)
}

fn first_named(files: &[(Bytes, Bytes)], name: &[u8]) -> Option<usize>
    ensures { result ≡ position (λ file. bytes_eq file.0 name.now) files.now }
{
    files.iter().position(|file| file.0.as_slice() == name)
}

// The bytes of the chosen file.
fn bytes_of(files: &[(Bytes, Bytes)], chosen: Option<usize>) -> &[u8]
    requires { IsPlace files.now chosen }
    ensures { result.now ≡ chosen_bytes files.now chosen }
{
    match chosen {
        Some(place) => files[place].1.as_slice(),
        None => &[],
    }
}
