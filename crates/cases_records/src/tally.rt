//! How often each case was found.

use enum_base::MemoryFault;
use std::alloc::Global;
use zone_db::Found;

/// The counts of the cases.
#[derive(Drop)]
pub struct Tally {
    outside: u32,
    cut: u32,
    alias: u32,
    set: u32,
    no_set: u32,
    no_name: u32,
}

impl Tally {
    /// Nothing found.
    pub fn new() -> Tally {
        Tally {
            outside: 0,
            cut: 0,
            alias: 0,
            set: 0,
            no_set: 0,
            no_name: 0,
        }
    }

    /// Counts what was found.
    pub fn count(&mut self, found: &Found<'_>) {
        let count = match found {
            Found::Outside => &mut self.outside,
            Found::Cut(_) => &mut self.cut,
            Found::Alias(_) => &mut self.alias,
            Found::Set(_) => &mut self.set,
            Found::NoSet(_) => &mut self.no_set,
            Found::NoName(_) => &mut self.no_name,
        };
        *count = count.saturating_add(1);
    }

    /// The counts in one line.
    pub fn told(&self, alloc: Global) -> Result<String, MemoryFault> {
        let (outside, cut, alias) = (self.outside, self.cut, self.alias);
        let (set, no_set, no_name) = (self.set, self.no_set, self.no_name);
        Ok(format!(in alloc;
            "outside {outside}, cut {cut}, alias {alias}, set {set}, no set {no_set}, no name {no_name}"
        )?)
    }
}
