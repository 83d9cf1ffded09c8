//! Domains in a row of a fixed size.
ghost use Rattle.std.specs.Prelude.{◌≡◌, ◌≤◌, ◌<◌, [], ◌∷◌, ◌++◌, length};
ghost use Rattle.enum_top.specs.Running.{listed};

use dns_name::Name;

/// At most 8 domains, in their order; the cells past `count` are the root. It takes no memory.
#[derive(Clone, Copy, Debug)]
pub(crate) struct Domains {
    pub(crate) count: usize,
    pub(crate) row: [Name; 8],
}

impl Domains {
    /// No domain.
    pub(crate) fn none() -> Domains
        ensures { listed result ≡ [] }
    {
        Domains {
            count: 0,
            row: [Name::root(); 8],
        }
    }

    /// One domain.
    pub(crate) fn one(domain: Name) -> Domains
        ensures { listed result ≡ domain ∷ [] }
    {
        let mut domains = Domains::none();
        domains.push(domain);
        domains
    }

    /// One domain more, after the others.
    pub(crate) fn push(&mut self, domain: Name)
        requires { length (listed self.old) < 8 }
        ensures { listed self.new ≡ listed self.old ++ domain ∷ [] }
    {
        self.row[self.count] = domain;
        self.count += 1;
    }

    /// The domains in their order.
    pub(crate) fn as_slice(&self) -> &[Name]
        ensures domains { result.now ≡ listed self.now }
        ensures few { length result.now ≤ 8 }
    {
        &self.row[..self.count.min(self.row.len())]
    }
}
