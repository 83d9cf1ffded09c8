//! Domains, their strings and their keys.
ghost use Rattle.std.specs.Prelude.{◌≡◌, IfOk, None, Ok};
ghost use Rattle.std.specs.Result.{result_err};
ghost use Rattle.snaptr_app.specs.Domain.{domain_fault, first_unprinted, key_of};

use crate::DomainFault;
use dns_name::Name;
use enum_base::Text255;
use std::marker::Model;

/// A domain whose services are sought (RFC 3958, section 6.1). Contracts see its text.
#[derive(Debug, Drop)]
pub struct Domain {
    text: Text255,
    key: Name,
}

impl Model for Domain {
    ghost use Rattle.std.specs.Prelude.{◌≡◌, List, ℕ, None, Ok};
    ghost use Rattle.snaptr_app.specs.Domain.{domain_fault, key_of};

    ghost Value = { List ℕ };

    ghost view = { λ d. d.text };

    ghost invariant = { λ d. (domain_fault d.text ≡ None) × (key_of d.text ≡ Ok d.key) };
}

impl Domain {
    /// Reads a text of 1 to 255 bytes from `!` to `~` that stands for a name, with the root as origin.
    pub fn parse(text: &[u8]) -> Result<Domain, DomainFault>
        // The first fault, and none where it is a domain.
        ensures fault { result_err result ≡ domain_fault text.now }
        ensures text { IfOk result (λ domain. domain ≡ text.now) }
    {
        if text.is_empty() {
            return Err(DomainFault::Empty);
        }
        let Some(string) = Text255::from_bytes(text) else {
            return Err(DomainFault::TooLong);
        };
        if let Some(at) = first_unprinted(text) {
            return Err(DomainFault::NotPrintable { at });
        }
        let key = Name::from_text(text, Some(&Name::root()))?;
        Ok(Domain { text: string, key })
    }

    /// The application unique string: the text as it stands (RFC 3958, section 6.1).
    pub fn aus(&self) -> Text255
        ensures value { result ≡ self.now }
        ensures domain { domain_fault self.now ≡ None }
    {
        self.text
    }

    /// The first domain to be asked: the text as a name, with the root as origin (RFC 3958, section 6.2).
    pub fn key(&self) -> Name
        ensures { key_of self.now ≡ Ok result }
    {
        self.key
    }
}

// The place of the first byte that does not print.
fn first_unprinted(text: &[u8]) -> Option<usize>
    ensures { result ≡ first_unprinted text.now }
{
    text.iter().position(|b| !b.is_ascii_graphic())
}
