//! Forms of texts that are parts with one byte between them, and the first fault of such a text.
ghost use Rattle.std.specs.Prelude.{◌≡◌, ◌+◌, ◌^◌, ◌<◌, ◌≤◌, length, IfOk};
ghost use Rattle.std.specs.List.{position_or_len};
ghost use Rattle.std.specs.Result.{result_err};
ghost use Rattle.service_field.specs.Faults.{ends_part, form_fault, part_fault, whole_fault};

use crate::ServiceFault;
use crate::alphabet::Alphabet;
use crate::tags::{pair_fault, tag_fault};

/// What a text is to be.
#[derive(Clone, Copy)]
pub(crate) enum Form {
    /// What stands after `E2U+`: tags, with `:` or `+` between them.
    EnumItems,
    /// A wanted list of ENUM: tags, with `:` or `,` between them.
    EnumList,
    /// Services of S-NAPTR: tags, with `:` between them.
    SnaptrTags,
    /// A wanted list of S-NAPTR: items with `,` between them, each a tag, or two with `:` between them.
    SnaptrList,
}

impl Form {
    // Whether the byte ends a part.
    fn ends_part(self, b: u8) -> bool
        ensures { result ≡ ends_part self b }
    {
        match self {
            Form::EnumItems => b == b':' || b == b'+',
            Form::EnumList => b == b':' || b == b',',
            Form::SnaptrTags => b == b':',
            Form::SnaptrList => b == b',',
        }
    }

    // The fault of a part that begins at a place.
    fn part_fault(self, at: usize, part: &[u8]) -> Option<ServiceFault>
        requires { at + length part.now < 2 ^ 64 }
        ensures { result ≡ part_fault self at part.now }
    {
        match self {
            Form::EnumItems | Form::EnumList => tag_fault(Alphabet::Enum, at, part),
            Form::SnaptrTags => tag_fault(Alphabet::Snaptr, at, part),
            Form::SnaptrList => pair_fault(at, part),
        }
    }

    // How many bytes stand before the first byte that ends a part.
    fn part_len(self, text: &[u8]) -> usize
        ensures value { result ≡ position_or_len (ends_part self) text.now }
        ensures within { result ≤ length text.now }
    {
        text.iter()
            .position(|b| self.ends_part(*b))
            .unwrap_or(text.len())
    }

    /// The first fault of a text that begins at a place of the whole text, which is no later than the fourth byte.
    pub(crate) fn fault(self, at: usize, text: &[u8]) -> Option<ServiceFault>
        requires { at ≤ 4 }
        ensures { result ≡ form_fault self at text.now }
    {
        let mut at = at;
        let mut rest = text;
        loop {
            let (part, more) = rest.split_at(self.part_len(rest));
            if let Some(fault) = self.part_fault(at, part) {
                return Some(fault);
            }
            let [_, next @ ..] = more else {
                return None;
            };
            at += part.len() + 1;
            rest = next;
        }
    }

    /// The text, where it has this form, or else its first fault.
    pub(crate) fn read(self, text: &[u8]) -> Result<&[u8], ServiceFault>
        ensures fault { result_err result ≡ whole_fault self text.now }
        ensures text { IfOk result (λ read. read.now ≡ text.now) }
    {
        if text.is_empty() {
            return Err(ServiceFault::Empty);
        }
        match self.fault(0, text) {
            Some(fault) => Err(fault),
            None => Ok(text),
        }
    }
}
