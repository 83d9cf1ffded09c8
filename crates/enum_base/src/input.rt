//! Whole inputs.
ghost use Rattle.std.specs.Prelude.{◌≡◌, ◌≤◌, ◌<◌, ◌+◌, length, IfOk, IsErrOf};
ghost use Rattle.enum_base.specs.Causes.{Blames};
ghost use Rattle.enum_base.specs.Outside.{WhereTold};
ghost use Rattle.enum_base.specs.Loading.{AreTaken};
ghost use Rattle.enum_base.specs.declared.input.LoadFault.TheVariants.{TooLarge, Failed};

use crate::{Bytes, MemoryFault, Source};
use std::alloc::Global;

// How many bytes are read at once.
const PIECE: usize = 4096;

/// Why an input is not read.
#[derive(Clone, Copy, Debug, PartialEq, Eq)]
pub enum LoadFault {
    /// It has too many bytes.
    TooLarge,
    /// The source failed.
    Failed,
    Memory,
}

impl From<MemoryFault> for LoadFault {
    ghost use Rattle.std.specs.Prelude.{◌≡◌};
    ghost use Rattle.enum_base.specs.declared.input.LoadFault.TheVariants.{Memory};

    ghost from_gives = { λ _ fault. fault ≡ Memory };

    fn from(_: MemoryFault) -> LoadFault {
        LoadFault::Memory
    }
}

/// Reads an input to its end, which may have at most `most` bytes. Unless a read fails, at most 4,096 bytes more are
/// taken of it.
pub fn load<I: Source>(alloc: Global, most: usize, input: &mut I) -> Result<Bytes, LoadFault>
    ensures bytes { IfOk result (λ bytes. WhereTold (I.state input.old).left (λ left. bytes ≡ left)) }
    ensures short { IfOk result (λ bytes. length bytes ≤ most) }
    ensures large { IsErrOf result TooLarge → WhereTold (I.state input.old).left (λ left. most < length left) }
    ensures input { Blames (I.state input.old).faults (I.state input.new).faults (IsErrOf result Failed) }
    ensures taken { ¬ IsErrOf result Failed → AreTaken (most + 4096) (I.state input.old).left (I.state input.new).left }
{
    let mut bytes = Bytes::new(alloc);
    let mut buffer = [0; PIECE];
    'pieces: while bytes.as_slice().len() <= most {
        let count = match input.read(&mut buffer) {
            Ok(count) => count,
            Err(_) => return Err(LoadFault::Failed),
        };
        if count == 0 {
            return Ok(bytes);
        }
        bytes.push_slice(&buffer[..count])?;
    }
    Err(LoadFault::TooLarge)
}
