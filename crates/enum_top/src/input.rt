//! The whole input.
ghost use Rattle.std.specs.Prelude.{IsErrOf};
ghost use Rattle.enum_top.specs.Handling.{ReadsInput};
ghost use Rattle.enum_top.specs.Inputs.{Inputs};
ghost use Rattle.enum_top.specs.Running.{DoesOnInput};

use crate::cause::Cause;
use crate::objects::Object;
use crate::why::Why;
use enum_base::{Bytes, LoadFault, Source, load};
use std::alloc::Global;

// The most bytes of an input: 16 MiB.
const MOST: usize = 16 * 1024 * 1024;

/// Reads the input to its end, which may have at most 16 MiB. At most 4,096 bytes more are taken of it.
///
/// # Errors
/// `Judged` where it has more, `Outside` where it failed, and `Memory`.
pub(crate) fn read_input<I: Source>(alloc: Global, input: &mut I) -> Result<Bytes, Why>
    ensures does { DoesOnInput (Inputs (I.state input.old).left) result }
    ensures input { ReadsInput (I.state input.old) (I.state input.new) (IsErrOf result (Why.Outside Object.Input)) }
{
    match load(alloc, MOST, input) {
        Ok(bytes) => Ok(bytes),
        Err(LoadFault::TooLarge) => Err(Why::Judged(Cause::InputTooLarge)),
        Err(LoadFault::Failed) => Err(Why::Outside(Object::Input)),
        Err(LoadFault::Memory) => Err(Why::Memory),
    }
}
