//! The type of the method at which threads start.

ghost use Rattle.std.specs.Prelude.{IfOk, codes};
ghost use Rattle.jk_model.specs.Descriptors.{IsMethodText};

use descriptors::{DescriptorError, method_type};
use jk_model::{MethodType, OutOfMemory};
use std::alloc::Global;

/// The descriptor of `main`.
const MAIN_DESCRIPTOR: [u16; 22] = [
    0x28, 0x5b, 0x4c, 0x6a, 0x61, 0x76, 0x61, 0x2f, 0x6c, 0x61, 0x6e, 0x67, 0x2f, 0x53, 0x74, 0x72,
    0x69, 0x6e, 0x67, 0x3b, 0x29, 0x56,
];

/// The type of `main`: of one parameter, an array of texts, without a result.
pub(crate) fn main_kind(alloc: Global) -> Result<MethodType, OutOfMemory>
    ensures { IfOk result (λ kind. IsMethodText (codes "([Ljava/lang/String;)V") kind) }
{
    match method_type(alloc, &MAIN_DESCRIPTOR) {
        Ok(kind) => Ok(kind),
        Err(DescriptorError::OutOfMemory) => Err(OutOfMemory),
        Err(DescriptorError::BadDescriptor(_)) => unreachable!(),
    }
}
