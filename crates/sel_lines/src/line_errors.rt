//! Conversion of kernel errors to `AllocError`.
ghost use Rattle.std.specs.Prelude.{◌≡◌, alloc_error};

use sel_bits::faults::{MakeError, PolarsError};
use std::alloc::AllocError;

/// Converts the error of a kernel to `AllocError`.
///
/// # Requires
/// `fault` is `OutOfMemory`.
pub fn memory_error(fault: PolarsError) -> AllocError
    requires { fault ≡ PolarsError.OutOfMemory }
    ensures { result ≡ alloc_error }
{
    match fault {
        PolarsError::OutOfMemory => AllocError,
        PolarsError::SizeLimit(_) | PolarsError::ComputeError => unreachable!(),
    }
}

/// Converts the error of a column constructor to `AllocError`.
///
/// # Requires
/// `fault` is `OutOfMemory`.
pub fn memory_error_after(fault: MakeError) -> AllocError
    requires { fault ≡ MakeError.OutOfMemory }
    ensures { result ≡ alloc_error }
{
    match fault {
        MakeError::OutOfMemory => AllocError,
        MakeError::Malformed(_) => unreachable!(),
    }
}
