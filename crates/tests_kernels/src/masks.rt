//! Shared by several files: results of constructors, and columns as long as a mask.

ghost use Rattle.std.specs.Prelude.{◌≡◌, ◌==◌, length};

use sel_arrow::array::Array;
use sel_bits::bitmap::Bitmap;
use sel_bits::faults::{MakeError, PolarsError, PolarsResult};

/// Returns what a constructor returned, with `ComputeError` for parts that break a rule.
pub fn made<A>(found: Result<A, MakeError>) -> PolarsResult<A> {
    match found {
        Ok(found) => Ok(found),
        Err(MakeError::OutOfMemory) => Err(PolarsError::OutOfMemory),
        Err(MakeError::Malformed(_)) => Err(PolarsError::ComputeError),
    }
}

/// Returns whether the column is as long as the mask.
pub fn is_as_long<A: Array>(column: &A, mask: &Bitmap) -> bool
    ensures { result ≡ (length (A.rows column.now) == length mask.now.bits) }
{
    column.len() == mask.len()
}
