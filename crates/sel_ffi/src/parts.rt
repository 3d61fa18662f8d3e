//! Offsets and bytes of columns, copied into slices of callers.

ghost use Rattle.std.specs.Prelude.{◌≡◌, Some};
ghost use Rattle.std.specs.Option.{option_copied};
ghost use Rattle.sel_ffi.specs.Layout.{offsets_in, bytes_in};
ghost use Rattle.sel_ffi.specs.Parts.{CopiesBytes, CopiesOffsets, CountsBytes};

use crate::status::{LENGTH_MISMATCH, OK, UNSUPPORTED_TYPE};
use sel_arrow::array_ref::ArrayRef;
use sel_arrow::column::Column;
use sel_bits::offsets::OffsetsBuffer;

/// Returns the offsets of a binary or list column with 64-bit offsets, or none for another type.
fn offsets_of_column(column: &Column) -> Option<&OffsetsBuffer<i64>>
    ensures { option_copied result ≡ offsets_in column.now }
{
    match column {
        Column::LargeBinary(array) => Some(array.offsets()),
        Column::LargeList { offsets, .. } => Some(offsets),
        _ => None,
    }
}

/// Returns the bytes of a binary column with 64-bit offsets, or none for another type.
fn bytes_of_column(column: &Column) -> Option<&[u8]>
    ensures { option_copied result ≡ bytes_in column.now }
{
    match column {
        Column::LargeBinary(array) => Some(array.values().as_slice()),
        _ => None,
    }
}

/// Copies the offsets into `out`.
///
/// Errors: `UNSUPPORTED_TYPE` if the column is neither binary nor a list with 64-bit offsets;
/// `LENGTH_MISMATCH` if the length of `out` is not the number of offsets.
#[tactic(auto, using(crate::proofs::Positions::shown))]
pub fn offsets_into(column: &ArrayRef, out: &mut [i64]) -> u32
    ensures { CopiesOffsets result (Some column.now) out.old out.new }
{
    let Some(offsets) = offsets_of_column(column.as_column()) else {
        return UNSUPPORTED_TYPE;
    };
    let numbers = offsets.as_slice();
    if out.len() != numbers.len() {
        return LENGTH_MISMATCH;
    }
    out.copy_from_slice(numbers);
    OK
}

/// Copies the bytes, also those outside of all rows, into `out`.
///
/// Errors: `UNSUPPORTED_TYPE` if the column is not binary with 64-bit offsets; `LENGTH_MISMATCH` if
/// the length of `out` is not the number of bytes.
pub fn bytes_into(column: &ArrayRef, out: &mut [u8]) -> u32
    ensures { CopiesBytes result (Some column.now) out.old out.new }
{
    let Some(bytes) = bytes_of_column(column.as_column()) else {
        return UNSUPPORTED_TYPE;
    };
    if out.len() != bytes.len() {
        return LENGTH_MISMATCH;
    }
    out.copy_from_slice(bytes);
    OK
}

/// Writes the number of bytes to `out`.
///
/// Errors: `UNSUPPORTED_TYPE` if the column is not binary with 64-bit offsets.
pub fn bytes_len_into(column: &ArrayRef, out: &mut usize) -> u32
    ensures { CountsBytes result (Some column.now) out.old out.new }
{
    let Some(bytes) = bytes_of_column(column.as_column()) else {
        return UNSUPPORTED_TYPE;
    };
    *out = bytes.len();
    OK
}
