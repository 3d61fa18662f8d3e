//! Offsets and bytes of binary and list columns.

ghost use Rattle.sel_ffi.specs.Parts.{CopiesBytes, CopiesOffsets, CountsBytes};

use sel_ffi::column_ref::ColumnRef;
use sel_ffi::parts::{bytes_into, bytes_len_into, offsets_into};
use sel_ffi::status::NO_COLUMN;

/// Copies the offsets of a binary or list column to `out`. In a sliced column the first one may be
/// above 0.
///
/// Errors: SEL_ERROR_NO_COLUMN: `of` is empty. SEL_ERROR_UNSUPPORTED_TYPE: its type has no offsets.
/// SEL_ERROR_LENGTH_MISMATCH: `out_len` is not the number of rows plus 1. Never returns
/// SEL_ERROR_OUT_OF_MEMORY.
#[unsafe(no_mangle)]
pub extern "C" fn sel_offsets(of: &ColumnRef, out: &mut [i64]) -> u32
    ensures { CopiesOffsets result of.now.tree out.old out.new }
{
    let Some(column) = of.column() else {
        return NO_COLUMN;
    };
    offsets_into(column, out)
}

/// Returns in `len` the number of bytes of a binary column with offsets, including bytes outside
/// of the rows.
///
/// Errors: SEL_ERROR_NO_COLUMN: `of` is empty. SEL_ERROR_UNSUPPORTED_TYPE: its type is not
/// SEL_TYPE_BINARY. Never returns SEL_ERROR_OUT_OF_MEMORY.
#[unsafe(no_mangle)]
pub extern "C" fn sel_bytes_len(of: &ColumnRef, len: &mut usize) -> u32
    ensures { CountsBytes result of.now.tree len.old len.new }
{
    let Some(column) = of.column() else {
        return NO_COLUMN;
    };
    bytes_len_into(column, len)
}

/// Copies the bytes of a binary column with offsets to `out`, including bytes outside of the rows.
///
/// Errors: SEL_ERROR_NO_COLUMN: `of` is empty. SEL_ERROR_UNSUPPORTED_TYPE: its type is not
/// SEL_TYPE_BINARY. SEL_ERROR_LENGTH_MISMATCH: `out_len` is not what `sel_bytes_len` returns. Never
/// returns SEL_ERROR_OUT_OF_MEMORY.
#[unsafe(no_mangle)]
pub extern "C" fn sel_bytes(of: &ColumnRef, out: &mut [u8]) -> u32
    ensures { CopiesBytes result of.now.tree out.old out.new }
{
    let Some(column) = of.column() else {
        return NO_COLUMN;
    };
    bytes_into(column, out)
}
