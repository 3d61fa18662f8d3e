//! Take (gather).

ghost use Rattle.sel_c.specs.Takes.{Takes, TakesAt};

use crate::calls::takes::{take_into, take_rows_into};
use sel_ffi::column_ref::ColumnRef;
use sel_ffi::handle::Handle;
use sel_ffi::status::NO_COLUMN;
use std::alloc::Global;

/// Returns in `out` the rows of `of` at `indices`. A null index gives a null row.
///
/// Errors: SEL_ERROR_NO_COLUMN: `of` or `indices` is empty. SEL_ERROR_UNSUPPORTED_TYPE: the type of
/// `indices` is not SEL_TYPE_UINT32. SEL_ERROR_INDEX_OUT_OF_BOUNDS: an index that is not null is
/// out of bounds. SEL_ERROR_ROW_LIMIT, SEL_ERROR_OFFSET_LIMIT: the result exceeds a size limit.
#[unsafe(no_mangle)]
pub extern "C" fn sel_take(
    alloc: Global,
    of: &ColumnRef,
    indices: &ColumnRef,
    out: &mut Handle,
) -> u32
    ensures { Takes result of.now.tree indices.now.tree out.old.tree out.new.tree }
{
    let Some(column) = of.shared() else {
        return NO_COLUMN;
    };
    let Some(at) = indices.column() else {
        return NO_COLUMN;
    };
    take_into(alloc, column, at, out)
}

/// Returns in `out` the rows of `of` at `indices`. An index whose validity bit is 0 gives a null
/// row.
///
/// Errors: SEL_ERROR_NO_COLUMN: `of` is empty. SEL_ERROR_TOO_MANY_ROWS: more than 4,294,967,295
/// indices. SEL_ERROR_VALIDITY_LENGTH: the validity is too short. SEL_ERROR_INDEX_OUT_OF_BOUNDS: an
/// index that is not null is out of bounds. SEL_ERROR_ROW_LIMIT, SEL_ERROR_OFFSET_LIMIT: the result
/// exceeds a size limit.
#[unsafe(no_mangle)]
pub extern "C" fn sel_take_rows(
    alloc: Global,
    of: &ColumnRef,
    indices: &[u32],
    bits: &[u8],
    has_bits: bool,
    out: &mut Handle,
) -> u32
    ensures { TakesAt result of.now.tree indices.now bits.now has_bits
        out.old.tree out.new.tree }
{
    let Some(column) = of.shared() else {
        return NO_COLUMN;
    };
    take_rows_into(alloc, column, indices, bits, has_bits, out)
}
