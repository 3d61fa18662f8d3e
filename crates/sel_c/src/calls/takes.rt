//! Gather: the rows at indices.

ghost use Rattle.std.specs.Prelude.{◌≡◌, ◌≤◌, [], length, true, IsTrue, List, Some};
ghost use Rattle.sel_arrow.specs.Columns.{primitive_rows};
ghost use Rattle.sel_arrow.specs.Depth.{depth};
ghost use Rattle.sel_arrow.specs.Rows.{rows, type_of};
ghost use Rattle.sel_arrow.specs.Value.{Value};
ghost use Rattle.sel_c.specs.Takes.{Takes, TakesAt, TakesRows};
ghost use Rattle.sel_gather.specs.Need.{exceeded_limits, ExceedsNone};
ghost use Rattle.sel_kernels.specs.Pick.{all_within, take_rows};

use crate::calls::choices::exceeds_none;
use sel_arrow::array::Array;
use sel_arrow::array_ref::ArrayRef;
use sel_arrow::column::Column;
use sel_arrow::primitive::IdxArr;
use sel_ffi::handle::Handle;
use sel_ffi::inputs::numbers_of;
use sel_ffi::shared_column::SharedColumn;
use sel_ffi::status::{
    INDEX_OUT_OF_BOUNDS, OUT_OF_MEMORY, UNSUPPORTED_TYPE, put, put_again, status_of,
    status_of_maker,
};
use sel_kernels::gather::checked::take;
use sel_kernels::gather::indices_in_bounds;
use std::alloc::Global;

/// Stores in `out` the rows of `column` at `indices`; a null index gives a null row. A take of the
/// only row of a column of integers, booleans or nulls shares the column.
///
/// Errors: `UNSUPPORTED_TYPE` if the indices are not 32-bit unsigned integers;
/// `INDEX_OUT_OF_BOUNDS` if a valid index is not less than the number of rows; `OUT_OF_MEMORY`; a
/// `_LIMIT` status if the result would exceed a limit.
pub fn take_into(alloc: Global, column: &SharedColumn, indices: &ArrayRef, out: &mut Handle) -> u32
    ensures { Takes result (Some column.now) (Some indices.now) out.old.tree out.new.tree }
{
    match indices.as_column() {
        Column::UInt32(at) => take_or_share(alloc, column, at, out),
        _ => UNSUPPORTED_TYPE,
    }
}

// Stores the rows at the indices in `out`; shares a column whose only row is taken once.
fn take_or_share(alloc: Global, column: &SharedColumn, indices: &IdxArr, out: &mut Handle) -> u32
    ensures { TakesRows result (Some column.now) (primitive_rows indices.now) []
        out.old.tree out.new.tree }
{
    if takes_only_row(column.column(), indices) {
        return put_again(alloc, column, out);
    }
    take_at_into(alloc, column.column(), indices, out)
}

// Returns whether the column has one row, which is at the only index and exceeds no limit.
fn takes_only_row(column: &ArrayRef, indices: &IdxArr) -> bool
    ensures inside { result ≡ true →
        IsTrue (all_within (length (rows column.now.column)) (primitive_rows indices.now)) }
    ensures rows { result ≡ true →
        take_rows (rows column.now.column) (primitive_rows indices.now) ≡ rows column.now.column }
    ensures within { result ≡ true → (values : List Value) →
        ExceedsNone (exceeded_limits (type_of column.now.column) values) }
{
    let len = column.len();
    if len != 1 || indices.len() != 1 {
        return false;
    }
    if indices.validity.is_some() || !indices_in_bounds(indices, len) {
        return false;
    }
    exceeds_none(column.as_column())
}

fn take_at_into(alloc: Global, column: &ArrayRef, indices: &IdxArr, out: &mut Handle) -> u32
    requires { depth (type_of column.now.column) ≤ 128 }
    ensures { TakesRows result (Some column.now) (primitive_rows indices.now) []
        out.old.tree out.new.tree }
{
    let taken = match take(alloc, column, indices) {
        Ok(taken) => taken,
        Err(fault) => return status_of(fault),
    };
    match taken {
        Some(taken) => put(alloc, taken, out),
        None => INDEX_OUT_OF_BOUNDS,
    }
}

/// Stores in `out` the rows of `column` at `indices`; null where the validity in `bits` is false.
///
/// Errors: `TOO_MANY_ROWS` if there are more than 4,294,967,295 indices; `VALIDITY_LENGTH` if
/// `bits` has fewer bits than there are indices; `INDEX_OUT_OF_BOUNDS` if a valid index is not less
/// than the number of rows; `OUT_OF_MEMORY`; a `_LIMIT` status if the result would exceed a limit.
pub fn take_rows_into(
    alloc: Global,
    column: &SharedColumn,
    indices: &[u32],
    bits: &[u8],
    has_bits: bool,
    out: &mut Handle,
) -> u32
    ensures { TakesAt result (Some column.now) indices.now bits.now has_bits
        out.old.tree out.new.tree }
{
    match numbers_of(alloc, indices, bits, has_bits) {
        Ok(at) => {
            let status = take_into(alloc, column, &at, out);
            drop(at);
            status
        }
        Err(fault) => status_of_maker(fault),
    }
}
