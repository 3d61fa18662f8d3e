//! Filters: the rows that a mask selects.

ghost use Rattle.std.specs.Prelude.{◌≡◌, ◌≤◌, [], ◌∷◌, length, Some};
ghost use Rattle.sel_arrow.specs.Columns.{boolean_rows};
ghost use Rattle.sel_arrow.specs.Depth.{depth};
ghost use Rattle.sel_arrow.specs.Rows.{rows, type_of};
ghost use Rattle.sel_c.specs.Filters.{Filters, FiltersByBits};
ghost use Rattle.sel_c.specs.Returns.{ReturnsColumn};
ghost use Rattle.sel_ffi.specs.Status.{ok, length_mismatch};
ghost use Rattle.sel_kernels.specs.Select.{select, effective_mask};

use sel_arrow::array::Array;
use sel_arrow::array_ref::ArrayRef;
use sel_arrow::boolean::BooleanArray;
use sel_arrow::column::Column;
use sel_ffi::handle::Handle;
use sel_ffi::inputs::copied_bits;
use sel_ffi::shared_column::SharedColumn;
use sel_ffi::status::{LENGTH_MISMATCH, OUT_OF_MEMORY, UNSUPPORTED_TYPE, put, put_again};
use sel_kernels::filter::{filter, filter_with_bitmap};
use std::alloc::Global;

/// Stores in `out` the rows of `column` where the mask is true and valid. If these are all rows and
/// the mask has no validity, the result shares the column.
///
/// Errors: `UNSUPPORTED_TYPE` if the mask is not boolean; `LENGTH_MISMATCH` if the mask and the
/// column have different numbers of rows; `OUT_OF_MEMORY`.
pub fn filter_into(alloc: Global, column: &SharedColumn, mask: &ArrayRef, out: &mut Handle) -> u32
    ensures { Filters result (Some column.now) (Some mask.now) out.old.tree out.new.tree }
{
    match mask.as_column() {
        Column::Boolean(truths) => filter_by(alloc, column, truths, out),
        _ => UNSUPPORTED_TYPE,
    }
}

// Stores in `out` the rows of `column` where `mask` is true and valid.
fn filter_by(alloc: Global, column: &SharedColumn, mask: &BooleanArray, out: &mut Handle) -> u32
    ensures { ReturnsColumn result out.old.tree out.new.tree
        (select (rows column.now.column) (effective_mask (boolean_rows mask.now)))
        (type_of column.now.column) ((
          length_mismatch,
          length (rows column.now.column) ≡ length (boolean_rows mask.now),
        ) ∷ []) (result ≡ ok) }
{
    if column.column().len() != mask.len() {
        return LENGTH_MISMATCH;
    }
    if mask.validity.is_none() && mask.len() <= FEW_ROWS {
        let count = mask.values.set_bits();
        if count == mask.values.len() {
            return put_again(alloc, column, out);
        }
        if count == 0 {
            return put_no_rows(alloc, column.column(), out);
        }
    } else if mask.validity.is_none() && mask.values.is_all_true() {
        return put_again(alloc, column, out);
    }
    match filter(alloc, column.column(), mask) {
        Ok(kept) => put(alloc, kept, out),
        Err(_) => OUT_OF_MEMORY,
    }
}

// The most rows of a mask that is counted here. If it keeps none, the column is sliced without the
// moves of the kernel's result; only speed depends on this.
pub(crate) const FEW_ROWS: usize = 64;

/// Stores in `out` no rows, of the type of `column`, whose buffers they share.
///
/// Errors: `OUT_OF_MEMORY`.
pub(crate) fn put_no_rows(alloc: Global, column: &ArrayRef, out: &mut Handle) -> u32
    requires { depth (type_of column.now.column) ≤ 128 }
    ensures { ReturnsColumn result out.old.tree out.new.tree [] (type_of column.now.column) []
        (result ≡ ok) }
{
    match column.sliced(alloc, 0, 0) {
        Ok(none) => put(alloc, none, out),
        Err(_) => OUT_OF_MEMORY,
    }
}

/// Stores in `out` the rows of `column` whose bit in `mask` is set, least significant bit first. If
/// these are all rows, the result shares the column.
///
/// Errors: `LENGTH_MISMATCH` if the column does not have `len` rows, or `mask` has fewer than `len`
/// bits; `OUT_OF_MEMORY`.
pub fn filter_bits_into(
    alloc: Global,
    column: &SharedColumn,
    mask: &[u8],
    len: usize,
    out: &mut Handle,
) -> u32
    ensures { FiltersByBits result (Some column.now) out.old.tree out.new.tree mask.now len }
{
    if column.column().len() != len || mask.len() < len.div_ceil(8) {
        return LENGTH_MISMATCH;
    }
    let Ok(bits) = copied_bits(alloc, mask, len) else {
        return OUT_OF_MEMORY;
    };
    if bits.is_all_true() {
        return put_again(alloc, column, out);
    }
    match filter_with_bitmap(alloc, column.column(), &bits) {
        Ok(kept) => put(alloc, kept, out),
        Err(_) => OUT_OF_MEMORY,
    }
}
