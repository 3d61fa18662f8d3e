//! Filters by masks that are prepared once.

ghost use Rattle.std.specs.Prelude.{◌≡◌, [], Some};
ghost use Rattle.sel_c.specs.Selections.{Prepares, PreparesColumn, PreparesBits, FiltersBySelection};

use crate::calls::filters::{FEW_ROWS, put_no_rows};
use crate::calls::selection_handle::SelectionHandle;
use sel_arrow::array::Array;
use sel_arrow::array_ref::ArrayRef;
use sel_arrow::column::Column;
use sel_ffi::handle::Handle;
use sel_ffi::inputs::copied_bits;
use sel_ffi::shared_column::SharedColumn;
use sel_ffi::status::{LENGTH_MISMATCH, OK, OUT_OF_MEMORY, UNSUPPORTED_TYPE, put, put_again};
use sel_kernels::filter::{Selection, filter_selected};
use std::alloc::Global;

/// Stores in `out` the selection of the rows where `mask` is true and valid.
///
/// Errors: `UNSUPPORTED_TYPE` if the mask is not boolean; `OUT_OF_MEMORY`.
pub fn selection_into(alloc: Global, mask: &ArrayRef, out: &mut SelectionHandle) -> u32
    ensures { PreparesColumn result (Some mask.now) out.old.selection out.new.selection }
{
    match mask.as_column() {
        Column::Boolean(truths) => match Selection::new(alloc, truths) {
            Ok(selection) => put_selection(alloc, selection, out),
            Err(_) => OUT_OF_MEMORY,
        },
        _ => UNSUPPORTED_TYPE,
    }
}

/// Stores in `out` the selection of the rows whose bit in `mask` is set, of `len` bits, least
/// significant bit first.
///
/// Errors: `LENGTH_MISMATCH` if `mask` has fewer than `len` bits; `OUT_OF_MEMORY`.
pub fn selection_of_bits_into(
    alloc: Global,
    mask: &[u8],
    len: usize,
    out: &mut SelectionHandle,
) -> u32
    ensures { PreparesBits result mask.now len out.old.selection out.new.selection }
{
    if mask.len() < len.div_ceil(8) {
        return LENGTH_MISMATCH;
    }
    let Ok(bits) = copied_bits(alloc, mask, len) else {
        return OUT_OF_MEMORY;
    };
    match Selection::of_bitmap(bits) {
        Ok(selection) => put_selection(alloc, selection, out),
        Err(_) => OUT_OF_MEMORY,
    }
}

/// Stores the selection in `out`, and frees the one that `out` had.
///
/// Errors: `OUT_OF_MEMORY`; then `out` is unchanged and `selection` is freed.
pub fn put_selection(alloc: Global, selection: Selection, out: &mut SelectionHandle) -> u32
    ensures { Prepares result out.old.selection out.new.selection selection.mask.bits [] }
{
    match Box::new(alloc, selection) {
        Ok(boxed) => {
            *out = SelectionHandle::of(boxed);
            OK
        }
        Err(failed) => {
            drop(failed.value);
            OUT_OF_MEMORY
        }
    }
}

/// Stores in `out` the rows of `column` that `selection` selects. If these are all rows, the result
/// shares the column.
///
/// Errors: `LENGTH_MISMATCH` if the column does not have as many rows as the selection's mask;
/// `OUT_OF_MEMORY`.
pub fn filter_selected_into(
    alloc: Global,
    column: &SharedColumn,
    selection: &Selection,
    out: &mut Handle,
) -> u32
    ensures { FiltersBySelection result (Some column.now) (Some selection.now)
        out.old.tree out.new.tree }
{
    if column.column().len() != selection.len() {
        return LENGTH_MISMATCH;
    }
    if selection.count == selection.len() {
        return put_again(alloc, column, out);
    }
    if selection.count == 0 && selection.len() <= FEW_ROWS {
        return put_no_rows(alloc, column.column(), out);
    }
    match filter_selected(alloc, column.column(), selection) {
        Ok(kept) => put(alloc, kept, out),
        Err(_) => OUT_OF_MEMORY,
    }
}
