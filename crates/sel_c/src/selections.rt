//! Masks that are prepared once, to filter any number of columns.

ghost use Rattle.std.specs.Prelude.{◌≡◌, [], ◌∷◌, length, None};
ghost use Rattle.sel_bits.specs.Bits.{count_true};
ghost use Rattle.sel_c.specs.Returns.{ReturnsValue};
ghost use Rattle.sel_c.specs.Selections.{PreparesColumn, PreparesBits, FiltersBySelection, HasSelection, held_mask};
ghost use Rattle.sel_ffi.specs.Status.{no_column};

use crate::calls::selection_handle::SelectionHandle;
use crate::calls::selection_ref::SelectionRef;
use crate::calls::selections::{filter_selected_into, selection_into, selection_of_bits_into};
use sel_ffi::column_ref::ColumnRef;
use sel_ffi::handle::Handle;
use sel_ffi::status::{NO_COLUMN, OK};
use std::alloc::Global;

/// Returns in `out` the selection of the rows where the boolean column `mask` is true. A null
/// counts as false.
///
/// Errors: SEL_ERROR_NO_COLUMN: `mask` is empty. SEL_ERROR_UNSUPPORTED_TYPE: the type of `mask` is
/// not SEL_TYPE_BOOLEAN.
#[unsafe(no_mangle)]
pub extern "C" fn sel_selection_new(
    alloc: Global,
    mask: &ColumnRef,
    out: &mut SelectionHandle,
) -> u32
    ensures { PreparesColumn result mask.now.tree out.old.selection out.new.selection }
{
    let Some(by) = mask.column() else {
        return NO_COLUMN;
    };
    selection_into(alloc, by, out)
}

/// Returns in `out` the selection of the rows whose bit is set in `mask`, which has `len` packed
/// bits.
///
/// Errors: SEL_ERROR_LENGTH_MISMATCH: `mask` has fewer than (len + 7) / 8 bytes.
#[unsafe(no_mangle)]
pub extern "C" fn sel_selection_of_bits(
    alloc: Global,
    mask: &[u8],
    len: usize,
    out: &mut SelectionHandle,
) -> u32
    ensures { PreparesBits result mask.now len out.old.selection out.new.selection }
{
    selection_of_bits_into(alloc, mask, len, out)
}

/// Returns in `len` the number of rows that a column must have to be filtered by `of`.
///
/// Errors: SEL_ERROR_NO_COLUMN: `of` is empty. Never returns SEL_ERROR_OUT_OF_MEMORY.
#[unsafe(no_mangle)]
pub extern "C" fn sel_selection_len(of: &SelectionRef, len: &mut usize) -> u32
    ensures { ReturnsValue result len.old len.new (length (held_mask of.now.selection))
        ((no_column, HasSelection of.now.selection) ∷ []) }
{
    let Some(selection) = of.selection() else {
        return NO_COLUMN;
    };
    *len = selection.len();
    OK
}

/// Returns in `count` the number of rows that `of` selects.
///
/// Errors: SEL_ERROR_NO_COLUMN: `of` is empty. Never returns SEL_ERROR_OUT_OF_MEMORY.
#[unsafe(no_mangle)]
pub extern "C" fn sel_selection_count(of: &SelectionRef, count: &mut usize) -> u32
    ensures { ReturnsValue result count.old count.new (count_true (held_mask of.now.selection))
        ((no_column, HasSelection of.now.selection) ∷ []) }
{
    let Some(selection) = of.selection() else {
        return NO_COLUMN;
    };
    *count = selection.count;
    OK
}

/// Returns in `out` the rows of `of` that `by` selects.
///
/// Errors: SEL_ERROR_NO_COLUMN: `of` or `by` is empty. SEL_ERROR_LENGTH_MISMATCH: `of` does not
/// have as many rows as the mask of `by`.
#[unsafe(no_mangle)]
pub extern "C" fn sel_filter_selection(
    alloc: Global,
    of: &ColumnRef,
    by: &SelectionRef,
    out: &mut Handle,
) -> u32
    ensures { FiltersBySelection result of.now.tree by.now.selection out.old.tree out.new.tree }
{
    let Some(column) = of.shared() else {
        return NO_COLUMN;
    };
    let Some(selection) = by.selection() else {
        return NO_COLUMN;
    };
    filter_selected_into(alloc, column, selection, out)
}

/// Frees the selection of `of`, if there is one. `of` is empty afterwards.
#[unsafe(no_mangle)]
pub extern "C" fn sel_selection_free(alloc: Global, of: &mut SelectionHandle)
    ensures { of.new.selection ≡ None }
{
    *of = SelectionHandle::empty(alloc);
}
