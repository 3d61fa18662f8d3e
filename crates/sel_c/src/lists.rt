//! List element access.

ghost use Rattle.std.specs.Prelude.{◌≡◌, ◌<◌, [], ◌∷◌};
ghost use Rattle.sel_arrow.specs.Depth.{depth};
ghost use Rattle.sel_arrow.specs.Shape.{of_large_list};
ghost use Rattle.sel_c.specs.Elements.{FindsOutOfBounds, GetsListElements};
ghost use Rattle.sel_c.specs.Returns.{ReturnsColumn};
ghost use Rattle.sel_ffi.specs.Status.{ok, no_column, too_deep, held_rows, held_type, HasColumn};
ghost use Rattle.sel_kernels.specs.Lists.{unit_lists};

use crate::calls::lists::{index_is_oob_into, sublist_get_into};
use sel_arrow::array::Array;
use sel_ffi::column_ref::ColumnRef;
use sel_ffi::depth::{MAX_DEPTH, is_within};
use sel_ffi::handle::Handle;
use sel_ffi::status::{NO_COLUMN, OUT_OF_MEMORY, TOO_DEEP, put};
use sel_kernels::gather::sublist::list::array_to_unit_list;
use std::alloc::Global;

/// Returns in `out` the column whose row k is the element of list k at `index`, or null if the
/// list is null or the index is out of bounds. A negative index counts from the end of the list.
///
/// Errors: SEL_ERROR_NO_COLUMN: `of` is empty. SEL_ERROR_UNSUPPORTED_TYPE: the type of `of` is not
/// SEL_TYPE_LIST. SEL_ERROR_ROW_LIMIT, SEL_ERROR_OFFSET_LIMIT: the result exceeds a size limit.
#[unsafe(no_mangle)]
pub extern "C" fn sel_list_get(alloc: Global, of: &ColumnRef, index: i64, out: &mut Handle) -> u32
    ensures { GetsListElements result of.now.tree index out.old.tree out.new.tree }
{
    let Some(column) = of.column() else {
        return NO_COLUMN;
    };
    sublist_get_into(alloc, column, index, out)
}

/// Returns in `out` whether `index` is out of bounds in some list that is not null. Does not
/// allocate; on error `out` is unchanged.
///
/// Errors: SEL_ERROR_NO_COLUMN: `of` is empty. SEL_ERROR_UNSUPPORTED_TYPE: the type of `of` is not
/// SEL_TYPE_LIST. Never returns SEL_ERROR_OUT_OF_MEMORY.
#[unsafe(no_mangle)]
pub extern "C" fn sel_list_index_is_oob(of: &ColumnRef, index: i64, out: &mut bool) -> u32
    ensures { FindsOutOfBounds result of.now.tree index out.old out.new }
{
    let Some(column) = of.column() else {
        return NO_COLUMN;
    };
    index_is_oob_into(column, index, out)
}

/// Returns in `out` the column whose row k is a list of one element, row k of `of`.
///
/// Errors: SEL_ERROR_NO_COLUMN: `of` is empty. SEL_ERROR_TOO_DEEP: `of` has 128 levels.
#[unsafe(no_mangle)]
pub extern "C" fn sel_unit_list(alloc: Global, of: &ColumnRef, out: &mut Handle) -> u32
    ensures { ReturnsColumn result out.old.tree out.new.tree (unit_lists (held_rows of.now.tree))
        (of_large_list (held_type of.now.tree)) ((no_column, HasColumn of.now.tree) ∷
        (too_deep, depth (held_type of.now.tree) < 128) ∷ []) (result ≡ ok) }
{
    let Some(column) = of.column() else {
        return NO_COLUMN;
    };
    if !is_within(column.as_column(), MAX_DEPTH - 1) {
        return TOO_DEEP;
    }
    let Ok(copy) = column.try_clone(alloc) else {
        return OUT_OF_MEMORY;
    };
    match array_to_unit_list(alloc, copy) {
        Ok(lists) => put(alloc, lists.into_ref(), out),
        Err((back, _)) => {
            drop(back);
            OUT_OF_MEMORY
        }
    }
}
