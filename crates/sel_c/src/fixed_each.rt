//! Fixed-size list element access with an index for each row.

ghost use Rattle.sel_c.specs.Elements.{GetsFixedEntriesEach};

use crate::calls::fixed_each::fixed_get_each_into;
use sel_ffi::column_ref::ColumnRef;
use sel_ffi::handle::Handle;
use sel_ffi::status::NO_COLUMN;
use std::alloc::Global;

/// Returns in `out` the column whose row k is the element of fixed-size list k at index k, or null
/// if the list is null or, with `null_on_oob`, the index is null or out of bounds. A negative
/// index counts from the end of the list.
///
/// Errors: SEL_ERROR_NO_COLUMN: `of` or `indices` is empty. SEL_ERROR_UNSUPPORTED_TYPE: the type of
/// `of` is not SEL_TYPE_FIXED_SIZE_LIST, or the type of `indices` is not SEL_TYPE_INT64.
/// SEL_ERROR_LENGTH_MISMATCH: `of` and `indices` have different lengths.
/// SEL_ERROR_LIST_INDEX_OUT_OF_BOUNDS: without `null_on_oob`, an index is null or out of bounds and
/// its list is not null. SEL_ERROR_ROW_LIMIT, SEL_ERROR_OFFSET_LIMIT: the result exceeds a size
/// limit.
#[unsafe(no_mangle)]
pub extern "C" fn sel_fixed_size_list_get_each(
    alloc: Global,
    of: &ColumnRef,
    indices: &ColumnRef,
    null_on_oob: bool,
    out: &mut Handle,
) -> u32
    ensures { GetsFixedEntriesEach result of.now.tree indices.now.tree null_on_oob
        out.old.tree out.new.tree }
{
    let Some(column) = of.column() else {
        return NO_COLUMN;
    };
    let Some(at) = indices.column() else {
        return NO_COLUMN;
    };
    fixed_get_each_into(alloc, column, at, null_on_oob, out)
}
