//! Fixed-size list element access.

ghost use Rattle.sel_c.specs.Elements.{GetsFixedEntries};

use crate::calls::fixed::fixed_get_into;
use sel_ffi::column_ref::ColumnRef;
use sel_ffi::handle::Handle;
use sel_ffi::status::NO_COLUMN;
use std::alloc::Global;

/// Returns in `out` the column whose row k is the element of fixed-size list k at `index`, or null
/// if the list is null or, with `null_on_oob`, the index is out of bounds. A negative index counts
/// from the end of the list.
///
/// Errors: SEL_ERROR_NO_COLUMN: `of` is empty. SEL_ERROR_UNSUPPORTED_TYPE: the type of `of` is not
/// SEL_TYPE_FIXED_SIZE_LIST. SEL_ERROR_LIST_INDEX_OUT_OF_BOUNDS: without `null_on_oob`, the index
/// is out of bounds and some list is not null. SEL_ERROR_ROW_LIMIT, SEL_ERROR_OFFSET_LIMIT: the
/// result exceeds a size limit.
#[unsafe(no_mangle)]
pub extern "C" fn sel_fixed_size_list_get(
    alloc: Global,
    of: &ColumnRef,
    index: i64,
    null_on_oob: bool,
    out: &mut Handle,
) -> u32
    ensures { GetsFixedEntries result of.now.tree index null_on_oob out.old.tree out.new.tree }
{
    let Some(column) = of.column() else {
        return NO_COLUMN;
    };
    fixed_get_into(alloc, column, index, null_on_oob, out)
}
