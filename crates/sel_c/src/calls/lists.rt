//! Element access for lists with 64-bit offsets.

ghost use Rattle.std.specs.Prelude.{◌≤◌, [], Some};
ghost use Rattle.sel_arrow.specs.Depth.{depth};
ghost use Rattle.sel_arrow.specs.NestedArrays.{list_column};
ghost use Rattle.sel_arrow.specs.Rows.{rows, type_of};
ghost use Rattle.sel_c.specs.Elements.{FindsOutOfBounds, GetsElements, GetsListElements};

use sel_arrow::array::Array;
use sel_arrow::array_ref::ArrayRef;
use sel_arrow::list::ListArray;
use sel_ffi::handle::Handle;
use sel_ffi::status::{OK, OUT_OF_MEMORY, UNSUPPORTED_TYPE, put, status_of};
use sel_kernels::gather::sublist::list::{column_index_is_oob, sublist_get};
use std::alloc::Global;

/// Stores in `out` the element at `index` of each list; a null list or an index out of bounds gives
/// a null row.
///
/// Errors: `UNSUPPORTED_TYPE` if the column is not a list with 64-bit offsets; `OUT_OF_MEMORY`; a
/// `_LIMIT` status if the result would exceed a limit.
pub fn sublist_get_into(alloc: Global, column: &ArrayRef, index: i64, out: &mut Handle) -> u32
    requires { depth (type_of column.now.column) ≤ 128 }
    ensures { GetsListElements result (Some column.now) index out.old.tree out.new.tree }
{
    let Ok(copy) = column.try_clone(alloc) else {
        return OUT_OF_MEMORY;
    };
    let lists = match copy.into_array::<ListArray<i64>>() {
        Ok(lists) => lists,
        Err(back) => {
            drop(back);
            return UNSUPPORTED_TYPE;
        }
    };
    let status = element_into(alloc, &lists, index, out);
    drop(lists);
    status
}

fn element_into(alloc: Global, lists: &ListArray<i64>, index: i64, out: &mut Handle) -> u32
    requires { depth (type_of (list_column lists.now)) ≤ 128 }
    ensures { GetsElements result (rows (list_column lists.now)) (type_of (list_column lists.now))
        index [] out.old.tree out.new.tree }
{
    match sublist_get(alloc, lists, index) {
        Ok(taken) => put(alloc, taken, out),
        Err(fault) => status_of(fault),
    }
}

/// Writes to `out` whether `index` is out of bounds for a list that is not null. Does not allocate.
///
/// Errors: `UNSUPPORTED_TYPE` if the column is not a list with 64-bit offsets; `out` is then
/// unchanged.
pub fn index_is_oob_into(column: &ArrayRef, index: i64, out: &mut bool) -> u32
    ensures { FindsOutOfBounds result (Some column.now) index out.old out.new }
{
    let Some(found) = column_index_is_oob(column, index) else {
        return UNSUPPORTED_TYPE;
    };
    *out = found;
    OK
}
