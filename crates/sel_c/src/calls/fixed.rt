//! Element access for fixed-size lists, at one index.

ghost use Rattle.std.specs.Prelude.{◌≤◌, [], Some};
ghost use Rattle.sel_arrow.specs.Depth.{depth};
ghost use Rattle.sel_arrow.specs.NestedArrays.{block_column};
ghost use Rattle.sel_arrow.specs.Rows.{rows, type_of};
ghost use Rattle.sel_c.specs.Elements.{GetsEntries, GetsFixedEntries};

use sel_arrow::array::Array;
use sel_arrow::array_ref::ArrayRef;
use sel_arrow::fixed_size_list::FixedSizeListArray;
use sel_ffi::handle::Handle;
use sel_ffi::status::{OUT_OF_MEMORY, UNSUPPORTED_TYPE, put, status_of};
use sel_kernels::gather::sublist::fixed_size_list::sub_fixed_size_list_get_literal;
use std::alloc::Global;

/// Stores in `out` the element at `index` of each fixed-size list; a null list gives a null row.
///
/// With `null_on_oob`, an index out of bounds gives a null row too.
///
/// Errors: `UNSUPPORTED_TYPE` if the column has another type; `LIST_INDEX_OUT_OF_BOUNDS` if
/// `null_on_oob` is false and a list that is not null has no element at `index`; `OUT_OF_MEMORY`; a
/// `_LIMIT` status if the result would exceed a limit.
pub fn fixed_get_into(
    alloc: Global,
    column: &ArrayRef,
    index: i64,
    null_on_oob: bool,
    out: &mut Handle,
) -> u32
    requires { depth (type_of column.now.column) ≤ 128 }
    ensures { GetsFixedEntries result (Some column.now) index null_on_oob
        out.old.tree out.new.tree }
{
    let Ok(copy) = column.try_clone(alloc) else {
        return OUT_OF_MEMORY;
    };
    let lists = match copy.into_array::<FixedSizeListArray>() {
        Ok(lists) => lists,
        Err(back) => {
            drop(back);
            return UNSUPPORTED_TYPE;
        }
    };
    let status = entry_into(alloc, &lists, index, null_on_oob, out);
    drop(lists);
    status
}

fn entry_into(
    alloc: Global,
    lists: &FixedSizeListArray,
    index: i64,
    null_on_oob: bool,
    out: &mut Handle,
) -> u32
    requires { depth (type_of (block_column lists.now)) ≤ 128 }
    ensures { GetsEntries result (rows (block_column lists.now)) (type_of (block_column lists.now))
        index null_on_oob [] out.old.tree out.new.tree }
{
    match sub_fixed_size_list_get_literal(alloc, lists, index, null_on_oob) {
        Ok(taken) => put(alloc, taken, out),
        Err(fault) => status_of(fault),
    }
}
