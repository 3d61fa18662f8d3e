//! Element access for fixed-size lists, at an index for each list.

ghost use Rattle.std.specs.Prelude.{◌≤◌, [], ◌∷◌, Some, IsTrue};
ghost use Rattle.sel_arrow.specs.Columns.{primitive_rows};
ghost use Rattle.sel_arrow.specs.Depth.{depth};
ghost use Rattle.sel_arrow.specs.NestedArrays.{block_column};
ghost use Rattle.sel_arrow.specs.Rows.{rows, type_of};
ghost use Rattle.sel_arrow.specs.Shape.{is_block_shape};
ghost use Rattle.sel_c.specs.Elements.{GetsEntriesEach, GetsFixedEntriesEach};
ghost use Rattle.sel_ffi.specs.Status.{unsupported_type};

use sel_arrow::array::Array;
use sel_arrow::array_ref::ArrayRef;
use sel_arrow::fixed_size_list::FixedSizeListArray;
use sel_arrow::primitive::PrimitiveArray;
use sel_ffi::handle::Handle;
use sel_ffi::status::{LENGTH_MISMATCH, OUT_OF_MEMORY, UNSUPPORTED_TYPE, put, status_of};
use sel_kernels::gather::sublist::fixed_size_list::sub_fixed_size_list_get;
use std::alloc::Global;

/// Stores in `out` the element of each fixed-size list at its own index; a null list gives a null
/// row.
///
/// With `null_on_oob`, an index that is null or out of bounds gives a null row too.
///
/// Errors: `UNSUPPORTED_TYPE` if the column is not a fixed-size list or the indices are not 64-bit
/// signed integers; `LENGTH_MISMATCH` if there are not as many indices as lists;
/// `LIST_INDEX_OUT_OF_BOUNDS` if `null_on_oob` is false and the index of a list that is not null is
/// null or out of bounds; `OUT_OF_MEMORY`; a `_LIMIT` status if the result would exceed a limit.
pub fn fixed_get_each_into(
    alloc: Global,
    column: &ArrayRef,
    indices: &ArrayRef,
    null_on_oob: bool,
    out: &mut Handle,
) -> u32
    requires { depth (type_of column.now.column) ≤ 128 }
    ensures { GetsFixedEntriesEach result (Some column.now) (Some indices.now) null_on_oob
        out.old.tree out.new.tree }
{
    let Ok(copy) = indices.try_clone(alloc) else {
        return OUT_OF_MEMORY;
    };
    let at = match copy.into_array::<PrimitiveArray<i64>>() {
        Ok(at) => at,
        Err(back) => {
            drop(back);
            return UNSUPPORTED_TYPE;
        }
    };
    entries_of_column_into(alloc, column, &at, null_on_oob, out)
}

fn entries_of_column_into(
    alloc: Global,
    column: &ArrayRef,
    indices: &PrimitiveArray<i64>,
    null_on_oob: bool,
    out: &mut Handle,
) -> u32
    requires { depth (type_of column.now.column) ≤ 128 }
    ensures { GetsEntriesEach result (rows column.now.column) (type_of column.now.column)
        (primitive_rows indices.now) null_on_oob
        ((unsupported_type, IsTrue (is_block_shape (type_of column.now.column))) ∷ [])
        out.old.tree out.new.tree }
{
    let Ok(copy) = column.try_clone(alloc) else {
        return OUT_OF_MEMORY;
    };
    let lists = match copy.into_array::<FixedSizeListArray>() {
        Ok(lists) => lists,
        Err(back) => {
            drop(back);
            return UNSUPPORTED_TYPE;
        }
    };
    let status = entries_into(alloc, &lists, indices, null_on_oob, out);
    drop(lists);
    status
}

fn entries_into(
    alloc: Global,
    lists: &FixedSizeListArray,
    indices: &PrimitiveArray<i64>,
    null_on_oob: bool,
    out: &mut Handle,
) -> u32
    requires { depth (type_of (block_column lists.now)) ≤ 128 }
    ensures { GetsEntriesEach result (rows (block_column lists.now))
        (type_of (block_column lists.now)) (primitive_rows indices.now) null_on_oob []
        out.old.tree out.new.tree }
{
    if indices.len() != lists.len() {
        return LENGTH_MISMATCH;
    }
    match sub_fixed_size_list_get(alloc, lists, indices, null_on_oob) {
        Ok(taken) => put(alloc, taken, out),
        Err(fault) => status_of(fault),
    }
}
