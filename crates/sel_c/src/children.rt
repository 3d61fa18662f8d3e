//! Children of lists and fields of structs.

ghost use Rattle.sel_c.specs.Below.{ReturnsChild, ReturnsField, ReturnsFieldCount, ReturnsListSize};

use crate::calls::children::{child_into, field_count_into, field_into, width_into};
use sel_ffi::column_ref::ColumnRef;
use sel_ffi::handle::Handle;
use sel_ffi::status::NO_COLUMN;
use std::alloc::Global;

/// Returns in `out` the child of a list column, including rows outside of the lists. The result
/// shares the buffers of `of`.
///
/// Errors: SEL_ERROR_NO_COLUMN: `of` is empty. SEL_ERROR_UNSUPPORTED_TYPE: its type is not
/// SEL_TYPE_LIST or SEL_TYPE_FIXED_SIZE_LIST.
#[unsafe(no_mangle)]
pub extern "C" fn sel_child(alloc: Global, of: &ColumnRef, out: &mut Handle) -> u32
    ensures { ReturnsChild result of.now.tree out.old.tree out.new.tree }
{
    let Some(column) = of.column() else {
        return NO_COLUMN;
    };
    child_into(alloc, column, out)
}

/// Returns in `width` the list size of a column of fixed-size lists.
///
/// Errors: SEL_ERROR_NO_COLUMN: `of` is empty. SEL_ERROR_UNSUPPORTED_TYPE: its type is not
/// SEL_TYPE_FIXED_SIZE_LIST. Never returns SEL_ERROR_OUT_OF_MEMORY.
#[unsafe(no_mangle)]
pub extern "C" fn sel_fixed_size_list_size(of: &ColumnRef, width: &mut usize) -> u32
    ensures { ReturnsListSize result of.now.tree width.old width.new }
{
    let Some(column) = of.column() else {
        return NO_COLUMN;
    };
    width_into(column, width)
}

/// Returns in `count` the number of fields of a struct column.
///
/// Errors: SEL_ERROR_NO_COLUMN: `of` is empty. SEL_ERROR_UNSUPPORTED_TYPE: its type is not
/// SEL_TYPE_STRUCT. Never returns SEL_ERROR_OUT_OF_MEMORY.
#[unsafe(no_mangle)]
pub extern "C" fn sel_field_count(of: &ColumnRef, count: &mut usize) -> u32
    ensures { ReturnsFieldCount result of.now.tree count.old count.new }
{
    let Some(column) = of.column() else {
        return NO_COLUMN;
    };
    field_count_into(column, count)
}

/// Returns in `out` field `i` of a struct column, counted from 0. The result shares the buffers of
/// `of`. A field's value in a null struct is returned as stored.
///
/// Errors: SEL_ERROR_NO_COLUMN: `of` is empty. SEL_ERROR_INDEX_OUT_OF_BOUNDS: the column has no
/// such field.
#[unsafe(no_mangle)]
pub extern "C" fn sel_field(alloc: Global, of: &ColumnRef, i: usize, out: &mut Handle) -> u32
    ensures { ReturnsField result of.now.tree i out.old.tree out.new.tree }
{
    let Some(column) = of.column() else {
        return NO_COLUMN;
    };
    field_into(alloc, column, i, out)
}
