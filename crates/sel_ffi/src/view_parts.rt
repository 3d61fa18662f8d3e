//! Views and data buffers of columns, copied into slices of callers.

ghost use Rattle.std.specs.Prelude.{◌≡◌, Some, length};
ghost use Rattle.std.specs.Option.{option_copied};
ghost use Rattle.sel_ffi.specs.Inputs.{views_in};
ghost use Rattle.sel_ffi.specs.Layout.{views_of};
ghost use Rattle.sel_ffi.specs.Parts.{CopiesBuffer, CopiesViews, CountsBuffer, CountsBuffers};

use crate::status::{INDEX_OUT_OF_BOUNDS, LENGTH_MISMATCH, OK, UNSUPPORTED_TYPE};
use crate::views::ViewWords;
use sel_arrow::array_ref::ArrayRef;
use sel_arrow::binview::BinaryViewArray;
use sel_arrow::column::Column;
use sel_arrow::view::View;

/// Returns the views and buffers of a binary view or string view column, or none for another type.
fn view_array_in(column: &Column) -> Option<&BinaryViewArray>
    ensures { option_copied result ≡ views_of column.now }
{
    match column {
        Column::BinaryView(array) => Some(array),
        Column::Utf8View(array) => Some(&array.bytes),
        _ => None,
    }
}

/// Copies the views into `out`.
///
/// Errors: `UNSUPPORTED_TYPE` if the column is not a view column; `LENGTH_MISMATCH` if the length
/// of `out` is not the number of views.
pub fn views_into(column: &ArrayRef, out: &mut [ViewWords]) -> u32
    ensures { CopiesViews result (Some column.now) out.old out.new }
{
    let Some(array) = view_array_in(column.as_column()) else {
        return UNSUPPORTED_TYPE;
    };
    let views = array.views.as_slice();
    if out.len() != views.len() {
        return LENGTH_MISMATCH;
    }
    write_views(views, out);
    OK
}

fn write_views(views: &[View], out: &mut [ViewWords])
    requires { length out.old ≡ length views.now }
    ensures { views_in out.new ≡ views.now }
{
    let mut i = 0;
    while i < views.len() {
        let view = views[i];
        out[i] = ViewWords {
            length: view.length,
            prefix: view.prefix,
            buffer: view.buffer_idx,
            offset: view.offset,
        };
        i += 1;
    }
}

/// Writes the number of data buffers to `count`.
///
/// Errors: `UNSUPPORTED_TYPE` if the column is not a view column.
pub fn buffer_count_into(column: &ArrayRef, count: &mut usize) -> u32
    ensures { CountsBuffers result (Some column.now) count.old count.new }
{
    let Some(array) = view_array_in(column.as_column()) else {
        return UNSUPPORTED_TYPE;
    };
    *count = array.buffers.len();
    OK
}

/// Writes the number of bytes of data buffer `i` to `len`.
///
/// Errors: `UNSUPPORTED_TYPE` if the column is not a view column; `INDEX_OUT_OF_BOUNDS` if there is
/// no data buffer `i`.
pub fn buffer_len_into(column: &ArrayRef, i: usize, len: &mut usize) -> u32
    ensures { CountsBuffer result (Some column.now) i len.old len.new }
{
    let Some(array) = view_array_in(column.as_column()) else {
        return UNSUPPORTED_TYPE;
    };
    let buffers = array.buffers.as_slice();
    if i >= buffers.len() {
        return INDEX_OUT_OF_BOUNDS;
    }
    *len = buffers[i].len();
    OK
}

/// Copies the bytes of data buffer `i` into `out`.
///
/// Errors: `UNSUPPORTED_TYPE` if the column is not a view column; `INDEX_OUT_OF_BOUNDS` if there is
/// no data buffer `i`; `LENGTH_MISMATCH` if the length of `out` is not the number of its bytes.
pub fn buffer_into(column: &ArrayRef, i: usize, out: &mut [u8]) -> u32
    ensures { CopiesBuffer result (Some column.now) i out.old out.new }
{
    let Some(array) = view_array_in(column.as_column()) else {
        return UNSUPPORTED_TYPE;
    };
    let buffers = array.buffers.as_slice();
    if i >= buffers.len() {
        return INDEX_OUT_OF_BOUNDS;
    }
    let bytes = buffers[i].as_slice();
    if out.len() != bytes.len() {
        return LENGTH_MISMATCH;
    }
    out.copy_from_slice(bytes);
    OK
}
