//! Binary and string columns of views.

ghost use Rattle.std.specs.Prelude.{◌≡◌, length, map};
ghost use Rattle.sel_arrow.specs.Rows.{rows, type_of};
ghost use Rattle.sel_arrow.specs.Shape.{of_binary_view, of_utf8_view};
ghost use Rattle.sel_arrow.specs.Views.{view_rows};
ghost use Rattle.sel_ffi.specs.Inputs.{validity_in, views_in, binview_rules, utf8view_rules};
ghost use Rattle.sel_ffi.specs.Parts.{CopiesBuffer, CopiesViews, CountsBuffer, CountsBuffers};
ghost use Rattle.sel_ffi.specs.Status.{Makes, ReportsExactly};

use sel_ffi::column_ref::ColumnRef;
use sel_ffi::handle::Handle;
use sel_ffi::status::{NO_COLUMN, put, status_of_maker};
use sel_ffi::view_parts::{buffer_count_into, buffer_into, buffer_len_into, views_into};
use sel_ffi::views::{ViewWords, binview_of, utf8view_of};
use std::alloc::Global;

/// Returns in `out` the binary column of these views: a value of up to 12 bytes is stored in its
/// view, a longer one in a data buffer.
///
/// Errors: SEL_ERROR_VALIDITY_LENGTH, SEL_ERROR_TOO_MANY_ROWS, SEL_ERROR_TOO_MANY_BUFFERS; then for
/// each view in order, in null slots too, SEL_ERROR_VIEW_RANGE, SEL_ERROR_VIEW_PREFIX.
#[unsafe(no_mangle)]
pub extern "C" fn sel_binary_view_new(
    alloc: Global,
    views: &[ViewWords],
    buffers: &[&[u8]],
    bits: &[u8],
    has_bits: bool,
    out: &mut Handle,
) -> u32
    ensures rows { Makes result out.old.tree out.new.tree (λ made. rows made.column ≡
        view_rows (views_in views.now) (map (λ s. s.now) buffers.now)
        (validity_in bits.now has_bits (length views.now))) }
    ensures dtype { Makes result out.old.tree out.new.tree
        (λ made. type_of made.column ≡ of_binary_view) }
    ensures status { ReportsExactly result (binview_rules (views_in views.now)
        (map (λ s. s.now) buffers.now) bits.now has_bits) }
{
    match binview_of(alloc, views, buffers, bits, has_bits) {
        Ok(column) => put(alloc, column, out),
        Err(fault) => status_of_maker(fault),
    }
}

/// Returns in `out` the string column of these views: a value of up to 12 bytes is stored in its
/// view, a longer one in a data buffer.
///
/// Errors: SEL_ERROR_VALIDITY_LENGTH, SEL_ERROR_TOO_MANY_ROWS, SEL_ERROR_TOO_MANY_BUFFERS; then for
/// each view in order, in null slots too, SEL_ERROR_VIEW_RANGE, SEL_ERROR_VIEW_PREFIX; then
/// SEL_ERROR_INVALID_UTF8, for rows that are not null.
#[unsafe(no_mangle)]
pub extern "C" fn sel_string_view_new(
    alloc: Global,
    views: &[ViewWords],
    buffers: &[&[u8]],
    bits: &[u8],
    has_bits: bool,
    out: &mut Handle,
) -> u32
    ensures rows { Makes result out.old.tree out.new.tree (λ made. rows made.column ≡
        view_rows (views_in views.now) (map (λ s. s.now) buffers.now)
        (validity_in bits.now has_bits (length views.now))) }
    ensures dtype { Makes result out.old.tree out.new.tree
        (λ made. type_of made.column ≡ of_utf8_view) }
    ensures status { ReportsExactly result (utf8view_rules (views_in views.now)
        (map (λ s. s.now) buffers.now) bits.now has_bits) }
{
    match utf8view_of(alloc, views, buffers, bits, has_bits) {
        Ok(column) => put(alloc, column, out),
        Err(fault) => status_of_maker(fault),
    }
}

/// Copies the views to `out`, including those in null slots.
///
/// Errors: SEL_ERROR_NO_COLUMN: `of` is empty. SEL_ERROR_UNSUPPORTED_TYPE: its type is not
/// SEL_TYPE_BINARY_VIEW or SEL_TYPE_STRING_VIEW. SEL_ERROR_LENGTH_MISMATCH: `out_len` is not the
/// number of rows. Never returns SEL_ERROR_OUT_OF_MEMORY.
#[unsafe(no_mangle)]
pub extern "C" fn sel_views(of: &ColumnRef, out: &mut [ViewWords]) -> u32
    ensures { CopiesViews result of.now.tree out.old out.new }
{
    let Some(column) = of.column() else {
        return NO_COLUMN;
    };
    views_into(column, out)
}

/// Returns in `count` the number of data buffers of a view column.
///
/// Errors: SEL_ERROR_NO_COLUMN: `of` is empty. SEL_ERROR_UNSUPPORTED_TYPE: its type is not
/// SEL_TYPE_BINARY_VIEW or SEL_TYPE_STRING_VIEW. Never returns SEL_ERROR_OUT_OF_MEMORY.
#[unsafe(no_mangle)]
pub extern "C" fn sel_buffer_count(of: &ColumnRef, count: &mut usize) -> u32
    ensures { CountsBuffers result of.now.tree count.old count.new }
{
    let Some(column) = of.column() else {
        return NO_COLUMN;
    };
    buffer_count_into(column, count)
}

/// Returns in `len` the number of bytes of data buffer `i`, counted from 0.
///
/// Errors: SEL_ERROR_NO_COLUMN: `of` is empty. SEL_ERROR_UNSUPPORTED_TYPE: its type is not
/// SEL_TYPE_BINARY_VIEW or SEL_TYPE_STRING_VIEW. SEL_ERROR_INDEX_OUT_OF_BOUNDS: there is no data
/// buffer `i`. Never returns SEL_ERROR_OUT_OF_MEMORY.
#[unsafe(no_mangle)]
pub extern "C" fn sel_buffer_len(of: &ColumnRef, i: usize, len: &mut usize) -> u32
    ensures { CountsBuffer result of.now.tree i len.old len.new }
{
    let Some(column) = of.column() else {
        return NO_COLUMN;
    };
    buffer_len_into(column, i, len)
}

/// Copies the bytes of data buffer `i`, counted from 0, to `out`.
///
/// Errors: SEL_ERROR_NO_COLUMN: `of` is empty. SEL_ERROR_UNSUPPORTED_TYPE: its type is not
/// SEL_TYPE_BINARY_VIEW or SEL_TYPE_STRING_VIEW. SEL_ERROR_INDEX_OUT_OF_BOUNDS: there is no data
/// buffer `i`. SEL_ERROR_LENGTH_MISMATCH: `out_len` is not the length of the buffer. Never returns
/// SEL_ERROR_OUT_OF_MEMORY.
#[unsafe(no_mangle)]
pub extern "C" fn sel_buffer(of: &ColumnRef, i: usize, out: &mut [u8]) -> u32
    ensures { CopiesBuffer result of.now.tree i out.old out.new }
{
    let Some(column) = of.column() else {
        return NO_COLUMN;
    };
    buffer_into(column, i, out)
}
