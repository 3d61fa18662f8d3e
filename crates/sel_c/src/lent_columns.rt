//! Columns over shared buffers, and the buffers of columns. Internal to the C library: its Arrow
//! interface calls these functions, and no header for programs declares them.

ghost use Rattle.std.specs.Prelude.{◌≡◌, ◌≢◌, ◌≤◌, ◌<◌, ◌+◌, [], ◌∷◌, All, true, length, map, take, drop};
ghost use Rattle.sel_arrow.specs.Depth.{depth, deepest};
ghost use Rattle.sel_arrow.specs.Masked.{bool_rows};
ghost use Rattle.sel_arrow.specs.Nested.{block_rows, struct_rows};
ghost use Rattle.sel_arrow.specs.Shape.{of_boolean, of_large_binary, of_binary_view, of_utf8_view, of_large_list, of_fixed_size_list, of_struct, shapes_of};
ghost use Rattle.sel_ffi.specs.Status.{ok, no_column, unsupported_type, length_mismatch, too_deep, held_count, held_rows, held_type, HasColumn};
ghost use Rattle.sel_ffi.specs.Buffers.{bits_of, bytes_in, bytes_of, count_over, integers_of, of_column, offsets_in, type_over, validity_over, values_in, views_of};
ghost use Rattle.sel_ffi.specs.ColumnsOver.{is_bitmap, is_int64_buffer, is_integer_buffer, may_be_validity, flat_rules_over, integer_rows_over, binary_conditions, binary_rows_over, binary_rules_over, list_rows_over, list_rules_over, block_rules_over, struct_rules_over, view_conditions, view_rows_over, binary_view_rules_over, string_view_rules_over, MakesColumn};
ghost use Rattle.sel_ffi.specs.BufferParts.{SharesData, SharesPart, SharesValidity, ShowsBuffer};

use sel_ffi::buffer_handle::BufferHandle;
use sel_ffi::buffer_parts::{bytes_of, data_of, offsets_of, validity_of, values_of};
use sel_ffi::buffer_ref::BufferRef;
use sel_ffi::column_ref::ColumnRef;
use sel_ffi::columns::{
    binary_over, booleans_over, fixed_size_list_over, integers_over, list_over, struct_over,
};
use sel_ffi::handle::Handle;
use sel_ffi::showing::show;
use sel_ffi::view_columns::{binary_views_over, string_views_over};
use std::alloc::Global;

/// Stores in `out` the column of the integers of a buffer. Its validity is the bits of `validity`
/// from bit `first` on.
///
/// Errors: `UNSUPPORTED_TYPE` if `values` is no buffer of integers, or `validity` has another
/// buffer than a bitmap; `VALIDITY_LENGTH`; `TOO_MANY_ROWS`; `OUT_OF_MEMORY`. On error `out` is
/// unchanged.
#[unsafe(no_mangle)]
pub extern "C" fn sel_integers_over(
    alloc: Global,
    values: &BufferRef,
    validity: &BufferRef,
    first: usize,
    out: &mut Handle,
) -> u32
    ensures { MakesColumn result out.old.tree out.new.tree (type_over values.now.buffer)
        (integer_rows_over values.now.buffer validity.now.buffer first)
        ((unsupported_type, may_be_validity validity.now.buffer ≡ true)
        ∷ (unsupported_type, is_integer_buffer values.now.buffer ≡ true) ∷ [])
        (flat_rules_over (count_over values.now.buffer) validity.now.buffer first) }
{
    integers_over(alloc, values, validity, first, out)
}

/// Stores in `out` the boolean column of `len` bits of a bitmap, from bit `start` on. Its validity
/// is the bits of `validity` from bit `first` on.
///
/// Errors: `UNSUPPORTED_TYPE` if `values` is no bitmap, or `validity` has another buffer than one;
/// `LENGTH_MISMATCH` if `values` has fewer than `start + len` bits; `VALIDITY_LENGTH`;
/// `TOO_MANY_ROWS`; `OUT_OF_MEMORY`. On error `out` is unchanged.
#[unsafe(no_mangle)]
pub extern "C" fn sel_booleans_over(
    alloc: Global,
    values: &BufferRef,
    start: usize,
    len: usize,
    validity: &BufferRef,
    first: usize,
    out: &mut Handle,
) -> u32
    ensures { MakesColumn result out.old.tree out.new.tree of_boolean
        (bool_rows (take len (drop start (bits_of values.now.buffer)))
        (validity_over validity.now.buffer first len))
        ((unsupported_type, is_bitmap values.now.buffer ≡ true)
        ∷ (unsupported_type, may_be_validity validity.now.buffer ≡ true)
        ∷ (length_mismatch, start + len ≤ length (bits_of values.now.buffer)) ∷ [])
        (flat_rules_over len validity.now.buffer first) }
{
    booleans_over(alloc, values, start, len, validity, first, out)
}

/// Stores in `out` the binary column of a buffer of offsets and a buffer of bytes. Its validity is
/// the bits of `validity` from bit `first` on.
///
/// Errors: `UNSUPPORTED_TYPE` if a handle has another buffer; `NO_OFFSETS`, `NEGATIVE_OFFSET`,
/// `DECREASING_OFFSET`; `VALIDITY_LENGTH`; `TOO_MANY_ROWS`, `OFFSET_RANGE`; `OUT_OF_MEMORY`. On
/// error `out` is unchanged.
#[unsafe(no_mangle)]
pub extern "C" fn sel_binary_over(
    alloc: Global,
    offsets: &BufferRef,
    bytes: &BufferRef,
    validity: &BufferRef,
    first: usize,
    out: &mut Handle,
) -> u32
    ensures { MakesColumn result out.old.tree out.new.tree of_large_binary
        (binary_rows_over offsets.now.buffer bytes.now.buffer validity.now.buffer first)
        (binary_conditions offsets.now.buffer bytes.now.buffer validity.now.buffer)
        (binary_rules_over (integers_of offsets.now.buffer) (bytes_of bytes.now.buffer)
        validity.now.buffer first) }
{
    binary_over(alloc, offsets, bytes, validity, first, out)
}

/// Stores in `out` the list column of a buffer of offsets over a column, whose buffers it shares.
/// Its validity is the bits of `validity` from bit `first` on.
///
/// Errors: `NO_COLUMN` if `child` is empty; `TOO_DEEP` if it has 128 levels; `UNSUPPORTED_TYPE` if
/// `offsets` is no buffer of 64-bit integers, or `validity` has another buffer than a bitmap;
/// `NO_OFFSETS`, `NEGATIVE_OFFSET`, `DECREASING_OFFSET`; `VALIDITY_LENGTH`; `TOO_MANY_ROWS`,
/// `OFFSET_RANGE`; `OUT_OF_MEMORY`. On error `out` is unchanged.
#[unsafe(no_mangle)]
pub extern "C" fn sel_list_over(
    alloc: Global,
    offsets: &BufferRef,
    child: &ColumnRef,
    validity: &BufferRef,
    first: usize,
    out: &mut Handle,
) -> u32
    ensures { MakesColumn result out.old.tree out.new.tree
        (of_large_list (held_type child.now.tree))
        (list_rows_over offsets.now.buffer (held_rows child.now.tree) validity.now.buffer first)
        ((no_column, HasColumn child.now.tree)
        ∷ (too_deep, depth (held_type child.now.tree) < 128)
        ∷ (unsupported_type, is_int64_buffer offsets.now.buffer ≡ true)
        ∷ (unsupported_type, may_be_validity validity.now.buffer ≡ true) ∷ [])
        (list_rules_over (integers_of offsets.now.buffer) (held_count child.now.tree)
        validity.now.buffer first) }
{
    list_over(alloc, offsets, child, validity, first, out)
}

/// Stores in `out` the column of `len` fixed-size lists of `width` rows over a column, whose
/// buffers it shares. Its validity is the bits of `validity` from bit `first` on.
///
/// Errors: `NO_COLUMN` if `child` is empty; `TOO_DEEP` if it has 128 levels; `UNSUPPORTED_TYPE` if
/// `validity` has another buffer than a bitmap; `VALIDITY_LENGTH`; `TOO_MANY_ROWS`, `LIST_SIZE`,
/// `CHILD_LENGTH`; `OUT_OF_MEMORY`. On error `out` is unchanged.
#[unsafe(no_mangle)]
pub extern "C" fn sel_fixed_size_list_over(
    alloc: Global,
    width: usize,
    len: usize,
    child: &ColumnRef,
    validity: &BufferRef,
    first: usize,
    out: &mut Handle,
) -> u32
    ensures { MakesColumn result out.old.tree out.new.tree
        (of_fixed_size_list (held_type child.now.tree) width) (block_rows width len
        (held_rows child.now.tree) (validity_over validity.now.buffer first len))
        ((no_column, HasColumn child.now.tree)
        ∷ (too_deep, depth (held_type child.now.tree) < 128)
        ∷ (unsupported_type, may_be_validity validity.now.buffer ≡ true) ∷ [])
        (block_rules_over width len (held_count child.now.tree) validity.now.buffer first) }
{
    fixed_size_list_over(alloc, width, len, child, validity, first, out)
}

/// Stores in `out` the struct column of `len` rows over columns, whose buffers it shares. Its
/// validity is the bits of `validity` from bit `first` on.
///
/// Errors: `UNSUPPORTED_TYPE` if `validity` has another buffer than a bitmap; `NO_COLUMN` if a
/// field is empty; `TOO_DEEP` if one has 128 levels; `VALIDITY_LENGTH`; `TOO_MANY_ROWS`,
/// `FIELD_LENGTH`; `OUT_OF_MEMORY`. On error `out` is unchanged.
#[unsafe(no_mangle)]
pub extern "C" fn sel_struct_over(
    alloc: Global,
    len: usize,
    fields: &[ColumnRef],
    validity: &BufferRef,
    first: usize,
    out: &mut Handle,
) -> u32
    ensures { MakesColumn result out.old.tree out.new.tree
        (of_struct (shapes_of (map (λ field. held_type field.tree) fields.now)))
        (struct_rows len (map (λ field. held_rows field.tree) fields.now)
        (validity_over validity.now.buffer first len))
        ((unsupported_type, may_be_validity validity.now.buffer ≡ true)
        ∷ (no_column, All (λ field. HasColumn field.tree) fields.now)
        ∷ (
          too_deep,
          deepest (shapes_of (map (λ field. held_type field.tree) fields.now)) < 128,
        ) ∷ [])
        (struct_rules_over len (map (λ field. held_count field.tree) fields.now)
        validity.now.buffer first) }
{
    struct_over(alloc, len, fields, validity, first, out)
}

/// Stores in `out` the binary view column of a buffer of views and of data buffers. Its validity is
/// the bits of `validity` from bit `first` on.
///
/// Errors: `UNSUPPORTED_TYPE` if a handle has another buffer; `VALIDITY_LENGTH`; `TOO_MANY_ROWS`,
/// `TOO_MANY_BUFFERS`, `VIEW_RANGE`, `VIEW_PREFIX`; `OUT_OF_MEMORY`. On error `out` is unchanged.
#[unsafe(no_mangle)]
pub extern "C" fn sel_binary_views_over(
    alloc: Global,
    views: &BufferRef,
    buffers: &[BufferRef],
    validity: &BufferRef,
    first: usize,
    out: &mut Handle,
) -> u32
    ensures { MakesColumn result out.old.tree out.new.tree of_binary_view
        (view_rows_over views.now.buffer (map (λ handle. bytes_of handle.buffer) buffers.now)
        validity.now.buffer first)
        (view_conditions views.now.buffer buffers.now validity.now.buffer)
        (binary_view_rules_over (views_of views.now.buffer)
        (map (λ handle. bytes_of handle.buffer) buffers.now) validity.now.buffer first) }
{
    binary_views_over(alloc, views, buffers, validity, first, out)
}

/// Stores in `out` the string view column of a buffer of views and of data buffers. Its validity is
/// the bits of `validity` from bit `first` on.
///
/// Errors: `UNSUPPORTED_TYPE` if a handle has another buffer; `VALIDITY_LENGTH`; `TOO_MANY_ROWS`,
/// `TOO_MANY_BUFFERS`, `VIEW_RANGE`, `VIEW_PREFIX`, `INVALID_UTF8`; `OUT_OF_MEMORY`. On error `out`
/// is unchanged.
#[unsafe(no_mangle)]
pub extern "C" fn sel_string_views_over(
    alloc: Global,
    views: &BufferRef,
    buffers: &[BufferRef],
    validity: &BufferRef,
    first: usize,
    out: &mut Handle,
) -> u32
    ensures { MakesColumn result out.old.tree out.new.tree of_utf8_view
        (view_rows_over views.now.buffer (map (λ handle. bytes_of handle.buffer) buffers.now)
        validity.now.buffer first)
        (view_conditions views.now.buffer buffers.now validity.now.buffer)
        (string_view_rules_over (views_of views.now.buffer)
        (map (λ handle. bytes_of handle.buffer) buffers.now) validity.now.buffer first) }
{
    string_views_over(alloc, views, buffers, validity, first, out)
}

/// Stores in `out` the validity of the column, and empties `out` if the column has none.
///
/// Errors: `NO_COLUMN` if the handle has no column; `OUT_OF_MEMORY`. On error `out` is unchanged.
#[unsafe(no_mangle)]
pub extern "C" fn sel_validity_of(alloc: Global, of: &ColumnRef, out: &mut BufferHandle) -> u32
    ensures { SharesValidity result of.now.tree out.old.buffer out.new.buffer }
{
    validity_of(alloc, of, out)
}

/// Stores in `out` the values of the column, also those in null slots: bits, integers or views.
///
/// Errors: `NO_COLUMN` if the handle has no column; `UNSUPPORTED_TYPE` if the type has no such
/// buffer; `OUT_OF_MEMORY`. On error `out` is unchanged.
#[unsafe(no_mangle)]
pub extern "C" fn sel_values_of(alloc: Global, of: &ColumnRef, out: &mut BufferHandle) -> u32
    ensures { SharesPart result of.now.tree (of_column values_in of.now.tree)
        out.old.buffer out.new.buffer }
{
    values_of(alloc, of, out)
}

/// Stores in `out` the offsets of the column.
///
/// Errors: `NO_COLUMN` if the handle has no column; `UNSUPPORTED_TYPE` if it is neither binary nor
/// a list with 64-bit offsets; `OUT_OF_MEMORY`. On error `out` is unchanged.
#[unsafe(no_mangle)]
pub extern "C" fn sel_offsets_of(alloc: Global, of: &ColumnRef, out: &mut BufferHandle) -> u32
    ensures { SharesPart result of.now.tree (of_column offsets_in of.now.tree)
        out.old.buffer out.new.buffer }
{
    offsets_of(alloc, of, out)
}

/// Stores in `out` the bytes of the column, also those outside of all rows.
///
/// Errors: `NO_COLUMN` if the handle has no column; `UNSUPPORTED_TYPE` if it is not binary with
/// 64-bit offsets; `OUT_OF_MEMORY`. On error `out` is unchanged.
#[unsafe(no_mangle)]
pub extern "C" fn sel_bytes_of(alloc: Global, of: &ColumnRef, out: &mut BufferHandle) -> u32
    ensures { SharesPart result of.now.tree (of_column bytes_in of.now.tree)
        out.old.buffer out.new.buffer }
{
    bytes_of(alloc, of, out)
}

/// Stores in `out` data buffer `i` of a view column.
///
/// Errors: `NO_COLUMN` if the handle has no column; `UNSUPPORTED_TYPE` if it is not a view column;
/// `INDEX_OUT_OF_BOUNDS` if it has at most `i` data buffers; `OUT_OF_MEMORY`. On error `out` is
/// unchanged.
#[unsafe(no_mangle)]
pub extern "C" fn sel_data_of(
    alloc: Global,
    of: &ColumnRef,
    i: usize,
    out: &mut BufferHandle,
) -> u32
    ensures { SharesData result of.now.tree i out.old.buffer out.new.buffer }
{
    data_of(alloc, of, i, out)
}

/// Writes the address of the buffer, the number of its values, and the index of the first bit of a
/// bitmap in its first byte. The values are there, unchanged, as long as a handle shares them.
///
/// Errors: `NO_COLUMN` if the handle has no buffer; `UNSUPPORTED_TYPE` if the buffer is a
/// placeholder. On error nothing is written.
#[unsafe(no_mangle)]
pub extern "C" fn sel_buffer_show(
    of: &BufferRef,
    at: &mut *const u8,
    len: &mut usize,
    first: &mut usize,
) -> u32
    ensures buffer { ShowsBuffer result of.now.buffer len.old len.new first.old first.new }
    ensures at { result ≢ ok → at.new ≡ at.old }
{
    show(of, at, len, first)
}
