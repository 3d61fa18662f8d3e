//! The buffers of columns, shared without a copy.

ghost use Rattle.std.specs.Prelude.{◌≡◌, ◌≢◌, ◌≤◌, ◌<◌, Some, slice_index_or, [], ◌∷◌, length, map, pos};
ghost use Rattle.sel_ffi.specs.Status.{ok, out_of_memory, index_out_of_bounds, ReturnsFirst};
ghost use Rattle.sel_ffi.specs.Buffers.{bytes_in, of_column, offsets_in, values_in};
ghost use Rattle.sel_ffi.specs.BufferParts.{SharesData, SharesPart, SharesValidity};
ghost use Rattle.sel_ffi.specs.declared.shared_buffer.SharedBuffer.TheVariants.{Bits, Int64, UInt8};

use crate::buffer_handle::BufferHandle;
use crate::column_ref::ColumnRef;
use crate::lendable::Lendable;
use crate::shared_buffer::SharedBuffer;
use crate::status::{INDEX_OUT_OF_BOUNDS, NO_COLUMN, OK, OUT_OF_MEMORY, UNSUPPORTED_TYPE};
use sel_arrow::array::Array;
use sel_arrow::column::Column;
use sel_bits::bitmap::Bitmap;
use sel_bits::buffer::Buffer;
use sel_bits::offsets::OffsetsBuffer;
use std::alloc::Global;

/// Stores the buffer in `out`, and frees the one that `out` had.
///
/// Errors: `OUT_OF_MEMORY`; then `out` is unchanged.
fn put_buffer(alloc: Global, buffer: SharedBuffer, out: &mut BufferHandle) -> u32
    ensures buffer { result ≡ ok → out.new.buffer ≡ Some buffer }
    ensures unchanged { result ≢ ok → out.new.buffer ≡ out.old.buffer }
    ensures status { result ≤ out_of_memory }
{
    match Box::new(alloc, buffer) {
        Ok(boxed) => {
            *out = BufferHandle::of(boxed);
            OK
        }
        Err(_) => OUT_OF_MEMORY,
    }
}

/// Stores in `out` one more owner of the values.
fn put_values<T: Lendable>(alloc: Global, values: &Buffer<T>, out: &mut BufferHandle) -> u32
    ensures buffer { result ≡ ok → out.new.buffer ≡ Some (T.shared values.now) }
    ensures unchanged { result ≢ ok → out.new.buffer ≡ out.old.buffer }
    ensures status { result ≤ out_of_memory }
{
    match values.try_clone() {
        Ok(values) => put_buffer(alloc, T::share(values), out),
        Err(_) => OUT_OF_MEMORY,
    }
}

/// Stores in `out` one more owner of the bits.
fn put_bits(alloc: Global, bits: &Bitmap, out: &mut BufferHandle) -> u32
    ensures buffer { result ≡ ok → out.new.buffer ≡ Some (Bits bits.now) }
    ensures unchanged { result ≢ ok → out.new.buffer ≡ out.old.buffer }
    ensures status { result ≤ out_of_memory }
{
    match bits.try_clone() {
        Ok(bits) => put_buffer(alloc, SharedBuffer::Bits(bits), out),
        Err(_) => OUT_OF_MEMORY,
    }
}

/// Stores in `out` one more owner of the offsets.
fn put_offsets(alloc: Global, offsets: &OffsetsBuffer<i64>, out: &mut BufferHandle) -> u32
    ensures buffer { result ≡ ok → out.new.buffer ≡ Some (Int64 (map pos offsets.now)) }
    ensures unchanged { result ≢ ok → out.new.buffer ≡ out.old.buffer }
    ensures status { result ≤ out_of_memory }
{
    match offsets.to_buffer() {
        Ok(values) => put_buffer(alloc, SharedBuffer::Int64(values), out),
        Err(_) => OUT_OF_MEMORY,
    }
}

/// Stores in `out` the validity of the column, and empties `out` if the column has none.
///
/// Errors: `NO_COLUMN` if the handle has no column; `OUT_OF_MEMORY`. On error `out` is unchanged.
pub fn validity_of(alloc: Global, of: &ColumnRef, out: &mut BufferHandle) -> u32
    ensures { SharesValidity result of.now.tree out.old.buffer out.new.buffer }
{
    let Some(column) = of.column() else {
        return NO_COLUMN;
    };
    match column.validity() {
        None => {
            *out = BufferHandle::empty(alloc);
            OK
        }
        Some(bits) => put_bits(alloc, bits, out),
    }
}

/// Stores in `out` the values of the column, also those in null slots: bits, integers or views.
///
/// Errors: `NO_COLUMN` if the handle has no column; `UNSUPPORTED_TYPE` if the type has no such
/// buffer; `OUT_OF_MEMORY`. On error `out` is unchanged.
pub fn values_of(alloc: Global, of: &ColumnRef, out: &mut BufferHandle) -> u32
    ensures { SharesPart result of.now.tree (of_column values_in of.now.tree)
        out.old.buffer out.new.buffer }
{
    let Some(column) = of.column() else {
        return NO_COLUMN;
    };
    match column.as_column() {
        Column::Boolean(array) => put_bits(alloc, array.values(), out),
        Column::Int8(array) => put_values(alloc, array.values(), out),
        Column::Int16(array) => put_values(alloc, array.values(), out),
        Column::Int32(array) => put_values(alloc, array.values(), out),
        Column::Int64(array) => put_values(alloc, array.values(), out),
        Column::UInt8(array) => put_values(alloc, array.values(), out),
        Column::UInt16(array) => put_values(alloc, array.values(), out),
        Column::UInt32(array) => put_values(alloc, array.values(), out),
        Column::UInt64(array) => put_values(alloc, array.values(), out),
        Column::BinaryView(array) => put_values(alloc, array.views(), out),
        Column::Utf8View(array) => put_values(alloc, array.views(), out),
        _ => UNSUPPORTED_TYPE,
    }
}

/// Stores in `out` the offsets of the column.
///
/// Errors: `NO_COLUMN` if the handle has no column; `UNSUPPORTED_TYPE` if it is neither binary nor
/// a list with 64-bit offsets; `OUT_OF_MEMORY`. On error `out` is unchanged.
pub fn offsets_of(alloc: Global, of: &ColumnRef, out: &mut BufferHandle) -> u32
    ensures { SharesPart result of.now.tree (of_column offsets_in of.now.tree)
        out.old.buffer out.new.buffer }
{
    let Some(column) = of.column() else {
        return NO_COLUMN;
    };
    match column.as_column() {
        Column::LargeBinary(array) => put_offsets(alloc, array.offsets(), out),
        Column::LargeList { offsets, .. } => put_offsets(alloc, offsets, out),
        _ => UNSUPPORTED_TYPE,
    }
}

/// Stores in `out` the bytes of the column, also those outside of all rows.
///
/// Errors: `NO_COLUMN` if the handle has no column; `UNSUPPORTED_TYPE` if it is not binary with
/// 64-bit offsets; `OUT_OF_MEMORY`. On error `out` is unchanged.
pub fn bytes_of(alloc: Global, of: &ColumnRef, out: &mut BufferHandle) -> u32
    ensures { SharesPart result of.now.tree (of_column bytes_in of.now.tree)
        out.old.buffer out.new.buffer }
{
    let Some(column) = of.column() else {
        return NO_COLUMN;
    };
    match column.as_column() {
        Column::LargeBinary(array) => put_values(alloc, array.values(), out),
        _ => UNSUPPORTED_TYPE,
    }
}

/// Stores in `out` data buffer `i`.
fn put_data(alloc: Global, buffers: &[Buffer<u8>], i: usize, out: &mut BufferHandle) -> u32
    ensures buffer { result ≡ ok →
        out.new.buffer ≡ Some (UInt8 (slice_index_or buffers.now i [])) }
    ensures unchanged { result ≢ ok → out.new.buffer ≡ out.old.buffer }
    ensures checks { ReturnsFirst result
        ((index_out_of_bounds, i < length buffers.now) ∷ []) (result ≡ ok) }
{
    if i >= buffers.len() {
        return INDEX_OUT_OF_BOUNDS;
    }
    put_values(alloc, &buffers[i], out)
}

/// Stores in `out` data buffer `i` of a view column.
///
/// Errors: `NO_COLUMN` if the handle has no column; `UNSUPPORTED_TYPE` if it is not a view column;
/// `INDEX_OUT_OF_BOUNDS` if it has at most `i` data buffers; `OUT_OF_MEMORY`. On error `out` is
/// unchanged.
pub fn data_of(alloc: Global, of: &ColumnRef, i: usize, out: &mut BufferHandle) -> u32
    ensures { SharesData result of.now.tree i out.old.buffer out.new.buffer }
{
    let Some(column) = of.column() else {
        return NO_COLUMN;
    };
    match column.as_column() {
        Column::BinaryView(array) => put_data(alloc, array.data_buffers().as_slice(), i, out),
        Column::Utf8View(array) => put_data(alloc, array.data_buffers().as_slice(), i, out),
        _ => UNSUPPORTED_TYPE,
    }
}
