//! The addresses of shared buffers.

ghost use Rattle.std.specs.Prelude.{◌≡◌, ◌≢◌, length};
ghost use Rattle.std.specs.Ptr.{as_ptr};
ghost use Rattle.sel_ffi.specs.Status.{ok};
ghost use Rattle.sel_ffi.specs.BufferParts.{ShowsBuffer};

use crate::buffer_ref::BufferRef;
use crate::shared_buffer::SharedBuffer;
use crate::status::{NO_COLUMN, OK, UNSUPPORTED_TYPE};
use sel_bits::buffer::Buffer;

/// Returns the address of the first value.
fn start_of<T>(values: &[T]) -> *const u8
    ensures { result ≡ as_ptr values.entry }
{
    values.as_ptr() as *const u8
}

/// Writes the address and the number of the values, and 0 as the index of the first bit.
fn show_values<T: Copy>(
    values: &Buffer<T>,
    at: &mut *const u8,
    len: &mut usize,
    first: &mut usize,
) -> u32
    ensures len { len.new ≡ length values.now }
    ensures first { first.new ≡ 0 }
    ensures status { result ≡ ok }
{
    let slice = values.as_slice();
    *at = start_of(slice);
    *len = slice.len();
    *first = 0;
    OK
}

/// Writes the address of the buffer, the number of its values, and the index of the first bit of a
/// bitmap in its first byte. The values are there, unchanged, as long as a handle shares them.
///
/// Errors: `NO_COLUMN` if the handle has no buffer; `UNSUPPORTED_TYPE` if the buffer is
/// [`SharedBuffer::Empty`]. On error nothing is written.
pub fn show(of: &BufferRef, at: &mut *const u8, len: &mut usize, first: &mut usize) -> u32
    ensures buffer { ShowsBuffer result of.now.buffer len.old len.new first.old first.new }
    ensures at { result ≢ ok → at.new ≡ at.old }
{
    let Some(shared) = of.shared() else {
        return NO_COLUMN;
    };
    match shared {
        SharedBuffer::Empty => UNSUPPORTED_TYPE,
        SharedBuffer::Bits(bits) => {
            let (bytes, shift, count) = bits.as_slice();
            *at = start_of(bytes);
            *len = count;
            *first = shift;
            OK
        }
        SharedBuffer::Int8(values) => show_values(values, at, len, first),
        SharedBuffer::Int16(values) => show_values(values, at, len, first),
        SharedBuffer::Int32(values) => show_values(values, at, len, first),
        SharedBuffer::Int64(values) => show_values(values, at, len, first),
        SharedBuffer::UInt8(values) => show_values(values, at, len, first),
        SharedBuffer::UInt16(values) => show_values(values, at, len, first),
        SharedBuffer::UInt32(values) => show_values(values, at, len, first),
        SharedBuffer::UInt64(values) => show_values(values, at, len, first),
        SharedBuffer::Views(values) => show_values(values, at, len, first),
    }
}
