//! Memory lent to buffers and given back.

ghost use Rattle.std.specs.Prelude.{◌≡◌, ◌≤◌, ◌*◌, ◌<◌, ◌^◌, length, Some, None, IfSome, IfNone};
ghost use Rattle.sel_bits.specs.Bits.{bits_from, unsliced};
ghost use Rattle.sel_ffi.specs.Buffers.{IsBitsOf, IsPartOf};
ghost use Rattle.sel_ffi.specs.declared.shared_buffer.SharedBuffer.TheVariants.{Bits};

use crate::buffer_handle::BufferHandle;
use crate::lendable::Lendable;
use crate::shared_buffer::SharedBuffer;
use sel_bits::bitmap::Bitmap;
use sel_bits::buffer::Buffer;
use sel_bits::lent::Lent;
use std::alloc::Global;
use std::mem::replace;

/// Stores a buffer in `out`, in the memory of `place`, and frees the one that `out` had.
fn put(out: &mut BufferHandle, mut place: Box<SharedBuffer>, buffer: SharedBuffer)
    ensures { out.new.buffer ≡ Some buffer }
{
    *place = buffer;
    *out = BufferHandle::of(place);
}

/// Stores a buffer of the values in `out`, without a copy, and frees the one that `out` had.
///
/// Returns the values if an allocation fails; then `out` is unchanged.
pub fn lend<T: Lendable>(alloc: Global, values: Lent<T>, out: &mut BufferHandle) -> Option<Lent<T>>
    ensures buffer { IfNone result (out.new.buffer ≡ Some (T.shared values.items)) }
    ensures values { IfSome result (λ lent. lent.items ≡ values.items) }
    ensures unchanged { IfSome result (λ _. out.new.buffer ≡ out.old.buffer) }
{
    let Ok(place) = Box::new(alloc, SharedBuffer::Empty) else {
        return Some(values);
    };
    match Buffer::from_lent(alloc, values) {
        Ok(buffer) => {
            put(out, place, T::share(buffer));
            None
        }
        Err(lent) => {
            drop(place);
            Some(lent)
        }
    }
}

/// Takes the lent memory back from the buffer of a handle, which has none afterwards.
///
/// Returns none, and leaves the handle unchanged, if it has no buffer, or one of another element
/// type, or one of values that are not lent or have another owner.
pub fn give_back<T: Lendable>(alloc: Global, of: &mut BufferHandle) -> Option<Lent<T>>
    ensures values { IfSome result (λ lent. IsPartOf T.shared of.old.buffer lent.items) }
    ensures taken { IfSome result (λ _. of.new.buffer ≡ None) }
    ensures unchanged { IfNone result (of.new.buffer ≡ of.old.buffer) }
{
    let Some(mut place) = of.take(alloc) else {
        return None;
    };
    match T::unshare(replace(&mut *place, SharedBuffer::Empty)) {
        Ok(buffer) => match buffer.into_lent() {
            Ok(lent) => {
                drop(place);
                Some(lent)
            }
            Err(buffer) => {
                put(of, place, T::share(buffer));
                None
            }
        },
        Err(other) => {
            put(of, place, other);
            None
        }
    }
}

/// Stores a bitmap of the first `len` bits of the bytes in `out`, without a copy, and frees the
/// buffer that `out` had.
///
/// Returns the bytes if an allocation fails; then `out` is unchanged.
///
/// # Requires
/// The bytes have at least `len` bits.
pub fn lend_bits(
    alloc: Global,
    bytes: Lent<u8>,
    len: usize,
    out: &mut BufferHandle,
) -> Option<Lent<u8>>
    requires { len ≤ 8 * length bytes.items }
    ensures buffer { IfNone result
        (out.new.buffer ≡ Some (Bits (unsliced (bits_from bytes.items 0 len)))) }
    ensures values { IfSome result (λ lent. lent.items ≡ bytes.items) }
    ensures unchanged { IfSome result (λ _. out.new.buffer ≡ out.old.buffer) }
{
    let Ok(place) = Box::new(alloc, SharedBuffer::Empty) else {
        return Some(bytes);
    };
    match Bitmap::from_lent(alloc, bytes, 0, len) {
        Ok(bits) => {
            put(out, place, SharedBuffer::Bits(bits));
            None
        }
        Err(lent) => {
            drop(place);
            Some(lent)
        }
    }
}

/// Takes the lent bytes back from the bitmap of a handle, which has none afterwards.
///
/// Returns none, and leaves the handle unchanged, if it has no bitmap, or one of bytes that are not
/// lent or have another owner.
pub fn give_back_bits(alloc: Global, of: &mut BufferHandle) -> Option<Lent<u8>>
    ensures bits { IfSome result (λ lent. IsBitsOf of.old.buffer lent.items) }
    ensures taken { IfSome result (λ _. of.new.buffer ≡ None) }
    ensures unchanged { IfNone result (of.new.buffer ≡ of.old.buffer) }
{
    let Some(mut place) = of.take(alloc) else {
        return None;
    };
    match replace(&mut *place, SharedBuffer::Empty) {
        SharedBuffer::Bits(bits) => match bits.into_lent() {
            Ok(lent) => {
                drop(place);
                Some(lent)
            }
            Err(bits) => {
                put(of, place, SharedBuffer::Bits(bits));
                None
            }
        },
        other => {
            put(of, place, other);
            None
        }
    }
}
