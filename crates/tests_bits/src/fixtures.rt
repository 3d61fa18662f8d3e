//! Shared by several files and crates: buffers of values, and bitmaps compared with bits.

use sel_bits::bitmap::Bitmap;
use sel_bits::buffer::Buffer;
use sel_bits::faults::{PolarsError, PolarsResult};
use std::alloc::Global;

/// Returns the values as a buffer.
pub fn buffer<T: Copy>(alloc: Global, values: &[T]) -> PolarsResult<Buffer<T>> {
    Buffer::from_vec(Vec::from_slice(alloc, values)?)
}

/// Returns whether two slices are equal.
pub fn same<T: PartialEq>(values: &[T], others: &[T]) -> bool {
    values == others
}

/// Returns two values, or the first error.
///
/// It is generic, so that the proof does not depend on how the values are dropped.
pub fn both<A: Drop, B: Drop>(
    first: PolarsResult<A>,
    second: PolarsResult<B>,
) -> PolarsResult<(A, B)> {
    Ok((first?, second?))
}

/// Returns whether the bitmap begins with these bits.
pub fn begins_with(bitmap: &Bitmap, bits: &[bool]) -> bool {
    if bitmap.len() < bits.len() {
        return false;
    }
    for (i, bit) in bits.iter().enumerate() {
        if bitmap.get_bit(i) != *bit {
            return false;
        }
    }
    true
}

/// Returns whether the bitmap has exactly these bits.
pub fn has_bits(bitmap: &Bitmap, bits: &[bool]) -> bool {
    bitmap.len() == bits.len() && begins_with(bitmap, bits)
}

/// Returns whether these bits are the validity.
pub fn has_validity(validity: &Option<Bitmap>, bits: &[bool]) -> bool {
    match validity {
        Some(validity) => has_bits(validity, bits),
        None => false,
    }
}

/// Returns whether a call succeeded, or is out of memory.
pub fn is_done(answer: &PolarsResult<()>) -> bool {
    match answer {
        Ok(()) => true,
        Err(fault) => *fault == PolarsError::OutOfMemory,
    }
}

/// Returns whether a call returned these bits as a validity, or is out of memory.
pub fn is_validity(answer: PolarsResult<Option<Bitmap>>, bits: &[bool]) -> bool {
    match answer {
        Ok(validity) => has_validity(&validity, bits),
        Err(fault) => fault == PolarsError::OutOfMemory,
    }
}
