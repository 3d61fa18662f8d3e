//! The bytes of bitmaps and the offsets of lists as buffers, which share their memory.

use crate::fixtures::same;
use sel_bits::bitmap::Bitmap;
use sel_bits::buffer::Buffer;
use sel_bits::faults::{MakeError, Malformed, PolarsResult};
use sel_bits::offsets::OffsetsBuffer;
use std::alloc::Global;
use std::test::Fail;

/// Returns whether the bits 11 to 15 are in the second byte.
fn has_second_byte(part: &Bitmap) -> PolarsResult<bool> {
    let bytes = part.to_buffer()?;
    Ok(same(bytes.as_slice(), &[0x0F]))
}

#[test]
fn bitmap_to_buffer(rt: HostRuntime) -> Result<(), Fail> {
    let bytes = [0xB4u8, 0x0F, 0xFF].to_vec(rt.alloc())?;
    let part = Bitmap::from_u8_vec(bytes, 24)?.sliced(11, 5);
    assert!(rt; has_second_byte(&part) == Ok(true));
    Ok(())
}

fn offsets_of(alloc: Global, numbers: &[i64]) -> Result<OffsetsBuffer<i64>, MakeError> {
    let Ok(numbers) = Vec::from_slice(alloc, numbers) else {
        return Err(MakeError::OutOfMemory);
    };
    match Buffer::from_vec(numbers) {
        Ok(buffer) => OffsetsBuffer::try_from_buffer(buffer),
        Err(_) => Err(MakeError::OutOfMemory),
    }
}

/// Returns whether the offsets come back as they were given.
fn come_back(alloc: Global, numbers: &[i64]) -> Result<bool, MakeError> {
    let offsets = offsets_of(alloc, numbers)?;
    match offsets.to_buffer() {
        Ok(buffer) => Ok(same(buffer.as_slice(), numbers)),
        Err(_) => Err(MakeError::OutOfMemory),
    }
}

/// Returns whether the offsets break this rule first.
fn break_rule(alloc: Global, numbers: &[i64], rule: Malformed) -> bool {
    match offsets_of(alloc, numbers) {
        Err(MakeError::Malformed(broken)) => broken == rule,
        _ => false,
    }
}

#[test]
fn offsets_through_buffers(rt: HostRuntime) {
    let alloc = rt.alloc();
    assert!(rt; come_back(alloc, &[0, 2, 2, 5]) == Ok(true));
    assert!(rt; break_rule(alloc, &[], Malformed::OffsetCount));
    assert!(rt; break_rule(alloc, &[0, -1], Malformed::OffsetNegative));
    assert!(rt; break_rule(alloc, &[0, 3, 2], Malformed::OffsetOrder));
}
