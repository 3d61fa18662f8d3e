//! Bitmaps, buffers and offsets with failing allocations: their constructors, their operations and
//! the packer.

ghost use Rattle.std.specs.Prelude.{◌≡◌, length};

use crate::column_fixtures::offsets;
use crate::fixtures::{has_bits, same};
use crate::marks::{begins, begins_free, ends, ends_answered, ends_by};
use sel_bits::bitmap::Bitmap;
use sel_bits::bits_behind::BitsBehind;
use sel_bits::buffer::Buffer;
use sel_bits::faults::{MakeError, PolarsError, PolarsResult};
use sel_bits::offsets::OffsetsBuffer;
use sel_bits::packer::BitPacker;
use std::alloc::Global;
use std::test::Fail;

/// Returns whether a call returned these bits, or is out of memory.
pub fn are_bits(answer: PolarsResult<Bitmap>, bits: &[bool]) -> bool {
    match answer {
        Ok(bitmap) => has_bits(&bitmap, bits),
        Err(fault) => fault == PolarsError::OutOfMemory,
    }
}

#[test]
fn bitmap_constructors(rt: HostRuntime) {
    let alloc = rt.alloc();
    let bits = [true, false, false, true, true, false, false, true, true];
    begins(alloc);
    let answer = Bitmap::new(alloc);
    ends_by(alloc, &answer);
    assert!(rt; are_bits(answer, &[]));
    begins(alloc);
    let answer = Bitmap::new_with_value(alloc, true, 9);
    ends_by(alloc, &answer);
    assert!(rt; are_bits(answer, &[true; 9]));
    begins(alloc);
    let answer = Bitmap::new_zeroed(alloc, 3);
    ends_by(alloc, &answer);
    assert!(rt; are_bits(answer, &[false; 3]));
    begins(alloc);
    let answer = Bitmap::from_bools(alloc, &bits);
    ends_by(alloc, &answer);
    assert!(rt; are_bits(answer, &bits));
}

fn takes_bytes(alloc: Global, bytes: Vec<u8>) -> bool {
    if bytes.len() != 1 {
        return false;
    }
    begins(alloc);
    let answer = Bitmap::from_u8_vec(bytes, 4);
    ends_by(alloc, &answer);
    are_bits(answer, &[true, false, true, false])
}

#[test]
fn bitmap_from_bytes(rt: HostRuntime) -> Result<(), Fail> {
    assert!(rt; takes_bytes(rt.alloc(), vec![in rt.alloc(); 0b101u8]?));
    Ok(())
}

const FIRST: [bool; 4] = [true, true, false, false];

const SECOND: [bool; 4] = [true, false, true, false];

/// The operations on two bitmaps, each with its result for the bits above.
#[derive(Clone, Copy)]
enum Operation {
    And,
    Or,
    AndNot,
    OrNot,
    Not,
    Choose,
}

const OPERATIONS: [(&str, Operation, [bool; 4]); 6] = [
    ("and", Operation::And, [true, false, false, false]),
    ("or", Operation::Or, [true, true, true, false]),
    ("and_not", Operation::AndNot, [false, true, false, false]),
    ("or_not", Operation::OrNot, [true, true, false, true]),
    ("not", Operation::Not, [false, false, true, true]),
    ("choose", Operation::Choose, [true, true, true, false]),
];

/// Returns the result of an operation.
fn joined(
    alloc: Global,
    operation: Operation,
    first: &Bitmap,
    second: &Bitmap,
) -> PolarsResult<Bitmap>
    requires { length first.now.bits ≡ length second.now.bits }
{
    match operation {
        Operation::And => first.and(alloc, second),
        Operation::Or => first.or(alloc, second),
        Operation::AndNot => first.and_not(alloc, second),
        Operation::OrNot => first.or_not(alloc, second),
        Operation::Not => first.not(alloc),
        Operation::Choose => Bitmap::choose(alloc, first, first, second),
    }
}

/// Returns whether an operation returns these bits or is out of memory, and leaves both bitmaps
/// unchanged.
fn operates(
    alloc: Global,
    operation: Operation,
    first: &Bitmap,
    second: &Bitmap,
    bits: &[bool],
) -> bool {
    if first.len() != second.len() {
        return false;
    }
    begins(alloc);
    let answer = joined(alloc, operation, first, second);
    ends_by(alloc, &answer);
    are_bits(answer, bits) & has_bits(first, &FIRST) & has_bits(second, &SECOND)
}

/// Returns the name of the first operation that returns other bits, or nothing.
fn wrong_operation(alloc: Global, first: &Bitmap, second: &Bitmap) -> &'static str {
    for (name, operation, bits) in OPERATIONS {
        if !operates(alloc, operation, first, second, &bits) {
            return name;
        }
    }
    ""
}

#[test]
fn bitmap_operations(rt: HostRuntime) -> Result<(), Fail> {
    let first = Bitmap::from_bools(rt.alloc(), &FIRST)?;
    let second = Bitmap::from_bools(rt.alloc(), &SECOND)?;
    let wrong = wrong_operation(rt.alloc(), &first, &second);
    assert!(rt; wrong.is_empty(), "{wrong}");
    Ok(())
}

/// Returns whether a call returned these values, or is out of memory.
fn are_values(answer: PolarsResult<Buffer<u16>>, values: &[u16]) -> bool {
    match answer {
        Ok(buffer) => same(buffer.as_slice(), values),
        Err(fault) => fault == PolarsError::OutOfMemory,
    }
}

#[test]
fn buffer_from_vec(rt: HostRuntime) -> Result<(), Fail> {
    let alloc = rt.alloc();
    let values = vec![in alloc; 7u16, 8, 9]?;
    begins(alloc);
    let answer = Buffer::from_vec(values);
    ends_by(alloc, &answer);
    assert!(rt; are_values(answer, &[7, 8, 9]));
    Ok(())
}

/// Returns whether a call returned these offsets, or is out of memory.
fn are_offsets(answer: Result<OffsetsBuffer<i64>, MakeError>, offsets: &[i64]) -> bool {
    match answer {
        Ok(made) => same(made.as_slice(), offsets),
        Err(fault) => fault == MakeError::OutOfMemory,
    }
}

#[test]
fn offsets_from_vec(rt: HostRuntime) -> Result<(), Fail> {
    let alloc = rt.alloc();
    let values = vec![in alloc; 0i64, 2, 5]?;
    begins(alloc);
    let answer = OffsetsBuffer::try_from(values);
    ends(alloc, answer.is_err());
    assert!(rt; are_offsets(answer, &[0, 2, 5]));
    Ok(())
}

/// Returns whether a call returned the offsets 0, 0 and 7, or is out of memory.
fn are_rising(answer: PolarsResult<OffsetsBuffer<i64>>) -> bool {
    match answer {
        Ok(made) => same(made.as_slice(), &[0, 0, 7]),
        Err(fault) => fault == PolarsError::OutOfMemory,
    }
}

#[test]
fn offsets_from_rising_values(rt: HostRuntime) -> Result<(), Fail> {
    let alloc = rt.alloc();
    let values = Vec::from_array(alloc, [0i64, 0, 7])?;
    begins(alloc);
    let answer = OffsetsBuffer::of_rising(values);
    ends_by(alloc, &answer);
    assert!(rt; are_rising(answer));
    Ok(())
}

/// Returns whether a bitmap and a buffer are cloned without an allocation.
fn copies_freely(alloc: Global, bitmap: &Bitmap, buffer: &Buffer<u16>) -> bool {
    begins_free(alloc);
    let bits = bitmap.try_clone();
    let values = buffer.try_clone();
    ends_answered(alloc);
    bits.is_ok() & values.is_ok() & are_bits(bits, &FIRST) & are_values(values, &[7, 8])
}

/// Returns whether offsets are cloned without an allocation.
fn copies_offsets(alloc: Global, offsets: &OffsetsBuffer<i64>) -> bool {
    begins_free(alloc);
    let copy = offsets.try_clone();
    ends_answered(alloc);
    match copy {
        Ok(copy) => same(copy.as_slice(), &[0, 2]),
        Err(_) => false,
    }
}

#[test]
fn bitmap_and_buffer_clones_do_not_allocate(rt: HostRuntime) -> Result<(), Fail> {
    let bitmap = Bitmap::from_bools(rt.alloc(), &FIRST)?;
    let buffer = Buffer::from_vec(vec![in rt.alloc(); 7u16, 8]?)?;
    assert!(rt; copies_freely(rt.alloc(), &bitmap, &buffer));
    Ok(())
}

#[test]
fn offsets_clone_does_not_allocate(rt: HostRuntime) -> Result<(), Fail> {
    let offsets = offsets(rt.alloc(), &[0, 2])?;
    assert!(rt; copies_offsets(rt.alloc(), &offsets));
    Ok(())
}

/// Packs words of 56 and 50 bits, of which only the bits 0, 103 and 105 are true.
fn packs_words(alloc: Global) -> PolarsResult<Bitmap> {
    let mut packer = BitPacker::with_capacity(alloc, 0)?;
    packer.append(1, 56)?;
    packer.append(0b101 << 47, 50)?;
    packer.into_bitmap(106)
}

/// Packs three bits one by one.
fn packs_bits(alloc: Global) -> PolarsResult<Bitmap> {
    let mut packer = BitPacker::with_capacity(alloc, 3)?;
    packer.push(true)?;
    packer.push(false)?;
    packer.push(true)?;
    packer.into_bitmap(3)
}

/// Packs seventy equal bits.
fn packs_copies(alloc: Global) -> PolarsResult<Bitmap> {
    let mut packer = BitPacker::with_capacity(alloc, 0)?;
    packer.extend_constant(70, true)?;
    packer.into_bitmap(70)
}

/// Packs all bits but the first.
fn packs_part(alloc: Global, source: &Bitmap) -> PolarsResult<Bitmap> {
    let mut packer = BitPacker::with_capacity(alloc, 0)?;
    if source.len() != 4 {
        return Bitmap::new(alloc);
    }
    packer.extend_from_bitmap(source, 1, 3)?;
    packer.into_bitmap(3)
}

#[test]
fn packer_appends_words_and_bits(rt: HostRuntime) {
    let alloc = rt.alloc();
    begins(alloc);
    let answer = packs_words(alloc);
    ends_by(alloc, &answer);
    let mut bits = [false; 106];
    bits[0] = true;
    bits[103] = true;
    bits[105] = true;
    assert!(rt; are_bits(answer, &bits));
    begins(alloc);
    let answer = packs_bits(alloc);
    ends_by(alloc, &answer);
    assert!(rt; are_bits(answer, &[true, false, true]));
}

#[test]
fn packer_appends_repeated_bit(rt: HostRuntime) {
    let alloc = rt.alloc();
    begins(alloc);
    let answer = packs_copies(alloc);
    ends_by(alloc, &answer);
    assert!(rt; are_bits(answer, &[true; 70]));
}

#[test]
fn packer_appends_bitmap_slice(rt: HostRuntime) -> Result<(), Fail> {
    let source = Bitmap::from_bools(rt.alloc(), &FIRST)?;
    begins(rt.alloc());
    let answer = packs_part(rt.alloc(), &source);
    ends_by(rt.alloc(), &answer);
    assert!(rt; are_bits(answer, &[true, false, false]) && has_bits(&source, &FIRST));
    Ok(())
}

/// Builds two bits behind an offset.
fn builds_behind(alloc: Global) -> PolarsResult<Bitmap> {
    let mut offsets = Vec::with_capacity(alloc, 2)?;
    offsets.push(0i64)?;
    match BitsBehind::new(offsets) {
        Ok(mut bits) => {
            bits.append(0b01, 2)?;
            if bits.len() != Some(2) {
                return Err(PolarsError::ComputeError);
            }
            let (offset, bitmap) = bits.finish(alloc, 2)?;
            drop(offset);
            Ok(bitmap)
        }
        Err(_) => Bitmap::new(alloc),
    }
}

#[test]
fn bits_behind_an_offset(rt: HostRuntime) {
    let alloc = rt.alloc();
    begins(alloc);
    let answer = builds_behind(alloc);
    ends_by(alloc, &answer);
    assert!(rt; are_bits(answer, &[true, false]));
}
