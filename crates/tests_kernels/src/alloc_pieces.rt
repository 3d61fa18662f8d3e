//! The parts of the kernels with failing allocations: data buffers, and if-then-else by words.

use polars_compute::if_then_else::if_then_else_validity;
use polars_compute::if_then_else::scalar::if_then_else_words;
use sel_bits::aligned_words::AlignedWords;
use sel_bits::bitmap::Bitmap;
use sel_bits::buffer::Buffer;
use sel_bits::faults::{PolarsError, PolarsResult};
use sel_gather::view::push_buffers;
use std::alloc::Global;
use std::test::Fail;
use tests_bits::fixtures::{both, buffer, has_bits, is_done, is_validity, same};
use tests_bits::marks::{begins, ends_by};

/// Returns whether the data buffers are the first one and those appended to it, or a prefix of
/// these.
fn are_joined(joined: &[Buffer<u8>], is_whole: bool) -> bool {
    match joined {
        [first] => !is_whole & same(first.as_slice(), &[1]),
        [first, second] => is_whole
            & same(first.as_slice(), &[1])
            & same(second.as_slice(), &[2, 3]),
        _ => false,
    }
}

/// Returns one data buffer of these bytes.
fn buffers_of(alloc: Global, bytes: &[u8]) -> PolarsResult<Vec<Buffer<u8>>> {
    let buffer = buffer(alloc, bytes)?;
    Ok(vec![in alloc; buffer]?)
}

#[test]
fn data_buffers_are_concatenated(rt: HostRuntime) -> Result<(), Fail> {
    let alloc = rt.alloc();
    let joined = buffers_of(alloc, &[1u8]);
    let (mut joined, others) = both(joined, buffers_of(alloc, &[2u8, 3]))?;
    begins(alloc);
    let answer = push_buffers(&mut joined, &others);
    ends_by(alloc, &answer);
    let is_joined = is_done(&answer) & are_joined(&joined, answer.is_ok());
    drop(joined);
    drop(others);
    assert!(rt; is_joined);
    Ok(())
}

/// Returns whether the validity of an if-then-else of no validity and these bits is right.
fn chooses_validity(alloc: Global, mask: &Bitmap, bits: &Bitmap) -> bool {
    if bits.len() != mask.len() {
        return false;
    }
    begins(alloc);
    let answer = if_then_else_validity(alloc, mask, None, Some(bits));
    ends_by(alloc, &answer);
    is_validity(answer, &[true, false])
}

#[test]
fn validity_of_if_then_else(rt: HostRuntime) -> Result<(), Fail> {
    let alloc = rt.alloc();
    let mask = Bitmap::from_bools(alloc, &[true, false]);
    let (mask, bits) = both(mask, Bitmap::from_bools(alloc, &[false, false]))?;
    assert!(rt; chooses_validity(alloc, &mask, &bits));
    assert!(rt; has_bits(&mask, &[true, false]) & has_bits(&bits, &[false, false]));
    Ok(())
}

/// Returns whether a call returned these numbers, or is out of memory.
fn are_numbers(answer: PolarsResult<Vec<u64>>, numbers: &[u64]) -> bool {
    match answer {
        Ok(chosen) => same(chosen.as_slice(), numbers),
        Err(fault) => fault == PolarsError::OutOfMemory,
    }
}

#[test]
fn values_of_if_then_else(rt: HostRuntime) -> Result<(), Fail> {
    let alloc = rt.alloc();
    let mask = Bitmap::from_bools(alloc, &[true, false, true])?;
    if mask.len() != 3 {
        return Err(Fail::from("another length"));
    }
    let mut words = AlignedWords::new(&mask);
    begins(alloc);
    let answer = if_then_else_words(alloc, &mut words, &[1u64, 2, 3], &[4, 5, 6]);
    ends_by(alloc, &answer);
    assert!(rt; are_numbers(answer, &[1, 5, 3]));
    Ok(())
}
