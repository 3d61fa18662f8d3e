//! Bounds of indices, and the limit of 32-bit offsets. (`alloc_takes` has takes of bits, of blocks,
//! and of binary columns.)

use crate::masks::made;
use polars_compute::gather::binary::take_unchecked;
use polars_compute::gather::{idx_slice_in_bounds, indices_in_bounds, indices_in_bounds_of};
use sel_arrow::array::Array;
use sel_arrow::binary::BinaryArray;
use sel_arrow::primitive::{IdxArr, PrimitiveArray};
use sel_bits::bitmap::Bitmap;
use sel_bits::buffer::Buffer;
use sel_bits::faults::{Limit, PolarsError};
use sel_bits::native::Index;
use sel_bits::offsets::OffsetsBuffer;
use std::alloc::Global;
use std::test::Fail;
use tests_bits::column_fixtures::{numbers, validity};
use tests_bits::fixtures::both;

// Returns one row of 65,536 bytes.
fn long_row(alloc: Global) -> Result<BinaryArray<i32>, Fail> {
    let offsets = made(OffsetsBuffer::try_from(Vec::from_slice(alloc, &[0i32, 65_536])?));
    let bytes = Buffer::from_vec(vec![in alloc; 97u8; 65_536]?);
    let (offsets, (bytes, validity)) = both(offsets, both(bytes, validity(alloc, &[true])))?;
    Ok(BinaryArray::try_new(offsets, bytes, validity)?)
}

// Takes this row `count` times; returns the number of nulls, or none if the limit of bytes is
// exceeded.
fn repeated(alloc: Global, column: &BinaryArray<i32>, count: usize) -> Result<Option<usize>, Fail> {
    let indices = zeros(alloc, count)?;
    if !indices_in_bounds_of(&indices, column.len()) {
        drop(indices);
        return Err(Fail::from("out of bounds"));
    }
    let answer = take_unchecked(alloc, column, &indices);
    drop(indices);
    match answer {
        Ok(taken) => {
            let nulls = taken.null_count();
            drop(taken);
            Ok(Some(nulls))
        }
        Err(PolarsError::SizeLimit(Limit::Bytes)) => Ok(None),
        Err(_) => Err(Fail::from("another refusal")),
    }
}

// Returns zeros as indices.
fn zeros(alloc: Global, count: usize) -> Result<IdxArr, Fail> {
    let numbers = vec![in alloc; 0u32; count]?;
    Ok(PrimitiveArray::try_new(Buffer::from_vec(numbers)?, None)?)
}

#[test]
fn take_of_binary_exceeds_byte_limit(rt: HostRuntime) -> Result<(), Fail> {
    let alloc = rt.alloc();
    let column = long_row(alloc)?;
    let nulls = repeated(alloc, &column, 32_768);
    drop(column);
    assert!(rt; nulls?.is_none());
    Ok(())
}

#[test]
fn null_rows_need_no_bytes(rt: HostRuntime) -> Result<(), Fail> {
    let alloc = rt.alloc();
    let null = Bitmap::from_bools(alloc, &[false])?;
    let column = long_row(alloc)?;
    assert!(rt; column.len() == 1 && null.len() == 1);
    let column = column.with_validity(Some(null));
    let nulls = repeated(alloc, &column, 32_768);
    drop(column);
    assert!(rt; nulls? == Some(32_768));
    Ok(())
}

#[test]
fn plain_indices_in_bounds(rt: HostRuntime) {
    assert!(rt; idx_slice_in_bounds(&[2, 0], 3) && !idx_slice_in_bounds(&[0, 3], 3));
    assert!(rt; idx_slice_in_bounds(&[], 0) && !idx_slice_in_bounds(&[0], 0));
    let places = [0, 1, 2, 3, 4, 5, 6, 7, 8];
    assert!(rt; idx_slice_in_bounds(&places, 9) && !idx_slice_in_bounds(&places, 8));
}

#[test]
fn stored_value_of_null_index_may_be_out_of_bounds(rt: HostRuntime) -> Result<(), Fail> {
    let indices = numbers(rt.alloc(), &[5u32, 9], &[true, false])?;
    let (inside, outside) = (
        indices_in_bounds(&indices, 6),
        indices_in_bounds(&indices, 5),
    );
    drop(indices);
    assert!(rt; inside && !outside);
    Ok(())
}

// Returns whether all indices are less than `len`.
fn are_within<I: Index + Drop>(
    alloc: Global,
    places: &[I],
    validity: &[bool],
    len: usize,
) -> Result<bool, Fail> {
    let indices = numbers(alloc, places, validity)?;
    let are_within = indices_in_bounds_of(&indices, len);
    drop(indices);
    Ok(are_within)
}

#[test]
fn signed_and_unsigned_indices_in_bounds(rt: HostRuntime) -> Result<(), Fail> {
    let alloc = rt.alloc();
    let signed: [(&[i8], &[bool], usize, bool); 4] = [
        (&[0, 127], &[true, true], 128, true),
        (&[0, 127], &[true, true], 127, false),
        (&[-1], &[true], 128, false),
        (&[-1], &[false], 0, true),
    ];
    for (places, validity, len, within) in signed {
        assert!(rt; are_within(alloc, places, validity, len)? == within);
    }
    let unsigned: [(&[u64], &[bool], usize, bool); 3] = [
        (&[0, 2], &[true, true], 3, true),
        (&[u64::MAX], &[true], 3, false),
        (&[u64::MAX], &[false], 3, true),
    ];
    for (places, validity, len, within) in unsigned {
        assert!(rt; are_within(alloc, places, validity, len)? == within);
    }
    Ok(())
}
