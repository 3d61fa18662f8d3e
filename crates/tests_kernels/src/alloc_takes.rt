//! Takes of bits, of blocks, and of binary columns by other index and offset types, with failing
//! allocations.

use crate::masks::made;
use polars_compute::gather::bitmap::{take_bitmap_nulls_unchecked, take_bitmap_unchecked};
use polars_compute::gather::{
    binary, blocks_in_bounds, idx_slice_in_bounds, indices_in_bounds, indices_in_bounds_of,
    take_blocks,
};
use sel_arrow::array::Array;
use sel_arrow::binary::BinaryArray;
use sel_arrow::primitive::{IdxArr, PrimitiveArray};
use sel_bits::bitmap::Bitmap;
use sel_bits::block_copy::BlockCopy;
use sel_bits::buffer::Buffer;
use sel_bits::faults::{PolarsError, PolarsResult};
use sel_bits::native::{Index, NativeType, Offset};
use sel_bits::offsets::OffsetsBuffer;
use std::alloc::Global;
use std::test::Fail;
use tests_bits::column_fixtures::{column, has_bytes, validity};
use tests_bits::fixtures::{both, buffer, has_bits, same};
use tests_bits::marks::{begins, ends_by};

/// Returns the indices of the takes of bits; the null one has the greatest number in its slot.
fn indices(alloc: Global) -> Result<IdxArr, Fail> {
    column(alloc, &[Some(4u32), None, Some(0), Some(1)], u32::MAX)
}

/// Returns whether a call returned these bits, or is out of memory.
fn are_bits(found: PolarsResult<Bitmap>, bits: &[bool]) -> bool {
    match found {
        Ok(bitmap) => has_bits(&bitmap, bits),
        Err(error) => error == PolarsError::OutOfMemory,
    }
}

/// Returns whether a call returned these bytes, or is out of memory.
fn are_bytes<O: Offset + Drop>(
    answer: PolarsResult<BinaryArray<O>>,
    rows: &[Option<&[u8]>],
) -> bool {
    match answer {
        Ok(taken) => {
            let are_so = has_bytes(&taken, rows);
            drop(taken);
            are_so
        }
        Err(fault) => fault == PolarsError::OutOfMemory,
    }
}

/// Converts numbers that every type can represent.
fn of_type<T: NativeType>(alloc: Global, numbers: &[usize]) -> PolarsResult<Vec<T>> {
    let mut found = Vec::with_capacity(alloc, numbers.len())?;
    for number in numbers {
        if let Some(number) = T::from_usize(*number) {
            found.push(number)?;
        }
    }
    Ok(found)
}

/// A row that is longer than what one copy of a constant size moves.
const LONG: [u8; 17] = [7; 17];

/// The bytes of the rows below.
const BYTES: [u8; 24] = [
    9, 9, 9, 2, 2, 0, 7, 7, 7, 7, 7, 7, 7, 7, 7, 7, 7, 7, 7, 7, 7, 7, 7, 1,
];

/// Returns the rows of two bytes, a null with one byte in its slot, no bytes, 17 bytes, and one
/// byte. The first offset is 3, as in a slice.
fn five_rows<O: Offset>(alloc: Global) -> Result<BinaryArray<O>, Fail> {
    let offsets = OffsetsBuffer::try_from(of_type(alloc, &[3, 5, 6, 6, 23, 24])?);
    let bytes = buffer(alloc, &BYTES);
    let parts = both(bytes, validity(alloc, &[true, false, true, true, true]));
    let (offsets, (bytes, validity)) = both(made(offsets), parts)?;
    Ok(BinaryArray::try_new(offsets, bytes, validity)?)
}

/// Returns the indices null, 4, 3, 2, 0, 1 and 3.
fn seven_places<I: Index>(alloc: Global) -> Result<PrimitiveArray<I>, Fail> {
    let places = Buffer::from_vec(of_type(alloc, &[0, 4, 3, 2, 0, 1, 3])?);
    let validity = validity(alloc, &[false, true, true, true, true, true, true]);
    let (places, validity) = both(places, validity)?;
    Ok(PrimitiveArray::try_new(places, validity)?)
}

fn takes_bytes<O: Offset + Drop, I: Index + Drop>(
    alloc: Global,
    values: &BinaryArray<O>,
) -> Result<bool, Fail> {
    let places = seven_places::<I>(alloc)?;
    if !indices_in_bounds_of(&places, values.len()) {
        drop(places);
        return Err(Fail::from("out of bounds"));
    }
    begins(alloc);
    let answer = binary::take_unchecked(alloc, values, &places);
    ends_by(alloc, &answer);
    drop(places);
    let rows: [Option<&[u8]>; 5] = [Some(&[2, 2]), None, Some(&[]), Some(&LONG), Some(&[1])];
    let taken = [None, rows[4], rows[3], rows[2], rows[0], rows[1], rows[3]];
    Ok(are_bytes(answer, &taken) & has_bytes(values, &rows))
}

// Takes rows by signed and by unsigned indices.
fn takes_by_both<O: Offset + Drop>(alloc: Global, values: &BinaryArray<O>) -> Result<bool, Fail> {
    Ok(takes_bytes::<O, i8>(alloc, values)? && takes_bytes::<O, u64>(alloc, values)?)
}

fn takes_all_bytes<O: Offset + Drop>(alloc: Global) -> Result<bool, Fail> {
    let values = five_rows::<O>(alloc)?;
    let are_taken = takes_by_both(alloc, &values);
    drop(values);
    are_taken
}

#[test]
fn take_of_binary_by_signed_and_unsigned_indices(rt: HostRuntime) -> Result<(), Fail> {
    assert!(rt; takes_all_bytes::<i32>(rt.alloc())?);
    assert!(rt; takes_all_bytes::<i64>(rt.alloc())?);
    Ok(())
}

const BITS: [bool; 5] = [true, true, false, true, false];

fn takes_bits(alloc: Global, values: &Bitmap) -> Result<bool, Fail> {
    let places = indices(alloc)?;
    if !indices_in_bounds(&places, values.len()) || !idx_slice_in_bounds(&[4, 0, 1], values.len()) {
        drop(places);
        return Err(Fail::from("out of bounds"));
    }
    begins(alloc);
    let answer = take_bitmap_unchecked(alloc, values, &[4, 0, 1]);
    ends_by(alloc, &answer);
    begins(alloc);
    let others = take_bitmap_nulls_unchecked(alloc, values, &places);
    ends_by(alloc, &others);
    drop(places);
    let are_taken = are_bits(answer, &[false, true, true]);
    Ok(are_taken & are_bits(others, &[false, true, true, true]) & has_bits(values, &BITS))
}

#[test]
fn take_of_bits(rt: HostRuntime) -> Result<(), Fail> {
    let values = Bitmap::from_bools(rt.alloc(), &BITS)?;
    assert!(rt; takes_bits(rt.alloc(), &values)?);
    Ok(())
}

/// The result of the take of blocks below.
const ITEMS: [i64; 6] = [4, 5, 6, 0, 0, 0];

/// Returns whether the blocks of a source are copied, or a prefix of them if the call is out of
/// memory.
fn takes_blocks(alloc: Global) -> Result<bool, Fail> {
    let source = [1i64, 2, 3, 4, 5, 6];
    let places = column(alloc, &[Some(1u32), None], 9)?;
    if !blocks_in_bounds(&places, 3, source.len()) {
        drop(places);
        return Err(Fail::from("out of bounds"));
    }
    let mut out = BlockCopy::new(alloc, source.as_slice());
    begins(alloc);
    let answer = take_blocks(&mut out, 3, &places, 0);
    ends_by(alloc, &answer);
    drop(places);
    let copies = out.copies();
    let items = out.into_vec();
    Ok(match answer {
        Ok(()) => (copies == 2) & same(items.as_slice(), &ITEMS),
        Err(fault) => (fault == PolarsError::OutOfMemory) & begins_items(&items),
    })
}

/// Returns whether these are fewer items, and a prefix of those above.
fn begins_items(items: &[i64]) -> bool {
    items.len() < ITEMS.len() && same(items, &ITEMS[..items.len()])
}

#[test]
fn take_of_blocks(rt: HostRuntime) -> Result<(), Fail> {
    assert!(rt; takes_blocks(rt.alloc())?);
    Ok(())
}
