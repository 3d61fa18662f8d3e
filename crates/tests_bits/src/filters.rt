//! Worked examples of the scalar filters, of filters of arrays, of the extraction of the bits of a
//! word under a mask, and of copies of blocks.

use crate::fixtures::same;
use sel_bits::bitmap::Bitmap;
use sel_bits::block_copy::BlockCopy;
use sel_bits::faults::PolarsResult;
use sel_filter::arrays::filter_arrays;
use sel_filter::boolean::pext64_polyfill;
use sel_filter::scalar::{scalar_filter, scalar_filter_offset};
use std::alloc::Global;
use std::test::Fail;

#[test]
fn pext_of_worked_examples(rt: HostRuntime) {
    let rows = [
        (0b10110100, 0b11001100, 4, 0b1001),
        (0b10110100, 0b11111000, 5, 0b10110),
        (u64::MAX, u64::MAX, 64, u64::MAX),
        (0x8000000000000001, 0xF00000000000000F, 8, 0x81),
        (0x8000000000000000, 0xAAAAAAAAAAAAAAAA, 32, 0x80000000),
        (0, 0, 0, 0),
    ];
    for (value, mask, count, packed) in rows {
        assert_eq!(rt; mask.count_ones(), count);
        assert_eq!(rt; pext64_polyfill(value, mask, mask.count_ones()), packed);
    }
}

#[test]
fn scalar_filter_by_mask_bytes(rt: HostRuntime) -> Result<(), Fail> {
    let mut values = [7u8; 65];
    values[2] = 2;
    values[5] = 5;
    values[64] = 64;
    let mut out = vec![in rt.alloc(); 0u8]?;
    scalar_filter(&values, &[0b100101, 0, 0, 0, 0, 0, 0, 0, 0xFF], &mut out)?;
    assert!(rt; same(out.as_slice(), &[0, 7, 2, 5, 64]));
    Ok(())
}

// Returns whether a mask without bits, at bit offset 3, selects no numbers and leaves none.
fn appends_nothing(alloc: Global) -> PolarsResult<bool> {
    let empty = Bitmap::from_bools(alloc, &[true; 8])?.sliced(3, 0);
    let none: [u32; 0] = [];
    let mut out = Vec::new(alloc);
    let (others, bytes) = scalar_filter_offset(&none, &empty, &mut out)?;
    Ok(out.is_empty() & others.is_empty() & bytes.is_empty())
}

#[test]
fn scalar_filter_offset_of_empty_mask(rt: HostRuntime) {
    assert!(rt; appends_nothing(rt.alloc()) == Ok(true));
}

#[test]
fn filter_arrays_keeps_whole_arrays(rt: HostRuntime) -> Result<(), Fail> {
    let arrays = [[1u8, 2, 3], [4, 5, 6], [7, 8, 9]];
    let mask = Bitmap::from_bools(rt.alloc(), &[true, false, true])?;
    if arrays.len() != mask.len() {
        return Err(Fail::from("lengths do not match"));
    }
    let kept = filter_arrays(rt.alloc(), &arrays, &mask, mask.set_bits())?;
    assert!(rt; same(kept.as_slice(), &[1, 2, 3, 7, 8, 9]));
    Ok(())
}

// Returns whether two values are copied and two filled in, each by one copy.
fn copies_and_fills(alloc: Global) -> PolarsResult<bool> {
    let source = [1u8, 2, 3];
    let mut out = BlockCopy::new(alloc, source.as_slice());
    out.copy(1, 2)?;
    out.fill(9, 2)?;
    Ok((out.copies() == 2) & same(out.into_vec().as_slice(), &[2, 3, 9, 9]))
}

#[test]
fn block_copy_copies_and_fills(rt: HostRuntime) {
    assert!(rt; copies_and_fills(rt.alloc()) == Ok(true));
}
