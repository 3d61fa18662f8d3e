//! Filters of bits and values with their validity.

use polars_compute::filter::boolean::filter_bitmap_and_validity;
use polars_compute::filter::primitive::filter_values_and_validity;
use sel_bits::bitmap::Bitmap;
use sel_bits::faults::PolarsResult;
use std::alloc::Global;
use std::test::Fail;
use tests_bits::fixtures::{both, has_bits, has_validity, same};

const KEPT: [bool; 3] = [false, true, false];

// Returns whether the bits that the mask selects have the validity that it selects, or none.
fn keeps_bits(alloc: Global, valid: &Bitmap, mask: &Bitmap) -> PolarsResult<bool> {
    if (valid.len(), mask.len()) != (5, 5) {
        return Ok(false);
    }
    let ((bits, validity), (again, missing)) = both(
        filter_bitmap_and_validity(alloc, mask, Some(valid), mask),
        filter_bitmap_and_validity(alloc, valid, None, mask),
    )?;
    let are_kept = has_bits(&bits, &[true; 3]) & has_bits(&again, &KEPT);
    Ok(are_kept & has_validity(&validity, &KEPT) & missing.is_none())
}

// Returns whether the numbers that the mask selects have the validity that it selects, or none.
fn keeps_numbers(alloc: Global, valid: &Bitmap, mask: &Bitmap) -> PolarsResult<bool> {
    let values = [10u64, 20, 30, 40, 50];
    if (valid.len(), mask.len()) != (5, 5) {
        return Ok(false);
    }
    let ((kept, validity), (again, missing)) = both(
        filter_values_and_validity(alloc, &values, Some(valid), mask),
        filter_values_and_validity(alloc, &values, None, mask),
    )?;
    let are_kept = same(kept.as_slice(), &[20, 30, 50]) & same(again.as_slice(), kept.as_slice());
    Ok(are_kept & has_validity(&validity, &KEPT) & missing.is_none())
}

#[test]
fn filters_with_validity(rt: HostRuntime) -> Result<(), Fail> {
    let valid = Bitmap::from_bools(rt.alloc(), &[true, false, true, true, false]);
    let mask = Bitmap::from_bools(rt.alloc(), &[false, true, true, false, true]);
    let (valid, mask) = both(valid, mask)?;
    assert!(rt; keeps_bits(rt.alloc(), &valid, &mask) == Ok(true));
    assert!(rt; keeps_numbers(rt.alloc(), &valid, &mask) == Ok(true));
    Ok(())
}
