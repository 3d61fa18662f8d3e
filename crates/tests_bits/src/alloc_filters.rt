//! Filters of bits and of values with failing allocations, which the filters of columns call.

use crate::alloc_bitmaps::are_bits;
use crate::fixtures::{has_bits, same};
use crate::marks::{begins, begins_free, ends_answered, ends_by};
use sel_bits::aligned_words::AlignedWords;
use sel_bits::bitmap::Bitmap;
use sel_bits::block_copy::BlockCopy;
use sel_bits::blocks::U56Blocks;
use sel_bits::counted_bits::CountedBits;
use sel_bits::faults::{PolarsError, PolarsResult};
use sel_filter::boolean::{
    filter_boolean_kernel, filter_boolean_kernel_pext, filter_boolean_kernel_sparse,
};
use sel_filter::primitive::{filter_runs, filter_values};
use sel_filter::scalar::{scalar_filter, scalar_filter_offset};
use std::alloc::Global;
use std::test::Fail;

const VALUES: [bool; 5] = [true, false, true, true, false];

const MASK: [bool; 5] = [false, true, true, false, true];

const KEPT: [bool; 3] = [false, true, false];

/// The filters of bits.
#[derive(Debug, Clone, Copy)]
enum Kernel {
    Chosen,
    Sparse,
    Packed,
}

/// Returns whether a kernel returns these bits or is out of memory, and leaves both bitmaps
/// unchanged.
fn keeps_bits(alloc: Global, kernel: Kernel, values: &Bitmap, mask: &Bitmap) -> bool {
    if values.len() != mask.len() {
        return false;
    }
    begins(alloc);
    let answer = match kernel {
        Kernel::Chosen => filter_boolean_kernel(alloc, values, mask),
        Kernel::Sparse => filter_boolean_kernel_sparse(
            alloc,
            &mut CountedBits::new(values),
            &mut AlignedWords::new(mask),
        ),
        Kernel::Packed => filter_boolean_kernel_pext(
            alloc,
            &mut U56Blocks::new(values),
            &mut U56Blocks::new(mask),
        ),
    };
    ends_by(alloc, &answer);
    are_bits(answer, &KEPT) & has_bits(values, &VALUES) & has_bits(mask, &MASK)
}

#[test]
fn filter_bits(rt: HostRuntime) -> Result<(), Fail> {
    let values = Bitmap::from_bools(rt.alloc(), &VALUES)?;
    let mask = Bitmap::from_bools(rt.alloc(), &MASK)?;
    for kernel in [Kernel::Chosen, Kernel::Sparse, Kernel::Packed] {
        assert!(rt;
            keeps_bits(rt.alloc(), kernel, &values, &mask),
            "{kernel:?}"
        );
    }
    Ok(())
}

const NUMBERS: [u32; 5] = [10, 20, 30, 40, 50];

const KEPT_NUMBERS: [u32; 3] = [20, 30, 50];

/// Returns whether a call returned the selected numbers, or is out of memory.
fn are_numbers(answer: PolarsResult<Vec<u32>>) -> bool {
    match answer {
        Ok(kept) => same(kept.as_slice(), &KEPT_NUMBERS),
        Err(fault) => fault == PolarsError::OutOfMemory,
    }
}

fn keeps_numbers(alloc: Global, mask: &Bitmap) -> bool {
    if mask.len() != 5 {
        return false;
    }
    begins(alloc);
    let answer = filter_values(alloc, &NUMBERS, mask);
    ends_by(alloc, &answer);
    are_numbers(answer) & has_bits(mask, &MASK)
}

#[test]
fn filter_numbers(rt: HostRuntime) -> Result<(), Fail> {
    let mask = Bitmap::from_bools(rt.alloc(), &MASK)?;
    assert!(rt; keeps_numbers(rt.alloc(), &mask));
    Ok(())
}

/// Returns whether the runs of numbers are copied, or a prefix of them if the call is out of
/// memory.
fn copies_runs(alloc: Global, mask: &Bitmap) -> bool {
    if mask.len() != 5 {
        return false;
    }
    let mut out = BlockCopy::new(alloc, NUMBERS.as_slice());
    let mut words = AlignedWords::new(mask);
    begins(alloc);
    let answer = filter_runs(&mut out, &mut words);
    ends_by(alloc, &answer);
    let items = out.into_vec();
    match answer {
        Ok(()) => same(items.as_slice(), &KEPT_NUMBERS),
        Err(fault) => (fault == PolarsError::OutOfMemory) & begins_numbers(items.as_slice()),
    }
}

/// Returns whether these are fewer numbers, and a prefix of the selected ones.
fn begins_numbers(numbers: &[u32]) -> bool {
    numbers.len() < 3 && same(numbers, &KEPT_NUMBERS[..numbers.len()])
}

#[test]
fn filter_by_runs(rt: HostRuntime) -> Result<(), Fail> {
    let mask = Bitmap::from_bools(rt.alloc(), &MASK)?;
    assert!(rt; copies_runs(rt.alloc(), &mask));
    Ok(())
}

/// Returns whether the selected numbers are appended to 7, or none if the call is out of memory.
fn appends_numbers(alloc: Global) -> PolarsResult<bool> {
    let mut out = vec![in alloc; 7u32]?;
    begins(alloc);
    let answer = scalar_filter(&NUMBERS, &[0b10110], &mut out);
    ends_by(alloc, &answer);
    Ok(match answer {
        Ok(()) => same(out.as_slice(), &[7, 20, 30, 50]),
        Err(fault) => (fault == PolarsError::OutOfMemory) & same(out.as_slice(), &[7]),
    })
}

#[test]
fn scalar_filter_appends(rt: HostRuntime) {
    assert!(rt; appends_numbers(rt.alloc()) == Ok(true));
}

/// Returns the bits of a byte from the sixth on, and two more: three bits before a byte boundary
/// and two after it.
fn late_mask(alloc: Global) -> Result<Bitmap, Fail> {
    let bits = [
        false, false, false, false, false, false, true, true, false, true,
    ];
    let all = Bitmap::from_bools(alloc, &bits)?;
    if all.len() != 10 {
        return Err(Fail::from("another length"));
    }
    Ok(all.sliced(5, 5))
}

/// Returns whether the numbers before a byte boundary are appended to 7, or none if the call is out
/// of memory.
fn keeps_first(alloc: Global, mask: &Bitmap) -> PolarsResult<bool> {
    if mask.len() != 5 {
        return Ok(false);
    }
    let mut out = vec![in alloc; 7u32]?;
    begins(alloc);
    let answer = scalar_filter_offset(&NUMBERS, mask, &mut out);
    ends_by(alloc, &answer);
    Ok(match answer {
        Ok((values, bytes)) => {
            same(out.as_slice(), &[7, 20, 30]) & same(values, &[40, 50]) & same(bytes, &[0b10])
        }
        Err(fault) => (fault == PolarsError::OutOfMemory) & same(out.as_slice(), &[7]),
    })
}

#[test]
fn scalar_filter_offset_appends(rt: HostRuntime) -> Result<(), Fail> {
    let mask = late_mask(rt.alloc())?;
    assert!(rt; keeps_first(rt.alloc(), &mask) == Ok(true));
    Ok(())
}

/// Returns whether a mask that begins at a byte boundary leaves all numbers, without an allocation.
fn keeps_none_first(alloc: Global, mask: &Bitmap) -> bool {
    if mask.len() != 5 {
        return false;
    }
    let mut out = Vec::new(alloc);
    begins_free(alloc);
    let answer = scalar_filter_offset(&NUMBERS, mask, &mut out);
    ends_answered(alloc);
    match answer {
        Ok((values, _)) => out.is_empty() & same(values, &NUMBERS),
        Err(_) => false,
    }
}

#[test]
fn scalar_filter_offset_at_byte_boundary_does_not_allocate(rt: HostRuntime) -> Result<(), Fail> {
    let mask = Bitmap::from_bools(rt.alloc(), &MASK)?;
    assert!(rt; keeps_none_first(rt.alloc(), &mask));
    Ok(())
}
