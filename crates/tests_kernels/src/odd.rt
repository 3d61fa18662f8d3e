//! If-then-else by masks with bit offsets inside a byte and odd lengths, with all bits outside of
//! them set and with all of them clear, compared with a loop over single bits.

use sel_bits::aligned_words::AlignedWords;
use sel_bits::bitmap::Bitmap;
use sel_bits::faults::{PolarsError, PolarsResult};
use sel_ternary::if_then_else::scalar::if_then_else_words;
use std::alloc::Global;
use tests_bits::fixtures::both;

const OFFSETS: [usize; 13] = [0, 1, 2, 3, 4, 5, 6, 7, 8, 9, 63, 64, 65];

const LENGTHS: [usize; 14] = [0, 1, 7, 8, 55, 56, 57, 63, 64, 65, 111, 112, 113, 130];

// Returns the bit at a position of one of several patterns: mixed, seldom true, seldom false, and
// in long runs.
fn bit(kind: u8, i: usize) -> bool {
    match kind {
        0 => i % 3 == 0 || i % 7 == 1,
        1 => i % 64 == 62,
        2 => i % 64 != 5,
        _ => i / 40 % 2 == 1,
    }
}

// Returns `len` bits of a pattern as a bitmap at this bit offset; `outside` is the value of the
// bits before and after it.
fn mask(alloc: Global, kind: u8, offset: usize, len: usize, outside: bool) -> PolarsResult<Bitmap> {
    let mut bits = vec![in alloc; outside; offset.saturating_add(len).saturating_add(9)]?;
    for (i, place) in bits.iter_mut().enumerate() {
        if i >= offset && i - offset < len {
            *place = bit(kind, i - offset);
        }
    }
    let bits = Bitmap::from_bools(alloc, &bits)?;
    if offset > bits.len() || len > bits.len() - offset {
        return Err(PolarsError::ComputeError);
    }
    Ok(bits.sliced(offset, len))
}

// Returns `len` consecutive numbers, from `first` on.
fn numbers(alloc: Global, first: u16, len: usize) -> PolarsResult<Vec<u16>> {
    let mut numbers = Vec::new(alloc);
    let mut number = first;
    for _ in 0..len {
        numbers.push(number)?;
        number = number.wrapping_add(1);
    }
    Ok(numbers)
}

// Returns whether each number is the true or the false value, by the bit at its position.
fn are_chosen(numbers: &[u16], mask: &Bitmap, if_true: &[u16], if_false: &[u16]) -> bool {
    if numbers.len() != mask.len() {
        return false;
    }
    for (i, number) in numbers.iter().enumerate() {
        let side = if mask.get_bit(i) { if_true } else { if_false };
        if side.get(i) != Some(number) {
            return false;
        }
    }
    true
}

// Returns whether if-then-else by a mask equals that of a loop, and reads no more words than its
// rows need.
fn chooses(alloc: Global, mask: &Bitmap) -> PolarsResult<bool> {
    let if_true = numbers(alloc, 0, mask.len());
    let (if_true, if_false) = both(if_true, numbers(alloc, 1000, mask.len()))?;
    chooses_between(alloc, mask, &if_true, &if_false)
}

// Returns whether if-then-else by a mask is right for these numbers.
fn chooses_between(
    alloc: Global,
    mask: &Bitmap,
    if_true: &[u16],
    if_false: &[u16],
) -> PolarsResult<bool> {
    if if_true.len() != mask.len() || if_false.len() != mask.len() {
        return Ok(false);
    }
    let mut words = AlignedWords::new(mask);
    let chosen = if_then_else_words(alloc, &mut words, if_true, if_false)?;
    let is_short = words.words_read() <= mask.len() as u64 / 64 + 2;
    Ok(are_chosen(&chosen, mask, if_true, if_false) & is_short)
}

// Returns whether if-then-else by a mask of a length is right, at a bit offset.
fn chooses_at(
    alloc: Global,
    kind: u8,
    offset: usize,
    len: usize,
    outside: bool,
) -> PolarsResult<bool> {
    let mask = mask(alloc, kind, offset, len, outside)?;
    chooses(alloc, &mask)
}

#[test]
fn if_then_else_at_odd_offsets(rt: HostRuntime) {
    for kind in 0..4u8 {
        for offset in OFFSETS {
            for len in LENGTHS {
                for outside in [true, false] {
                    let chooses = chooses_at(rt.alloc(), kind, offset, len, outside);
                    assert!(rt; chooses == Ok(true), "{len} bits at {offset}");
                }
            }
        }
    }
}
