//! Bitmaps with bit offsets inside a byte and odd lengths, with all bits outside of them set and
//! with all of them clear, compared with loops over single bits.

use crate::fixtures::{both, has_bits, same};
use sel_bits::aligned_words::AlignedWords;
use sel_bits::bitmap::Bitmap;
use sel_bits::block_copy::BlockCopy;
use sel_bits::blocks::U56Blocks;
use sel_bits::counted_bits::CountedBits;
use sel_bits::faults::{PolarsError, PolarsResult};
use sel_filter::boolean::{
    filter_boolean_kernel, filter_boolean_kernel_pext, filter_boolean_kernel_sparse,
    filter_counted_bits,
};
use sel_filter::primitive::{filter_runs, filter_values};
use std::alloc::Global;

const OFFSETS: [usize; 13] = [0, 1, 2, 3, 4, 5, 6, 7, 8, 9, 63, 64, 65];

const LENGTHS: [usize; 14] = [0, 1, 7, 8, 55, 56, 57, 63, 64, 65, 111, 112, 113, 130];

// Returns the bit at a position of one of several patterns: mixed, seldom true, seldom false, in
// long runs, and true at the beginning.
fn bit(kind: u8, i: usize) -> bool {
    match kind {
        0 => i % 3 == 0 || i % 7 == 1,
        1 => i % 64 == 62,
        2 => i % 64 != 5,
        3 => i / 40 % 2 == 1,
        _ => i < 112,
    }
}

// Returns `len` bits of a pattern.
fn bits(alloc: Global, kind: u8, len: usize) -> PolarsResult<Vec<bool>> {
    let mut bits = vec![in alloc; false; len]?;
    for (i, place) in bits.iter_mut().enumerate() {
        *place = bit(kind, i);
    }
    Ok(bits)
}

// Returns the same bits as a bitmap at this bit offset; `outside` is the value of the bits before
// and after it.
fn bitmap(
    alloc: Global,
    kind: u8,
    offset: usize,
    len: usize,
    outside: bool,
) -> PolarsResult<Bitmap> {
    let mut all = vec![in alloc; outside; offset.saturating_add(len).saturating_add(9)]?;
    for (i, place) in all.iter_mut().enumerate() {
        if i >= offset && i - offset < len {
            *place = bit(kind, i - offset);
        }
    }
    let all = Bitmap::from_bools(alloc, &all)?;
    if offset > all.len() || len > all.len() - offset {
        return Err(PolarsError::ComputeError);
    }
    Ok(all.sliced(offset, len))
}

// Returns the number of bits with this value.
fn count(bits: &[bool], value: bool) -> usize {
    let mut count = 0usize;
    for bit in bits {
        if *bit == value {
            count = count.saturating_add(1);
        }
    }
    count
}

// Returns the number of leading bits with this value.
fn leading(bits: &[bool], value: bool) -> usize {
    for (i, bit) in bits.iter().enumerate() {
        if *bit != value {
            return i;
        }
    }
    bits.len()
}

// Returns the number of trailing false bits.
fn trailing(bits: &[bool]) -> usize {
    let mut count = 0usize;
    for bit in bits {
        count = if *bit { 0 } else { count.saturating_add(1) };
    }
    count
}

// Returns whether the counts and the single bits of a bitmap equal those of a loop.
fn counts_equal(bitmap: &Bitmap, bits: &[bool]) -> bool {
    has_bits(bitmap, bits)
        & (bitmap.set_bits() == count(bits, true))
        & (bitmap.unset_bits() == count(bits, false))
        & (bitmap.is_all_true() == (count(bits, false) == 0))
        & (bitmap.is_all_false() == (count(bits, true) == 0))
}

// Returns whether as many leading and trailing bits are removed as a loop counts.
fn takes_equal(bitmap: &Bitmap, bits: &[bool]) -> PolarsResult<bool> {
    let clones = both(bitmap.try_clone(), bitmap.try_clone());
    let ((mut front, mut ones), mut back) = both(clones, bitmap.try_clone())?;
    Ok(
        (front.take_leading_zeros() == leading(bits, false))
            & (ones.take_leading_ones() == leading(bits, true))
            & (back.take_trailing_zeros() == trailing(bits)),
    )
}

// Returns whether the words of a bitmap have its bits, and no others, and are counted.
fn has_words(bitmap: &Bitmap, bits: &[bool]) -> bool {
    let mut words = AlignedWords::new(bitmap);
    let mut at = 0usize;
    for count in 0..=bits.len() as u64 {
        let Some((word, len)) = words.next() else {
            return at == bits.len() && words.words_read() == count;
        };
        for k in 0..64usize {
            let bit = bits.get(at.saturating_add(k)).copied().unwrap_or(false);
            if (word >> k & 1 == 1) != (bit && k < len) {
                return false;
            }
        }
        at = at.saturating_add(len);
    }
    false
}

// Returns whether the blocks of a bitmap have its bits, and are counted.
fn has_blocks(bitmap: &Bitmap, bits: &[bool]) -> bool {
    let mut blocks = U56Blocks::new(bitmap);
    let mut at = 0usize;
    for count in 0..=bits.len() as u64 {
        let Some(block) = blocks.next() else {
            return at >= bits.len() && blocks.blocks_read() == count;
        };
        for k in 0..64usize {
            let bit = bits.get(at.saturating_add(k)).copied().unwrap_or(false);
            if (block >> k & 1 == 1) != (bit && k < 56) {
                return false;
            }
        }
        at = at.saturating_add(56);
    }
    false
}

// Returns whether the counts and the readers of a bitmap are right.
fn is_read(
    alloc: Global,
    kind: u8,
    offset: usize,
    len: usize,
    outside: bool,
) -> PolarsResult<bool> {
    let bitmap = bitmap(alloc, kind, offset, len, outside);
    let (bitmap, bits) = both(bitmap, bits(alloc, kind, len))?;
    Ok(
        counts_equal(&bitmap, &bits)
            & (takes_equal(&bitmap, &bits) == Ok(true))
            & has_words(&bitmap, &bits)
            & has_blocks(&bitmap, &bits),
    )
}

#[test]
fn bitmap_counts_and_readers_at_odd_offsets(rt: HostRuntime) {
    for kind in 0..5u8 {
        for offset in OFFSETS {
            for len in LENGTHS {
                for outside in [true, false] {
                    assert!(rt; is_read(rt.alloc(), kind, offset, len, outside) == Ok(true));
                }
            }
        }
    }
}

/// An operation on two bitmaps.
#[derive(Clone, Copy)]
enum Rule {
    And,
    Or,
    AndNot,
    OrNot,
}

// Returns the result of an operation on two bits.
fn made(rule: Rule, a: bool, b: bool) -> bool {
    match rule {
        Rule::And => a && b,
        Rule::Or => a || b,
        Rule::AndNot => a && !b,
        Rule::OrNot => a || !b,
    }
}

// Returns whether each bit is the result of an operation on those of two bitmaps.
fn is_joined(answer: &Bitmap, rule: Rule, first: &Bitmap, second: &Bitmap) -> bool {
    if answer.len() != first.len() || answer.len() != second.len() {
        return false;
    }
    for i in 0..answer.len() {
        if answer.get_bit(i) != made(rule, first.get_bit(i), second.get_bit(i)) {
            return false;
        }
    }
    true
}

// Returns whether an operation on two bitmaps of the same length returns its result for each pair
// of bits.
fn joins(alloc: Global, rule: Rule, first: &Bitmap, second: &Bitmap) -> PolarsResult<bool> {
    if first.len() != second.len() {
        return Ok(false);
    }
    let answer = match rule {
        Rule::And => first.and(alloc, second),
        Rule::Or => first.or(alloc, second),
        Rule::AndNot => first.and_not(alloc, second),
        Rule::OrNot => first.or_not(alloc, second),
    };
    Ok(is_joined(&answer?, rule, first, second))
}

// Returns whether each bit is that of the complement of a bitmap.
fn is_opposite(opposite: &Bitmap, bits: &Bitmap) -> bool {
    if opposite.len() != bits.len() {
        return false;
    }
    for i in 0..bits.len() {
        if opposite.get_bit(i) == bits.get_bit(i) {
            return false;
        }
    }
    true
}

// Returns whether each bit is that of the second bitmap where the first is true, else of the third.
fn is_chosen(chosen: &Bitmap, first: &Bitmap, second: &Bitmap, third: &Bitmap) -> bool {
    if (chosen.len(), second.len(), third.len()) != (first.len(), first.len(), first.len()) {
        return false;
    }
    for i in 0..first.len() {
        let (x, y, z) = (first.get_bit(i), second.get_bit(i), third.get_bit(i));
        if chosen.get_bit(i) != ((x && y) || (!x && z)) {
            return false;
        }
    }
    true
}

// Returns whether the complement of a bitmap, and if-then-else with it as the mask, equal those of
// single bits.
fn turns(alloc: Global, first: &Bitmap, second: &Bitmap, third: &Bitmap) -> PolarsResult<bool> {
    if first.len() != second.len() || first.len() != third.len() {
        return Ok(false);
    }
    let (opposite, chosen) = both(
        first.not(alloc),
        Bitmap::choose(alloc, first, second, third),
    )?;
    Ok(is_opposite(&opposite, first) & is_chosen(&chosen, first, second, third))
}

// Returns whether all operations on bitmaps equal those of single bits.
fn operates(alloc: Global, first: &Bitmap, second: &Bitmap, third: &Bitmap) -> PolarsResult<bool> {
    let mut is_right = turns(alloc, first, second, third)?;
    for rule in [Rule::And, Rule::Or, Rule::AndNot, Rule::OrNot] {
        is_right &= joins(alloc, rule, first, second)?;
    }
    Ok(is_right)
}

// Returns whether operations are right on bitmaps of a length, at one bit offset and at another.
fn operates_at(
    alloc: Global,
    offset: usize,
    other: usize,
    len: usize,
    outside: bool,
) -> PolarsResult<bool> {
    let first = bitmap(alloc, 0, offset, len, outside);
    let second = bitmap(alloc, 3, other, len, !outside);
    let third = bitmap(alloc, 1, offset, len, !outside);
    let ((first, second), third) = both(both(first, second), third)?;
    operates(alloc, &first, &second, &third)
}

#[test]
fn operations_at_odd_offsets(rt: HostRuntime) {
    for offset in [0, 3, 6, 7] {
        for other in [0, 3, 6, 7] {
            for len in [0, 1, 61, 62, 64, 65, 130] {
                for outside in [true, false] {
                    assert!(rt; operates_at(rt.alloc(), offset, other, len, outside) == Ok(true));
                }
            }
        }
    }
}

// Returns whether the bits are those of the values at these positions.
fn has_bits_at(kept: &Bitmap, values: &Bitmap, places: &[usize]) -> bool {
    if kept.len() != places.len() {
        return false;
    }
    for (k, place) in places.iter().enumerate() {
        if *place >= values.len() || kept.get_bit(k) != values.get_bit(*place) {
            return false;
        }
    }
    true
}

// Returns whether the kernels that dispatch on the mask select the bits at these positions.
fn filters(alloc: Global, values: &Bitmap, mask: &Bitmap, places: &[usize]) -> PolarsResult<bool> {
    if values.len() != mask.len() {
        return Ok(false);
    }
    let (by_size, by_count) = both(
        filter_boolean_kernel(alloc, values, mask),
        filter_counted_bits(alloc, values, mask, mask.set_bits()),
    )?;
    Ok(has_bits_at(&by_size, values, places) & has_bits_at(&by_count, values, places))
}

// Returns whether the kernels over readers select the bits at these positions: the one reads each
// block once, the other only these bits.
fn reads(alloc: Global, values: &Bitmap, mask: &Bitmap, places: &[usize]) -> PolarsResult<bool> {
    if values.len() != mask.len() {
        return Ok(false);
    }
    let mut blocks = U56Blocks::new(values);
    let mut single = CountedBits::new(values);
    let (by_blocks, by_bits) = both(
        filter_boolean_kernel_pext(alloc, &mut blocks, &mut U56Blocks::new(mask)),
        filter_boolean_kernel_sparse(alloc, &mut single, &mut AlignedWords::new(mask)),
    )?;
    let are_kept = has_bits_at(&by_blocks, values, places) & has_bits_at(&by_bits, values, places);
    let blocks_read = values.len().div_ceil(56) as u64;
    Ok(
        are_kept
            & (blocks.blocks_read() == blocks_read)
            & (single.bits_read() == places.len() as u64),
    )
}

// Returns the positions where the mask is true.
fn true_places(alloc: Global, mask: &Bitmap) -> PolarsResult<Vec<usize>> {
    let mut places = Vec::new(alloc);
    for i in 0..mask.len() {
        if mask.get_bit(i) {
            places.push(i)?;
        }
    }
    Ok(places)
}

// Returns the greatest number of copies for these positions: one for each run of consecutive ones,
// and one for each further word. (The first position always counts as one.)
fn most_copies(places: &[usize]) -> u64 {
    let mut copies = 1u64;
    let mut next = 0;
    for place in places {
        if *place != next || *place % 64 == 0 {
            copies = copies.saturating_add(1);
        }
        next = place.saturating_add(1);
    }
    copies
}

// Returns whether a filter of numbers, and one by runs, select these numbers, and the latter copies
// each run at once.
fn keeps(alloc: Global, numbers: &[usize], mask: &Bitmap, wanted: &[usize]) -> PolarsResult<bool> {
    if numbers.len() != mask.len() {
        return Ok(false);
    }
    let kept = filter_values(alloc, numbers, mask)?;
    let mut out = BlockCopy::new(alloc, numbers);
    filter_runs(&mut out, &mut AlignedWords::new(mask))?;
    let is_by_runs = out.copies() <= most_copies(wanted);
    Ok(is_by_runs & same(kept.as_slice(), wanted) & same(out.into_vec().as_slice(), wanted))
}

// Returns whether both filters of the positions select these.
fn keeps_places(alloc: Global, mask: &Bitmap, wanted: &[usize]) -> PolarsResult<bool> {
    let mut places = vec![in alloc; 0usize; mask.len()]?;
    for (i, place) in places.iter_mut().enumerate() {
        *place = i;
    }
    keeps(alloc, &places, mask, wanted)
}

// Returns whether all filters by a mask are right.
fn filters_by(alloc: Global, values: &Bitmap, mask: &Bitmap) -> PolarsResult<bool> {
    let places = true_places(alloc, mask)?;
    Ok(
        (filters(alloc, values, mask, &places) == Ok(true))
            & (reads(alloc, values, mask, &places) == Ok(true))
            & (keeps_places(alloc, mask, &places) == Ok(true)),
    )
}

// Returns whether filters are right by a mask of a length, at a bit offset.
fn filters_at(
    alloc: Global,
    kind: u8,
    offset: usize,
    len: usize,
    outside: bool,
) -> PolarsResult<bool> {
    let mask = bitmap(alloc, kind, offset, len, outside);
    let (mask, values) = both(mask, bitmap(alloc, 0, 5, len, !outside))?;
    filters_by(alloc, &values, &mask)
}

#[test]
fn filters_at_odd_offsets(rt: HostRuntime) {
    for kind in 0..5u8 {
        for offset in OFFSETS {
            for len in LENGTHS {
                for outside in [true, false] {
                    assert!(rt; filters_at(rt.alloc(), kind, offset, len, outside) == Ok(true));
                }
            }
        }
    }
}
