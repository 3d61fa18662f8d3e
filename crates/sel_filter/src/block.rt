//! Filters for blocks of up to 64 values by the bits of a word.
#![tactic(auto, using(crate::proofs::Dense::kept_steps))]

ghost use Rattle.std.specs.Prelude.{◌≡◌, ◌≤◌, ◌<◌, ◌^◌, ◌++◌, ◌+◌, ◌*◌, ◌/◌, ◌∷◌, List, [], length, IfOk, IfErr, OnOk, OnErr};
ghost use Rattle.std.specs.Vec.{vec_len, vec_capacity};
ghost use Rattle.sel_bits.specs.Faults.{IsOutOfMemory};
ghost use Rattle.sel_bits.specs.Bits.{bits_from};
ghost use Rattle.sel_bits.specs.Copying.{IsBeginning};
ghost use Rattle.sel_bits.specs.Words.{bits};
ghost use Rattle.sel_filter.specs.Blocks.{kept_of_blocks};
ghost use Rattle.sel_filter.specs.Select.{select};

use sel_bits::faults::PolarsResult;
use sel_bits::words::{first_word, whole_word};
use std::mem::{replace, size_of_val};

/// The spare capacity that a block needs: a value is written before it is known to be kept.
pub(crate) const SPARE: usize = 65;

/// The largest number of set bits for which the values of a block are appended one by one.
const FEW_VALUES: u32 = 16;

/// The largest number of runs of set bits for which the values of a block are appended by runs.
const FEW_RUNS: u32 = 4;

/// The same for narrow values: a mispredicted branch costs more than the copy of a run saves.
const FEW_RUNS_OF_NARROW: u32 = 1;

/// The largest size of narrow values, in bytes.
const NARROW: usize = 4;

/// Appends the values whose bit is set, in blocks of 64 followed by the rest.
///
/// Bit 0 of the first byte belongs to the first value. Allocates nothing if `out` has spare
/// capacity for 65 values more than are kept.
///
/// # Errors
/// `OutOfMemory` if an allocation fails; the old items of `out` are then still at its front.
pub(crate) fn append_blocks<T: Copy>(
    values: &[T],
    bytes: &[u8],
    out: &mut Vec<T>,
) -> PolarsResult<()>
    requires within { length values.now ≤ 8 * length bytes.now }
    ensures appended { OnOk result (out.new.items ≡
        out.old.items ++ select values.now (bits_from bytes.now 0 (length values.now))) }
    ensures begun { OnErr result (IsBeginning out.old.items out.new.items) }
    ensures refusal { IfErr result IsOutOfMemory }
{
    let len = values.len();
    let mut block: usize = 0;
    while block < len / 64 {
        if are_four_full(&bytes[8 * block..]) {
            block = append_full(values, bytes, block, out)?;
        }
        if block < len / 64 && is_mixed(whole_word(bytes, 8 * block, 0), values) {
            block = push_mixed(values, bytes, block, out);
        }
        if block < len / 64 {
            let word = whole_word(bytes, 8 * block, 0);
            append_block(&values[64 * block..64 * block + 64], word, out)?;
            block += 1;
        }
    }
    let at = len / 64 * 64;
    let rest = len - at;
    let word = first_word(&bytes[len / 64 * 8..], 0, rest);
    append_few(&values[at..at + rest], word, out)?;
    Ok(())
}

/// Returns the number of set bits of `bytes`. Only capacity and speed depend on the result.
pub(crate) fn count_set(bytes: &[u8]) -> usize {
    let mut count: usize = 0;
    for block in 0..bytes.len() / 8 {
        count = count.wrapping_add(whole_word(bytes, 8 * block, 0).count_ones() as usize);
    }
    let rest = first_word(&bytes[bytes.len() / 8 * 8..], 0, 64);
    count.wrapping_add(rest.count_ones() as usize)
}

/// Returns whether a block of `values` is filtered value by value: few bits are set, or in many
/// runs. Only speed depends on the result.
#[inline(always)]
fn is_mixed<T: Copy>(mask: u64, values: &[T]) -> bool {
    mask.count_ones() <= FEW_VALUES || (mask & !(mask << 1)).count_ones() > few_runs(values)
}

/// Returns the largest number of runs of set bits for which the values of a block are appended by
/// runs. Only speed depends on the result.
#[inline(always)]
fn few_runs<T: Copy>(values: &[T]) -> u32 {
    if values.len() >= 64 && size_of_val(&values[..64]) <= 64 * NARROW {
        return FEW_RUNS_OF_NARROW;
    }
    FEW_RUNS
}

/// Returns whether all bits of the first four blocks are set. Only speed depends on the result.
#[inline(always)]
fn are_four_full(bytes: &[u8]) -> bool {
    if bytes.len() < 32 || whole_word(bytes, 0, 0) != u64::MAX {
        return false;
    }
    let second = whole_word(bytes, 8, 0);
    second & whole_word(bytes, 16, 0) & whole_word(bytes, 24, 0) == u64::MAX
}

/// Appends the values of a block whose bit is set: all at once, by runs of set bits, or value by
/// value.
///
/// # Errors
/// `OutOfMemory` if an allocation fails; the old items of `out` are then still at its front.
#[inline(always)]
fn append_block<T: Copy>(block: &[T], mask: u64, out: &mut Vec<T>) -> PolarsResult<()>
    requires block { length block.now ≡ 64 }
    ensures appended { OnOk result
        (out.new.items ≡ out.old.items ++ select block.now (bits 64 mask)) }
    ensures begun { OnErr result (IsBeginning out.old.items out.new.items) }
    ensures refusal { IfErr result IsOutOfMemory }
{
    if mask.count_ones() == 64 {
        out.extend_from_slice(block)?;
        return Ok(());
    }
    if !is_mixed(mask, block) {
        return append_runs(block, mask, out);
    }
    out.reserve(SPARE)?;
    push_block(block, mask, out);
    Ok(())
}

/// Appends the values whose bit is set, one set bit at a time.
///
/// # Errors
/// `OutOfMemory` if an allocation fails; the old items of `out` are then still at its front.
#[inline(always)]
fn append_few<T: Copy>(block: &[T], mask: u64, out: &mut Vec<T>) -> PolarsResult<()>
    requires block { length block.now ≤ 64 }
    requires fits { mask < 2 ^ length block.now }
    ensures appended { OnOk result
        (out.new.items ≡ out.old.items ++ select block.now (bits (length block.now) mask)) }
    ensures begun { OnErr result (IsBeginning out.old.items out.new.items) }
    ensures refusal { IfErr result IsOutOfMemory }
{
    out.reserve(64)?;
    let mut rest = mask;
    while rest != 0 {
        out.push_reserved(block[rest.trailing_zeros() as usize]);
        rest &= rest - 1;
    }
    Ok(())
}

/// Appends the values whose bit is set, one copy per run of set bits.
///
/// # Errors
/// `OutOfMemory` if an allocation fails; the old items of `out` are then still at its front.
#[inline(never)]
#[tactic(auto, using(crate::proofs::Running::running))]
fn append_runs<T: Copy>(block: &[T], mask: u64, out: &mut Vec<T>) -> PolarsResult<()>
    requires block { length block.now ≡ 64 }
    ensures appended { OnOk result
        (out.new.items ≡ out.old.items ++ select block.now (bits 64 mask)) }
    ensures begun { OnErr result (IsBeginning out.old.items out.new.items) }
    ensures refusal { IfErr result IsOutOfMemory }
{
    let mut at: usize = 0;
    let mut rest = mask;
    while rest != 0 {
        let skip = rest.trailing_zeros();
        let run = (rest >> skip).trailing_ones();
        at += skip as usize;
        out.extend_from_slice(&block[at..at + run as usize])?;
        at += run as usize;
        rest = ((rest >> skip) >> (run - 1)) >> 1;
    }
    Ok(())
}

/// Appends the values from block `first` on as long as all bits of the blocks are set. Returns the
/// block after them; only speed depends on which it is.
///
/// # Errors
/// `OutOfMemory` if an allocation fails; the old items of `out` are then still at its front.
#[inline(never)]
fn append_full<T: Copy>(
    values: &[T],
    bytes: &[u8],
    first: usize,
    out: &mut Vec<T>,
) -> PolarsResult<usize>
    requires bits { length values.now ≤ 8 * length bytes.now }
    requires first { first ≤ length values.now / 64 }
    ensures forward { IfOk result (λ end. first ≤ end) }
    ensures within { IfOk result (λ end. end ≤ length values.now / 64) }
    ensures appended { IfOk result (λ end. (front : List T) →
        out.old.items ≡ front ++ kept_of_blocks values.now bytes.now first →
        out.new.items ≡ front ++ kept_of_blocks values.now bytes.now end) }
    ensures begun { OnErr result (IsBeginning out.old.items out.new.items) }
    ensures refusal { IfErr result IsOutOfMemory }
{
    let mut end = first;
    while end < values.len() / 64 && whole_word(bytes, 8 * end, 0) == u64::MAX {
        end += 1;
    }
    out.extend_from_slice(&values[64 * first..64 * end])?;
    Ok(end)
}

/// Appends the values whose bit is set, from block `first` on as long as the blocks are filtered
/// value by value and the spare capacity suffices. Returns the block after them; only speed depends
/// on which it is.
#[inline(never)]
fn push_mixed<T: Copy>(values: &[T], bytes: &[u8], first: usize, out: &mut Vec<T>) -> usize
    requires bits { length values.now ≤ 8 * length bytes.now }
    requires first { first ≤ length values.now / 64 }
    ensures forward { first ≤ result }
    ensures within { result ≤ length values.now / 64 }
    ensures appended { (front : List T) →
        out.old.items ≡ front ++ kept_of_blocks values.now bytes.now first →
        out.new.items ≡ front ++ kept_of_blocks values.now bytes.now result }
{
    // A vector of this function alone, so that its length stays in a register.
    let alloc = *out.allocator();
    let mut kept = replace(out, Vec::new(alloc));
    let mut block = first;
    while block < values.len() / 64 && kept.capacity() - kept.len() >= SPARE {
        let word = whole_word(bytes, 8 * block, 0);
        if word == 0 {
            block += 1;
            continue;
        }
        if !is_mixed(word, values) {
            break;
        }
        push_block(&values[64 * block..64 * block + 64], word, &mut kept);
        block += 1;
    }
    *out = kept;
    block
}

/// Appends the values of a block whose bit is set, one by one if few are, and otherwise without
/// branches.
///
/// # Requires
/// `out` has spare capacity for 65 values.
#[inline(always)]
fn push_block<T: Copy>(block: &[T], mask: u64, out: &mut Vec<T>)
    requires block { length block.now ≡ 64 }
    requires room { vec_len out.old + 65 ≤ vec_capacity out.old }
    ensures appended { out.new.items ≡ out.old.items ++ select block.now (bits 64 mask) }
{
    if mask.count_ones() <= FEW_VALUES {
        push_few(block, mask, out);
    } else {
        push_dense(block, mask, out);
    }
}

/// Appends the values of a block whose bit is set, two set bits at a time.
///
/// # Requires
/// `out` has spare capacity for 65 values.
#[inline(always)]
fn push_few<T: Copy>(block: &[T], mask: u64, out: &mut Vec<T>)
    requires block { length block.now ≡ 64 }
    requires room { vec_len out.old + 65 ≤ vec_capacity out.old }
    ensures appended { out.new.items ≡ out.old.items ++ select block.now (bits 64 mask) }
{
    let all = out.len() + mask.count_ones() as usize;
    let mut rest = mask;
    while rest != 0 {
        out.push_reserved(block[rest.trailing_zeros() as usize]);
        rest &= rest - 1;
        out.push_reserved(block[rest.trailing_zeros() as usize % 64]);
        rest &= rest.wrapping_sub(1);
    }
    // (with an odd number of set bits, the last value is not one of them)
    out.truncate(all);
}

/// Appends the values whose bit is set, without a branch.
///
/// # Requires
/// `out` has spare capacity for 64 values.
#[inline(always)]
fn push_dense<T: Copy>(block: &[T], mask: u64, out: &mut Vec<T>)
    requires block { length block.now ≡ 64 }
    requires room { vec_len out.old + 64 ≤ vec_capacity out.old }
    ensures appended { out.new.items ≡ out.old.items ++ select block.now (bits 64 mask) }
{
    let mut word = mask;
    // Rounds of 16: in some builds rounds of 4 took 1.4 times as long, most likely by the place of
    // the loop in the code (docs/BENCHMARKS.md).
    for round in 0..4usize {
        let at = 16 * round;
        push_four(&block[at..at + 4], word, out);
        push_four(&block[at + 4..at + 8], word >> 4, out);
        push_four(&block[at + 8..at + 12], word >> 8, out);
        push_four(&block[at + 12..at + 16], word >> 12, out);
        word >>= 16;
    }
}

/// Appends those of four values whose bit is set in the four lowest bits of `word`.
///
/// # Requires
/// `out` has spare capacity for four values.
#[inline(always)]
fn push_four<T: Copy>(four: &[T], word: u64, out: &mut Vec<T>)
    requires four { length four.now ≡ 4 }
    requires room { vec_len out.old + 4 ≤ vec_capacity out.old }
    ensures appended { out.new.items ≡ out.old.items ++ select four.now (bits 4 word) }
    ensures capacity { vec_capacity out.new ≡ vec_capacity out.old }
{
    push_if(four[0], word & 1 == 1, out);
    push_if(four[1], (word >> 1) & 1 == 1, out);
    push_if(four[2], (word >> 2) & 1 == 1, out);
    push_if(four[3], (word >> 3) & 1 == 1, out);
}

/// Appends `value` if `keep` is true. Always writes it, so that no branch depends on `keep`.
///
/// # Requires
/// `out` has spare capacity for a value.
#[inline(always)]
fn push_if<T: Copy>(value: T, keep: bool, out: &mut Vec<T>)
    requires room { vec_len out.old < vec_capacity out.old }
    ensures appended { out.new.items ≡ out.old.items ++ select (value ∷ []) (keep ∷ []) }
    ensures capacity { vec_capacity out.new ≡ vec_capacity out.old }
{
    out.push_reserved(value);
    if !keep {
        let _ = out.take_last();
    }
}
