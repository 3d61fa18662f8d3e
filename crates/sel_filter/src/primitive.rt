//! Filters for slices of values.

ghost use Rattle.std.specs.Prelude.{◌≡◌, ◌+◌, ◌-◌, ◌/◌, ◌^◌, ◌<◌, ◌≤◌, ◌++◌, length, drop, false, IfOk, IfErr, OnOk};
ghost use Rattle.sel_bits.specs.Faults.{IsOutOfMemory};
ghost use Rattle.sel_bits.specs.Copying.{IsBeginning};
ghost use Rattle.sel_bits.specs.Words.{bits};
ghost use Rattle.sel_filter.specs.Runs.{run_starts, starts_after};
ghost use Rattle.sel_filter.specs.Select.{select};

use crate::block::{SPARE, append_blocks, count_set};
use crate::scalar::scalar_filter_offset;
use sel_bits::aligned_words::AlignedWords;
use sel_bits::bitmap::Bitmap;
use sel_bits::block_copy::BlockCopy;
use sel_bits::faults::PolarsResult;
use std::alloc::Global;

/// Returns the values where `mask` is true, in order.
///
/// # Requires
/// `values` and `mask` have the same length.
///
/// # Errors
/// `OutOfMemory` if an allocation fails.
pub fn filter_values<T: Copy>(alloc: Global, values: &[T], mask: &Bitmap) -> PolarsResult<Vec<T>>
    requires { length values.now ≡ length mask.now.bits }
    ensures items { IfOk result (λ kept. kept.items ≡ select values.now mask.now.bits) }
    ensures refusal { IfErr result IsOutOfMemory }
{
    let (bytes, _, _) = mask.as_slice();
    filter_counted_values(alloc, values, mask, count_set(bytes))
}

/// Returns the values where `mask` is true, in order; `count` is the number of values to reserve
/// memory for.
///
/// The result does not depend on `count`. With the number of true bits, memory is allocated once.
///
/// # Requires
/// `values` and `mask` have the same length.
///
/// # Errors
/// `OutOfMemory` if an allocation fails.
#[tactic(auto, using(crate::proofs::Selects::selected))]
pub fn filter_counted_values<T: Copy>(
    alloc: Global,
    values: &[T],
    mask: &Bitmap,
    count: usize,
) -> PolarsResult<Vec<T>>
    requires { length values.now ≡ length mask.now.bits }
    ensures items { IfOk result (λ kept. kept.items ≡ select values.now mask.now.bits) }
    ensures refusal { IfErr result IsOutOfMemory }
{
    let mut kept = Vec::with_capacity(alloc, count.saturating_add(SPARE))?;
    let (rest, rest_bytes) = scalar_filter_offset(values, mask, &mut kept)?;
    append_blocks(rest, rest_bytes, &mut kept)?;
    Ok(kept)
}

/// Appends the items of the source where `mask` is true, one copy per run of true bits.
///
/// A run that crosses a word boundary is split there. On success `mask` is read to its end, which
/// the contract leaves open.
///
/// # Requires
/// `out` has made no copies, nothing has been read from `mask`, and the source of `out` has the
/// same length as the source of `mask`.
///
/// # Errors
/// `OutOfMemory` if an allocation fails. The items of `out` are then a prefix of the full result.
#[tactic(auto, using(crate::proofs::RunFiltering::run_steps))]
pub fn filter_runs<T: Copy>(
    out: &mut BlockCopy<'_, T>,
    mask: &mut AlignedWords<'_>,
) -> PolarsResult<()>
    requires fresh { out.old.copies ≡ 0 }
    requires unread { mask.old.words_read ≡ 0 }
    requires lengths { length out.old.source ≡ length mask.old.source.bits }
    ensures items { OnOk result
        (out.new.items ≡ out.old.items ++ select out.old.source mask.old.source.bits) }
    ensures words { mask.new.words_read ≤ length mask.old.source.bits / 64 + 2 }
    ensures copies { OnOk result
        (out.new.copies ≤ mask.new.words_read + run_starts mask.old.source.bits) }
    ensures source { out.new.source ≡ out.old.source }
    ensures mask_source { mask.new.source ≡ mask.old.source }
    ensures beginning { IsBeginning out.new.items
        (out.old.items ++ select out.old.source mask.old.source.bits) }
    ensures refusal { IfErr result IsOutOfMemory }
{
    // The number of bits fits in `usize`.
    let _whole = mask.len();
    let mut start = 0;
    while let Some((word, count)) = mask.next() {
        copy_runs(out, start, word)?;
        start += count;
    }
    Ok(())
}

/// Appends the items at the set bits of `word`, one copy per run; bit 0 belongs to item `start`.
#[tactic(auto, using(crate::proofs::Running::running))]
fn copy_runs<T: Copy>(out: &mut BlockCopy<'_, T>, start: usize, word: u64) -> PolarsResult<()>
    requires fits { length out.old.source < 2 ^ 64 }
    requires start { start ≤ length out.old.source }
    requires within { word < 2 ^ (length out.old.source - start) }
    requires counted { out.old.copies + starts_after false
        (bits (length out.old.source - start) word) < 2 ^ 64 }
    ensures appended { OnOk result
        (out.new.items
        ≡ out.old.items ++ select (drop start out.old.source)
        (bits (length out.old.source - start) word)) }
    ensures source { out.new.source ≡ out.old.source }
    ensures counted { OnOk result
        (out.new.copies
        ≡ out.old.copies + starts_after false (bits (length out.old.source - start) word)) }
    ensures beginning { IsBeginning out.new.items
        (out.old.items ++ select (drop start out.old.source)
        (bits (length out.old.source - start) word)) }
    ensures refusal { IfErr result IsOutOfMemory }
{
    let mut at = start;
    let mut rest = word;
    while rest != 0 {
        let skip = rest.trailing_zeros();
        let run = (rest >> skip).trailing_ones();
        at += skip as usize;
        out.copy(at, run as usize)?;
        at += run as usize;
        rest = ((rest >> skip) >> (run - 1)) >> 1;
    }
    Ok(())
}
