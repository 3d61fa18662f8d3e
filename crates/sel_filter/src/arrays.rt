//! Filters for slices of arrays.

ghost use Rattle.std.specs.Prelude.{◌≡◌, ◌≤◌, ◌<◌, ◌^◌, ◌+◌, ◌*◌, ◌++◌, count_ones, length, IfOk, IfErr, OnOk};
ghost use Rattle.std.specs.List.{flat_map};
ghost use Rattle.std.specs.Vec.{vec_len, vec_capacity};
ghost use Rattle.sel_bits.specs.Faults.{IsOutOfMemory};
ghost use Rattle.sel_bits.specs.Words.{bits};
ghost use Rattle.sel_filter.specs.Select.{select};

use sel_bits::bitmap::Bitmap;
use sel_bits::faults::PolarsResult;
use sel_bits::words::{first_word, whole_word};
use std::alloc::Global;
use std::mem::replace;

/// Returns the items of the arrays where `mask` is true, in order; `count` is the number of arrays
/// to reserve memory for.
///
/// The result does not depend on `count`. With the number of true bits, memory is allocated once.
///
/// # Requires
/// `arrays` and `mask` have the same length, and an array has at most 64 items.
///
/// # Errors
/// `OutOfMemory` if an allocation fails.
pub fn filter_arrays<T: Copy, const N: usize>(
    alloc: Global,
    arrays: &[[T; N]],
    mask: &Bitmap,
    count: usize,
) -> PolarsResult<Vec<T>>
    requires lengths { length arrays.now ≡ length mask.now.bits }
    requires small { N ≤ 64 }
    ensures items { IfOk result (λ kept. kept.items ≡
        flat_map (λ array. array) (select arrays.now mask.now.bits)) }
    ensures refusal { IfErr result IsOutOfMemory }
{
    let (bytes, shift, len) = mask.as_slice();
    let mut kept = Vec::with_capacity(alloc, count.saturating_mul(N))?;
    for block in 0..len / 64 {
        let word = whole_word(bytes, 8 * block, shift);
        append_arrays(&arrays[64 * block..64 * block + 64], word, &mut kept)?;
    }
    let at = len / 64 * 64;
    let rest = len - at;
    let word = first_word(&bytes[len / 64 * 8..], shift, rest);
    append_arrays(&arrays[at..at + rest], word, &mut kept)?;
    Ok(kept)
}

/// Appends the items of the arrays whose bit is set.
///
/// Copies the whole block if all bits are set, and otherwise array by array.
///
/// # Errors
/// `OutOfMemory` if an allocation fails.
#[inline(always)]
#[tactic(auto, using(crate::proofs::Dense::kept_steps))]
fn append_arrays<T: Copy, const N: usize>(
    block: &[[T; N]],
    mask: u64,
    out: &mut Vec<T>,
) -> PolarsResult<()>
    requires block { length block.now ≤ 64 }
    requires fits { mask < 2 ^ length block.now }
    requires small { N ≤ 64 }
    ensures appended { OnOk result (out.new.items ≡ out.old.items
        ++ flat_map (λ array. array) (select block.now (bits (length block.now) mask))) }
    ensures refusal { IfErr result IsOutOfMemory }
{
    let count = mask.count_ones() as usize;
    if count == block.len() {
        out.extend_from_slice(block.as_flattened())?;
        return Ok(());
    }
    out.reserve(count * N)?;
    push_arrays(block, mask, out);
    Ok(())
}

/// Appends the items of the arrays whose bit is set, array by array.
///
/// # Requires
/// `out` has spare capacity for them.
#[inline(always)]
#[tactic(auto, using(crate::proofs::Dense::kept_steps))]
fn push_arrays<T: Copy, const N: usize>(block: &[[T; N]], mask: u64, out: &mut Vec<T>)
    requires block { length block.now ≤ 64 }
    requires fits { mask < 2 ^ length block.now }
    requires room { vec_len out.old + count_ones mask * N ≤ vec_capacity out.old }
    ensures appended { out.new.items ≡ out.old.items
        ++ flat_map (λ array. array) (select block.now (bits (length block.now) mask)) }
{
    // A vector of this function alone, so that its length stays in a register.
    let alloc = *out.allocator();
    let mut kept = replace(out, Vec::new(alloc));
    let mut rest = mask;
    while rest != 0 {
        push_array(&block[rest.trailing_zeros() as usize], &mut kept);
        rest &= rest - 1;
    }
    *out = kept;
}

/// Appends the items of an array.
///
/// # Requires
/// `out` has spare capacity for them.
#[inline(always)]
fn push_array<T: Copy, const N: usize>(array: &[T; N], out: &mut Vec<T>)
    requires room { vec_len out.old + N ≤ vec_capacity out.old }
    ensures appended { out.new.items ≡ out.old.items ++ array.now }
    ensures len { vec_len out.new ≡ vec_len out.old + N }
    ensures capacity { vec_capacity out.new ≡ vec_capacity out.old }
{
    for i in 0..N {
        out.push_reserved(array[i]);
    }
}
