//! If-then-else over columns of integers or views, 16 values at a time.

ghost use Rattle.std.specs.Prelude.{◌≡◌, ◌≤◌, ◌+◌, ◌/◌, ◌++◌, List, length, take, drop, replicate, IfOk, IfErr, OnOk};
ghost use Rattle.std.specs.Vec.{vec_len, vec_capacity};
ghost use Rattle.sel_bits.specs.Faults.{IsOutOfMemory};
ghost use Rattle.sel_bits.specs.Words.{bits};
ghost use Rattle.sel_ternary.specs.Choose.{choose, broadcast_both, broadcast_false, broadcast_true};
ghost use Rattle.sel_ternary.specs.SideValues.{side_values};

use crate::if_then_else::lanes::{ChooseLanes, push_bits};
use crate::if_then_else::side::Side;
use sel_bits::bitmap::Bitmap;
use sel_bits::buffer::Buffer;
use sel_bits::faults::PolarsResult;
use sel_bits::words::{first_word, whole_word};
use std::alloc::Global;

/// Returns if-then-else for the values of integer columns, or `OutOfMemory`.
///
/// Reads the mask to its end.
pub(crate) fn choose_columns<T: ChooseLanes>(
    alloc: Global,
    mask: &Bitmap,
    if_true: &[T],
    if_false: &[T],
) -> PolarsResult<Buffer<T>>
    requires true_side { length if_true.now ≡ length mask.now.bits }
    requires false_side { length if_false.now ≡ length mask.now.bits }
    ensures items { IfOk result (λ out. out ≡
        choose mask.now.bits if_true.now if_false.now) }
    ensures refusal { IfErr result IsOutOfMemory }
{
    choose_sides(alloc, mask, &Side::Rows(if_true), &Side::Rows(if_false))
}

/// Returns if-then-else of an integer and a column's values, or `OutOfMemory`.
#[tactic(auto, using(crate::proofs::Parts::broadcasts))]
pub(crate) fn choose_scalar_or_column<T: ChooseLanes>(
    alloc: Global,
    mask: &Bitmap,
    if_true: T,
    if_false: &[T],
) -> PolarsResult<Buffer<T>>
    requires { length if_false.now ≡ length mask.now.bits }
    ensures items { IfOk result (λ out. out ≡ broadcast_true mask.now.bits if_true
        if_false.now) }
    ensures refusal { IfErr result IsOutOfMemory }
{
    let if_true = Side::Scalar(if_true, mask.len());
    let out = choose_sides(alloc, mask, &if_true, &Side::Rows(if_false))?;
    Ok(out)
}

/// Returns if-then-else of a column's values and an integer, or `OutOfMemory`.
#[tactic(auto, using(crate::proofs::Parts::broadcasts))]
pub(crate) fn choose_column_or_scalar<T: ChooseLanes>(
    alloc: Global,
    mask: &Bitmap,
    if_true: &[T],
    if_false: T,
) -> PolarsResult<Buffer<T>>
    requires { length if_true.now ≡ length mask.now.bits }
    ensures items { IfOk result (λ out. out ≡
        broadcast_false mask.now.bits if_true.now if_false) }
    ensures refusal { IfErr result IsOutOfMemory }
{
    let if_false = Side::Scalar(if_false, mask.len());
    let out = choose_sides(alloc, mask, &Side::Rows(if_true), &if_false)?;
    Ok(out)
}

/// Returns if-then-else of two integers, or `OutOfMemory`.
#[tactic(auto, using(crate::proofs::Parts::broadcasts))]
pub(crate) fn choose_scalars<T: ChooseLanes>(
    alloc: Global,
    mask: &Bitmap,
    if_true: T,
    if_false: T,
) -> PolarsResult<Buffer<T>>
    ensures items { IfOk result (λ out. out ≡ broadcast_both mask.now.bits if_true
        if_false) }
    ensures refusal { IfErr result IsOutOfMemory }
{
    let if_true = Side::Scalar(if_true, mask.len());
    let if_false = Side::Scalar(if_false, mask.len());
    let out = choose_sides(alloc, mask, &if_true, &if_false)?;
    Ok(out)
}

/// Returns if-then-else for all rows, by 64 bits of the mask at a time, or `OutOfMemory`.
#[inline(always)]
fn choose_sides<T: ChooseLanes>(
    alloc: Global,
    mask: &Bitmap,
    if_true: &Side<T>,
    if_false: &Side<T>,
) -> PolarsResult<Buffer<T>>
    requires true_side { length (side_values if_true.now) ≡ length mask.now.bits }
    requires false_side { length (side_values if_false.now) ≡ length mask.now.bits }
    ensures items { IfOk result (λ out. out ≡
        choose mask.now.bits (side_values if_true.now) (side_values if_false.now)) }
    ensures refusal { IfErr result IsOutOfMemory }
{
    let (bytes, shift, len) = mask.as_slice();
    let mut out = Vec::with_capacity(alloc, len)?;
    for block in 0..len / 64 {
        let (at, word) = (64 * block, whole_word(bytes, 8 * block, shift));
        let (trues, falses) = (if_true.part(at, 64), if_false.part(at, 64));
        push_word(word, 64, &trues, &falses, &mut out);
    }
    let (at, count) = (len / 64 * 64, len % 64);
    let word = first_word(&bytes[at / 8..], shift, count);
    let (trues, falses) = (if_true.part(at, count), if_false.part(at, count));
    push_word(word, count, &trues, &falses, &mut out);
    Buffer::from_vec(out)
}

/// Appends for each `i` below `count` the value of row `i` of `if_true` if bit `i` of `mask` is
/// set, else that of `if_false`.
#[inline(always)]
fn push_word<T: ChooseLanes>(
    mask: u64,
    count: usize,
    if_true: &Side<T>,
    if_false: &Side<T>,
    out: &mut Vec<T>,
)
    requires few { count ≤ 64 }
    requires true_side { length (side_values if_true.now) ≡ count }
    requires false_side { length (side_values if_false.now) ≡ count }
    requires room { vec_len out.old + count ≤ vec_capacity out.old }
    ensures items { out.new.items ≡ out.old.items ++
        choose (bits count mask) (side_values if_true.now) (side_values if_false.now) }
    ensures capacity { vec_capacity out.new ≡ vec_capacity out.old }
{
    for k in 0..count / 16 {
        let at = 16 * k;
        let part = ((mask >> at) % 65536) as u16;
        let (trues, falses) = (if_true.part(at, 16), if_false.part(at, 16));
        T::push_sides(part, &trues, &falses, out);
    }
    let at = count / 16 * 16;
    let rest = count - at;
    if rest > 0 {
        let (trues, falses) = (if_true.part(at, rest), if_false.part(at, rest));
        push_bits(mask >> at, rest, &trues, &falses, out)
    }
}
