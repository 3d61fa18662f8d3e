//! If-then-else over slices of any length, block by block over the words of a mask.

ghost use Rattle.std.specs.Prelude.{◌≡◌, ◌≤◌, ◌<◌, ◌+◌, ◌/◌, List, length, take, drop, IfOk, IfErr, OnOk};
ghost use Rattle.sel_bits.specs.Faults.{IsOutOfMemory};
ghost use Rattle.sel_bits.specs.Words.{bits};
ghost use Rattle.sel_ternary.specs.Choose.{choose};

use crate::if_then_else::scalar::if_then_else_scalar_rest;
use sel_bits::aligned_words::AlignedWords;
use sel_bits::faults::PolarsResult;
use std::alloc::Global;

/// If-then-else for up to 64 rows at a time.
pub(crate) trait BlockChoice {
    type Item: Copy;

    /// The values for set bits.
    ghost trues: { Self → List Self.Item };

    /// The values for unset bits.
    ghost falses: { Self → List Self.Item };

    /// Writes the result for the rows `at .. at + out.len()` to `out`; bit `i` selects `out[i]`.
    fn choose_block(&self, mask: u64, at: usize, out: &mut [Self::Item])
        requires few { length out.old ≤ 64 }
        requires true_side { at + length out.old ≤ length (trues self.now) }
        requires false_side { at + length out.old ≤ length (falses self.now) }
        ensures { out.new ≡ choose (bits (length out.old) mask) (take (length out.old)
            (drop at (trues self.now))) (take (length out.old) (drop at (falses self.now))) };
}

/// Two slices.
#[derive(Drop)]
struct Between<'a, T> {
    if_true: &'a [T],
    if_false: &'a [T],
}

impl<T: Copy> BlockChoice for Between<'_, T> {
    type Item = T;

    ghost trues = { λ c. c.if_true.now };

    ghost falses = { λ c. c.if_false.now };

    fn choose_block(&self, mask: u64, at: usize, out: &mut [T]) {
        let if_true = &self.if_true[at..at + out.len()];
        let if_false = &self.if_false[at..at + out.len()];
        if_then_else_scalar_rest(mask, if_true, if_false, out)
    }
}

/// Overwrites `out` with the if-then-else result, block by block.
pub(crate) fn choose_blocks<C: BlockChoice>(
    choice: &C,
    mask: &mut AlignedWords<'_>,
    out: &mut [C::Item],
)
    requires unread { mask.old.words_read ≡ 0 }
    requires mask_side { length mask.old.source.bits ≡ length out.old }
    requires true_side { length (C.trues choice.now) ≡ length out.old }
    requires false_side { length (C.falses choice.now) ≡ length out.old }
    ensures items { out.new ≡ choose mask.old.source.bits
        (C.trues choice.now) (C.falses choice.now) }
    ensures words { mask.new.words_read ≤ length mask.old.source.bits / 64 + 2 }
    ensures source { mask.new.source ≡ mask.old.source }
{
    let mut at = 0;
    while let Some((word, count)) = mask.next() {
        choice.choose_block(word, at, &mut out[at..at + count]);
        at += count;
    }
}

/// Returns a vector with the value of `if_true` where the mask bit is set, else of `if_false`.
///
/// Reads the mask to its end, which the contract leaves open, in at most `len / 64 + 2` words for
/// `len` bits.
///
/// # Requires
/// `mask` is unread, and each slice has as many values as the mask has bits.
///
/// # Errors
/// `OutOfMemory` if an allocation fails.
pub fn if_then_else_words<T: Copy>(
    alloc: Global,
    mask: &mut AlignedWords<'_>,
    if_true: &[T],
    if_false: &[T],
) -> PolarsResult<Vec<T>>
    requires unread { mask.old.words_read ≡ 0 }
    requires true_side { length if_true.now ≡ length mask.old.source.bits }
    requires false_side { length if_false.now ≡ length mask.old.source.bits }
    ensures items { IfOk result (λ out. out.items ≡
        choose mask.old.source.bits if_true.now if_false.now) }
    ensures words { OnOk result (mask.new.words_read ≤ length mask.old.source.bits / 64 + 2) }
    ensures source { mask.new.source ≡ mask.old.source }
    ensures refusal { IfErr result IsOutOfMemory }
{
    let mut out = Vec::from_slice(alloc, if_false)?;
    let choice = Between { if_true, if_false };
    choose_blocks(&choice, mask, &mut out);
    Ok(out)
}
