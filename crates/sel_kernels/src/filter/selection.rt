//! Masks that are prepared once, to filter any number of columns.

ghost use Rattle.std.specs.Prelude.{◌≡◌, ◌≤◌, ◌+◌, length, take, drop, IfOk, IfErr};
ghost use Rattle.std.specs.Option.{ForSome};
ghost use Rattle.sel_bits.specs.Faults.{IsOutOfMemory};
ghost use Rattle.sel_bits.specs.Bits.{count_true};
ghost use Rattle.sel_arrow.specs.Columns.{boolean_rows};
ghost use Rattle.sel_kernels.specs.Select.{effective_mask};
ghost use Rattle.sel_kernels.specs.Trim.{KeepsAll, IsRun};

use crate::runs::starts_of_runs;
use sel_arrow::boolean::BooleanArray;
use sel_bits::bitmap::Bitmap;
use sel_bits::faults::PolarsResult;
use sel_bits::words::{first_word, whole_word};
use std::alloc::Global;

/// The rows that a mask keeps, counted once, to filter any number of columns of as many rows.
#[derive(Drop)]
pub struct Selection {
    /// The mask; a null counts as false.
    pub mask: Bitmap,
    /// The number of kept rows.
    pub count: usize,
    /// The first kept row if the kept rows are consecutive, else none.
    pub first: Option<usize>,
    pub ghost counted: { count ≡ count_true mask.bits },
    pub ghost consecutive: { ForSome first (λ at. IsRun mask.bits at count) },
}

impl Selection {
    /// Returns the selection of the rows where `mask` is true and valid.
    ///
    /// # Errors
    /// `OutOfMemory` if an allocation fails.
    #[tactic(auto, using(crate::proofs::Selects::effective_masks))]
    pub fn new(alloc: Global, mask: &BooleanArray) -> PolarsResult<Selection>
        ensures mask { IfOk result (λ selection. selection.mask.bits ≡
            effective_mask (boolean_rows mask.now)) }
        ensures refusal { IfErr result IsOutOfMemory }
    {
        match &mask.validity {
            None => Selection::of_bitmap(mask.values.try_clone()?),
            Some(validity) => Selection::of_bitmap(mask.values.and(alloc, validity)?),
        }
    }

    /// Returns the selection of the rows whose bit in `mask` is set.
    ///
    /// # Errors
    /// `OutOfMemory` if a count of owners is full.
    pub fn of_bitmap(mask: Bitmap) -> PolarsResult<Selection>
        ensures mask { IfOk result (λ selection. selection.mask ≡ mask) }
        ensures refusal { IfErr result IsOutOfMemory }
    {
        let count = mask.set_bits();
        let first = first_kept(&mask, count)?;
        Ok(Selection { mask, count, first })
    }

    /// Returns the number of rows that a column must have to be filtered.
    pub fn len(&self) -> usize
        ensures { result ≡ length self.now.mask.bits }
    {
        self.mask.len()
    }
}

/// Returns the position of the first of the `count` true bits if they are consecutive, else `None`.
///
/// `None` is also returned for consecutive bits that are not looked for, which the contract leaves
/// open: then the kept rows are copied instead of shared.
pub(crate) fn first_kept(mask: &Bitmap, count: usize) -> PolarsResult<Option<usize>>
    requires { count ≡ count_true mask.now.bits }
    ensures first { IfOk result (λ first. ForSome first (λ at. IsRun mask.now.bits at count)) }
    ensures refusal { IfErr result IsOutOfMemory }
{
    if count == 0 {
        return Ok(Some(0));
    }
    if count == mask.len() {
        return Ok(Some(0));
    }
    if is_scattered(mask) {
        return Ok(None);
    }
    let (leading, rest) = trimmed(mask)?;
    if rest.is_all_true() {
        Ok(Some(leading))
    } else {
        Ok(None)
    }
}

/// Returns whether there is a false bit between true bits; reads no more words than that needs.
fn is_scattered(mask: &Bitmap) -> bool {
    let (bytes, shift, len) = mask.as_slice();
    let mut runs: u32 = 0;
    let mut before = 0;
    for block in 0..len / 64 {
        let word = whole_word(bytes, 8 * block, shift);
        runs = runs.wrapping_add(starts_of_runs(word, before).count_ones());
        if runs > 1 {
            return true;
        }
        before = word >> 63;
    }
    let word = first_word(&bytes[len / 64 * 8..], shift, len % 64);
    runs.wrapping_add(starts_of_runs(word, before).count_ones()) > 1
}

/// Returns the number of leading false bits and the mask without the false bits at both ends.
fn trimmed(mask: &Bitmap) -> PolarsResult<(usize, Bitmap)>
    ensures within { IfOk result (λ part. part.0 + length part.1.bits ≤ length mask.now.bits) }
    ensures part { IfOk result (λ part.
        part.1.bits ≡ take (length part.1.bits) (drop part.0 mask.now.bits)) }
    ensures kept { IfOk result (λ part. KeepsAll mask.now.bits part.0 part.1.bits) }
    ensures refusal { IfErr result IsOutOfMemory }
{
    let mut rest = mask.try_clone()?;
    let leading = rest.take_leading_zeros();
    let _ = rest.take_trailing_zeros();
    Ok((leading, rest))
}
