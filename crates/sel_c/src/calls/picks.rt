//! Row references that callers pass.

ghost use Rattle.std.specs.Prelude.{◌≡◌, ◌≤◌, ◌<◌, ◌↔◌, All, length, map, slice_index_or, IsTrue, IfOk, IfErr};
ghost use Rattle.sel_bits.specs.Faults.{IsOutOfMemory};
ghost use Rattle.sel_bits.specs.Limits.{max_rows};
ghost use Rattle.sel_bits.specs.Validity.{Covers};
ghost use Rattle.sel_arrow.specs.Rows.{rows};
ghost use Rattle.sel_c.specs.Several.{pick_in, picks_from};
ghost use Rattle.sel_c.specs.PickLengths.{HasRow};

use crate::calls::several::PickWords;
use sel_arrow::array::Array;
use sel_arrow::array_ref::ArrayRef;
use sel_arrow::validity::is_valid_at;
use sel_bits::bitmap::Bitmap;
use sel_bits::faults::PolarsResult;
use sel_runs::row_refs::Places;
use std::alloc::Global;

/// Row references read from `words` on access, without a copy; null where the validity is false.
#[derive(Drop)]
pub(crate) struct WordPlaces<'a> {
    pub words: &'a [PickWords],
    pub validity: &'a Option<Bitmap>,
    pub ghost few: { length words.now ≤ max_rows },
    pub ghost covers: { Covers validity.now (length words.now) },
}

impl Places for WordPlaces<'_> {
    ghost picks = { λ places. picks_from 0 places.validity.now places.words.now };

    #[inline(always)]
    fn len(&self) -> usize {
        self.words.len()
    }

    #[inline(always)]
    fn get(&self, k: usize) -> Option<(u32, u32)> {
        pick_of(words_at(self.words, k), is_valid_at(self.validity, k))
    }

    #[inline(always)]
    fn again(&self) -> Self {
        WordPlaces {
            words: self.words,
            validity: self.validity,
        }
    }

    #[inline(always)]
    fn has_nulls(&self) -> bool {
        self.validity.is_some()
    }
}

// Returns the words of row reference `k`.
#[inline(always)]
fn words_at(words: &[PickWords], k: usize) -> PickWords
    requires { k < length words.now }
    ensures { result ≡ slice_index_or words.now k result }
{
    words[k]
}

// Returns the row reference in the words, or none if it is null.
#[inline(always)]
fn pick_of(words: PickWords, valid: bool) -> Option<(u32, u32)>
    ensures { result ≡ pick_in words valid }
{
    if valid {
        Some((words.source, words.row))
    } else {
        None
    }
}

/// Returns whether each row reference is null or in bounds, for columns of these lengths.
pub(crate) fn are_in_bounds(lengths: &[usize], places: &WordPlaces) -> bool
    ensures { IsTrue result ↔ All (HasRow lengths.now)
        (picks_from 0 places.now.validity.now places.now.words.now) }
{
    for k in 0..places.len() {
        if !has_row(lengths, places.get(k)) {
            return false;
        }
    }
    true
}

// Returns whether a row reference is null or in bounds, for columns of these lengths.
#[inline(always)]
fn has_row(lengths: &[usize], pick: Option<(u32, u32)>) -> bool
    ensures { IsTrue result ↔ HasRow lengths.now pick }
{
    match pick {
        None => true,
        Some((source, row)) => match lengths.get(source as usize) {
            None => false,
            Some(len) => (row as usize) < *len,
        },
    }
}

/// Returns the number of rows of each column.
///
/// # Errors
/// `OutOfMemory`.
pub(crate) fn lengths_of(alloc: Global, arrays: &[ArrayRef]) -> PolarsResult<Vec<usize>>
    ensures lengths { IfOk result (λ found. found.items ≡
        map (λ array. length (rows array.column)) arrays.now) }
    ensures refusal { IfErr result IsOutOfMemory }
{
    let mut found = Vec::with_capacity(alloc, arrays.len())?;
    for array in arrays {
        found.push(array.len())?;
    }
    Ok(found)
}
