//! Row references of one column, built from a mask or from indices.

ghost use Rattle.std.specs.Prelude.{◌≡◌, ◌≤◌, ◌<◌, slice_index_or, drop, length, map};
ghost use Rattle.sel_bits.specs.Limits.{max_rows};
ghost use Rattle.sel_arrow.specs.Columns.{primitive_rows};
ghost use Rattle.sel_arrow.specs.Value.{Null};
ghost use Rattle.sel_kernels.specs.Pick.{pick_of, place_pick};
ghost use Rattle.sel_kernels.specs.Select.{kept_from};

use sel_arrow::array::Array;
use sel_arrow::primitive::IdxArr;
use sel_bits::bitmap::Bitmap;
use sel_bits::words::{first_word, whole_word};
use sel_runs::row_refs::Places;
use sel_runs::run_refs::Runs;
use sel_runs::runs::Run;

/// An iterator over the maximal runs of true bits in `mask`, as rows of source 0, from bit `at` on.
///
/// A run is read from the mask when it is next, so that the runs are not listed.
#[derive(Drop)]
pub(crate) struct MaskRuns<'a> {
    pub(crate) mask: &'a Bitmap,
    pub(crate) at: usize,
    pub(crate) ghost within: { at ≤ length mask.now.bits },
    pub(crate) ghost few: { length mask.now.bits ≤ max_rows },
}

impl Runs for MaskRuns<'_> {
    ghost picks = { λ runs. map place_pick (kept_from runs.at (drop runs.at runs.mask.now.bits)) };

    #[inline(always)]
    #[tactic(auto, using(crate::proofs::Selects::run_kept, crate::proofs::Selects::run_some))]
    fn next_run(&mut self) -> Run {
        let start = self.at + self.mask.zeros_from(self.at);
        let len = self.mask.ones_from(start);
        self.at = start + len;
        Run {
            source: Some(0),
            start: start as u32,
            len: len as u32,
        }
    }

    #[inline(always)]
    fn again(&self) -> Self {
        MaskRuns {
            mask: self.mask,
            at: self.at,
        }
    }

    #[inline(always)]
    #[tactic(auto, using(crate::proofs::Selects::kept_picked))]
    fn has_nulls(&self) -> bool {
        false
    }

    // (also the runs before bit `at`)
    #[inline(always)]
    fn run_count(&self) -> usize {
        count_runs(self.mask)
    }
}

/// An iterator over the true bits in `mask`, each a run of one row of source 0, from bit `at` on.
///
/// Where runs are short, this is faster than [`MaskRuns`], since no branch depends on the length of
/// a run.
#[derive(Clone, Copy, Drop)]
pub(crate) struct MaskRows<'a> {
    pub(crate) mask: &'a Bitmap,
    pub(crate) at: usize,
    pub(crate) ghost within: { at ≤ length mask.now.bits },
    pub(crate) ghost few: { length mask.now.bits ≤ max_rows },
}

impl Runs for MaskRows<'_> {
    ghost picks = { λ runs. map place_pick (kept_from runs.at (drop runs.at runs.mask.now.bits)) };

    #[inline(always)]
    #[tactic(auto, using(crate::proofs::Selects::row_kept, crate::proofs::Selects::row_within))]
    fn next_run(&mut self) -> Run {
        let row = self.at + self.mask.zeros_from(self.at);
        self.at = row + 1;
        Run {
            source: Some(0),
            start: row as u32,
            len: 1,
        }
    }

    #[inline(always)]
    fn again(&self) -> Self {
        *self
    }

    #[inline(always)]
    #[tactic(auto, using(crate::proofs::Selects::kept_picked))]
    fn has_nulls(&self) -> bool {
        false
    }

    // (rows that follow one another are counted once: they become one run where runs are listed)
    #[inline(always)]
    fn run_count(&self) -> usize {
        count_runs(self.mask)
    }
}

/// Returns the number of maximal runs of true bits in `mask`. Only capacity depends on the result.
pub(crate) fn count_runs(mask: &Bitmap) -> usize {
    let (bytes, shift, len) = mask.as_slice();
    let mut count: usize = 0;
    let mut before = 0;
    for block in 0..len / 64 {
        let word = whole_word(bytes, 8 * block, shift);
        count = count.wrapping_add(starts_of_runs(word, before).count_ones() as usize);
        before = word >> 63;
    }
    let word = first_word(&bytes[len / 64 * 8..], shift, len % 64);
    count.wrapping_add(starts_of_runs(word, before).count_ones() as usize)
}

/// Returns a word whose set bits are the first bits of the runs of set bits in `word`; bit 0 of
/// `before` is the bit before them.
#[inline(always)]
pub(crate) fn starts_of_runs(word: u64, before: u64) -> u64 {
    word & !((word << 1) | before)
}

/// Row references into one column, given by indices; a null index refers to no row.
#[derive(Drop)]
pub(crate) struct Taken<'a> {
    pub(crate) indices: &'a IdxArr,
}

impl Places for Taken<'_> {
    ghost picks = { λ taken. map pick_of (primitive_rows taken.indices.now) };

    #[inline(always)]
    #[tactic(auto, using(crate::proofs::Selects::taken_places))]
    fn len(&self) -> usize {
        self.indices.len()
    }

    #[inline(always)]
    #[tactic(auto, using(crate::proofs::Selects::taken_places))]
    fn get(&self, k: usize) -> Option<(u32, u32)> {
        pick_at(self.indices, k)
    }

    #[inline(always)]
    fn again(&self) -> Self {
        Taken {
            indices: self.indices,
        }
    }

    #[inline(always)]
    fn has_nulls(&self) -> bool {
        match &self.indices.validity {
            None => false,
            Some(_) => true,
        }
    }
}

// Returns the row reference of index `k`, or `None` if it is null.
#[inline(always)]
fn pick_at(indices: &IdxArr, k: usize) -> Option<(u32, u32)>
    requires { k < length (primitive_rows indices.now) }
    ensures { result ≡ pick_of (slice_index_or (primitive_rows indices.now) k Null) }
{
    match indices.get(k) {
        None => None,
        Some(place) => Some((0, place)),
    }
}
