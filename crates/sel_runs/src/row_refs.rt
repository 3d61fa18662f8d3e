//! Iterators over row references, which compute each reference on demand.

ghost use Rattle.std.specs.Prelude.{◌≡◌, ℕ, ◌<◌, ◌≤◌, ◌∷◌, ◌+◌, ◌++◌, All, List, Option, None, length, drop, slice_index_or, false, IfOk, IfErr};
ghost use Rattle.sel_bits.specs.Faults.{IsOutOfMemory};
ghost use Rattle.sel_bits.specs.Limits.{max_rows};
ghost use Rattle.sel_runs.specs.Plans.{IsPicked};
ghost use Rattle.sel_runs.specs.Runs.{expand, unrolled};

use crate::runs::{Run, continues, joined, nulls_of, push_run, run_of_pick};
use sel_bits::faults::PolarsResult;
use std::alloc::Global;

/// An iterator over row references. It is small, so that it can be copied before each pass.
pub trait Plan: Sized + Drop {
    /// The row references that are left.
    ghost picks: { Self → List (Option (ℕ × ℕ)) };

    /// Returns the number of row references that are left, at most 2^32 - 1.
    fn len(&self) -> usize
        ensures len { result ≡ length (picks self.now) }
        ensures few { result ≤ max_rows };

    /// Returns the next row reference and consumes it.
    ///
    /// # Requires
    /// At least one row reference is left.
    fn next(&mut self) -> Option<(u32, u32)>
        requires { 0 < length (picks self.old) }
        ensures { picks self.old ≡ result ∷ picks self.new };

    /// Returns the next row references as one run of at least one row, and consumes them.
    ///
    /// # Requires
    /// At least one row reference is left.
    fn next_run(&mut self) -> Run
        requires { 0 < length (picks self.old) }
        ensures picks { picks self.old ≡ unrolled result ++ picks self.new }
        ensures some { 0 < result.len };

    /// Returns an iterator over the same row references.
    fn again(&self) -> Self
        ensures { picks result ≡ picks self.now };

    /// Returns false only if no row reference is null.
    ///
    /// The result is a hint for speed: an implementation may return true even if none is null.
    fn has_nulls(&self) -> bool
        ensures { result ≡ false → All IsPicked (picks self.now) };

    /// Returns whether most runs have more than one row, so that copying by runs is faster.
    ///
    /// The result is a hint for speed, which the contract leaves open.
    fn is_wide(&self) -> bool;

    /// Returns about how many runs [`Plan::next_run`] returns until no row reference is left.
    ///
    /// The result is a hint for memory, which the contract leaves open.
    fn run_count(&self) -> usize;
}

/// An iterator over a slice of row references.
#[derive(Drop)]
pub struct Listed<'a> {
    pub picks: &'a [Option<(u32, u32)>],
    pub ghost few: { length picks.now ≤ max_rows },
}

impl Plan for Listed<'_> {
    ghost picks = { λ plan. plan.picks.now };

    #[inline(always)]
    fn len(&self) -> usize {
        self.picks.len()
    }

    #[inline(always)]
    fn next(&mut self) -> Option<(u32, u32)> {
        let next = self.picks[0];
        self.picks = &self.picks[1..];
        next
    }

    #[inline(always)]
    fn next_run(&mut self) -> Run {
        run_of_pick(self.next())
    }

    #[inline(always)]
    fn again(&self) -> Self {
        Listed { picks: self.picks }
    }

    fn has_nulls(&self) -> bool {
        self.picks.iter().any(|pick| pick.is_none())
    }

    #[inline(always)]
    fn is_wide(&self) -> bool {
        false
    }

    #[inline(always)]
    fn run_count(&self) -> usize {
        self.len()
    }
}

/// A random-access sequence of row references, which computes each reference on demand.
pub trait Places: Sized + Drop {
    /// The row references.
    ghost picks: { Self → List (Option (ℕ × ℕ)) };

    /// Returns the number of row references, at most 2^32 - 1.
    fn len(&self) -> usize
        ensures len { result ≡ length (picks self.now) }
        ensures few { result ≤ max_rows };

    /// Returns row reference `k`.
    ///
    /// # Requires
    /// `k` is less than `len()`.
    fn get(&self, k: usize) -> Option<(u32, u32)>
        requires { k < length (picks self.now) }
        ensures { result ≡ slice_index_or (picks self.now) k None };

    /// Returns the same row references.
    fn again(&self) -> Self
        ensures { picks result ≡ picks self.now };

    /// Returns false only if no row reference is null.
    ///
    /// The result is a hint for speed: an implementation may return true even if none is null.
    fn has_nulls(&self) -> bool
        ensures { result ≡ false → All IsPicked (picks self.now) };

    /// Returns whether row references often continue those before them, so that the next run is
    /// worth looking for.
    ///
    /// The result is a hint for speed, which the contract leaves open.
    #[inline(always)]
    fn is_in_runs(&self) -> bool {
        false
    }
}

/// An iterator over the row references of `places` from index `at` on.
#[derive(Drop)]
pub struct Walk<G: Places> {
    pub places: G,
    pub at: usize,
    pub ghost within: { at ≤ length (G.picks places) },
}

impl<G: Places> Walk<G> {
    // Returns the run with the row references after it that continue it, and consumes those.
    fn extended(&mut self, run: Run) -> Run
        requires few { run.len + length (drop self.old.at (G.picks self.old.places)) ≤ max_rows }
        ensures picks { unrolled run ++ drop self.old.at (G.picks self.old.places) ≡
            unrolled result ++ drop self.new.at (G.picks self.new.places) }
        ensures some { run.len ≤ result.len }
    {
        let len = self.places.len();
        let mut all = run;
        while self.at < len {
            let Some(both) = joined(all, run_of_pick(self.places.get(self.at))) else {
                return all;
            };
            all = both;
            self.at += 1;
        }
        all
    }
}

impl<G: Places> Plan for Walk<G> {
    ghost picks = { λ walk. drop walk.at (G.picks walk.places) };

    #[inline(always)]
    fn len(&self) -> usize {
        self.places.len() - self.at
    }

    #[inline(always)]
    fn next(&mut self) -> Option<(u32, u32)> {
        // (there are no more row references than an index can address)
        let _len = self.places.len();
        let next = self.places.get(self.at);
        self.at += 1;
        next
    }

    #[inline(always)]
    fn next_run(&mut self) -> Run {
        let _len = self.places.len();
        let run = run_of_pick(self.next());
        if self.places.is_in_runs() {
            return self.extended(run);
        }
        run
    }

    #[inline(always)]
    fn again(&self) -> Walk<G> {
        Walk {
            places: self.places.again(),
            at: self.at,
        }
    }

    #[inline(always)]
    fn has_nulls(&self) -> bool {
        self.places.has_nulls()
    }

    #[inline(always)]
    fn is_wide(&self) -> bool {
        false
    }

    #[inline(always)]
    fn run_count(&self) -> usize {
        self.len()
    }
}

/// Returns the runs of the row references of a plan; contiguous runs are merged.
///
/// # Errors
/// `OutOfMemory` if an allocation fails.
pub fn runs_of_plan<P: Plan>(alloc: Global, plan: &P) -> PolarsResult<Vec<Run>>
    ensures picks { IfOk result (λ runs. expand runs.items ≡ P.picks plan.now) }
    ensures refusal { IfErr result IsOutOfMemory }
{
    let mut runs = Vec::with_capacity(alloc, count_runs(plan))?;
    let mut rest = plan.again();
    let mut left = plan.len();
    while left > 0 {
        let run = rest.next_run();
        push_run(&mut runs, run)?;
        left -= run.len as usize;
    }
    Ok(runs)
}

// Returns how many runs the row references of a plan form, or one more.
//
// The result is a hint for memory: growth by doubling could take three times as much as the runs.
fn count_runs<P: Plan>(plan: &P) -> usize {
    let mut count = 1;
    let mut last = nulls_of(0);
    let mut rest = plan.again();
    let mut left = plan.len();
    while left > 0 {
        let run = rest.next_run();
        if !continues(last, run) {
            count += 1;
        }
        last = run;
        left -= run.len as usize;
    }
    count
}

/// Returns the runs of row references; contiguous runs are merged.
///
/// # Requires
/// There are at most 2^32 - 1 row references.
///
/// # Errors
/// `OutOfMemory` if an allocation fails.
pub fn runs_of_picks(alloc: Global, picks: &[Option<(u32, u32)>]) -> PolarsResult<Vec<Run>>
    requires { length picks.now ≤ max_rows }
    ensures picks { IfOk result (λ runs. expand runs.items ≡ picks.now) }
    ensures refusal { IfErr result IsOutOfMemory }
{
    runs_of_plan(alloc, &Listed { picks })
}
