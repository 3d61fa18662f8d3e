//! The row references of runs, as an iterator.

ghost use Rattle.std.specs.Prelude.{◌≡◌, ℕ, ◌≤◌, ◌<◌, ◌++◌, All, List, Option, length, false};
ghost use Rattle.sel_bits.specs.Limits.{max_rows};
ghost use Rattle.sel_runs.specs.Plans.{IsNear, IsPicked};
ghost use Rattle.sel_runs.specs.Runs.{expand, unrolled};

use crate::row_refs::Plan;
use crate::runs::{NO_ROWS, Run, split_first};

/// An iterator over runs. It is small, so that it can be copied before each pass.
pub trait Runs: Sized + Drop {
    /// The row references of the runs that are left.
    ghost picks: { Self → List (Option (ℕ × ℕ)) };

    /// Returns the next run with rows, and consumes the runs up to it.
    ///
    /// # Requires
    /// At least one row reference is left.
    fn next_run(&mut self) -> Run
        requires { 0 < length (picks self.old) }
        ensures picks { picks self.old ≡ unrolled result ++ picks self.new }
        ensures some { 0 < result.len };

    /// Returns an iterator over the same runs.
    fn again(&self) -> Self
        ensures { picks result ≡ picks self.now };

    /// Returns false only if no row reference is null, a hint as that of [`Plan::has_nulls`].
    fn has_nulls(&self) -> bool
        ensures { result ≡ false → All IsPicked (picks self.now) };

    /// Returns about how many runs are left, a hint as that of [`Plan::run_count`].
    fn run_count(&self) -> usize;
}

/// An iterator over a slice of runs.
#[derive(Drop)]
pub struct ListedRuns<'a> {
    pub runs: &'a [Run],
}

impl Runs for ListedRuns<'_> {
    ghost picks = { λ listed. expand listed.runs.now };

    #[inline(always)]
    fn next_run(&mut self) -> Run {
        let mut run = NO_ROWS;
        let mut rest = self.runs;
        while run.len == 0 {
            run = rest[0];
            rest = &rest[1..];
        }
        self.runs = rest;
        run
    }

    #[inline(always)]
    fn again(&self) -> Self {
        ListedRuns { runs: self.runs }
    }

    #[inline(always)]
    fn has_nulls(&self) -> bool {
        self.runs.iter().any(|run| run.source.is_none())
    }

    #[inline(always)]
    fn run_count(&self) -> usize {
        self.runs.len()
    }
}

/// An iterator over the row references of runs: those left of the run `first`, and those of the
/// runs `rest`. In total there are `left`, at most 2^32 - 1, and each row number is less than 2^32.
#[derive(Drop)]
pub struct RunRefs<R: Runs> {
    pub first: Run,
    pub rest: R,
    pub left: usize,
    pub ghost count: { length (unrolled first ++ R.picks rest) ≡ left },
    pub ghost few: { left ≤ max_rows },
    pub ghost near: { All IsNear (unrolled first ++ R.picks rest) },
}

impl<R: Runs> RunRefs<R> {
    // Advances to the next run with rows, unless rows of the current one are left.
    #[inline(always)]
    fn ready(&mut self)
        requires { 0 < self.old.left }
        ensures picks { unrolled self.new.first ++ R.picks self.new.rest ≡
            unrolled self.old.first ++ R.picks self.old.rest }
        ensures some { 0 < self.new.first.len }
        ensures left { self.new.left ≡ self.old.left }
    {
        if self.first.len == 0 {
            self.first = self.rest.next_run();
        }
    }
}

impl<R: Runs> Plan for RunRefs<R> {
    ghost picks = { λ refs. unrolled refs.first ++ R.picks refs.rest };

    #[inline(always)]
    fn len(&self) -> usize {
        self.left
    }

    #[inline(always)]
    fn next(&mut self) -> Option<(u32, u32)> {
        self.ready();
        let (next, others) = split_first(self.first);
        self.left -= 1;
        self.first = others;
        next
    }

    #[inline(always)]
    fn next_run(&mut self) -> Run {
        self.ready();
        let run = self.first;
        self.left -= run.len as usize;
        self.first = NO_ROWS;
        run
    }

    #[inline(always)]
    fn again(&self) -> Self {
        RunRefs {
            first: self.first,
            rest: self.rest.again(),
            left: self.left,
        }
    }

    fn has_nulls(&self) -> bool {
        match self.first.source {
            None => true,
            Some(_) => self.rest.has_nulls(),
        }
    }

    #[inline(always)]
    fn is_wide(&self) -> bool {
        true
    }

    #[inline(always)]
    fn run_count(&self) -> usize {
        self.rest.run_count()
    }
}
