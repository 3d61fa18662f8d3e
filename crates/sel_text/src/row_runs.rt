//! Parsed rows that a column is built of, each stored once however often it is repeated.

ghost use Rattle.std.specs.Prelude.{◌≡◌, ◌<◌, ◌∷◌, ◌++◌, length, map, replicate, IfOk, IfErr, OnOk};
ghost use Rattle.sel_text.specs.ItemValues.{item_value, rows_read};
ghost use Rattle.sel_text.specs.RowRuns.{all_items, left, rows_repeated};
ghost use Rattle.sel_text.specs.Steps.{IsMemoryFault};

use crate::item::Item;
use crate::text_error::Fault;
use std::alloc::Global;

/// A parsed row, repeated `times` times.
#[derive(Clone, Copy)]
pub(crate) struct RowRun<'a> {
    pub(crate) item: &'a Item,
    pub(crate) times: usize,
}

/// Returns the number of rows. Fails only with `OutOfMemory`.
pub(crate) fn row_count(runs: &[RowRun<'_>]) -> Result<usize, Fault>
    ensures count { IfOk result (λ count. count ≡ length (rows_repeated runs.now)) }
    ensures memory { IfErr result IsMemoryFault }
{
    let mut count: usize = 0;
    for run in runs {
        count = match count.checked_add(run.times) {
            Some(count) => count,
            None => return Err(Fault::OutOfMemory),
        };
    }
    Ok(count)
}

/// Returns each of the rows as a run of one. Fails only with `OutOfMemory`.
pub(crate) fn once_each<'a>(alloc: Global, items: &[&'a Item]) -> Result<Vec<RowRun<'a>>, Fault>
    ensures rows { IfOk result (λ runs. rows_repeated runs.items ≡ rows_read items.now) }
    ensures memory { IfErr result IsMemoryFault }
{
    let mut runs = Vec::with_capacity(alloc, items.len())?;
    for item in items {
        runs.push(RowRun { item, times: 1 })?;
    }
    Ok(runs)
}

/// Appends each row of `list` as a run of one. Fails only with `OutOfMemory`.
pub(crate) fn push_entries<'a>(entries: &mut Vec<RowRun<'a>>, list: &'a [Item]) -> Result<(), Fault>
    ensures entries { OnOk result (rows_repeated entries.new.items ≡
        rows_repeated entries.old.items ++ map item_value list.now) }
    ensures memory { IfErr result IsMemoryFault }
{
    for entry in list {
        entries.push(RowRun {
            item: entry,
            times: 1,
        })?;
    }
    Ok(())
}

/// The rows of some runs that are left, as an iterator.
#[derive(Drop)]
pub(crate) struct RowWalk<'r, 'a> {
    pub(crate) runs: &'r [RowRun<'a>],
    pub(crate) used: usize,
}

impl<'r, 'a> RowWalk<'r, 'a> {
    /// Returns an iterator over all rows of the runs.
    pub(crate) fn new(runs: &'r [RowRun<'a>]) -> RowWalk<'r, 'a>
        ensures { left result ≡ all_items runs.now }
    {
        RowWalk { runs, used: 0 }
    }

    /// Returns the next row and consumes it.
    ///
    /// # Requires
    /// A row is left.
    #[tactic(auto, using(crate::proofs::RowRuns::some_runs, crate::proofs::RowRuns::left_past, crate::proofs::RowRuns::left_in))]
    pub(crate) fn next(&mut self) -> &'a Item
        requires { 0 < length (left self.old) }
        ensures { left self.old ≡ result ∷ left self.new }
    {
        while self.used >= self.runs[0].times {
            self.used -= self.runs[0].times;
            self.runs = &self.runs[1..];
        }
        // (what is used of a run is less than a `usize`, so that one more fits)
        let times = self.runs[0].times;
        prove!(self.used < times);
        self.used += 1;
        self.runs[0].item
    }
}
