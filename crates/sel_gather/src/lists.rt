//! Child rows of gathered lists.

ghost use Rattle.std.specs.Prelude.{◌≡◌, ◌≤◌, ◌<◌, ◌+◌, ◌*◌, ◌++◌, true, All, length, map, slice_index_or, IfOk, IfErr, OnOk};
ghost use Rattle.sel_bits.specs.Faults.{IsOutOfMemory};
ghost use Rattle.sel_bits.specs.Limits.{max_rows};
ghost use Rattle.sel_arrow.specs.Rows.{rows, type_of, IsWellFormed};
ghost use Rattle.sel_arrow.specs.Value.{Null};
ghost use Rattle.sel_gather.specs.Children.{child, is_listing, items_in, joined_items};
ghost use Rattle.sel_gather.specs.ItemPicks.{item_picks, part_of};
ghost use Rattle.sel_runs.specs.Picks.{pick, PickFits};
ghost use Rattle.sel_runs.specs.Runs.{expand, picks_of, unrolled};
ghost use Rattle.sel_gather.specs.Sources.{picked, rows_of};
ghost use Rattle.sel_gather.specs.Steps.{child_rows};
ghost use Rattle.sel_gather.specs.RunRows.{run_rows};

use sel_arrow::column::Column;
use sel_arrow::validity::is_valid_at;
use sel_bits::faults::PolarsResult;
use sel_runs::each::read_each;
use sel_runs::runs::{Run, nulls_of, push_run};
use std::alloc::Global;

/// Returns the child of each list column.
///
/// # Requires
/// All sources are list or fixed-size list columns.
///
/// # Errors
/// `OutOfMemory` if an allocation fails.
pub fn children_of<'a>(alloc: Global, sources: &[&'a Column]) -> PolarsResult<Vec<&'a Column>>
    requires lists { All (λ c. is_listing (type_of c.now) ≡ true) sources.now }
    ensures children { IfOk result (λ found. map (λ c. c.now) found.items ≡
        map (λ c. child c.now) sources.now) }
    ensures refusal { IfErr result IsOutOfMemory }
{
    read_each(alloc, sources, child_of)
}

/// Returns the child of a list column, or the column itself for another type.
pub(crate) fn child_of<'a>(column: &'a Column) -> &'a Column
    ensures { result.now ≡ child column.now }
{
    match column {
        Column::LargeList { values, .. } => values,
        Column::FixedSizeList { values, .. } => values,
        _ => column,
    }
}

// Returns the start and the number of the child rows of row `i`; none if it is null.
#[inline(always)]
fn part_of_row(column: &Column, i: usize) -> Option<(u32, u32)>
    requires lists { is_listing (type_of column.now) ≡ true }
    requires formed { IsWellFormed column.now }
    requires inside { i < length (rows column.now) }
    ensures { result ≡ part_of column.now i }
{
    match column {
        Column::LargeList {
            offsets,
            validity,
            ..
        } => {
            if !is_valid_at(validity, i) {
                return None;
            }
            let (start, end) = (offsets.at(i), offsets.at(i + 1));
            Some((start as u32, (end - start) as u32))
        }
        Column::FixedSizeList { size, validity, .. } => {
            if !is_valid_at(validity, i) {
                return None;
            }
            Some(((i * *size) as u32, *size as u32))
        }
        _ => unreachable!(),
    }
}

/// Returns the run of the items of the list that a row reference refers to; `width` nulls if the
/// reference or the list is null.
///
/// # Requires
/// All sources are well-formed list or fixed-size list columns, and a reference that is not null
/// refers to a row of a source.
#[inline(always)]
pub(crate) fn run_of_list(sources: &[&Column], pick: Option<(u32, u32)>, width: u32) -> Run
    requires lists { All (λ c. is_listing (type_of c.now) ≡ true) sources.now }
    requires formed { All (λ c. IsWellFormed c.now) sources.now }
    requires fits { PickFits (rows_of sources.now) pick }
    ensures { unrolled result ≡ item_picks sources.now width pick }
{
    let Some((source, row)) = pick else {
        return nulls_of(width);
    };
    match part_of_row(sources[source as usize], row as usize) {
        None => nulls_of(width),
        Some((start, len)) => Run {
            source: Some(source),
            start,
            len,
        },
    }
}

/// Returns the first item of the list that a row reference refers to, and the number of its items;
/// zeros if the reference or the list is null.
///
/// # Requires
/// There is one source, a well-formed list or fixed-size list column, and a reference that is not
/// null refers to one of its rows.
#[inline(always)]
pub(crate) fn span_of_list(sources: &[&Column], pick: Option<(u32, u32)>) -> (u32, u32)
    requires one { length sources.now ≡ 1 }
    requires lists { All (λ c. is_listing (type_of c.now) ≡ true) sources.now }
    requires formed { All (λ c. IsWellFormed c.now) sources.now }
    requires fits { PickFits (rows_of sources.now) pick }
    ensures { picks_of 0 result.0 result.1 ≡ item_picks sources.now 0 pick }
{
    let Some((_, row)) = pick else {
        return (0, 0);
    };
    match part_of_row(sources[0], row as usize) {
        None => (0, 0),
        Some(span) => span,
    }
}

/// Returns the run of the child rows of row `i` of a run; `width` nulls if the row is null.
///
/// # Requires
/// All sources are well-formed list or fixed-size list columns, the run is within the rows of its
/// source, and `i` is less than `run.len`.
#[inline(always)]
pub fn run_of_row(sources: &[&Column], run: Run, i: u32, width: u32) -> Run
    requires lists { All (λ c. is_listing (type_of c.now) ≡ true) sources.now }
    requires formed { All (λ c. IsWellFormed c.now) sources.now }
    requires fits { All (PickFits (rows_of sources.now)) (unrolled run) }
    requires inside { i < run.len }
    ensures items { pick Null (child_rows sources.now) (unrolled result) ≡
        items_in width (slice_index_or (run_rows sources.now run) i Null) }
    ensures fits { All (PickFits (child_rows sources.now)) (unrolled result) }
    ensures small { result.len ≤ max_rows }
{
    let Some(source) = run.source else {
        return nulls_of(width);
    };
    run_of_list(sources, Some((source, run.start + i)), width)
}

/// Returns the number of child rows of the lists that runs refer to, counting `width` for each null
/// list.
///
/// # Requires
/// All sources are well-formed list or fixed-size list columns, and every run is within the rows of
/// its source. The runs have at most 2^32 - 1 rows in total.
pub fn count_items(sources: &[&Column], runs: &[Run], width: u32) -> u128
    requires lists { All (λ c. is_listing (type_of c.now) ≡ true) sources.now }
    requires formed { All (λ c. IsWellFormed c.now) sources.now }
    requires fits { All (PickFits (rows_of sources.now)) (expand runs.now) }
    requires few { length (expand runs.now) ≤ max_rows }
    ensures { result ≡ length (joined_items width (picked sources.now runs.now)) }
{
    let mut total: u128 = 0;
    for run in runs {
        total += count_run(sources, *run, width);
    }
    total
}

// Returns the number of child rows of the lists of one run.
fn count_run(sources: &[&Column], run: Run, width: u32) -> u128
    requires lists { All (λ c. is_listing (type_of c.now) ≡ true) sources.now }
    requires formed { All (λ c. IsWellFormed c.now) sources.now }
    requires fits { All (PickFits (rows_of sources.now)) (unrolled run) }
    ensures count { result ≡ length (joined_items width (run_rows sources.now run)) }
    ensures small { result ≤ max_rows * run.len }
{
    let mut total: u128 = 0;
    for i in 0..run.len {
        total += run_of_row(sources, run, i, width).len as u128;
    }
    total
}

/// Returns the runs of the child rows of the lists that runs refer to, with `width` nulls for each
/// null list.
///
/// Adjacent runs are merged if they are contiguous.
///
/// # Requires
/// All sources are well-formed list or fixed-size list columns, and every run is within the rows of
/// its source. The result has at most 2^32 - 1 rows in total.
///
/// # Errors
/// `OutOfMemory` if an allocation fails.
pub fn child_runs(
    alloc: Global,
    sources: &[&Column],
    runs: &[Run],
    width: u32,
) -> PolarsResult<Vec<Run>>
    requires lists { All (λ c. is_listing (type_of c.now) ≡ true) sources.now }
    requires formed { All (λ c. IsWellFormed c.now) sources.now }
    requires fits { All (PickFits (rows_of sources.now)) (expand runs.now) }
    requires room { length (joined_items width (picked sources.now runs.now)) ≤ max_rows }
    ensures items { IfOk result (λ below. pick Null (child_rows sources.now)
        (expand below.items) ≡ joined_items width (picked sources.now runs.now)) }
    ensures fits { IfOk result (λ below. All
        (PickFits (child_rows sources.now)) (expand below.items)) }
    ensures refusal { IfErr result IsOutOfMemory }
{
    let mut below = Vec::with_capacity(alloc, runs.len())?;
    for run in runs {
        push_items(&mut below, sources, *run, width)?;
    }
    Ok(below)
}

// Appends the runs of the child rows of the lists of a run. Errors: `OutOfMemory`.
fn push_items(below: &mut Vec<Run>, sources: &[&Column], run: Run, width: u32) -> PolarsResult<()>
    requires lists { All (λ c. is_listing (type_of c.now) ≡ true) sources.now }
    requires formed { All (λ c. IsWellFormed c.now) sources.now }
    requires fits { All (PickFits (rows_of sources.now)) (unrolled run) }
    requires sound { All (PickFits (child_rows sources.now)) (expand below.old.items) }
    requires room { length (expand below.old.items) + length
        (joined_items width (run_rows sources.now run)) ≤ max_rows }
    ensures items { OnOk result (pick Null (child_rows sources.now) (expand below.new.items) ≡
        pick Null (child_rows sources.now) (expand below.old.items) ++ joined_items width
        (run_rows sources.now run)) }
    ensures sound { OnOk result (All (PickFits (child_rows sources.now)) (expand below.new.items)) }
    ensures refusal { IfErr result IsOutOfMemory }
{
    for i in 0..run.len {
        push_run(below, run_of_row(sources, run, i, width))?;
    }
    Ok(())
}
