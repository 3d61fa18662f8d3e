//! Gathers rows from several columns of one type at the row references of a plan.
//!
//! Integers and booleans are gathered one row reference at a time, binary columns run by run, and
//! fixed-size lists of integers or booleans list by list. Lists are read once, and only the runs of
//! their items are built. For all other types the row references are first converted to runs, since
//! nested rows are copied by runs too.

ghost use Rattle.std.specs.Prelude.{◌≡◌, ◌≤◌, ◌<◌, All, length};
ghost use Rattle.sel_bits.specs.Limits.{max_rows};
ghost use Rattle.sel_arrow.specs.Rows.{type_of, IsWellFormed};
ghost use Rattle.sel_arrow.specs.Shape.{of_fixed_size_list, of_large_list};
ghost use Rattle.sel_arrow.specs.Value.{Null};
ghost use Rattle.sel_gather.specs.Gathers.{MayGatherAs, Collects, GathersFrom, MayGather};
ghost use Rattle.sel_runs.specs.Picks.{pick, PickFits};
ghost use Rattle.sel_gather.specs.Sources.{columns_of, first_type, rows_of};

use crate::binary::gather_binary;
use crate::boolean::gather_boolean;
use crate::copy::{collect_children, collect_runs};
use crate::flat_lists::{gather_flat_blocks, gather_flat_lists, gather_spanned_lists};
use crate::list_walk::walk_lists;
use crate::match_number_types;
use crate::nested::lists_over;
use crate::primitive::gather_primitive;
use sel_arrow::array_ref::ArrayRef;
use sel_arrow::column::Column;
use sel_bits::faults::PolarsResult;
use sel_runs::row_refs::{Listed, Plan, runs_of_plan};
use std::alloc::Global;

/// Returns the rows of `sources` at the row references `picks`, in order; a null reference gives a
/// null row.
///
/// Reference `(s, i)` refers to row `i` of source `s`.
///
/// # Requires
/// There is at least one source, and all sources have the type of the first (check with
/// `are_alike`) and are well-formed (check with `are_well_formed`). Every non-null reference refers
/// to a row of a source, and there are at most 2^32 - 1 references (check with `picks_in_bounds`).
///
/// # Errors
/// `OutOfMemory` if an allocation fails; `SizeLimit` if at some depth the result would have more
/// than 2^32 - 1 rows (`Limit::Rows`) or 2^63 - 1 value bytes (`Limit::Bytes`), or a view column of
/// the sources would have more than 2^32 - 1 data buffers over all sources (`Limit::Buffers`).
pub fn collect_rows<'a>(
    alloc: Global,
    sources: &'a [&'a Column],
    picks: &[Option<(u32, u32)>],
) -> PolarsResult<ArrayRef>
    requires some { 0 < length sources.now }
    requires alike { All (λ c. type_of c.now ≡ first_type (columns_of sources.now)) sources.now }
    requires may { MayGather sources.now picks.now (length picks.now) }
    ensures { GathersFrom result (columns_of sources.now)
        (pick Null (rows_of sources.now) picks.now) }
{
    let column = collect_plan(alloc, sources, &Listed { picks }, false)?;
    Ok(ArrayRef { column })
}

/// Returns the rows of `sources` at the row references of `plan`, in order; a null reference gives
/// a null row.
///
/// If `in_runs` is true, copies the rows by runs, which is faster for long runs and gives the same
/// rows.
///
/// # Requires
/// There is at least one source, and all sources have the type of the first (check with
/// `are_alike`) and are well-formed (check with `are_well_formed`). Every non-null row reference
/// refers to a row of a source (check with `plan_in_bounds`).
///
/// # Errors
/// Those of `collect_rows`.
pub fn collect_plan<'a, P: Plan>(
    alloc: Global,
    sources: &'a [&'a Column],
    plan: &P,
    in_runs: bool,
) -> PolarsResult<Column>
    requires some { 0 < length sources.now }
    requires alike { All (λ c. type_of c.now ≡ first_type (columns_of sources.now)) sources.now }
    requires formed { All (λ c. IsWellFormed c.now) sources.now }
    requires fits { All (PickFits (rows_of sources.now)) (P.picks plan.now) }
    ensures { Collects result (first_type (columns_of sources.now))
        (columns_of sources.now) (pick Null (rows_of sources.now) (P.picks plan.now)) }
{
    if in_runs {
        return collect_listed(alloc, sources, plan);
    }
    let first: &Column = sources[0];
    gather_like(alloc, first, sources, plan)
}

/// Returns the same rows as [`collect_plan`], for row references that rise within each source.
///
/// Lists of integers or booleans are read twice, so that the runs of their items need no memory. In
/// a random order that would take longer.
///
/// # Requires
/// What `collect_plan` requires. That the row references rise is not required, but faster.
///
/// # Errors
/// Those of `collect_rows`.
pub fn collect_rising<'a, P: Plan>(
    alloc: Global,
    sources: &'a [&'a Column],
    plan: &P,
) -> PolarsResult<Column>
    requires some { 0 < length sources.now }
    requires alike { All (λ c. type_of c.now ≡ first_type (columns_of sources.now)) sources.now }
    requires formed { All (λ c. IsWellFormed c.now) sources.now }
    requires fits { All (PickFits (rows_of sources.now)) (P.picks plan.now) }
    ensures { Collects result (first_type (columns_of sources.now))
        (columns_of sources.now) (pick Null (rows_of sources.now) (P.picks plan.now)) }
{
    let first: &Column = sources[0];
    gather_rising(alloc, first, sources, plan)
}

// Returns the rows for columns of the type of `first`, by row references that rise.
fn gather_rising<'a, P: Plan>(
    alloc: Global,
    first: &Column,
    sources: &'a [&'a Column],
    plan: &P,
) -> PolarsResult<Column>
    requires kind { first_type (columns_of sources.now) ≡ type_of first.now }
    requires first { IsWellFormed first.now }
    requires some { 0 < length sources.now }
    requires may { MayGatherAs sources.now (type_of first.now) (P.picks plan.now) }
    ensures { Collects result (type_of first.now)
        (columns_of sources.now) (pick Null (rows_of sources.now) (P.picks plan.now)) }
{
    match first {
        Column::LargeList { values, .. } => gather_rising_lists(alloc, values, sources, plan),
        _ => gather_like(alloc, first, sources, plan),
    }
}

// Returns the lists at row references that rise; `child` has the type of their items.
fn gather_rising_lists<'a, P: Plan>(
    alloc: Global,
    child: &Column,
    sources: &'a [&'a Column],
    plan: &P,
) -> PolarsResult<Column>
    requires child { IsWellFormed child.now }
    requires may { MayGatherAs sources.now (of_large_list (type_of child.now)) (P.picks plan.now) }
    ensures { Collects result (of_large_list (type_of child.now))
        (columns_of sources.now) (pick Null (rows_of sources.now) (P.picks plan.now)) }
{
    if let Some(column) = gather_flat_lists(alloc, child, sources, plan)? {
        return Ok(column);
    }
    gather_lists(alloc, child, sources, plan)
}

// Returns the rows for columns of the type of `first`, by row references if the type supports it.
fn gather_like<'a, P: Plan>(
    alloc: Global,
    first: &Column,
    sources: &'a [&'a Column],
    plan: &P,
) -> PolarsResult<Column>
    requires kind { first_type (columns_of sources.now) ≡ type_of first.now }
    requires first { IsWellFormed first.now }
    requires some { 0 < length sources.now }
    requires may { MayGatherAs sources.now (type_of first.now) (P.picks plan.now) }
    ensures { Collects result (type_of first.now)
        (columns_of sources.now) (pick Null (rows_of sources.now) (P.picks plan.now)) }
{
    macro_rules! gather {
        ($number:ty) => {
            gather_primitive::<P, $number>(alloc, sources, plan)
        };
    }
    match_number_types! { first, gather,
        Column::Boolean(_) => gather_boolean(alloc, sources, plan),
        Column::LargeBinary(_) => gather_binary(alloc, sources, plan),
        Column::LargeList { values, .. } => gather_lists(alloc, values, sources, plan),
        Column::FixedSizeList { size, values, .. } => {
            gather_blocks(alloc, *size, values, sources, plan)
        }
        _ => collect_listed(alloc, sources, plan),
    }
}

// Returns the rows by runs, after converting the row references to runs.
fn collect_listed<'a, P: Plan>(
    alloc: Global,
    sources: &'a [&'a Column],
    plan: &P,
) -> PolarsResult<Column>
    requires some { 0 < length sources.now }
    requires may { MayGatherAs sources.now (first_type (columns_of sources.now))
        (P.picks plan.now) }
    ensures { Collects result (first_type (columns_of sources.now))
        (columns_of sources.now) (pick Null (rows_of sources.now) (P.picks plan.now)) }
{
    let len = plan.len();
    let runs = runs_of_plan(alloc, plan)?;
    collect_runs(alloc, sources, &runs, len)
}

/// Returns the lists at the row references of `plan`, in order; a null reference gives a null row.
///
/// # Requires
/// All sources are list columns whose child has the type of `child` (check with `same_dtype`), and
/// they and `child` are well-formed (check with `are_well_formed`). Every non-null row reference
/// refers to a row of a source (check with `plan_in_bounds`).
///
/// # Errors
/// `OutOfMemory` if an allocation fails; `SizeLimit` if the lists would have more than 2^32 - 1
/// items (`Limit::Rows`), or their items exceed a limit of `collect_rows`.
pub fn gather_lists<'a, P: Plan>(
    alloc: Global,
    child: &Column,
    sources: &'a [&'a Column],
    plan: &P,
) -> PolarsResult<Column>
    requires child { IsWellFormed child.now }
    requires alike { All (λ c. type_of c.now ≡ of_large_list (type_of child.now)) sources.now }
    requires formed { All (λ c. IsWellFormed c.now) sources.now }
    requires fits { All (PickFits (rows_of sources.now)) (P.picks plan.now) }
    ensures { Collects result (of_large_list (type_of child.now))
        (columns_of sources.now) (pick Null (rows_of sources.now) (P.picks plan.now)) }
{
    if !plan.is_wide() {
        if let Some(column) = gather_spanned_lists(alloc, child, sources, plan)? {
            return Ok(column);
        }
    }
    let (ends, below, need) = walk_lists(alloc, sources, plan)?;
    let values = collect_children(alloc, child, sources, &below, need)?;
    drop(below);
    let column = lists_over(alloc, values, ends, sources, plan)?;
    Ok(column)
}

// Returns the fixed-size lists at the row references of `plan`; `child` has the type of their
// items.
fn gather_blocks<'a, P: Plan>(
    alloc: Global,
    size: usize,
    child: &Column,
    sources: &'a [&'a Column],
    plan: &P,
) -> PolarsResult<Column>
    requires narrow { size ≤ max_rows }
    requires kind { first_type (columns_of sources.now) ≡
        of_fixed_size_list (type_of child.now) size }
    requires child { IsWellFormed child.now }
    requires some { 0 < length sources.now }
    requires may { MayGatherAs sources.now (of_fixed_size_list (type_of child.now) size)
        (P.picks plan.now) }
    ensures { Collects result (of_fixed_size_list (type_of child.now) size)
        (columns_of sources.now) (pick Null (rows_of sources.now) (P.picks plan.now)) }
{
    if let Some(column) = gather_flat_blocks(alloc, size, child, sources, plan)? {
        return Ok(column);
    }
    collect_listed(alloc, sources, plan)
}
