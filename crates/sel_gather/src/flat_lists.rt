//! Lists of integers or booleans, gathered without a list of the runs of their items.

ghost use Rattle.std.specs.Prelude.{◌≡◌, ◌≤◌, ◌*◌, ◌∷◌, All, length, map, pos, true, IfOk, IfErr};
ghost use Rattle.sel_bits.specs.Limits.{max_rows};
ghost use Rattle.sel_arrow.specs.Rows.{type_of, IsWellFormed};
ghost use Rattle.sel_arrow.specs.Shape.{of_fixed_size_list, of_large_list};
ghost use Rattle.sel_arrow.specs.Value.{Null};
ghost use Rattle.sel_gather.specs.Children.{child, is_listing, joined_items};
ghost use Rattle.sel_gather.specs.Ends.{item_ends};
ghost use Rattle.sel_gather.specs.Gathers.{MayGatherAs, CollectsSome};
ghost use Rattle.sel_gather.specs.Need.{ExceedsRows, IsLimitOrMemory};
ghost use Rattle.sel_runs.specs.Picks.{pick, PickFits};
ghost use Rattle.sel_gather.specs.Sources.{columns_of, rows_of};
ghost use Rattle.sel_gather.specs.Spans.{AreStarts};

use crate::boolean::gather_boolean;
use crate::item_runs::ItemRuns;
use crate::lists::{child_of, children_of, run_of_list};
use crate::match_number_types;
use crate::nested::{blocks_over, lists_over};
use crate::primitive::gather_primitive;
use crate::spans::{SpanRuns, list_spans};
use crate::validity::room_for_validity;
use sel_arrow::column::Column;
use sel_arrow::match_numbers;
use sel_bits::faults::{Limit, PolarsError, PolarsResult};
use sel_runs::row_refs::Plan;
use sel_runs::run_refs::RunRefs;
use sel_runs::runs::NO_ROWS;
use std::alloc::Global;

/// Returns the lists at the row references of a plan, if their items are integers or booleans.
/// Returns none for any other type of items.
///
/// The lists are read twice, for their offsets and for their items.
///
/// # Errors
/// `OutOfMemory`; `SizeLimit(Limit::Rows)` if there would be more than 2^32 - 1 items.
pub(crate) fn gather_flat_lists<'a, P: Plan>(
    alloc: Global,
    child: &Column,
    sources: &'a [&'a Column],
    plan: &P,
) -> PolarsResult<Option<Column>>
    requires child { IsWellFormed child.now }
    requires may { MayGatherAs sources.now (of_large_list (type_of child.now)) (P.picks plan.now) }
    ensures { CollectsSome result (of_large_list (type_of child.now))
        (columns_of sources.now) (pick Null (rows_of sources.now) (P.picks plan.now)) }
{
    if !is_flat(child) {
        return Ok(None);
    }
    let (ends, need) = list_ends(alloc, sources, plan)?;
    let Some(values) = gather_items(alloc, child, sources, plan, 0, need)? else {
        return Ok(None);
    };
    let column = lists_over(alloc, values, ends, sources, plan)?;
    Ok(Some(column))
}

/// Returns the lists at the row references of a plan, if there is one source and their items are
/// integers or booleans. Returns none otherwise.
///
/// Each list is read once, in the order of the row references, which may be random: its start is
/// kept, and its length follows from the offsets of the result.
///
/// # Errors
/// `OutOfMemory`; `SizeLimit(Limit::Rows)` if there would be more than 2^32 - 1 items.
pub(crate) fn gather_spanned_lists<'a, P: Plan>(
    alloc: Global,
    child: &Column,
    sources: &'a [&'a Column],
    plan: &P,
) -> PolarsResult<Option<Column>>
    requires child { IsWellFormed child.now }
    requires may { MayGatherAs sources.now (of_large_list (type_of child.now)) (P.picks plan.now) }
    ensures { CollectsSome result (of_large_list (type_of child.now))
        (columns_of sources.now) (pick Null (rows_of sources.now) (P.picks plan.now)) }
{
    if sources.len() != 1 || !is_flat(child) {
        return Ok(None);
    }
    let (ends, starts, need) = list_spans(alloc, sources, plan)?;
    let Some(values) = gather_spans(alloc, child, sources, plan, &ends, &starts, need)? else {
        return Ok(None);
    };
    drop(starts);
    let column = lists_over(alloc, values, ends, sources, plan)?;
    Ok(Some(column))
}

// Returns the `need` items of the lists at the row references of a plan, which begin at `starts` in
// the child of the only source and end at `ends` in the result; none if `gather_flat` does not
// gather their type. Errors: `OutOfMemory`.
fn gather_spans<'a, P: Plan>(
    alloc: Global,
    first: &Column,
    sources: &'a [&'a Column],
    _plan: &P,
    ends: &[i64],
    starts: &[u32],
    need: usize,
) -> PolarsResult<Option<Column>>
    requires one { length sources.now ≡ 1 }
    requires lists { All (λ c. is_listing (type_of c.now) ≡ true) sources.now }
    requires alike { All (λ c. type_of (child c.now) ≡ type_of first.now) sources.now }
    requires formed { All (λ c. IsWellFormed c.now) sources.now }
    requires fits { All (PickFits (rows_of sources.now)) (P.picks _plan.now) }
    requires ends { ends.now ≡
        map pos (0 ∷ item_ends 0 (pick Null (rows_of sources.now) (P.picks _plan.now))) }
    requires starts { AreStarts sources.now (P.picks _plan.now) starts.now }
    requires need { need ≡
        length (joined_items 0 (pick Null (rows_of sources.now) (P.picks _plan.now))) }
    requires few { need ≤ max_rows }
    ensures { CollectsSome result (type_of first.now) (map child (columns_of sources.now))
        (joined_items 0 (pick Null (rows_of sources.now) (P.picks _plan.now))) }
{
    let items = &RunRefs {
        first: NO_ROWS,
        rest: SpanRuns {
            starts,
            ends: &ends[1..],
            at: 0,
        },
        left: need,
    };
    let children = [child_of(sources[0])];
    gather_flat(alloc, first, &children, items)
}

/// Returns the fixed-size lists at the row references of a plan, if their items are integers or
/// booleans. Returns none for any other type of items.
///
/// # Errors
/// `OutOfMemory`; `SizeLimit(Limit::Rows)` if there would be more than 2^32 - 1 items.
pub(crate) fn gather_flat_blocks<'a, P: Plan>(
    alloc: Global,
    size: usize,
    child: &Column,
    sources: &'a [&'a Column],
    plan: &P,
) -> PolarsResult<Option<Column>>
    requires narrow { size ≤ max_rows }
    requires child { IsWellFormed child.now }
    requires may { MayGatherAs sources.now (of_fixed_size_list (type_of child.now) size)
        (P.picks plan.now) }
    ensures { CollectsSome result (of_fixed_size_list (type_of child.now) size)
        (columns_of sources.now) (pick Null (rows_of sources.now) (P.picks plan.now)) }
{
    if !is_flat(child) {
        return Ok(None);
    }
    let need = plan.len() * size;
    if need > u32::MAX as usize {
        return Err(PolarsError::SizeLimit(Limit::Rows));
    }
    let Some(values) = gather_items(alloc, child, sources, plan, size as u32, need)? else {
        return Ok(None);
    };
    let column = blocks_over(alloc, size, values, sources, plan)?;
    Ok(Some(column))
}

// Returns whether `gather_flat` gathers columns of this type. No contract depends on the result.
fn is_flat(column: &Column) -> bool {
    match_numbers! { column, _numbers => true,
        Column::Boolean(_) => true,
        _ => false,
    }
}

// Returns the offsets of the lists at the row references of a plan, and the number of their items.
//
// Errors: `OutOfMemory`; `SizeLimit(Limit::Rows)` if there are more than 2^32 - 1 items.
fn list_ends<P: Plan>(
    alloc: Global,
    sources: &[&Column],
    plan: &P,
) -> PolarsResult<(Vec<i64>, usize)>
    requires lists { All (λ c. is_listing (type_of c.now) ≡ true) sources.now }
    requires formed { All (λ c. IsWellFormed c.now) sources.now }
    requires fits { All (PickFits (rows_of sources.now)) (P.picks plan.now) }
    ensures ends { IfOk result (λ read. read.0.items ≡
        map pos (0 ∷ item_ends 0 (pick Null (rows_of sources.now) (P.picks plan.now)))) }
    ensures count { IfOk result (λ read. read.1 ≡
        length (joined_items 0 (pick Null (rows_of sources.now) (P.picks plan.now)))) }
    ensures few { IfOk result (λ read. read.1 ≤ max_rows) }
    ensures refusal { IfErr result (IsLimitOrMemory (ExceedsRows
        (length (joined_items 0 (pick Null (rows_of sources.now) (P.picks plan.now)))))) }
{
    let len = plan.len();
    let mut ends = Vec::with_capacity(alloc, len + 1 + room_for_validity(sources, plan))?;
    ends.push(0)?;
    let mut rest = plan.again();
    let mut end: u32 = 0;
    for k in 0..len {
        let list = run_of_list(sources, rest.next(), 0);
        if list.len > u32::MAX - end {
            return Err(PolarsError::SizeLimit(Limit::Rows));
        }
        end += list.len;
        ends.push(end as i64)?;
    }
    Ok((ends, end as usize))
}

// Returns the `need` items of the lists at the row references of a plan, and `width` nulls for each
// null list; none if `gather_flat` does not gather their type. Errors: `OutOfMemory`.
fn gather_items<'a, P: Plan>(
    alloc: Global,
    first: &Column,
    sources: &'a [&'a Column],
    plan: &P,
    width: u32,
    need: usize,
) -> PolarsResult<Option<Column>>
    requires lists { All (λ c. is_listing (type_of c.now) ≡ true) sources.now }
    requires alike { All (λ c. type_of (child c.now) ≡ type_of first.now) sources.now }
    requires formed { All (λ c. IsWellFormed c.now) sources.now }
    requires fits { All (PickFits (rows_of sources.now)) (P.picks plan.now) }
    requires need { need ≡
        length (joined_items width (pick Null (rows_of sources.now) (P.picks plan.now))) }
    requires few { need ≤ max_rows }
    ensures { CollectsSome result (type_of first.now) (map child (columns_of sources.now))
        (joined_items width (pick Null (rows_of sources.now) (P.picks plan.now))) }
{
    let items = &RunRefs {
        first: NO_ROWS,
        rest: ItemRuns {
            lists: plan.again(),
            sources,
            width,
        },
        left: need,
    };
    if let [only] = sources {
        let children = [child_of(*only)];
        return gather_flat(alloc, first, &children, items);
    }
    if let [one, other] = sources {
        let both = [child_of(*one), child_of(*other)];
        return gather_flat(alloc, first, &both, items);
    }
    let children = children_of(alloc, sources)?;
    gather_flat(alloc, first, &children, items)
}

// Returns the rows of columns of the type of `first`, integers or booleans, at row references; none
// for any other type. Errors: `OutOfMemory`.
fn gather_flat<'a, P: Plan>(
    alloc: Global,
    first: &Column,
    sources: &'a [&'a Column],
    plan: &P,
) -> PolarsResult<Option<Column>>
    requires alike { All (λ c. type_of c.now ≡ type_of first.now) sources.now }
    requires fits { All (PickFits (rows_of sources.now)) (P.picks plan.now) }
    ensures { CollectsSome result (type_of first.now)
        (columns_of sources.now) (pick Null (rows_of sources.now) (P.picks plan.now)) }
{
    macro_rules! gather {
        ($number:ty) => {
            gather_primitive::<P, $number>(alloc, sources, plan)?
        };
    }
    let column = match_number_types! { first, gather,
        Column::Boolean(_) => gather_boolean(alloc, sources, plan)?,
        _ => return Ok(None),
    };
    Ok(Some(column))
}
