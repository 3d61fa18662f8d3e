//! The offsets of gathered lists and the runs of their child rows, in one pass over the lists.

ghost use Rattle.std.specs.Prelude.{◌≡◌, ◌≤◌, ◌<◌, ◌+◌, ◌++◌, ◌∷◌, [], true, pos, All, length, map, slice_index_or, IfOk, IfErr, IfSome, OnOk};
ghost use Rattle.std.specs.List.{range_with_len};
ghost use Rattle.sel_bits.specs.Limits.{max_rows};
ghost use Rattle.sel_bits.specs.Offsets.{IsRising};
ghost use Rattle.sel_arrow.specs.Rows.{type_of, IsWellFormed};
ghost use Rattle.sel_arrow.specs.Value.{Null};
ghost use Rattle.sel_gather.specs.Children.{is_listing, joined_items};
ghost use Rattle.sel_gather.specs.Ends.{item_ends};
ghost use Rattle.sel_gather.specs.ItemPicks.{item_count, moved_end, HasOffsets};
ghost use Rattle.sel_gather.specs.Need.{ExceedsRows, IsLimitOrMemory};
ghost use Rattle.sel_runs.specs.Picks.{pick, PickFits};
ghost use Rattle.sel_runs.specs.Runs.{expand, unrolled, unrolled_from};
ghost use Rattle.sel_gather.specs.Sources.{rows_of};
ghost use Rattle.sel_gather.specs.Steps.{child_rows};
ghost use Rattle.sel_gather.specs.RunRows.{run_rows};

use crate::lists::run_of_row;
use crate::validity::room_for_validity;
use sel_arrow::column::Column;
use sel_bits::faults::{Limit, PolarsError, PolarsResult};
use sel_bits::offsets::OffsetsBuffer;
use sel_runs::row_refs::Plan;
use sel_runs::runs::{Run, nulls_of, push_run, put_run};
use std::alloc::Global;

// Returns the offsets of the lists at the row references of a plan, the runs of their items, and
// the number of items.
//
// Errors: `OutOfMemory`; `SizeLimit(Limit::Rows)` if there are more than 2^32 - 1 items.
pub fn walk_lists<P: Plan>(
    alloc: Global,
    sources: &[&Column],
    plan: &P,
) -> PolarsResult<(Vec<i64>, Vec<Run>, usize)>
    requires lists { All (λ c. is_listing (type_of c.now) ≡ true) sources.now }
    requires formed { All (λ c. IsWellFormed c.now) sources.now }
    requires fits { All (PickFits (rows_of sources.now)) (P.picks plan.now) }
    ensures ends { IfOk result (λ walk. walk.0.items ≡
        map pos (0 ∷ item_ends 0 (pick Null (rows_of sources.now) (P.picks plan.now)))) }
    ensures items { IfOk result (λ walk. pick Null (child_rows sources.now)
        (expand walk.1.items) ≡
        joined_items 0 (pick Null (rows_of sources.now) (P.picks plan.now))) }
    ensures fits { IfOk result (λ walk. All
        (PickFits (child_rows sources.now)) (expand walk.1.items)) }
    ensures count { IfOk result (λ walk. length (expand walk.1.items) ≡ walk.2) }
    ensures few { IfOk result (λ walk. walk.2 ≤ max_rows) }
    ensures refusal { IfErr result (IsLimitOrMemory (ExceedsRows
        (length (joined_items 0 (pick Null (rows_of sources.now) (P.picks plan.now)))))) }
{
    let len = plan.len();
    let mut ends = Vec::with_capacity(alloc, len + 1 + room_for_validity(sources, plan))?;
    ends.push(0)?;
    let mut below = Vec::with_capacity(alloc, plan.run_count())?;
    let mut rest = plan.again();
    let mut at = 0;
    let mut last = nulls_of(0);
    let mut end = 0;
    while at < len {
        let run = rest.next_run();
        end = push_lists(&mut ends, &mut below, &mut last, sources, run, end)?;
        at += run.len as usize;
    }
    push_run(&mut below, last)?;
    Ok((ends, below, end as usize))
}

// Appends the end offsets of the lists of a run and the runs of their items, the last of which is
// stored in `last`. Returns the last offset.
//
// Errors: `OutOfMemory`; `SizeLimit(Limit::Rows)` if it would exceed 2^32 - 1.
fn push_lists(
    ends: &mut Vec<i64>,
    below: &mut Vec<Run>,
    last: &mut Run,
    sources: &[&Column],
    run: Run,
    start: u32,
) -> PolarsResult<u32>
    requires lists { All (λ c. is_listing (type_of c.now) ≡ true) sources.now }
    requires formed { All (λ c. IsWellFormed c.now) sources.now }
    requires fits { All (PickFits (rows_of sources.now)) (unrolled run) }
    requires sound { All (PickFits (child_rows sources.now))
        (expand (below.old.items ++ last.old ∷ [])) }
    requires count { length (expand (below.old.items ++ last.old ∷ [])) ≡ start }
    ensures ends { OnOk result (ends.new.items ≡
        ends.old.items ++ map pos (item_ends start (run_rows sources.now run))) }
    ensures items { OnOk result
        (pick Null (child_rows sources.now) (expand (below.new.items ++ last.new ∷ [])) ≡
        pick Null (child_rows sources.now) (expand (below.old.items ++ last.old ∷ [])) ++
        joined_items 0 (run_rows sources.now run)) }
    ensures sound { OnOk result (All (PickFits (child_rows sources.now))
        (expand (below.new.items ++ last.new ∷ []))) }
    ensures end { IfOk result (λ end. end ≡
        start + length (joined_items 0 (run_rows sources.now run))) }
    ensures refusal { IfErr result (IsLimitOrMemory (ExceedsRows
        (start + length (joined_items 0 (run_rows sources.now run))))) }
{
    if let Some(offsets) = offsets_of_valid_lists(sources, run) {
        let end = push_valid_lists(ends, below, last, offsets, run, start)?;
        return Ok(end);
    }
    let mut end = start;
    for i in 0..run.len {
        let one = run_of_row(sources, run, i, 0);
        if one.len > u32::MAX - end {
            return Err(PolarsError::SizeLimit(Limit::Rows));
        }
        end += one.len;
        ends.push(end as i64)?;
        put_run(below, last, one)?;
    }
    Ok(end)
}

// Returns the offsets of the source of a run that has rows, if its lists have offsets and none is
// null.
#[inline(always)]
fn offsets_of_valid_lists<'a>(sources: &[&'a Column], run: Run) -> Option<&'a OffsetsBuffer<i64>>
    requires formed { All (λ c. IsWellFormed c.now) sources.now }
    requires fits { All (PickFits (rows_of sources.now)) (unrolled run) }
    ensures parts { IfSome result (λ offsets. HasOffsets sources.now run.source offsets.now) }
    ensures inside { IfSome result (λ offsets. run.start + run.len < length offsets.now) }
    ensures few { IfSome result (λ offsets.
        slice_index_or offsets.now (run.start + run.len) 0 ≤ max_rows) }
    ensures rising { IfSome result (λ offsets. IsRising offsets.now) }
{
    if run.len == 0 {
        return None;
    }
    let Some(source) = run.source else {
        return None;
    };
    let column: &'a Column = sources[source as usize];
    match column {
        Column::LargeList {
            offsets,
            validity,
            ..
        } => match validity {
            None => Some(offsets),
            Some(_) => None,
        },
        _ => None,
    }
}

// Appends the ends of consecutive lists and the run of their items, which are consecutive too.
//
// Errors: `OutOfMemory`; `SizeLimit(Limit::Rows)` if the end would exceed 2^32 - 1.
fn push_valid_lists(
    ends: &mut Vec<i64>,
    below: &mut Vec<Run>,
    last: &mut Run,
    offsets: &OffsetsBuffer<i64>,
    run: Run,
    start: u32,
) -> PolarsResult<u32>
    requires inside { run.start + run.len < length offsets.now }
    requires few { slice_index_or offsets.now (run.start + run.len) 0 ≤ max_rows }
    requires count { length (expand (below.old.items ++ last.old ∷ [])) ≡ start }
    ensures ends { OnOk result (ends.new.items ≡ ends.old.items ++ map pos
        (map (moved_end offsets.now run.start start) (range_with_len (run.start + 1) run.len))) }
    ensures items { OnOk result (expand (below.new.items ++ last.new ∷ []) ≡
        expand (below.old.items ++ last.old ∷ []) ++ unrolled_from run.source
        (slice_index_or offsets.now run.start 0) (item_count offsets.now run)) }
    ensures end { IfOk result (λ end. end ≡ start + item_count offsets.now run) }
    ensures refusal { IfErr result (IsLimitOrMemory (ExceedsRows
        (start + item_count offsets.now run))) }
{
    let from = run.start as usize;
    let first = offsets.at(from);
    let count = (offsets.at(from + run.len as usize) - first) as u32;
    if count > u32::MAX - start {
        return Err(PolarsError::SizeLimit(Limit::Rows));
    }
    for i in 0..run.len as usize {
        let end = start as usize + (offsets.at(from + 1 + i) - first);
        ends.push(end as i64)?;
    }
    let items = Run {
        source: run.source,
        start: first as u32,
        len: count,
    };
    put_run(below, last, items)?;
    Ok(start + count)
}
