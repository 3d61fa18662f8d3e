//! Lists of integers or booleans of one column, gathered by the start of each list.

ghost use Rattle.std.specs.Prelude.{◌≡◌, ◌≤◌, ◌<◌, ◌∷◌, All, true, pos, length, map, IfOk, IfErr};
ghost use Rattle.sel_bits.specs.Limits.{max_rows};
ghost use Rattle.sel_arrow.specs.Rows.{type_of, IsWellFormed};
ghost use Rattle.sel_arrow.specs.Value.{Null};
ghost use Rattle.sel_gather.specs.Children.{is_listing, joined_items};
ghost use Rattle.sel_gather.specs.Ends.{item_ends};
ghost use Rattle.sel_gather.specs.Need.{ExceedsRows, IsLimitOrMemory};
ghost use Rattle.sel_runs.specs.Picks.{pick, PickFits};
ghost use Rattle.sel_runs.specs.Runs.{expand};
ghost use Rattle.sel_gather.specs.Sources.{rows_of};
ghost use Rattle.sel_gather.specs.Spans.{spans, are_ends, AreStarts};

use crate::lists::span_of_list;
use crate::validity::room_for_validity;
use sel_arrow::column::Column;
use sel_bits::faults::{Limit, PolarsError, PolarsResult};
use sel_bits::native::Offset;
use sel_runs::row_refs::Plan;
use sel_runs::run_refs::Runs;
use sel_runs::runs::{NO_ROWS, Run};
use std::alloc::Global;

/// Returns the offsets of the lists at the row references of a plan, the first item of each list in
/// the child, and the number of items.
///
/// # Errors
/// `OutOfMemory`; `SizeLimit(Limit::Rows)` if there are more than 2^32 - 1 items.
pub(crate) fn list_spans<P: Plan>(
    alloc: Global,
    sources: &[&Column],
    plan: &P,
) -> PolarsResult<(Vec<i64>, Vec<u32>, usize)>
    requires one { length sources.now ≡ 1 }
    requires lists { All (λ c. is_listing (type_of c.now) ≡ true) sources.now }
    requires formed { All (λ c. IsWellFormed c.now) sources.now }
    requires fits { All (PickFits (rows_of sources.now)) (P.picks plan.now) }
    ensures ends { IfOk result (λ read. read.0.items ≡
        map pos (0 ∷ item_ends 0 (pick Null (rows_of sources.now) (P.picks plan.now)))) }
    ensures starts { IfOk result (λ read.
        AreStarts sources.now (P.picks plan.now) read.1.items) }
    ensures count { IfOk result (λ read. read.2 ≡
        length (joined_items 0 (pick Null (rows_of sources.now) (P.picks plan.now)))) }
    ensures few { IfOk result (λ read. read.2 ≤ max_rows) }
    ensures refusal { IfErr result (IsLimitOrMemory (ExceedsRows
        (length (joined_items 0 (pick Null (rows_of sources.now) (P.picks plan.now)))))) }
{
    let len = plan.len();
    let mut ends = Vec::with_capacity(alloc, len + 1 + room_for_validity(sources, plan))?;
    let mut starts = Vec::with_capacity(alloc, len)?;
    ends.push_reserved(0);
    let mut rest = plan.again();
    let mut end: u32 = 0;
    for k in 0..len {
        let (start, count) = span_of_list(sources, rest.next());
        if count > u32::MAX - end {
            return Err(PolarsError::SizeLimit(Limit::Rows));
        }
        end += count;
        starts.push_reserved(start);
        ends.push_reserved(end as i64);
    }
    Ok((ends, starts, end as usize))
}

/// An iterator over the runs of the items of lists of one column. The lists begin at `starts` in
/// the child and end at `ends` in the result, the first of them after `at` items.
#[derive(Drop)]
pub(crate) struct SpanRuns<'a> {
    pub starts: &'a [u32],
    pub ends: &'a [i64],
    pub at: u32,
    pub ghost rising: { are_ends at ends.now ≡ true },
}

impl Runs for SpanRuns<'_> {
    ghost picks = { λ runs. expand (spans runs.starts.now runs.at runs.ends.now) };

    #[inline(always)]
    fn next_run(&mut self) -> Run {
        let mut run = NO_ROWS;
        let mut starts = self.starts;
        let mut ends = self.ends;
        let mut at = self.at;
        while run.len == 0 {
            let end = ends[0].to_position() as u32;
            run = Run {
                source: Some(0),
                start: starts[0],
                len: end - at,
            };
            at = end;
            starts = &starts[1..];
            ends = &ends[1..];
        }
        self.starts = starts;
        self.ends = ends;
        self.at = at;
        run
    }

    #[inline(always)]
    fn again(&self) -> Self {
        SpanRuns {
            starts: self.starts,
            ends: self.ends,
            at: self.at,
        }
    }

    // (a null list has no items)
    #[inline(always)]
    fn has_nulls(&self) -> bool {
        false
    }

    #[inline(always)]
    fn run_count(&self) -> usize {
        self.starts.len()
    }
}
