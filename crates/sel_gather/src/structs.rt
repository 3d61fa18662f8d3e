//! Field rows of gathered struct rows.

ghost use Rattle.std.specs.Prelude.{◌≡◌, ◌≢◌, All, map, IfOk, IfErr};
ghost use Rattle.sel_bits.specs.Faults.{IsOutOfMemory};
ghost use Rattle.sel_arrow.specs.Rows.{type_of};
ghost use Rattle.sel_arrow.specs.Shape.{of_null};
ghost use Rattle.sel_gather.specs.Children.{field};
ghost use Rattle.sel_gather.specs.Cleared.{cleared};
ghost use Rattle.sel_gather.specs.Gathers.{MayGather};
ghost use Rattle.sel_runs.specs.Runs.{expand};
ghost use Rattle.sel_gather.specs.Sources.{rows_of};

use crate::live_runs::LiveRuns;
use sel_arrow::column::Column;
use sel_bits::faults::PolarsResult;
use sel_runs::each::read_each;
use sel_runs::row_refs::runs_of_plan;
use sel_runs::run_refs::{ListedRuns, RunRefs};
use sel_runs::runs::{NO_ROWS, Run};
use std::alloc::Global;

/// Returns field `j` of each column; for a column without it, the column itself.
///
/// # Errors
/// `OutOfMemory` if an allocation fails.
pub fn fields_at<'a>(
    alloc: Global,
    sources: &[&'a Column],
    j: usize,
) -> PolarsResult<Vec<&'a Column>>
    ensures fields { IfOk result (λ found. map (λ c. c.now) found.items ≡
        map (λ c. field j c.now) sources.now) }
    ensures refusal { IfErr result IsOutOfMemory }
{
    read_each(alloc, sources, |column| field_of(column, j))
}

// Returns field `j` of a column, or the column itself if there is none.
fn field_of<'a>(column: &'a Column, j: usize) -> &'a Column
    ensures { result.now ≡ field j column.now }
{
    if let Column::Struct { fields, .. } = column {
        if j < fields.len() {
            return &fields[j];
        }
    }
    column
}

/// Returns the runs of the non-null rows that runs refer to, with nulls in place of the null rows.
///
/// # Requires
/// No source is a null column, all sources are well-formed, and every run is within the rows of its
/// source. The runs have `len` rows in total, at most 2^32 - 1.
///
/// # Errors
/// `OutOfMemory` if an allocation fails.
// (not inlined, since its caller is a step of a recursion, whose frame it would enlarge)
#[inline(never)]
pub fn split_runs(
    alloc: Global,
    sources: &[&Column],
    runs: &[Run],
    len: usize,
) -> PolarsResult<Vec<Run>>
    requires known { All (λ c. type_of c.now ≢ of_null) sources.now }
    requires may { MayGather sources.now (expand runs.now) len }
    ensures picks { IfOk result (λ split. expand split.items ≡
        map (cleared (rows_of sources.now)) (expand runs.now)) }
    ensures refusal { IfErr result IsOutOfMemory }
{
    let rows = RunRefs {
        first: NO_ROWS,
        rest: ListedRuns { runs },
        left: len,
    };
    let live = RunRefs {
        first: NO_ROWS,
        rest: LiveRuns {
            sources,
            run: NO_ROWS,
            rest: rows,
        },
        left: len,
    };
    runs_of_plan(alloc, &live)
}
