//! Gathers rows from one column, at row references or by runs.

ghost use Rattle.std.specs.Prelude.{◌≡◌, ◌≤◌, ◌∷◌, [], All, length};
ghost use Rattle.sel_bits.specs.Limits.{max_rows};
ghost use Rattle.sel_arrow.specs.Rows.{rows, type_of, IsWellFormed};
ghost use Rattle.sel_arrow.specs.Value.{Null};
ghost use Rattle.sel_gather.specs.Gathers.{SelectsFrom};
ghost use Rattle.sel_runs.specs.Picks.{pick, PickFits};
ghost use Rattle.sel_runs.specs.Runs.{expand};

use crate::copy::collect_runs;
use crate::gather::collect_plan;
use sel_arrow::array_ref::ArrayRef;
use sel_arrow::column::Column;
use sel_bits::faults::PolarsResult;
use sel_runs::row_refs::Plan;
use sel_runs::runs::Run;
use std::alloc::Global;

/// Returns the rows of `column` that `runs` refer to, in order; a run without a source gives null
/// rows.
///
/// # Requires
/// `column` is well-formed, and every run with rows has source 0 or none and is within the rows of
/// `column` (check with `runs_fit`). The runs have `len` rows in total (`picked_rows`), at most
/// 2^32 - 1.
///
/// # Errors
/// `OutOfMemory` if an allocation fails; `SizeLimit` if at some depth the result would have more
/// than 2^32 - 1 rows (`Limit::Rows`) or 2^63 - 1 value bytes (`Limit::Bytes`).
pub fn collect_one(
    alloc: Global,
    column: &Column,
    runs: &[Run],
    len: usize,
) -> PolarsResult<ArrayRef>
    requires formed { IsWellFormed column.now }
    requires fits { All (PickFits (rows column.now ∷ [])) (expand runs.now) }
    requires len { length (expand runs.now) ≡ len }
    requires few { len ≤ max_rows }
    ensures { SelectsFrom result (type_of column.now)
        (pick Null (rows column.now ∷ []) (expand runs.now)) }
{
    let sources = [column];
    let column = collect_runs(alloc, &sources, runs, len)?;
    Ok(ArrayRef { column })
}

/// Returns the rows of `column` at the row references of `plan`, in order; a null reference gives a
/// null row.
///
/// # Requires
/// `column` is well-formed (check with `Column::is_well_formed`), and every non-null row reference
/// is `(0, i)` with `i` less than `column.len()` (check with `plan_in_bounds(&[column], plan)`).
///
/// # Errors
/// Those of [`collect_one`].
pub fn collect_one_plan<P: Plan>(alloc: Global, column: &Column, plan: &P) -> PolarsResult<ArrayRef>
    requires formed { IsWellFormed column.now }
    requires fits { All (PickFits (rows column.now ∷ [])) (P.picks plan.now) }
    ensures { SelectsFrom result (type_of column.now)
        (pick Null (rows column.now ∷ []) (P.picks plan.now)) }
{
    let sources = [column];
    let column = collect_plan(alloc, &sources, plan, false)?;
    Ok(ArrayRef { column })
}
