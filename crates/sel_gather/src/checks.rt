//! Runtime checks for the preconditions on runs, row references and their sources.

ghost use Rattle.std.specs.Prelude.{◌≡◌, ◌≤◌, ◌↔◌, All, length, IsTrue};
ghost use Rattle.sel_bits.specs.Limits.{max_rows};
ghost use Rattle.sel_arrow.specs.Rows.{type_of, IsWellFormed};
ghost use Rattle.sel_runs.specs.Picks.{PickFits};
ghost use Rattle.sel_runs.specs.Runs.{expand, unrolled};
ghost use Rattle.sel_gather.specs.Sources.{columns_of, first_type, rows_of};

use sel_arrow::column::Column;
use sel_runs::row_refs::Plan;
use sel_runs::runs::Run;

/// Returns whether all columns have the type of the first.
pub fn are_alike(sources: &[&Column]) -> bool
    ensures { IsTrue result ↔
        All (λ c. type_of c.now ≡ first_type (columns_of sources.now)) sources.now }
{
    let Some(first) = sources.first() else {
        return true;
    };
    for source in sources {
        if !source.same_dtype(first) {
            return false;
        }
    }
    true
}

/// Returns whether all columns are well-formed.
pub fn are_well_formed(sources: &[&Column]) -> bool
    ensures { IsTrue result ↔ All (λ c. IsWellFormed c.now) sources.now }
{
    for source in sources {
        if !source.is_well_formed() {
            return false;
        }
    }
    true
}

/// Returns whether every run is within the rows of its source. The sources need not be well-formed.
pub fn runs_fit(sources: &[&Column], runs: &[Run]) -> bool
    ensures { IsTrue result ↔ All (PickFits (rows_of sources.now)) (expand runs.now) }
{
    for run in runs {
        if !run_fits(sources, *run) {
            return false;
        }
    }
    true
}

// Returns whether a run is within the rows of its source.
fn run_fits(sources: &[&Column], run: Run) -> bool
    ensures { IsTrue result ↔ All (PickFits (rows_of sources.now)) (unrolled run) }
{
    if run.len == 0 {
        return true;
    }
    match run.source {
        None => true,
        Some(source) => match sources.get(source as usize) {
            None => false,
            Some(column) => run.start as u64 + run.len as u64 <= column.len() as u64,
        },
    }
}

/// Returns whether every non-null row reference refers to a row of a source, and there are at most
/// 2^32 - 1 references. The sources need not be well-formed.
pub fn picks_in_bounds(sources: &[&Column], picks: &[Option<(u32, u32)>]) -> bool
    ensures { IsTrue result ↔
        (All (PickFits (rows_of sources.now)) picks.now × (length picks.now ≤ max_rows)) }
{
    if picks.len() > u32::MAX as usize {
        return false;
    }
    for pick in picks {
        if !pick_fits(sources, *pick) {
            return false;
        }
    }
    true
}

/// Returns whether every non-null row reference of `plan` refers to a row of a source. The sources
/// need not be well-formed.
pub fn plan_in_bounds<P: Plan>(sources: &[&Column], plan: &P) -> bool
    ensures { IsTrue result ↔ All (PickFits (rows_of sources.now)) (P.picks plan.now) }
{
    let mut rest = plan.again();
    let mut left = plan.len();
    while left > 0 {
        if !pick_fits(sources, rest.next()) {
            return false;
        }
        left -= 1;
    }
    true
}

// Returns whether a row reference is null or refers to a row of a source.
fn pick_fits(sources: &[&Column], pick: Option<(u32, u32)>) -> bool
    ensures { IsTrue result ↔ PickFits (rows_of sources.now) pick }
{
    match pick {
        None => true,
        Some((source, row)) => match sources.get(source as usize) {
            None => false,
            Some(column) => (row as usize) < column.len(),
        },
    }
}
