//! Runs of consecutive rows.

ghost use Rattle.std.specs.Prelude.{◌≡◌, ◌≤◌, ◌<◌, ◌+◌, ◌++◌, ◌∷◌, [], All, None, length, IfSome, IfErr, OnOk};
ghost use Rattle.sel_bits.specs.Faults.{IsOutOfMemory};
ghost use Rattle.sel_bits.specs.Limits.{max_rows};
ghost use Rattle.sel_runs.specs.Plans.{IsNear};
ghost use Rattle.sel_runs.specs.Runs.{expand, unrolled};

use sel_bits::faults::PolarsResult;

/// `len` rows of one source from row `start` on; without a source, `len` nulls.
#[derive(Clone, Copy, Drop)]
pub struct Run {
    pub source: Option<u32>,
    pub start: u32,
    pub len: u32,
}

/// A run of no rows, the `first` of a [`RunRefs`](crate::run_refs::RunRefs) before its first run.
pub const NO_ROWS: Run = Run {
    source: Some(0),
    start: 0,
    len: 0,
};

/// Appends a run, or extends the last run if the two are contiguous; does nothing for an empty run.
///
/// # Requires
/// The runs have at most 2^32 - 1 rows in total, including the new one (`picked_rows`).
///
/// # Errors
/// `OutOfMemory` if an allocation fails; the runs are unchanged.
pub fn push_run(runs: &mut Vec<Run>, run: Run) -> PolarsResult<()>
    requires { length (expand runs.old.items) + run.len ≤ max_rows }
    ensures picks { OnOk result (expand runs.new.items ≡ expand runs.old.items ++ unrolled run) }
    ensures unchanged { IfErr result (λ _. runs.new.items ≡ runs.old.items) }
    ensures refusal { IfErr result IsOutOfMemory }
{
    if run.len == 0 {
        return Ok(());
    }
    let count = runs.len();
    if count > 0 {
        if let Some(both) = joined(runs[count - 1], run) {
            runs[count - 1] = both;
            return Ok(());
        }
    }
    runs.push(run)?;
    Ok(())
}

/// Appends a run like [`push_run`], with the last run stored in `last`, which is empty if there is
/// none.
///
/// # Requires
/// The runs have at most 2^32 - 1 rows in total, including `last` and the new one (`picked_rows`).
///
/// # Errors
/// `OutOfMemory` if an allocation fails; the runs and `last` are unchanged.
#[inline(always)]
pub fn put_run(runs: &mut Vec<Run>, last: &mut Run, run: Run) -> PolarsResult<()>
    requires { length (expand (runs.old.items ++ last.old ∷ [])) + run.len ≤ max_rows }
    ensures picks { OnOk result (expand (runs.new.items ++ last.new ∷ []) ≡
        expand (runs.old.items ++ last.old ∷ []) ++ unrolled run) }
    ensures unchanged { IfErr result (λ _. runs.new.items ≡ runs.old.items) }
    ensures last_unchanged { IfErr result (λ _. last.new ≡ last.old) }
    ensures refusal { IfErr result IsOutOfMemory }
{
    if run.len == 0 {
        return Ok(());
    }
    if last.len == 0 {
        *last = run;
        return Ok(());
    }
    if let Some(both) = joined(*last, run) {
        *last = both;
        return Ok(());
    }
    runs.push(*last)?;
    *last = run;
    Ok(())
}

/// Returns the total number of rows of the runs.
pub fn picked_rows(runs: &[Run]) -> u128
    ensures { result ≡ length (expand runs.now) }
{
    // (there are no more runs than an index can address)
    let _len = runs.len();
    let mut count = 0;
    for run in runs {
        count += run.len as u128;
    }
    count
}

/// Returns a run of `len` nulls.
pub fn nulls_of(len: u32) -> Run
    ensures { result ≡ (record { source = None; start = 0; len = len }) }
{
    Run {
        source: None,
        start: 0,
        len,
    }
}

/// Returns both runs as one if the second continues the first.
///
/// # Requires
/// The runs have at most 2^32 - 1 rows in total.
#[inline(always)]
#[tactic(auto, using(crate::proofs::RunLists::run_rules))]
pub(crate) fn joined(first: Run, second: Run) -> Option<Run>
    requires { first.len + second.len ≤ max_rows }
    ensures { IfSome result (λ both. unrolled both ≡ unrolled first ++ unrolled second) }
{
    let len = first.len + second.len;
    match (first.source, second.source) {
        (None, None) => Some(Run { len, ..first }),
        (Some(one), Some(other)) => {
            let end = first.start as u64 + first.len as u64;
            if one == other && end == second.start as u64 {
                Some(Run { len, ..first })
            } else {
                None
            }
        }
        _ => None,
    }
}

/// Returns whether the second run continues the first, as far as their sources and rows tell. The
/// result is a hint.
pub(crate) fn continues(first: Run, second: Run) -> bool {
    match (first.source, second.source) {
        (None, None) => true,
        (Some(one), Some(other)) => {
            one == other && first.start as u64 + first.len as u64 == second.start as u64
        }
        _ => false,
    }
}

/// Returns the first row reference of a run, and the run of the others.
///
/// # Requires
/// The run has a row, and each row number is less than 2^32.
#[inline(always)]
pub(crate) fn split_first(run: Run) -> (Option<(u32, u32)>, Run)
    requires some { 0 < run.len }
    requires near { All IsNear (unrolled run) }
    ensures { unrolled run ≡ result.0 ∷ unrolled result.1 }
{
    let Run { source, start, len } = run;
    let others = Run {
        source,
        start: start.wrapping_add(1),
        len: len - 1,
    };
    match source {
        None => (None, others),
        Some(source) => (Some((source, start)), others),
    }
}

/// Returns the run of one row reference.
pub fn run_of_pick(pick: Option<(u32, u32)>) -> Run
    ensures picks { unrolled result ≡ pick ∷ [] }
    ensures len { result.len ≡ 1 }
{
    match pick {
        None => nulls_of(1),
        Some((source, start)) => Run {
            source: Some(source),
            start,
            len: 1,
        },
    }
}
