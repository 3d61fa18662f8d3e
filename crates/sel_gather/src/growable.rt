//! Columns under construction, to which rows of other columns are appended.

ghost use Rattle.std.specs.Prelude.{◌≡◌, ◌≤◌, ◌<◌, ◌+◌, ◌++◌, All, List, length, take, drop, replicate, slice_index_or, [], IfOk, IfErr};
ghost use Rattle.sel_bits.specs.Faults.{IsOutOfMemory};
ghost use Rattle.sel_bits.specs.Limits.{max_rows};
ghost use Rattle.sel_arrow.specs.Value.{Value, Null};
ghost use Rattle.sel_runs.specs.Picks.{pick, PickFits};
ghost use Rattle.sel_runs.specs.Runs.{expand, unrolled};

use sel_bits::faults::PolarsResult;
use sel_runs::runs::Run;

/// A column to which rows of given sources and nulls can be appended.
pub trait Growable: Sized {
    /// The rows of each source.
    ghost sources: { Self → List (List Value) };

    /// The rows so far.
    ghost grown: { Self → List Value };

    /// Appends the `len` rows of a source from row `start` on.
    ///
    /// # Requires
    /// The source exists and has at least `start + len` rows; the result has at most 2^32 - 1 rows.
    ///
    /// # Errors
    /// `OutOfMemory` if an allocation fails.
    fn extend(self, source: u32, start: u32, len: u32) -> PolarsResult<Self>
        requires source { source < length (sources self) }
        requires inside { start + len ≤ length (slice_index_or (sources self) source []) }
        requires room { length (grown self) + len ≤ max_rows }
        ensures rows { IfOk result (λ longer. grown longer ≡
            grown self ++ take len (drop start (slice_index_or (sources self) source []))) }
        ensures sources { IfOk result (λ longer. sources longer ≡ sources self) }
        ensures refusal { IfErr result IsOutOfMemory };

    /// Appends `len` nulls.
    ///
    /// # Requires
    /// The result has at most 2^32 - 1 rows.
    ///
    /// # Errors
    /// `OutOfMemory` if an allocation fails.
    fn extend_nulls(self, len: u32) -> PolarsResult<Self>
        requires room { length (grown self) + len ≤ max_rows }
        ensures rows { IfOk result (λ longer. grown longer ≡ grown self ++ replicate len Null) }
        ensures sources { IfOk result (λ longer. sources longer ≡ sources self) }
        ensures refusal { IfErr result IsOutOfMemory };
}

/// Appends the rows that runs refer to, in order.
///
/// # Requires
/// Every run is within the rows of its source; the result has at most 2^32 - 1 rows.
///
/// # Errors
/// `OutOfMemory` if an allocation fails.
pub fn extend_runs<G: Growable>(mut growable: G, runs: &[Run]) -> PolarsResult<G>
    requires fits { All (PickFits (G.sources growable)) (expand runs.now) }
    requires room { length (G.grown growable) + length (expand runs.now) ≤ max_rows }
    ensures rows { IfOk result (λ longer. G.grown longer ≡
        G.grown growable ++ pick Null (G.sources growable) (expand runs.now)) }
    ensures sources { IfOk result (λ longer. G.sources longer ≡ G.sources growable) }
    ensures refusal { IfErr result IsOutOfMemory }
{
    for run in runs {
        growable = extend_run(growable, *run)?;
    }
    Ok(growable)
}

fn extend_run<G: Growable>(growable: G, run: Run) -> PolarsResult<G>
    requires fits { All (PickFits (G.sources growable)) (unrolled run) }
    requires room { length (G.grown growable) + run.len ≤ max_rows }
    ensures rows { IfOk result (λ longer. G.grown longer ≡
        G.grown growable ++ pick Null (G.sources growable) (unrolled run)) }
    ensures sources { IfOk result (λ longer. G.sources longer ≡ G.sources growable) }
    ensures refusal { IfErr result IsOutOfMemory }
{
    if run.len == 0 {
        return Ok(growable);
    }
    match run.source {
        None => growable.extend_nulls(run.len),
        Some(source) => growable.extend(source, run.start, run.len),
    }
}
