//! Validity of gathered rows.

ghost use Rattle.std.specs.Prelude.{◌≡◌, ◌≢◌, ◌≤◌, ◌++◌, None, All, false, length, map, IfOk, IfErr, OnOk};
ghost use Rattle.std.specs.Option.{option_copied};
ghost use Rattle.sel_bits.specs.Faults.{IsOutOfMemory};
ghost use Rattle.sel_bits.specs.Limits.{max_rows};
ghost use Rattle.sel_bits.specs.Validity.{Covers, bits_for};
ghost use Rattle.sel_arrow.specs.Nulls.{IsValidityOf};
ghost use Rattle.sel_arrow.specs.Rows.{rows, type_of, IsWellFormed};
ghost use Rattle.sel_arrow.specs.Shape.{of_null};
ghost use Rattle.sel_arrow.specs.Value.{Null, validities};
ghost use Rattle.sel_gather.specs.Gathers.{MayGather};
ghost use Rattle.sel_runs.specs.Picks.{pick, PickFits};
ghost use Rattle.sel_gather.specs.Steps.{AreValidities};
ghost use Rattle.sel_runs.specs.Runs.{expand};
ghost use Rattle.sel_gather.specs.Sources.{columns_of, picked, rows_of};

use sel_arrow::column::Column;
use sel_bits::bit_sink::BitSink;
use sel_bits::bitmap::Bitmap;
use sel_bits::faults::PolarsResult;
use sel_runs::each::read_each;
use sel_runs::gather_values::{append_bits, validity_at};
use sel_runs::row_refs::Plan;
use sel_runs::run_refs::{ListedRuns, RunRefs};
use sel_runs::runs::{NO_ROWS, Run};
use std::alloc::Global;

/// Returns the validity of the rows that runs refer to; none if all rows are valid.
///
/// # Requires
/// No source is a null column, all sources are well-formed, and every run is within the rows of its
/// source. The runs have `len` rows in total, at most 2^32 - 1.
///
/// # Errors
/// `OutOfMemory` if an allocation fails.
pub fn collect_validity(
    alloc: Global,
    sources: &[&Column],
    runs: &[Run],
    len: usize,
) -> PolarsResult<Option<Bitmap>>
    requires known { All (λ c. type_of c.now ≢ of_null) sources.now }
    requires may { MayGather sources.now (expand runs.now) len }
    ensures bits { IfOk result (λ validity. bits_for len validity ≡
        validities (picked sources.now runs.now)) }
    ensures covers { IfOk result (λ validity. Covers validity len) }
    ensures refusal { IfErr result IsOutOfMemory }
{
    let plan = RunRefs {
        first: NO_ROWS,
        rest: ListedRuns { runs },
        left: len,
    };
    gather_validity(alloc, sources, &plan)
}

/// Returns the validity of the rows at the row references of a plan; none if all rows are valid.
///
/// # Requires
/// No source is a null column, all sources are well-formed, and every non-null row reference refers
/// to a row of a source.
///
/// # Errors
/// `OutOfMemory` if an allocation fails.
pub fn gather_validity<P: Plan>(
    alloc: Global,
    sources: &[&Column],
    plan: &P,
) -> PolarsResult<Option<Bitmap>>
    requires known { All (λ c. type_of c.now ≢ of_null) sources.now }
    requires formed { All (λ c. IsWellFormed c.now) sources.now }
    requires fits { All (PickFits (rows_of sources.now)) (P.picks plan.now) }
    ensures bits { IfOk result (λ validity. bits_for (length (P.picks plan.now)) validity ≡
        validities (pick Null (rows_of sources.now) (P.picks plan.now))) }
    ensures covers { IfOk result (λ validity. Covers validity (length (P.picks plan.now))) }
    ensures refusal { IfErr result IsOutOfMemory }
{
    if let [only] = sources {
        return validity_at(alloc, plan, &[only.validity()]);
    }
    if let [one, other] = sources {
        return validity_at(alloc, plan, &[one.validity(), other.validity()]);
    }
    if !plan.has_nulls() && !has_validity(sources) {
        return Ok(None);
    }
    let maps = validities_of(alloc, sources)?;
    validity_at(alloc, plan, &maps)
}

/// Appends the validity of the rows at the row references of a plan.
///
/// # Requires
/// As [`gather_validity`].
///
/// # Errors
/// `OutOfMemory` if an allocation fails.
pub(crate) fn append_validity<P: Plan, S: BitSink>(
    alloc: Global,
    sink: &mut S,
    sources: &[&Column],
    plan: &P,
) -> PolarsResult<()>
    requires known { All (λ c. type_of c.now ≢ of_null) sources.now }
    requires formed { All (λ c. IsWellFormed c.now) sources.now }
    requires fits { All (PickFits (rows_of sources.now)) (P.picks plan.now) }
    ensures bits { OnOk result (S.so_far sink.new ≡ S.so_far sink.old ++
        validities (pick Null (rows_of sources.now) (P.picks plan.now))) }
    ensures beside { S.beside sink.new ≡ S.beside sink.old }
    ensures refusal { IfErr result IsOutOfMemory }
{
    if let [only] = sources {
        return append_bits(sink, plan, &[only.validity()]);
    }
    if let [one, other] = sources {
        return append_bits(sink, plan, &[one.validity(), other.validity()]);
    }
    let maps = validities_of(alloc, sources)?;
    append_bits(sink, plan, &maps)
}

/// Returns the number of offsets in whose place the validity of the rows at the row references of a
/// plan fits; 0 if no row can be null.
pub(crate) fn room_for_validity<P: Plan>(sources: &[&Column], plan: &P) -> usize
    requires { All (λ c. IsWellFormed c.now) sources.now }
    ensures { result ≤ max_rows }
{
    if plan.has_nulls() || has_validity(sources) {
        return plan.len() / 64 + 1;
    }
    0
}

/// Returns whether some source has a validity.
pub(crate) fn has_validity(sources: &[&Column]) -> bool
    requires { All (λ c. IsWellFormed c.now) sources.now }
    ensures { result ≡ false →
        All (λ c. IsValidityOf (type_of c.now) None (rows c.now)) sources.now }
{
    for source in sources {
        match source.validity() {
            None => {}
            Some(_) => return true,
        }
    }
    false
}

// Returns the validity of each source. Errors: `OutOfMemory`.
fn validities_of<'a>(alloc: Global, sources: &[&'a Column]) -> PolarsResult<Vec<Option<&'a Bitmap>>>
    requires formed { All (λ c. IsWellFormed c.now) sources.now }
    ensures told { IfOk result (λ maps.
        AreValidities (map option_copied maps.items) (columns_of sources.now)) }
    ensures refusal { IfErr result IsOutOfMemory }
{
    read_each(alloc, sources, |column| column.validity())
}
