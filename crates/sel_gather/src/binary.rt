//! Gathered binary columns, copied by runs of rows.

ghost use Rattle.std.specs.Prelude.{◌≡◌, ◌≤◌, ◌+◌, ◌*◌, ◌∷◌, ◌++◌, [], true, pos, All, length, map, take, drop, replicate, IfOk, IfErr, OnOk};
ghost use Rattle.sel_bits.specs.Faults.{IsOutOfMemory};
ghost use Rattle.sel_bits.specs.Limits.{max_rows};
ghost use Rattle.sel_arrow.specs.Columns.{binary_rows};
ghost use Rattle.sel_arrow.specs.Rows.{rows, type_of, IsWellFormed};
ghost use Rattle.sel_arrow.specs.Shape.{of_large_binary};
ghost use Rattle.sel_arrow.specs.Value.{Null, validities};
ghost use Rattle.sel_gather.specs.Cleared.{IsLive};
ghost use Rattle.sel_gather.specs.JoinedBytes.{ends_from};
ghost use Rattle.sel_gather.specs.GrownBytes.{joined_bytes, GrewBy};
ghost use Rattle.sel_gather.specs.Need.{ExceedsBytes, IsLimitOrMemory, ExceedsNone, bytes_needed};
ghost use Rattle.sel_gather.specs.Gathers.{Collects};
ghost use Rattle.sel_runs.specs.Picks.{pick, PickFits};
ghost use Rattle.sel_runs.specs.Runs.{unrolled};
ghost use Rattle.sel_gather.specs.Sources.{columns_of, rows_of};
ghost use Rattle.sel_gather.specs.Steps.{binaries, picked_bytes};
ghost use Rattle.sel_gather.specs.RunRows.{run_bytes};

use crate::live_runs::LiveRuns;
use crate::typed_arrays::{binaries_of, binary_of};
use sel_arrow::binary::BinaryArray;
use sel_arrow::column::Column;
use sel_bits::buffer::Buffer;
use sel_bits::faults::{Limit, PolarsError, PolarsResult};
use sel_bits::offsets::OffsetsBuffer;
use sel_bits::packer::BitPacker;
use sel_runs::bits::validity_from;
use sel_runs::row_refs::Plan;
use sel_runs::run_refs::Runs;
use sel_runs::runs::{NO_ROWS, Run};
use std::alloc::Global;

/// The rows so far: a leading 0 and the end offset of each row, the value bytes, and one validity
/// bit per row.
#[derive(Drop)]
struct Joined {
    ends: Vec<i64>,
    bytes: Vec<u8>,
    validity: BitPacker,
}

/// Returns the rows of several binary columns at the row references of `plan`, in order; a null
/// reference gives a null row.
///
/// The value bytes of each run of valid rows are copied at once. The runs are read twice, for the
/// number of bytes and for the rows, so that they are not listed.
///
/// # Requires
/// All sources are well-formed binary columns, and every non-null row reference refers to a row of
/// a source.
///
/// # Errors
/// `OutOfMemory` if an allocation fails; `SizeLimit(Limit::Bytes)` if the rows have more than 2^63
/// - 1 value bytes.
pub(crate) fn gather_binary<'a, P: Plan>(
    alloc: Global,
    sources: &'a [&'a Column],
    plan: &P,
) -> PolarsResult<Column>
    requires alike { All (λ c. type_of c.now ≡ of_large_binary) sources.now }
    requires formed { All (λ c. IsWellFormed c.now) sources.now }
    requires fits { All (PickFits (rows_of sources.now)) (P.picks plan.now) }
    ensures { Collects result of_large_binary (columns_of sources.now)
        (pick Null (rows_of sources.now) (P.picks plan.now)) }
{
    let len = plan.len();
    let live = LiveRuns {
        sources,
        run: NO_ROWS,
        rest: plan.again(),
    };
    if let [only] = sources {
        return collect_binary(alloc, &[binary_of(*only)], &live, len);
    }
    if let [one, other] = sources {
        return collect_binary(alloc, &[binary_of(*one), binary_of(*other)], &live, len);
    }
    let arrays = binaries_of(alloc, sources)?;
    collect_binary(alloc, &arrays, &live, len)
}

// Returns the rows of several binary columns that runs refer to, in order; a run without a source
// gives null rows, and a run with a source has no null row. The runs have `len` rows in total.
//
// Errors: `OutOfMemory`; `SizeLimit(Limit::Bytes)` if the rows have more than 2^63 - 1 value bytes.
fn collect_binary<R: Runs>(
    alloc: Global,
    sources: &[&BinaryArray<i64>],
    runs: &R,
    len: usize,
) -> PolarsResult<Column>
    requires fits { All (PickFits (binaries sources.now)) (R.picks runs.now) }
    requires live { All (IsLive (binaries sources.now)) (R.picks runs.now) }
    requires len { length (R.picks runs.now) ≡ len }
    requires few { len ≤ max_rows }
    ensures rows { IfOk result (λ column. rows column ≡
        picked_bytes sources.now (R.picks runs.now)) }
    ensures dtype { IfOk result (λ column. type_of column ≡ of_large_binary) }
    ensures formed { IfOk result (λ column. IsWellFormed column) }
    ensures within { IfOk result (λ _. ExceedsNone
        (ExceedsBytes (pos 9223372036854775807) (picked_bytes sources.now (R.picks runs.now)))) }
    ensures refusal { IfErr result (IsLimitOrMemory
        (ExceedsBytes (pos 9223372036854775807) (picked_bytes sources.now (R.picks runs.now)))) }
{
    let need = count_bytes(sources, runs, len);
    if need > i64::MAX as u128 {
        return Err(PolarsError::SizeLimit(Limit::Bytes));
    }
    let mut joined = with_room(alloc, len, need as usize)?;
    push_runs(&mut joined, sources, runs, len)?;
    let Joined {
        ends,
        bytes,
        validity,
    } = joined;
    let validity = validity_from(validity, len)?;
    let offsets = OffsetsBuffer::of_rising(ends)?;
    let values = Buffer::from_vec(bytes)?;
    Ok(Column::LargeBinary(BinaryArray {
        offsets,
        values,
        validity,
    }))
}

// Returns the number of value bytes of the rows that runs refer to, `len` rows in total.
fn count_bytes<R: Runs>(sources: &[&BinaryArray<i64>], runs: &R, len: usize) -> u128
    requires fits { All (PickFits (binaries sources.now)) (R.picks runs.now) }
    requires live { All (IsLive (binaries sources.now)) (R.picks runs.now) }
    requires len { length (R.picks runs.now) ≡ len }
    requires few { len ≤ max_rows }
    ensures { result ≡ bytes_needed (picked_bytes sources.now (R.picks runs.now)) }
{
    let mut rest = runs.again();
    let mut total: u128 = 0;
    let mut at = 0;
    while at < len {
        let run = rest.next_run();
        total += count_run(sources, run);
        at += run.len as usize;
    }
    total
}

// Returns the number of value bytes of the rows of one run.
fn count_run(sources: &[&BinaryArray<i64>], run: Run) -> u128
    requires fits { All (PickFits (binaries sources.now)) (unrolled run) }
    requires live { All (IsLive (binaries sources.now)) (unrolled run) }
    ensures count { result ≡ bytes_needed (run_bytes sources.now run) }
    ensures small { result ≤ 18446744073709551615 * run.len }
{
    if run.len == 0 {
        return 0;
    }
    bytes_of(sources, run).len() as u128
}

// Returns the value bytes of the rows of one run, which are contiguous; none for a run of nulls.
fn bytes_of<'a>(sources: &[&'a BinaryArray<i64>], run: Run) -> &'a [u8]
    requires fits { All (PickFits (binaries sources.now)) (unrolled run) }
    requires live { All (IsLive (binaries sources.now)) (unrolled run) }
    ensures { result.now ≡ joined_bytes (run_bytes sources.now run) }
{
    if run.len == 0 {
        return &[];
    }
    match run.source {
        None => &[],
        Some(source) => part_of(
            sources[source as usize],
            run.start as usize,
            run.len as usize,
        ),
    }
}

// Returns the value bytes of the `len` rows from `start` on, none of which is null.
fn part_of(array: &BinaryArray<i64>, start: usize, len: usize) -> &[u8]
    requires inside { start + len ≤ length (binary_rows array.now) }
    requires live { validities (take len (drop start (binary_rows array.now))) ≡
        replicate len true }
    ensures { result.now ≡ joined_bytes (take len (drop start (binary_rows array.now))) }
{
    let end = array.offsets.at(start + len);
    &array.values.as_slice()[array.offsets.at(start)..end]
}

// Returns no rows, with capacity for `len` rows and `need` bytes. Errors: `OutOfMemory`.
fn with_room(alloc: Global, len: usize, need: usize) -> PolarsResult<Joined>
    requires { len ≤ max_rows }
    ensures ends { IfOk result (λ joined. joined.ends.items ≡ pos 0 ∷ []) }
    ensures bytes { IfOk result (λ joined. joined.bytes.items ≡ []) }
    ensures bits { IfOk result (λ joined. joined.validity ≡ []) }
    ensures refusal { IfErr result IsOutOfMemory }
{
    let mut ends = Vec::with_capacity(alloc, len + 1)?;
    ends.push(0)?;
    Ok(Joined {
        ends,
        bytes: Vec::with_capacity(alloc, need)?,
        validity: BitPacker::with_capacity(alloc, len)?,
    })
}

// Appends the rows that runs refer to, `len` in total. Errors: `OutOfMemory`.
fn push_runs<R: Runs>(
    joined: &mut Joined,
    sources: &[&BinaryArray<i64>],
    runs: &R,
    len: usize,
) -> PolarsResult<()>
    requires fits { All (PickFits (binaries sources.now)) (R.picks runs.now) }
    requires live { All (IsLive (binaries sources.now)) (R.picks runs.now) }
    requires len { length (R.picks runs.now) ≡ len }
    requires few { len ≤ max_rows }
    requires room { length joined.old.bytes.items + bytes_needed
        (picked_bytes sources.now (R.picks runs.now)) ≤ 9223372036854775807 }
    ensures rows { OnOk result
        (GrewBy (picked_bytes sources.now (R.picks runs.now)) joined.old joined.new) }
    ensures refusal { IfErr result IsOutOfMemory }
{
    let mut rest = runs.again();
    let mut at = 0;
    while at < len {
        let run = rest.next_run();
        push_run(joined, sources, run)?;
        at += run.len as usize;
    }
    Ok(())
}

// Appends the rows of one run, their bytes at once. Errors: `OutOfMemory`.
fn push_run(joined: &mut Joined, sources: &[&BinaryArray<i64>], run: Run) -> PolarsResult<()>
    requires fits { All (PickFits (binaries sources.now)) (unrolled run) }
    requires live { All (IsLive (binaries sources.now)) (unrolled run) }
    requires room { length joined.old.bytes.items + bytes_needed
        (run_bytes sources.now run) ≤ 9223372036854775807 }
    ensures rows { OnOk result (GrewBy (run_bytes sources.now run) joined.old joined.new) }
    ensures refusal { IfErr result IsOutOfMemory }
{
    let before = joined.bytes.len();
    joined.bytes.extend_from_slice(bytes_of(sources, run))?;
    push_ends(&mut joined.ends, sources, run, before)?;
    joined
        .validity
        .extend_constant(run.len as usize, run.source.is_some())?;
    Ok(())
}

// Appends the end offset of each row of a run, whose bytes begin at offset `before`. Errors:
// `OutOfMemory`.
fn push_ends(
    ends: &mut Vec<i64>,
    sources: &[&BinaryArray<i64>],
    run: Run,
    before: usize,
) -> PolarsResult<()>
    requires fits { All (PickFits (binaries sources.now)) (unrolled run) }
    requires live { All (IsLive (binaries sources.now)) (unrolled run) }
    requires room { before + bytes_needed (run_bytes sources.now run) ≤ 9223372036854775807 }
    ensures ends { OnOk result (ends.new.items ≡
        ends.old.items ++ map pos (ends_from before (run_bytes sources.now run))) }
    ensures refusal { IfErr result IsOutOfMemory }
{
    if run.len == 0 {
        return Ok(());
    }
    match run.source {
        None => push_same_ends(ends, before, run.len as usize),
        Some(source) => push_row_ends(
            ends,
            sources[source as usize],
            run.start as usize,
            run.len as usize,
            before,
        ),
    }
}

// Appends `before` `len` times, as the end offsets of null rows. Errors: `OutOfMemory`.
fn push_same_ends(ends: &mut Vec<i64>, before: usize, len: usize) -> PolarsResult<()>
    requires { before ≤ 9223372036854775807 }
    ensures ends { OnOk result (ends.new.items ≡ ends.old.items ++ replicate len (pos before)) }
    ensures refusal { IfErr result IsOutOfMemory }
{
    for _ in 0..len {
        ends.push(before as i64)?;
    }
    Ok(())
}

// Appends the end offset of each of the `len` rows from `start` on, whose bytes begin at offset
// `before`. Errors: `OutOfMemory`.
fn push_row_ends(
    ends: &mut Vec<i64>,
    array: &BinaryArray<i64>,
    start: usize,
    len: usize,
    before: usize,
) -> PolarsResult<()>
    requires inside { start + len ≤ length (binary_rows array.now) }
    requires live { validities (take len (drop start (binary_rows array.now))) ≡
        replicate len true }
    requires room { before + bytes_needed
        (take len (drop start (binary_rows array.now))) ≤ 9223372036854775807 }
    ensures ends { OnOk result (ends.new.items ≡ ends.old.items ++ map pos
        (ends_from before (take len (drop start (binary_rows array.now))))) }
    ensures refusal { IfErr result IsOutOfMemory }
{
    let first = array.offsets.at(start);
    for i in 0..len {
        let end = array.offsets.at(start + i + 1);
        ends.push((before + (end - first)) as i64)?;
    }
    Ok(())
}
