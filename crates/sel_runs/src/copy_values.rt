//! Values and bits, copied run by run.

ghost use Rattle.std.specs.Prelude.{◌≡◌, ◌≤◌, ◌<◌, ◌+◌, ◌++◌, All, length, map, take, drop, vec_len, vec_capacity, IfOk, IfErr, OnOk};
ghost use Rattle.std.specs.Option.{option_copied};
ghost use Rattle.sel_bits.specs.Faults.{IsOutOfMemory};
ghost use Rattle.sel_bits.specs.Limits.{max_rows};
ghost use Rattle.sel_runs.specs.Picks.{pick, PickFits};
ghost use Rattle.sel_runs.specs.Plans.{HasBit, bits_found};
ghost use Rattle.sel_runs.specs.Runs.{unrolled};

use crate::bits::push_validity;
use crate::part::Part;
use crate::repeat::push_values;
use crate::row_refs::Plan;
use crate::runs::Run;
use sel_bits::bit_sink::{BitSink, append_copies};
use sel_bits::bitmap::Bitmap;
use sel_bits::faults::PolarsResult;
use sel_bits::packer::BitPacker;
use std::alloc::Global;

// The run length up to which a copy appends this many values, and truncates the rest.
const SHORT_RUN: usize = 8;

/// Returns the values at the row references of a plan, copied by its runs, and `zero` for null
/// references. Errors: `OutOfMemory`.
pub(crate) fn copy_plan<P: Plan, T: Copy + Drop>(
    alloc: Global,
    plan: &P,
    parts: &[Part<T>],
    zero: T,
) -> PolarsResult<Vec<T>>
    requires { All (PickFits (map (λ s. s.values.now) parts.now)) (P.picks plan.now) }
    ensures values { IfOk result (λ values. values.items ≡
        pick zero (map (λ s. s.values.now) parts.now) (P.picks plan.now)) }
    ensures refusal { IfErr result IsOutOfMemory }
{
    let len = plan.len();
    // (includes room for the values that are truncated after the last run)
    let mut values = Vec::with_capacity(alloc, len + SHORT_RUN)?;
    let mut rest = plan.again();
    let mut at = 0;
    while at < len {
        let run = rest.next_run();
        copy_run(&mut values, parts, run, zero)?;
        at += run.len as usize;
    }
    Ok(values)
}

/// Returns the bits at the row references of a plan, copied by its runs: true if the source has no
/// bitmap, false for null references. Errors: `OutOfMemory`.
pub(crate) fn copy_bits<P: Plan>(
    alloc: Global,
    plan: &P,
    maps: &[Option<&Bitmap>],
) -> PolarsResult<BitPacker>
    requires { All (HasBit (map option_copied maps.now)) (P.picks plan.now) }
    ensures bits { IfOk result (λ bits. bits ≡
        bits_found (map option_copied maps.now) (P.picks plan.now)) }
    ensures refusal { IfErr result IsOutOfMemory }
{
    let mut bits = BitPacker::with_capacity(alloc, plan.len())?;
    append_runs(&mut bits, plan, maps)?;
    Ok(bits)
}

/// Appends the bits at the row references of a plan, copied by its runs: true if the source has no
/// bitmap, false for null references. Errors: `OutOfMemory`.
pub(crate) fn append_runs<P: Plan, S: BitSink>(
    sink: &mut S,
    plan: &P,
    maps: &[Option<&Bitmap>],
) -> PolarsResult<()>
    requires { All (HasBit (map option_copied maps.now)) (P.picks plan.now) }
    ensures bits { OnOk result (S.so_far sink.new ≡ S.so_far sink.old ++
        bits_found (map option_copied maps.now) (P.picks plan.now)) }
    ensures beside { S.beside sink.new ≡ S.beside sink.old }
    ensures refusal { IfErr result IsOutOfMemory }
{
    let len = plan.len();
    let mut rest = plan.again();
    let mut at = 0;
    while at < len {
        let run = rest.next_run();
        push_bits(sink, maps, run)?;
        at += run.len as usize;
    }
    Ok(())
}

// Appends the bits of a run: true if the source has no bitmap, false if there is no source. Errors:
// `OutOfMemory`.
fn push_bits<S: BitSink>(sink: &mut S, maps: &[Option<&Bitmap>], run: Run) -> PolarsResult<()>
    requires fits { All (HasBit (map option_copied maps.now)) (unrolled run) }
    requires some { 0 < run.len }
    ensures bits { OnOk result (S.so_far sink.new ≡
        S.so_far sink.old ++ bits_found (map option_copied maps.now) (unrolled run)) }
    ensures beside { S.beside sink.new ≡ S.beside sink.old }
    ensures refusal { IfErr result IsOutOfMemory }
{
    let (start, len) = (run.start as usize, run.len as usize);
    match run.source {
        None => append_copies(sink, len, false),
        Some(source) => push_validity(sink, maps[source as usize], start, len),
    }
}

// Appends the values of a run, or `zero` for each row if it has no source. Errors: `OutOfMemory`.
#[inline(always)]
fn copy_run<T: Copy + Drop>(
    values: &mut Vec<T>,
    parts: &[Part<T>],
    run: Run,
    zero: T,
) -> PolarsResult<()>
    requires fits { All (PickFits (map (λ s. s.values.now) parts.now)) (unrolled run) }
    requires few { length values.old.items + run.len ≤ max_rows }
    requires room { vec_len values.old + 8 ≤ vec_capacity values.old }
    ensures values { OnOk result (values.new.items ≡ values.old.items ++
        pick zero (map (λ s. s.values.now) parts.now) (unrolled run)) }
    ensures capacity { vec_capacity values.old ≤ vec_capacity values.new }
    ensures refusal { IfErr result IsOutOfMemory }
{
    if run.len == 0 {
        return Ok(());
    }
    let len = run.len as usize;
    match run.source {
        None => push_values(values, zero, len),
        Some(source) => {
            let part = &parts[source as usize];
            copy_part(values, part.values, run.start as usize, len)
        }
    }
}

// Appends the `len` values from `start` on. Errors: `OutOfMemory`.
#[inline(always)]
fn copy_part<T: Copy + Drop>(
    values: &mut Vec<T>,
    from: &[T],
    start: usize,
    len: usize,
) -> PolarsResult<()>
    requires part { start + len ≤ length from.now }
    requires room { vec_len values.old + 8 ≤ vec_capacity values.old }
    ensures values { OnOk result (values.new.items ≡
        values.old.items ++ take len (drop start from.now)) }
    ensures capacity { vec_capacity values.old ≤ vec_capacity values.new }
    ensures refusal { IfErr result IsOutOfMemory }
{
    if len <= SHORT_RUN && from.len() - start >= SHORT_RUN {
        let before = values.len();
        push_eight(&from[start..start + SHORT_RUN], values);
        values.truncate(before + len);
        return Ok(());
    }
    values.extend_from_slice(&from[start..start + len])?;
    Ok(())
}

// Appends eight values. Loads all of them before it stores the first, so that vector registers can
// hold them.
//
// Requires: `out` has spare capacity for them.
#[inline(always)]
fn push_eight<T: Copy>(values: &[T], out: &mut Vec<T>)
    requires eight { length values.now ≡ 8 }
    requires room { vec_len out.old + 8 ≤ vec_capacity out.old }
    ensures items { out.new.items ≡ out.old.items ++ values.now }
    ensures capacity { vec_capacity out.new ≡ vec_capacity out.old }
{
    let loaded = [
        values[0], values[1], values[2], values[3], values[4], values[5], values[6], values[7],
    ];
    for i in 0..SHORT_RUN {
        out.push_reserved(loaded[i]);
    }
}
