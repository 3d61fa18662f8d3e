//! The bytes of binary columns at indices.

ghost use Rattle.std.specs.Prelude.{IsTrue, true, ◌≡◌, ◌+◌, ◌-◌, ◌≤◌, ◌<◌, ◌≤ℤ◌, ◌∷◌, ◌++◌, pos, map, length, take, drop, slice_index, if◌then◌else◌, IfOk, IfErr, OnOk};
ghost use Rattle.sel_bits.specs.Faults.{IsOutOfMemory};
ghost use Rattle.sel_bits.specs.Offsets.{IsOffsets, magnitudes};
ghost use Rattle.sel_arrow.specs.Columns.{binary_rows, primitive_rows};
ghost use Rattle.sel_arrow.specs.Pieces.{rows_between};
ghost use Rattle.sel_kernels.specs.JoinedBytes.{ends_from, joined_bytes};
ghost use Rattle.sel_kernels.specs.Need.{bytes_needed, IsLimitOrMemory, ExceedsBytes};
ghost use Rattle.sel_kernels.specs.Pick.{all_within, take_rows};
ghost use Rattle.sel_kernels.specs.Spans.{plain_rows, AreStarts};

use crate::gather::bit_slice::{BitSlice, bit_or_true};
use sel_arrow::binary::BinaryArray;
use sel_arrow::primitive::{IdxArr, PrimitiveArray};
use sel_bits::buffer::Buffer;
use sel_bits::faults::{Limit, PolarsError, PolarsResult};
use sel_bits::native::{NativeType, Offset};
use sel_bits::offsets::OffsetsBuffer;
use std::alloc::Global;

// The number of bytes up to which a copy moves this many, a constant number, and cuts off the rest.
const SHORT_ROW: usize = 16;

/// Returns the rows of `values` at `indices`; a null index gives a null row. The validity of
/// `values` is ignored.
///
/// # Requires
/// Every non-null index is less than the number of rows of `values`.
///
/// # Errors
/// `SizeLimit(Limit::Bytes)` if the rows have more bytes than the greatest offset of type `O`;
/// `OutOfMemory` if an allocation fails.
pub(crate) fn collect_spans<O: Offset>(
    alloc: Global,
    values: &BinaryArray<O>,
    indices: IdxArr,
) -> PolarsResult<BinaryArray<O>>
    requires { IsTrue (all_within (rows_between values.now.offsets) (primitive_rows indices)) }
    ensures rows { IfOk result (λ column. binary_rows column ≡
        take_rows (plain_rows values.now) (primitive_rows indices)) }
    ensures fits { IfOk result (λ _. pos (bytes_needed
        (take_rows (plain_rows values.now) (primitive_rows indices))) ≤ℤ O.number O.GREATEST) }
    ensures refusal { IfErr result (IsLimitOrMemory (ExceedsBytes (O.number O.GREATEST)
        (take_rows (plain_rows values.now) (primitive_rows indices)))) }
{
    let (ends, bytes) = collect_narrow(alloc, values, &indices)?;
    let offsets = OffsetsBuffer::of_rising(ends)?;
    let values = Buffer::from_vec(bytes)?;
    let PrimitiveArray { validity, .. } = indices;
    Ok(BinaryArray {
        offsets,
        values,
        validity,
    })
}

/// Returns the offsets of the rows of `values` at `indices`, and their bytes, concatenated. Keeps
/// the offsets at which the rows begin in `values` as narrow as the number of its bytes allows.
///
/// # Errors
/// Those of [`collect_spans`].
fn collect_narrow<O: Offset>(
    alloc: Global,
    values: &BinaryArray<O>,
    indices: &IdxArr,
) -> PolarsResult<(Vec<O>, Vec<u8>)>
    requires { IsTrue (all_within (rows_between values.now.offsets) (primitive_rows indices.now)) }
    ensures ends { IfOk result (λ joined. map O.number joined.0.items ≡ map pos
        (0 ∷ ends_from 0 (take_rows (plain_rows values.now) (primitive_rows indices.now)))) }
    ensures bytes { IfOk result (λ joined. joined.1.items ≡
        joined_bytes (take_rows (plain_rows values.now) (primitive_rows indices.now))) }
    ensures few { IfOk result (λ joined. length joined.1.items ≤ 9223372036854775807) }
    ensures fits { IfOk result (λ _. pos (bytes_needed
        (take_rows (plain_rows values.now) (primitive_rows indices.now))) ≤ℤ O.number O.GREATEST) }
    ensures refusal { IfErr result (IsLimitOrMemory (ExceedsBytes (O.number O.GREATEST)
        (take_rows (plain_rows values.now) (primitive_rows indices.now)))) }
{
    if values.values.len() <= i32::MAX as usize {
        return collect_joined::<O, i32>(alloc, values, indices);
    }
    collect_joined::<O, i64>(alloc, values, indices)
}

/// Returns the offsets of the rows of `values` at `indices`, and their bytes, concatenated. The
/// offsets at which the rows begin in `values` have the type `S` meanwhile.
///
/// # Errors
/// Those of [`collect_spans`].
fn collect_joined<O: Offset, S: Offset>(
    alloc: Global,
    values: &BinaryArray<O>,
    indices: &IdxArr,
) -> PolarsResult<(Vec<O>, Vec<u8>)>
    requires inside { IsTrue
        (all_within (rows_between values.now.offsets) (primitive_rows indices.now)) }
    requires narrow { pos (length values.now.values) ≤ℤ S.number S.GREATEST }
    ensures ends { IfOk result (λ joined. map O.number joined.0.items ≡ map pos
        (0 ∷ ends_from 0 (take_rows (plain_rows values.now) (primitive_rows indices.now)))) }
    ensures bytes { IfOk result (λ joined. joined.1.items ≡
        joined_bytes (take_rows (plain_rows values.now) (primitive_rows indices.now))) }
    ensures few { IfOk result (λ joined. length joined.1.items ≤ 9223372036854775807) }
    ensures fits { IfOk result (λ _. pos (bytes_needed
        (take_rows (plain_rows values.now) (primitive_rows indices.now))) ≤ℤ O.number O.GREATEST) }
    ensures refusal { IfErr result (IsLimitOrMemory (ExceedsBytes (O.number O.GREATEST)
        (take_rows (plain_rows values.now) (primitive_rows indices.now)))) }
{
    let (ends, starts, count) = spans_at::<O, S>(alloc, values, indices)?;
    let bytes = values.values.as_slice();
    // (includes room for the bytes that are cut off after the last row)
    let mut joined = Vec::with_capacity(alloc, count.saturating_add(SHORT_ROW))?;
    let mut at = 0;
    for k in 0..starts.len() {
        let end = ends[k + 1].to_position();
        push_span(&mut joined, bytes, starts[k].to_position(), end - at)?;
        at = end;
    }
    Ok((ends, joined))
}

/// Returns the offsets of the rows of `values` at `indices`, the offset at which each row begins in
/// `values`, and the number of bytes.
///
/// # Errors
/// Those of [`collect_spans`].
fn spans_at<O: Offset, S: Offset>(
    alloc: Global,
    values: &BinaryArray<O>,
    indices: &IdxArr,
) -> PolarsResult<(Vec<O>, Vec<S>, usize)>
    requires inside { IsTrue
        (all_within (rows_between values.now.offsets) (primitive_rows indices.now)) }
    requires narrow { pos (length values.now.values) ≤ℤ S.number S.GREATEST }
    ensures ends { IfOk result (λ spans. map O.number spans.0.items ≡ map pos
        (0 ∷ ends_from 0 (take_rows (plain_rows values.now) (primitive_rows indices.now)))) }
    ensures starts { IfOk result (λ spans. AreStarts S.number values.now.values
        (take_rows (plain_rows values.now) (primitive_rows indices.now)) spans.1.items) }
    ensures count { IfOk result (λ spans. spans.2 ≡
        bytes_needed (take_rows (plain_rows values.now) (primitive_rows indices.now))) }
    ensures fits { IfOk result (λ _. pos (bytes_needed
        (take_rows (plain_rows values.now) (primitive_rows indices.now))) ≤ℤ O.number O.GREATEST) }
    ensures refusal { IfErr result (IsLimitOrMemory (ExceedsBytes (O.number O.GREATEST)
        (take_rows (plain_rows values.now) (primitive_rows indices.now)))) }
{
    let offsets = values.offsets.as_slice();
    let places = indices.values.as_slice();
    let valid = BitSlice::of_validity(&indices.validity);
    let most = most_bytes::<O>();
    let mut ends = Vec::with_capacity(alloc, places.len() + 1)?;
    let mut starts = Vec::with_capacity(alloc, places.len())?;
    let mut end: usize = 0;
    ends.push_reserved(offset_of(end));
    for k in 0..places.len() {
        let (start, len) = span_if(offsets, places[k], bit_or_true(&valid, k));
        if len > most - end {
            return Err(PolarsError::SizeLimit(Limit::Bytes));
        }
        end += len;
        starts.push_reserved(offset_of(start));
        ends.push_reserved(offset_of(end));
    }
    Ok((ends, starts, end))
}

/// Returns the greatest offset of type `O`.
fn most_bytes<O: Offset>() -> usize
    ensures { pos result ≡ O.number O.GREATEST }
{
    O::GREATEST.to_usize()
}

/// Converts `n` to an offset.
fn offset_of<O: Offset>(n: usize) -> O
    requires { pos n ≤ℤ O.number O.GREATEST }
    ensures { O.number result ≡ pos n }
{
    match O::from_usize(n) {
        Some(offset) => offset,
        None => unreachable!(),
    }
}

/// Returns the offset at `place`, and how far the next one is behind it. If `valid` is false, the
/// first offset and 0.
///
/// Reads the first offset twice where `valid` is false, so that no branch depends on it.
#[inline(always)]
fn span_if<O: Offset>(offsets: &[O], place: u32, valid: bool) -> (usize, usize)
    requires rising { IsOffsets O.number offsets.now }
    requires inside { IsTrue valid → place + 1 < length offsets.now }
    ensures start { result.0 ≡
        slice_index (magnitudes O.number offsets.now) (if valid then place else 0) }
    ensures len { slice_index (magnitudes O.number offsets.now) (if valid then place else 0)
        + result.1 ≡
        slice_index (magnitudes O.number offsets.now) (if valid then place + 1 else 0) }
{
    let first = zero_unless(valid, place as usize);
    let next = zero_unless(valid, place as usize + 1);
    let start = offsets[first].to_position();
    (start, offsets[next].to_position() - start)
}

/// Returns `n` if `valid` is true, otherwise 0.
#[inline(always)]
fn zero_unless(valid: bool, n: usize) -> usize
    ensures { result ≡ (if valid then n else 0) }
{
    if valid { n } else { 0 }
}

/// Appends the `len` bytes from `start` on. Copies of a constant size need no branch on the size.
#[inline(always)]
fn push_span(joined: &mut Vec<u8>, bytes: &[u8], start: usize, len: usize) -> PolarsResult<()>
    requires { start + len ≤ length bytes.now }
    ensures bytes { OnOk result (joined.new.items ≡
        joined.old.items ++ take len (drop start bytes.now)) }
    ensures refusal { IfErr result IsOutOfMemory }
{
    if len <= SHORT_ROW && bytes.len() - start >= SHORT_ROW {
        let before = joined.len();
        joined.extend_from_slice(&bytes[start..start + SHORT_ROW])?;
        joined.truncate(before + len);
        return Ok(());
    }
    joined.extend_from_slice(&bytes[start..start + len])?;
    Ok(())
}
