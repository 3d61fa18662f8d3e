//! Gather for binary columns.

ghost use Rattle.std.specs.Prelude.{IsTrue, ◌≡◌, ◌≤◌, ◌≤ℤ◌, pos, length, IfOk, IfErr};
ghost use Rattle.sel_bits.specs.Faults.{IsOutOfMemory};
ghost use Rattle.sel_bits.specs.Limits.{max_rows};
ghost use Rattle.sel_arrow.specs.Columns.{binary_rows, primitive_rows};
ghost use Rattle.sel_kernels.specs.Need.{bytes_needed, IsLimitOrMemory, ExceedsBytes};
ghost use Rattle.sel_kernels.specs.Pick.{all_within, take_rows};
ghost use Rattle.sel_kernels.specs.Steps.{narrowed};

use crate::gather::generic_binary::collect_spans;
use crate::gather::validity::live_indices;
use sel_arrow::binary::BinaryArray;
use sel_arrow::primitive::{IdxArr, PrimitiveArray};
use sel_arrow::validity::clone_validity;
use sel_bits::buffer::Buffer;
use sel_bits::faults::PolarsResult;
use sel_bits::native::{Index, NativeType, Offset};
use std::alloc::Global;

/// Returns the rows of `values` at `indices`; a null index gives a null row.
///
/// The values in null slots of `indices` are ignored.
///
/// # Requires
/// Every non-null index is less than the number of rows of `values`; check with
/// `gather::indices_in_bounds_of`.
///
/// # Errors
/// `SizeLimit(Limit::Bytes)` if the gathered rows have more bytes than the greatest offset of type
/// `O`; `OutOfMemory` if an allocation fails.
pub fn take_unchecked<O: Offset, I: Index>(
    alloc: Global,
    values: &BinaryArray<O>,
    indices: &PrimitiveArray<I>,
) -> PolarsResult<BinaryArray<O>>
    requires { IsTrue (all_within (length (binary_rows values.now)) (primitive_rows indices.now)) }
    ensures rows { IfOk result (λ taken. binary_rows taken ≡
        take_rows (binary_rows values.now) (primitive_rows indices.now)) }
    ensures fits { IfOk result (λ _. pos (bytes_needed
        (take_rows (binary_rows values.now) (primitive_rows indices.now))) ≤ℤ O.number O.GREATEST) }
    ensures refusal { IfErr result (IsLimitOrMemory (ExceedsBytes
        (O.number O.GREATEST) (take_rows (binary_rows values.now) (primitive_rows indices.now)))) }
{
    let indices = narrow_indices(alloc, indices, values.len())?;
    take_binary(alloc, values, &indices)
}

/// Returns the indices as 32-bit integers.
fn narrow_indices<I: Index>(
    alloc: Global,
    indices: &PrimitiveArray<I>,
    _count: usize,
) -> PolarsResult<IdxArr>
    requires few { _count ≤ max_rows }
    requires inside { IsTrue (all_within _count (primitive_rows indices.now)) }
    ensures rows { IfOk result (λ narrow. primitive_rows narrow ≡ primitive_rows indices.now) }
    ensures refusal { IfErr result IsOutOfMemory }
{
    let wide = indices.values.as_slice();
    let mut narrow = Vec::with_capacity(alloc, wide.len())?;
    for index in wide {
        narrow.push_reserved(narrow_index(*index));
    }
    let values = Buffer::from_vec(narrow)?;
    let validity = clone_validity(&indices.validity)?;
    Ok(PrimitiveArray { values, validity })
}

/// Returns an index as a 32-bit integer, or 0 if it does not fit.
#[inline(always)]
fn narrow_index<I: Index>(index: I) -> u32
    ensures { result ≡ narrowed (I.number index) }
{
    match index.try_usize() {
        None => 0,
        Some(place) => {
            if place <= u32::MAX as usize {
                place as u32
            } else {
                0
            }
        }
    }
}

/// Returns the rows of `values` at `indices`; a null index gives a null row.
///
/// # Errors
/// Those of [`take_unchecked`].
#[tactic(auto, using(crate::proofs::Selects::row_lengths))]
pub(crate) fn take_binary<O: Offset>(
    alloc: Global,
    values: &BinaryArray<O>,
    indices: &IdxArr,
) -> PolarsResult<BinaryArray<O>>
    requires { IsTrue (all_within (length (binary_rows values.now)) (primitive_rows indices.now)) }
    ensures rows { IfOk result (λ taken. binary_rows taken ≡
        take_rows (binary_rows values.now) (primitive_rows indices.now)) }
    ensures fits { IfOk result (λ _. pos (bytes_needed
        (take_rows (binary_rows values.now) (primitive_rows indices.now))) ≤ℤ O.number O.GREATEST) }
    ensures refusal { IfErr result (IsLimitOrMemory (ExceedsBytes
        (O.number O.GREATEST) (take_rows (binary_rows values.now) (primitive_rows indices.now)))) }
{
    let live = live_indices(alloc, &values.validity, indices)?;
    collect_spans(alloc, values, live)
}
