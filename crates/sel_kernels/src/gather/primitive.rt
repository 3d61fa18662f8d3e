//! Gather for primitive columns.

ghost use Rattle.std.specs.Prelude.{◌≡◌, ◌<◌, All, IsTrue, length, map, IfOk, IfErr};
ghost use Rattle.sel_bits.specs.Faults.{IsOutOfMemory};
ghost use Rattle.sel_arrow.specs.Columns.{primitive_rows};
ghost use Rattle.sel_kernels.specs.Pick.{all_within, take_rows};
ghost use Rattle.sel_kernels.specs.Steps.{near_value};

use crate::gather::near::near_place;
use crate::gather::validity::take_validity;
use sel_arrow::array::Array;
use sel_arrow::primitive::{IdxArr, PrimitiveArray};
use sel_bits::buffer::Buffer;
use sel_bits::faults::PolarsResult;
use sel_bits::native::NativeType;
use std::alloc::Global;

/// Returns the rows of `arr` at `indices`; a null index gives a null row.
///
/// The values in null slots of `indices` are ignored.
///
/// # Requires
/// Every non-null index is less than `arr.len()`; check with `gather::indices_in_bounds`.
///
/// # Errors
/// `OutOfMemory` if an allocation fails.
#[tactic(auto, using(crate::proofs::Selects::row_lengths))]
pub fn take_primitive_unchecked<T: NativeType>(
    alloc: Global,
    arr: &PrimitiveArray<T>,
    indices: &IdxArr,
) -> PolarsResult<PrimitiveArray<T>>
    requires { IsTrue (all_within (length (primitive_rows arr.now)) (primitive_rows indices.now)) }
    ensures rows { IfOk result (λ taken. primitive_rows taken ≡
        take_rows (primitive_rows arr.now) (primitive_rows indices.now)) }
    ensures refusal { IfErr result IsOutOfMemory }
{
    let values = take_values(alloc, arr.values.as_slice(), indices, T::LEAST)?;
    array_of_taken(alloc, arr, indices, values, T::LEAST)
}

/// Returns the column of the values at `indices`, with the validity of the rows.
///
/// # Requires
/// Every non-null index is less than `arr.len()`, and a null index gave some value of `arr`, or
/// `_filler` if there is none.
#[tactic(auto, using(crate::proofs::Selects::row_lengths))]
pub(crate) fn array_of_taken<T: NativeType>(
    alloc: Global,
    arr: &PrimitiveArray<T>,
    indices: &IdxArr,
    values: Vec<T>,
    _filler: T,
) -> PolarsResult<PrimitiveArray<T>>
    requires inside { IsTrue (all_within (length (primitive_rows arr.now))
        (primitive_rows indices.now)) }
    requires items { values.items ≡ map (near_value arr.now.values _filler) indices.now.values }
    ensures rows { IfOk result (λ taken. primitive_rows taken ≡
        take_rows (primitive_rows arr.now) (primitive_rows indices.now)) }
    ensures refusal { IfErr result IsOutOfMemory }
{
    let validity = take_validity(alloc, &arr.validity, indices)?;
    let values = Buffer::from_vec(values)?;
    Ok(PrimitiveArray { values, validity })
}

/// Returns the value at each index.
///
/// A null index gives some value of `values`, or `filler` if there is none: no validity bit is read
/// here, which would take longer than the value.
pub(crate) fn take_values<T: Copy>(
    alloc: Global,
    values: &[T],
    indices: &IdxArr,
    filler: T,
) -> PolarsResult<Vec<T>>
    requires { IsTrue (all_within (length values.now) (primitive_rows indices.now)) }
    ensures items { IfOk result (λ taken. taken.items ≡
        map (near_value values.now filler) indices.now.values) }
    ensures refusal { IfErr result IsOutOfMemory }
{
    let places = indices.values.as_slice();
    match &indices.validity {
        None => take_places(alloc, values, places, filler),
        Some(_) => take_near_places(alloc, values, places, filler),
    }
}

/// Returns the value at each index.
#[tactic(auto, using(std::proofs::lemmas::List::take_all))]
fn take_places<T: Copy>(
    alloc: Global,
    values: &[T],
    places: &[u32],
    filler: T,
) -> PolarsResult<Vec<T>>
    requires { All (λ place. place < length values.now) places.now }
    ensures items { IfOk result (λ taken. taken.items ≡
        map (near_value values.now filler) places.now) }
    ensures refusal { IfErr result IsOutOfMemory }
{
    let mut taken = Vec::with_capacity(alloc, places.len())?;
    for place in places {
        taken.push_reserved(values[*place as usize]);
    }
    Ok(taken)
}

/// Returns the value at each index that is in bounds, and the first value for the others; `filler`
/// if there are no values.
#[tactic(auto, using(std::proofs::lemmas::List::take_all))]
pub(crate) fn take_near_places<T: Copy>(
    alloc: Global,
    values: &[T],
    places: &[u32],
    filler: T,
) -> PolarsResult<Vec<T>>
    ensures items { IfOk result (λ taken. taken.items ≡
        map (near_value values.now filler) places.now) }
    ensures refusal { IfErr result IsOutOfMemory }
{
    let mut taken = Vec::with_capacity(alloc, places.len())?;
    for place in places {
        taken.push_reserved(value_near(values, *place, filler));
    }
    Ok(taken)
}

/// Returns the value at `place`, or the first value if `place` is out of bounds; `filler` if there
/// are no values.
#[inline(always)]
fn value_near<T: Copy>(values: &[T], place: u32, filler: T) -> T
    ensures { result ≡ near_value values.now filler place }
{
    let near = near_place(place, values.len());
    match values.get(near as usize) {
        Some(value) => *value,
        None => filler,
    }
}
