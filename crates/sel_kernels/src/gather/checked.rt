//! Gather with a check of the indices.

ghost use Rattle.std.specs.Prelude.{◌≡◌, ◌+◌, ◌++◌, ◌≤◌, IsTrue, false, true, length, map, vec_len, vec_capacity, IfOk, IfErr, IfSome, IfNone};
ghost use Rattle.sel_bits.specs.Faults.{IsOutOfMemory};
ghost use Rattle.sel_arrow.specs.Columns.{primitive_rows};
ghost use Rattle.sel_arrow.specs.Rows.{rows, type_of};
ghost use Rattle.sel_kernels.specs.CheckedTakes.{TakesIfWithin};
ghost use Rattle.sel_kernels.specs.Pick.{all_below, all_within, take_rows};
ghost use Rattle.sel_kernels.specs.Steps.{near_value};

use crate::gather::primitive::{array_of_taken, take_near_places};
use crate::gather::{idx_slice_in_bounds, indices_in_bounds, take_unchecked};
use sel_arrow::array::Array;
use sel_arrow::array_ref::ArrayRef;
use sel_arrow::column::Column;
use sel_arrow::match_numbers;
use sel_arrow::primitive::{ArrowPrimitive, IdxArr, PrimitiveArray};
use sel_bits::faults::PolarsResult;
use std::alloc::Global;

/// The number of indices that are checked before the values at them are read.
const BLOCK: usize = 32;

/// Returns the rows of `values` at `indices`, or `None` if a non-null index is out of bounds.
///
/// A null index gives a null row. The result has the type of `values`. The values in null slots of
/// `indices` are ignored.
///
/// # Errors
/// Those of [`take_unchecked`]; `SizeLimit` only if no index is out of bounds.
pub fn take(alloc: Global, values: &ArrayRef, indices: &IdxArr) -> PolarsResult<Option<ArrayRef>>
    ensures { TakesIfWithin result (type_of values.now.column)
        (take_rows (rows values.now.column) (primitive_rows indices.now))
        (all_within (length (rows values.now.column)) (primitive_rows indices.now)) }
{
    match_numbers! { values.as_column(), column => take_numbers(alloc, column, indices),
        _ => take_after_check(alloc, values, indices),
    }
}

/// Returns the rows at `indices`, or `None` if a non-null index is out of bounds.
///
/// Checks all indices first.
fn take_after_check(
    alloc: Global,
    values: &ArrayRef,
    indices: &IdxArr,
) -> PolarsResult<Option<ArrayRef>>
    ensures { TakesIfWithin result (type_of values.now.column)
        (take_rows (rows values.now.column) (primitive_rows indices.now))
        (all_within (length (rows values.now.column)) (primitive_rows indices.now)) }
{
    if !indices_in_bounds(indices, values.len()) {
        return Ok(None);
    }
    let taken = take_unchecked(alloc, values, indices)?;
    Ok(Some(taken))
}

/// Returns primitive values at `indices`, as a column of any type, or `None` if a non-null index is
/// out of bounds.
fn take_numbers<T: ArrowPrimitive>(
    alloc: Global,
    values: &PrimitiveArray<T>,
    indices: &IdxArr,
) -> PolarsResult<Option<ArrayRef>>
    ensures { TakesIfWithin result T.shape
        (take_rows (primitive_rows values.now) (primitive_rows indices.now))
        (all_within (length (primitive_rows values.now)) (primitive_rows indices.now)) }
{
    match take_values(alloc, values.values.as_slice(), indices, T::LEAST)? {
        None => Ok(None),
        Some(taken) => {
            let array = array_of_taken(alloc, values, indices, taken, T::LEAST)?;
            Ok(Some(array.into_ref()))
        }
    }
}

/// Returns the value at each index, or `None` if a non-null index is out of bounds.
///
/// A null index gives some value of `values`, or `filler` if there is none.
fn take_values<T: Copy>(
    alloc: Global,
    values: &[T],
    indices: &IdxArr,
    filler: T,
) -> PolarsResult<Option<Vec<T>>>
    ensures items { IfOk result (λ made. IfSome made (λ taken. taken.items ≡
        map (near_value values.now filler) indices.now.values)) }
    ensures within { IfOk result (λ made. IfSome made (λ _.
        IsTrue (all_within (length values.now) (primitive_rows indices.now)))) }
    ensures outside { IfOk result (λ made. IfNone made
        (all_within (length values.now) (primitive_rows indices.now) ≡ false)) }
    ensures refusal { IfErr result IsOutOfMemory }
{
    let places = indices.values.as_slice();
    match &indices.validity {
        None => take_places(alloc, values, places, filler),
        Some(_) => {
            if !indices_in_bounds(indices, values.len()) {
                return Ok(None);
            }
            let taken = take_near_places(alloc, values, places, filler)?;
            Ok(Some(taken))
        }
    }
}

/// Returns the value at each index, or `None` if an index is out of bounds.
///
/// Checks a block of indices before it reads the values at them: the indices are read from memory
/// once.
fn take_places<T: Copy>(
    alloc: Global,
    values: &[T],
    places: &[u32],
    filler: T,
) -> PolarsResult<Option<Vec<T>>>
    ensures items { IfOk result (λ made. IfSome made (λ taken. taken.items ≡
        map (near_value values.now filler) places.now)) }
    ensures within { IfOk result (λ made. IfSome made (λ _.
        IsTrue (all_below (length values.now) places.now))) }
    ensures outside { IfOk result (λ made. IfNone made
        (all_below (length values.now) places.now ≡ false)) }
    ensures refusal { IfErr result IsOutOfMemory }
{
    let mut taken = Vec::with_capacity(alloc, places.len())?;
    let mut rest = places;
    while rest.len() >= BLOCK {
        let (block, others) = rest.split_at(BLOCK);
        if !push_if_below(values, block, filler, &mut taken) {
            return Ok(None);
        }
        rest = others;
    }
    if !push_if_below(values, rest, filler, &mut taken) {
        return Ok(None);
    }
    Ok(Some(taken))
}

/// Appends the value at each index and returns true, or returns false if an index is out of bounds.
///
/// # Requires
/// `taken` has spare capacity for the values.
#[inline(always)]
fn push_if_below<T: Copy>(values: &[T], places: &[u32], filler: T, taken: &mut Vec<T>) -> bool
    requires room { vec_len taken.old + length places.now ≤ vec_capacity taken.old }
    ensures below { result ≡ all_below (length values.now) places.now }
    ensures items { result ≡ true →
        taken.new.items ≡ taken.old.items ++ map (near_value values.now filler) places.now }
    ensures len { result ≡ true → vec_len taken.new ≡ vec_len taken.old + length places.now }
    ensures capacity { vec_capacity taken.new ≡ vec_capacity taken.old }
{
    if !idx_slice_in_bounds(places, values.len()) {
        return false;
    }
    push_places(values, places, filler, taken);
    true
}

/// Appends the value at each index.
///
/// # Requires
/// Every index is less than the number of values, and `taken` has spare capacity for the values.
#[inline(always)]
#[tactic(auto, using(std::proofs::lemmas::List::take_all))]
fn push_places<T: Copy>(values: &[T], places: &[u32], filler: T, taken: &mut Vec<T>)
    requires below { IsTrue (all_below (length values.now) places.now) }
    requires room { vec_len taken.old + length places.now ≤ vec_capacity taken.old }
    ensures items { taken.new.items ≡
        taken.old.items ++ map (near_value values.now filler) places.now }
    ensures len { vec_len taken.new ≡ vec_len taken.old + length places.now }
    ensures capacity { vec_capacity taken.new ≡ vec_capacity taken.old }
{
    for place in places {
        taken.push_reserved(values[*place as usize]);
    }
}
