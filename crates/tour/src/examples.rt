//! Calls of the library on one column of ages. A precondition is tested at run time.

use crate::page::{Stop, line};
use polars_compute::filter::filter;
use polars_compute::gather::sublist::list::sublist_get;
use polars_compute::gather::{indices_in_bounds, take_unchecked};
use polars_compute::if_then_else::IfThenElseKernel;
use sel_arrow::array::Array;
use sel_arrow::array_ref::ArrayRef;
use sel_arrow::boolean::BooleanArray;
use sel_arrow::list::ListArray;
use sel_arrow::primitive::{IdxArr, PrimitiveArray};
use sel_bits::bitmap::Bitmap;
use sel_bits::faults::MakeError;
use sel_bits::offsets::OffsetsBuffer;
use std::alloc::Global;

const AGES: [Option<i64>; 4] = [Some(31), None, Some(27), Some(45)];

/// Returns a column of numbers, of which the second one is null.
pub fn ages(alloc: Global) -> Result<ArrayRef, Stop> {
    Ok(PrimitiveArray::from_options(alloc, &AGES)?.into_ref())
}

/// Returns the ages where a mask is true; a null in it counts as false.
pub fn kept(alloc: Global) -> Result<ArrayRef, Stop> {
    let rows = [Some(true), Some(true), None, Some(true)];
    let mask = BooleanArray::from_options(alloc, &rows)?;
    kept_by(alloc, ages(alloc)?, &mask)
}

/// Returns the rows of a column where the mask is true.
fn kept_by(alloc: Global, column: ArrayRef, mask: &BooleanArray) -> Result<ArrayRef, Stop> {
    if column.len() != mask.len() {
        drop(column);
        return Err(Stop::Unmet);
    }
    let kept = filter(alloc, &column, mask);
    drop(column);
    Ok(kept?)
}

/// Returns the ages at indices; a null index gives a null row.
pub fn taken(alloc: Global) -> Result<ArrayRef, Stop> {
    let indices = IdxArr::from_options(alloc, &[Some(3u32), None, Some(1)])?;
    taken_at(alloc, ages(alloc)?, &indices)
}

/// Returns the rows of a column at indices.
fn taken_at(alloc: Global, column: ArrayRef, indices: &IdxArr) -> Result<ArrayRef, Stop> {
    if !indices_in_bounds(indices, column.len()) {
        drop(column);
        return Err(Stop::Unmet);
    }
    let taken = take_unchecked(alloc, &column, indices);
    drop(column);
    Ok(taken?)
}

/// Returns the ages where a mask is true, else 0.
pub fn chosen(alloc: Global) -> Result<PrimitiveArray<i64>, Stop> {
    let mask = Bitmap::from_bools(alloc, &[true, true, false, true])?;
    let ages = PrimitiveArray::from_options(alloc, &AGES)?;
    if ages.len() != mask.len() {
        return Err(Stop::Unmet);
    }
    Ok(PrimitiveArray::if_then_else_broadcast_false(alloc, &mask, &ages, &0)?)
}

/// Returns lists of the ages between these offsets.
pub fn lists(alloc: Global, offsets: &[i64]) -> Result<ListArray<i64>, Stop> {
    let offsets = OffsetsBuffer::try_from(Vec::from_slice(alloc, offsets)?)?;
    Ok(ListArray::try_new(alloc, offsets, ages(alloc)?, None)?)
}

/// Returns the last element of each list; an empty list has none.
pub fn last_of_each(alloc: Global) -> Result<ArrayRef, Stop> {
    let lists = lists(alloc, &[0, 2, 2, 4])?;
    let elements = sublist_get(alloc, &lists, -1);
    drop(lists);
    Ok(elements?)
}

/// Prints the rule that lists break whose last offset exceeds the number of ages.
pub fn broken_rule(alloc: Global, page: &mut String) -> Result<(), Stop> {
    match lists(alloc, &[0, 2, 5]) {
        Ok(lists) => {
            drop(lists);
            Err(Stop::Unmet)
        }
        Err(Stop::Broken(MakeError::Malformed(rule))) => {
            line(
                page,
                "lists by the offsets 0, 2, 5",
                &format!(in alloc; "{rule:?}")?,
            )
        }
        Err(stop) => Err(stop),
    }
}
