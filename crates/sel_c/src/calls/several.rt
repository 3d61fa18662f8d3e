//! Several columns: horizontal flatten, and gathered rows.

ghost use Rattle.std.specs.Prelude.{◌≡◌, ◌≤◌, ◌↔◌, [], All, length, map, IsTrue, IfOk, IfErr};
ghost use Rattle.sel_bits.specs.Faults.{IsOutOfMemory};
ghost use Rattle.sel_bits.specs.Limits.{max_rows};
ghost use Rattle.sel_arrow.specs.Depth.{depth};
ghost use Rattle.sel_bits.specs.Validity.{Covers};
ghost use Rattle.sel_arrow.specs.Rows.{rows, type_of};
ghost use Rattle.sel_c.specs.Several.{picks_conditions, picks_from, picks_in, AreAlike, CollectsRows, FlattensColumns};
ghost use Rattle.sel_kernels.specs.Flatten.{array_columns};

use crate::calls::picks::{WordPlaces, are_in_bounds, lengths_of};
use sel_arrow::array::Array;
use sel_arrow::array_ref::ArrayRef;
use sel_arrow::column::Column;
use sel_arrow::validity::MOST_ROWS;
use sel_bits::bitmap::Bitmap;
use sel_bits::faults::PolarsResult;
use sel_ffi::handle::Handle;
use sel_ffi::inputs::validity_of;
use sel_ffi::status::{
    INDEX_OUT_OF_BOUNDS, LENGTH_MISMATCH, OUT_OF_MEMORY, TOO_MANY_ROWS, TYPE_MISMATCH,
    VALIDITY_LENGTH, put, status_of,
};
use sel_gather::gather::collect_plan;
use sel_kernels::horizontal_flatten::{flatten_is_safe, horizontal_flatten_unchecked};
use sel_runs::row_refs::Walk;
use std::alloc::Global;

/// A row reference: a row of one of several columns, both counted from 0.
#[repr(C)]
#[derive(Clone, Copy)]
pub struct PickWords {
    /// The index of the column.
    pub source: u32,
    /// The index of the row in the column.
    pub row: u32,
}

/// Stores in `out` the row-wise concatenation of the columns (horizontal flatten).
///
/// Each of `height` steps appends the next `widths[k]` rows of every column `k`; a column of only
/// `widths[k]` rows is broadcast.
///
/// Errors: `TYPE_MISMATCH` if the columns have different types; `LENGTH_MISMATCH` if there are no
/// columns, not as many widths as columns, a width is 0, or column `k` has neither `widths[k]` rows
/// nor `height` times as many; `OUT_OF_MEMORY`; a `_LIMIT` status if the result would exceed a
/// limit.
pub fn flatten_into(
    alloc: Global,
    arrays: &[ArrayRef],
    widths: &[usize],
    height: usize,
    out: &mut Handle,
) -> u32
    requires { All (λ array. depth (type_of array.column) ≤ 128) arrays.now }
    ensures { FlattensColumns result (map (λ array. rows array.column) arrays.now)
        (map (λ array. type_of array.column) arrays.now) (array_columns arrays.now)
        widths.now height [] out.old.tree out.new.tree }
{
    if !are_alike(arrays) {
        return TYPE_MISMATCH;
    }
    if !flatten_is_safe(arrays, widths, height) {
        return LENGTH_MISMATCH;
    }
    match horizontal_flatten_unchecked(alloc, arrays, widths, height) {
        Ok(flat) => put(alloc, flat, out),
        Err(fault) => status_of(fault),
    }
}

// Returns whether all columns have the same type.
fn are_alike(arrays: &[ArrayRef]) -> bool
    ensures { IsTrue result ↔ AreAlike (map (λ array. type_of array.column) arrays.now) }
{
    let Some(first) = arrays.first() else {
        return true;
    };
    for array in arrays {
        if !array.same_dtype(first) {
            return false;
        }
    }
    true
}

/// Stores in `out` the rows of several columns at the row references; a null reference gives a null
/// row.
///
/// Errors: `TOO_MANY_ROWS` if there are more than 4,294,967,295 row references; `VALIDITY_LENGTH`
/// if `bits` has fewer bits than there are references; `LENGTH_MISMATCH` if there are no columns;
/// `TYPE_MISMATCH` if the columns have different types; `INDEX_OUT_OF_BOUNDS` if a valid reference
/// is out of bounds; `OUT_OF_MEMORY`; a `_LIMIT` status if the result would exceed a limit.
pub fn collect_into(
    alloc: Global,
    arrays: &[ArrayRef],
    words: &[PickWords],
    bits: &[u8],
    has_bits: bool,
    out: &mut Handle,
) -> u32
    requires { All (λ array. depth (type_of array.column) ≤ 128) arrays.now }
    ensures { CollectsRows result (map (λ array. rows array.column) arrays.now)
        (map (λ array. type_of array.column) arrays.now) (array_columns arrays.now)
        (picks_in words.now bits.now has_bits) (picks_conditions words.now bits.now has_bits)
        out.old.tree out.new.tree }
{
    if words.len() > MOST_ROWS {
        return TOO_MANY_ROWS;
    }
    if has_bits && bits.len() < words.len().div_ceil(8) {
        return VALIDITY_LENGTH;
    }
    let Ok(validity) = validity_of(alloc, bits, has_bits, words.len()) else {
        return OUT_OF_MEMORY;
    };
    collect_picks_into(alloc, arrays, words, &validity, out)
}

fn collect_picks_into(
    alloc: Global,
    arrays: &[ArrayRef],
    words: &[PickWords],
    validity: &Option<Bitmap>,
    out: &mut Handle,
) -> u32
    requires depth { All (λ array. depth (type_of array.column) ≤ 128) arrays.now }
    requires few { length words.now ≤ max_rows }
    requires covers { Covers validity.now (length words.now) }
    ensures { CollectsRows result (map (λ array. rows array.column) arrays.now)
        (map (λ array. type_of array.column) arrays.now) (array_columns arrays.now)
        (picks_from 0 validity.now words.now) [] out.old.tree out.new.tree }
{
    if arrays.is_empty() {
        return LENGTH_MISMATCH;
    }
    if !are_alike(arrays) {
        return TYPE_MISMATCH;
    }
    let Ok(lengths) = lengths_of(alloc, arrays) else {
        return OUT_OF_MEMORY;
    };
    let places = WordPlaces { words, validity };
    if !are_in_bounds(&lengths, &places) {
        return INDEX_OUT_OF_BOUNDS;
    }
    let Ok(sources) = columns_of(alloc, arrays) else {
        return OUT_OF_MEMORY;
    };
    match collect_plan(alloc, &sources, &Walk { places, at: 0 }, false) {
        Ok(column) => put(alloc, ArrayRef { column }, out),
        Err(fault) => status_of(fault),
    }
}

// Returns references to the columns. Errors: `OutOfMemory`.
fn columns_of<'a>(alloc: Global, arrays: &'a [ArrayRef]) -> PolarsResult<Vec<&'a Column>>
    ensures columns { IfOk result (λ found. map (λ c. c.now) found.items ≡
        array_columns arrays.now) }
    ensures refusal { IfErr result IsOutOfMemory }
{
    let mut found = Vec::with_capacity(alloc, arrays.len())?;
    for array in arrays {
        found.push(array.as_column())?;
    }
    Ok(found)
}
