//! Horizontal flatten: row-wise concatenation of columns.

ghost use Rattle.std.specs.Prelude.{◌≡◌, ◌≤◌, ◌<◌, ◌+◌, ◌*◌, ◌++◌, ◌↔◌, Some, All, length, map, IsTrue, IfSome, IfNone, IfOk, IfErr};
ghost use Rattle.sel_bits.specs.Faults.{IsOutOfMemory};
ghost use Rattle.sel_bits.specs.Limits.{max_rows};
ghost use Rattle.sel_arrow.specs.Rows.{rows, type_of};
ghost use Rattle.sel_gather.specs.Sources.{first_type};
ghost use Rattle.sel_kernels.specs.Flatten.{Flattens, array_columns, array_rows, part_fits, parts_fit};
ghost use Rattle.sel_kernels.specs.Widths.{row_width};
ghost use Rattle.sel_kernels.specs.Lanes.{lane_of as lane_for, lanes_of};

use crate::lanes::{Lane, Woven};
use sel_arrow::array::Array;
use sel_arrow::array_ref::ArrayRef;
use sel_arrow::column::Column;
use sel_bits::faults::{Limit, PolarsError, PolarsResult};
use sel_gather::gather::collect_plan;
use std::alloc::Global;

// The average part length from which parts are copied as runs.
const LONG_PART: usize = 32;

/// Returns the row-wise concatenation of `arrays`, for `output_height` rows, as one column.
///
/// For row h, each array in turn adds its `width` rows from `h * width` on, or all its rows if it
/// has exactly `width` rows. The result has the type of the arrays, and as many rows as
/// `output_height` times the sum of `widths`.
///
/// # Requires
/// There is at least one array, and `widths` has one entry for each. All arrays have the same type,
/// and each has a width other than 0 and `width` or `width * output_height` rows; check with
/// `flatten_is_safe`.
///
/// # Errors
/// `OutOfMemory` if an allocation fails; `SizeLimit` if the result exceeds a limit: more than
/// 4,294,967,295 rows at some depth, or the limits on bytes and data buffers of its type. With an
/// `output_height` of 0 only `OutOfMemory`.
#[tactic(auto, using(crate::proofs::Flattening::flat_length))]
pub fn horizontal_flatten_unchecked(
    alloc: Global,
    arrays: &[ArrayRef],
    widths: &[usize],
    output_height: usize,
) -> PolarsResult<ArrayRef>
    requires some { 0 < length arrays.now }
    requires alike { All (λ a. type_of a.column ≡
        first_type (array_columns arrays.now)) arrays.now }
    requires fit { IsTrue (parts_fit output_height (array_rows arrays.now) widths.now) }
    ensures { Flattens result arrays.now widths.now output_height }
{
    if output_height == 0 {
        return arrays[0].sliced(alloc, 0, 0);
    }
    match flat_rows(widths, output_height) {
        None => Err(PolarsError::SizeLimit(Limit::Rows)),
        Some(len) => collect_flat(alloc, arrays, widths, output_height, len),
    }
}

/// Returns whether the precondition of `horizontal_flatten_unchecked` is met.
///
/// True if there is at least one array, all arrays have the same type, there is one width per
/// array, and each array has a width other than 0 and `width` or `width * output_height` rows. The
/// product is computed in 128 bits.
pub fn flatten_is_safe(arrays: &[ArrayRef], widths: &[usize], output_height: usize) -> bool
    ensures { IsTrue result ↔
        ((0 < length arrays.now) ×
        All (λ a. type_of a.column ≡ first_type (array_columns arrays.now)) arrays.now ×
        IsTrue (parts_fit output_height (array_rows arrays.now) widths.now)) }
{
    if arrays.is_empty() {
        return false;
    }
    are_of_one_type(arrays) && do_parts_fit(arrays, widths, output_height)
}

// Returns whether each array has the type of the first.
fn are_of_one_type(arrays: &[ArrayRef]) -> bool
    requires { 0 < length arrays.now }
    ensures { IsTrue result ↔
        All (λ a. type_of a.column ≡ first_type (array_columns arrays.now)) arrays.now }
{
    let first = &arrays[0];
    for array in arrays {
        if !array.same_dtype(first) {
            return false;
        }
    }
    true
}

// Returns whether each array has a width that fits, and there are as many widths as arrays.
fn do_parts_fit(arrays: &[ArrayRef], widths: &[usize], height: usize) -> bool
    ensures { result ≡ parts_fit height (array_rows arrays.now) widths.now }
{
    if arrays.len() != widths.len() {
        return false;
    }
    for s in 0..widths.len() {
        if !does_part_fit(arrays[s].len(), widths[s], height) {
            return false;
        }
    }
    true
}

// Returns whether `width` is not 0, and `len` is `width` or `width * height`.
fn does_part_fit(len: usize, width: usize, height: usize) -> bool
    ensures { result ≡ part_fits height len width }
{
    width > 0 && (len as u128 == width as u128 * height as u128 || len == width)
}

// Returns the number of rows of the result, or `None` if there are more than 4,294,967,295.
fn flat_rows(widths: &[usize], height: usize) -> Option<usize>
    requires { 0 < height }
    ensures len { IfSome result (λ len. len ≡ height * row_width widths.now) }
    ensures few { IfSome result (λ len. len ≤ max_rows) }
    ensures many { IfNone result (max_rows < height * row_width widths.now) }
{
    let row = width_of_row(widths);
    if row > u32::MAX as u128 {
        return None;
    }
    let len = row * height as u128;
    if len > u32::MAX as u128 {
        return None;
    }
    Some(len as usize)
}

// Returns the sum of the widths.
#[tactic(auto, using(crate::proofs::Flattening::width_more))]
fn width_of_row(widths: &[usize]) -> u128
    ensures { result ≡ row_width widths.now }
{
    // (the length of a slice fits in `usize`)
    let _len = widths.len();
    let mut row = 0;
    for width in widths {
        row += *width as u128;
    }
    row
}

// Returns the row-wise concatenation, of `len` rows.
fn collect_flat(
    alloc: Global,
    arrays: &[ArrayRef],
    widths: &[usize],
    height: usize,
    len: usize,
) -> PolarsResult<ArrayRef>
    requires some { 0 < length arrays.now }
    requires alike { All (λ a. type_of a.column ≡
        first_type (array_columns arrays.now)) arrays.now }
    requires fit { IsTrue (parts_fit height (array_rows arrays.now) widths.now) }
    requires high { 0 < height }
    requires len { len ≡ height * row_width widths.now }
    requires few { len ≤ max_rows }
    ensures { Flattens result arrays.now widths.now height }
{
    let lanes = lanes_of_parts(alloc, arrays, widths)?;
    let woven = Woven::of_rows(lanes.as_slice(), height as u32, len as u32);
    let sources = columns_of(alloc, arrays)?;
    let in_runs = len / height >= LONG_PART * arrays.len();
    let column = collect_plan(alloc, &sources, &woven, in_runs)?;
    Ok(ArrayRef { column })
}

// Returns references to the columns, or `OutOfMemory`.
#[tactic(auto, using(crate::proofs::Flattening::columns_found))]
fn columns_of<'a>(alloc: Global, arrays: &'a [ArrayRef]) -> PolarsResult<Vec<&'a Column>>
    ensures columns { IfOk result (λ found. map (λ c. c.now) found.items ≡
        array_columns arrays.now) }
    ensures refusal { IfErr result IsOutOfMemory }
{
    let mut found = Vec::with_capacity(alloc, arrays.len())?;
    for array in arrays {
        found.push(array.as_column())?;
    }
    Ok(found)
}

// Returns the lane of each array, or `OutOfMemory`.
#[tactic(auto, using(crate::proofs::Flattening::lanes_made))]
fn lanes_of_parts(alloc: Global, arrays: &[ArrayRef], widths: &[usize]) -> PolarsResult<Vec<Lane>>
    requires paired { length arrays.now ≡ length widths.now }
    requires few { row_width widths.now ≤ max_rows }
    ensures lanes { IfOk result (λ lanes. lanes.items ≡
        lanes_of (array_rows arrays.now) widths.now) }
    ensures refusal { IfErr result IsOutOfMemory }
{
    let mut lanes = Vec::with_capacity(alloc, arrays.len())?;
    for (s, array) in arrays.iter().enumerate() {
        lanes.push(lane_of(array, widths[s]))?;
    }
    Ok(lanes)
}

// Returns the lane of an array.
fn lane_of(array: &ArrayRef, width: usize) -> Lane
    requires { width ≤ max_rows }
    ensures { result ≡ lane_for (length (rows array.now.column)) width }
{
    let width = width as u32;
    let step = if array.len() == width as usize {
        0
    } else {
        width
    };
    Lane { width, step }
}
