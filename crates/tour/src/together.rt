//! Rows of several columns, with contracts that follow from those of the library: worked proofs of
//! a caller.

ghost use Rattle.std.specs.Prelude.{◌≡◌, IsTrue, IfOk, IfErr, count_by, length};
ghost use Rattle.sel_arrow.specs.Columns.{boolean_rows, primitive_rows};
ghost use Rattle.sel_arrow.specs.Rows.{rows};
ghost use Rattle.sel_bits.specs.declared.faults.PolarsError.TheVariants as error;
ghost use Rattle.sel_kernels.specs.Select.{is_true};
ghost use Rattle.sel_kernels.specs.SelectRows.{rows_of_arrays, selection_fits};
ghost use Rattle.tour.specs.Together.{rows_at, source_picks};

use crate::examples::ages;
use crate::page::{Stop, line, rows};
use polars_compute::filter::filter;
use polars_compute::laws::law_select_rows;
use polars_compute::select::{select_is_safe, select_rows};
use sel_arrow::array::Array;
use sel_arrow::array_ref::ArrayRef;
use sel_arrow::boolean::BooleanArray;
use sel_arrow::primitive::{IdxArr, PrimitiveArray};
use sel_bits::faults::PolarsResult;
use std::alloc::Global;

/// Returns how many rows the mask keeps: those where it is true and valid.
///
/// # Requires
/// `mask` has the length of `column`.
///
/// # Errors
/// `OutOfMemory` if an allocation fails.
fn count_kept(alloc: Global, column: &ArrayRef, mask: &BooleanArray) -> PolarsResult<usize>
    requires { length (rows column.now.column) ≡ length (boolean_rows mask.now) }
    ensures count { IfOk result (λ count. count ≡ count_by is_true (boolean_rows mask.now)) }
    ensures refusal { IfErr result (λ fault. fault ≡ error.OutOfMemory) }
{
    let kept = filter(alloc, column, mask)?;
    let count = kept.len();
    drop(kept);
    Ok(count)
}

/// Returns for each column the rows at `indices` among those that `mask` keeps. Row k of all
/// results comes from one source row, which the mask and the indices determine.
///
/// # Requires
/// `select_is_safe` returns true for the arguments.
///
/// # Errors
/// `OutOfMemory` if an allocation fails; `SizeLimit` if a result exceeds a limit.
fn select_together(
    alloc: Global,
    columns: &[ArrayRef],
    mask: &BooleanArray,
    indices: &IdxArr,
) -> PolarsResult<Vec<ArrayRef>>
    requires { IsTrue (selection_fits
        (rows_of_arrays columns.now) (boolean_rows mask.now) (primitive_rows indices.now)) }
    ensures { IfOk result (λ selected. rows_of_arrays selected.items ≡ rows_at
        (source_picks (boolean_rows mask.now) (primitive_rows indices.now))
        (rows_of_arrays columns.now)) }
{
    law_select_rows();
    select_rows(alloc, columns, mask, indices)
}

/// Prints how many rows a mask keeps, and rows of two columns at indices among them.
pub fn together(alloc: Global, page: &mut String) -> Result<(), Stop> {
    let rows = [Some(true), Some(true), None, Some(true)];
    let mask = BooleanArray::from_options(alloc, &rows)?;
    print_by_mask(alloc, page, &mask)
}

fn print_by_mask(alloc: Global, page: &mut String, mask: &BooleanArray) -> Result<(), Stop> {
    print_count(alloc, page, mask)?;
    let indices = IdxArr::from_options(alloc, &[Some(2u32), None, Some(0)])?;
    print_columns(alloc, page, mask, &indices)
}

fn print_count(alloc: Global, page: &mut String, mask: &BooleanArray) -> Result<(), Stop> {
    let count = counted(alloc, mask)?;
    line(page, "number of kept rows", &format!(in alloc; "{count}")?)
}

fn print_columns(
    alloc: Global,
    page: &mut String,
    mask: &BooleanArray,
    indices: &IdxArr,
) -> Result<(), Stop> {
    let columns = numbers_and_ages(alloc)?;
    let printed = print_selected(alloc, page, &columns, mask, indices);
    drop(columns);
    printed
}

fn counted(alloc: Global, mask: &BooleanArray) -> Result<usize, Stop> {
    let ages = ages(alloc)?;
    if ages.len() != mask.len() {
        drop(ages);
        return Err(Stop::Unmet);
    }
    let count = count_kept(alloc, &ages, mask);
    drop(ages);
    Ok(count?)
}

fn numbers_and_ages(alloc: Global) -> Result<Vec<ArrayRef>, Stop> {
    let numbers = PrimitiveArray::from_options(alloc, &[Some(1i64), Some(2), Some(3), Some(4)])?;
    let ages = ages(alloc)?;
    Ok(vec![in alloc; numbers.into_ref(), ages]?)
}

fn print_selected(
    alloc: Global,
    page: &mut String,
    columns: &[ArrayRef],
    mask: &BooleanArray,
    indices: &IdxArr,
) -> Result<(), Stop> {
    if !select_is_safe(columns, mask, indices) {
        return Err(Stop::Unmet);
    }
    let selected = select_together(alloc, columns, mask, indices)?;
    let printed = print_all(alloc, page, &selected);
    drop(selected);
    printed
}

fn print_all(alloc: Global, page: &mut String, columns: &[ArrayRef]) -> Result<(), Stop> {
    for column in columns {
        rows(alloc, page, "kept, then at [2,null,0]", column)?;
    }
    Ok(())
}
