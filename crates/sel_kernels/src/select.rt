//! Selection of rows from several columns: a filter by one mask, then a gather by the same indices.
ghost use Rattle.std.specs.Prelude.{◌≡◌, IsTrue, IfOk, IfErr, count_by, length};
ghost use Rattle.sel_arrow.specs.Columns.{boolean_rows, primitive_rows};
ghost use Rattle.sel_arrow.specs.Rows.{rows, type_of};
ghost use Rattle.sel_kernels.specs.Need.{IsLimitOrMemory, ExceedsNone, exceeded_limits};
ghost use Rattle.sel_kernels.specs.Pick.{all_within, take_rows};
ghost use Rattle.sel_kernels.specs.Select.{select, effective_mask, is_true};
ghost use Rattle.sel_kernels.specs.SelectRows.{rows_of_arrays, type_of_each, select_rows_of, selection_fits, exceeded_selected};

use crate::filter::filter;
use crate::gather::{indices_in_bounds, take_unchecked};
use sel_arrow::array::Array;
use sel_arrow::array_ref::ArrayRef;
use sel_arrow::boolean::BooleanArray;
use sel_arrow::primitive::IdxArr;
use sel_bits::faults::PolarsResult;
use std::alloc::Global;

/// Returns for each column the rows at `indices` among the rows that `mask` keeps.
///
/// Each result has the type of its column; a null index gives a null row. Row k of all results
/// comes from one source row.
///
/// # Requires
/// Every column has the length of `mask`, and every non-null index is less than the number of mask
/// rows that are true and valid; check with [`select_is_safe`].
///
/// # Errors
/// `SizeLimit` if the result for some column exceeds a limit of `take_unchecked`; `OutOfMemory` if
/// an allocation fails.
pub fn select_rows(
    alloc: Global,
    columns: &[ArrayRef],
    mask: &BooleanArray,
    indices: &IdxArr,
) -> PolarsResult<Vec<ArrayRef>>
    requires { IsTrue (selection_fits
        (rows_of_arrays columns.now) (boolean_rows mask.now) (primitive_rows indices.now)) }
    ensures rows { IfOk result (λ selected. rows_of_arrays selected.items ≡ select_rows_of
        (rows_of_arrays columns.now) (boolean_rows mask.now) (primitive_rows indices.now)) }
    ensures types { IfOk result (λ selected.
        type_of_each selected.items ≡ type_of_each columns.now) }
    ensures within { IfOk result (λ _. ExceedsNone
        (exceeded_selected columns.now (boolean_rows mask.now) (primitive_rows indices.now))) }
    ensures refusal { IfErr result (IsLimitOrMemory
        (exceeded_selected columns.now (boolean_rows mask.now) (primitive_rows indices.now))) }
{
    let mut selected = Vec::with_capacity(alloc, columns.len())?;
    for column in columns {
        match select_column(alloc, column, mask, indices) {
            Ok(taken) => selected.push_reserved(taken),
            Err(fault) => {
                drop(selected);
                return Err(fault);
            }
        }
    }
    Ok(selected)
}

// Returns the rows of one column at `indices` among the rows that `mask` keeps.
#[tactic(auto, using(crate::proofs::SelectedRows::kept_count))]
fn select_column(
    alloc: Global,
    column: &ArrayRef,
    mask: &BooleanArray,
    indices: &IdxArr,
) -> PolarsResult<ArrayRef>
    requires long { length (rows column.now.column) ≡ length (boolean_rows mask.now) }
    requires inside { IsTrue (all_within
        (count_by is_true (boolean_rows mask.now)) (primitive_rows indices.now)) }
    ensures rows { IfOk result (λ taken. rows taken.column ≡ take_rows
        (select (rows column.now.column) (effective_mask (boolean_rows mask.now)))
        (primitive_rows indices.now)) }
    ensures dtype { IfOk result (λ taken. type_of taken.column ≡ type_of column.now.column) }
    ensures refusal { IfErr result (IsLimitOrMemory (exceeded_limits (type_of column.now.column)
        (take_rows (select (rows column.now.column) (effective_mask (boolean_rows mask.now)))
        (primitive_rows indices.now)))) }
{
    let kept = filter(alloc, column, mask)?;
    let taken = take_unchecked(alloc, &kept, indices);
    drop(kept);
    taken
}

/// Returns whether [`select_rows`] may be called with these arguments.
///
/// That is, every column has the length of `mask`, and every non-null index is less than the number
/// of mask rows that are true and valid. Does not allocate.
pub fn select_is_safe(columns: &[ArrayRef], mask: &BooleanArray, indices: &IdxArr) -> bool
    ensures { result ≡ selection_fits
        (rows_of_arrays columns.now) (boolean_rows mask.now) (primitive_rows indices.now) }
{
    for column in columns {
        if column.len() != mask.len() {
            return false;
        }
    }
    indices_in_bounds(indices, effective_len(mask))
}

// Returns the number of mask rows that are true and valid.
fn effective_len(mask: &BooleanArray) -> usize
    ensures { result ≡ count_by is_true (boolean_rows mask.now) }
{
    let mut count = 0;
    for place in 0..mask.len() {
        if mask.get(place).unwrap_or(false) {
            count += 1;
        }
    }
    count
}
