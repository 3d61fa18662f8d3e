//! The rows of a column, last to first.

ghost use Rattle.std.specs.Prelude.{◌≡◌, ◌≤◌, length, map, pos, reverse, IfOk, IfErr};
ghost use Rattle.sel_bits.specs.Faults.{IsOutOfMemory};
ghost use Rattle.sel_bits.specs.Limits.{max_rows};
ghost use Rattle.sel_arrow.specs.Columns.{primitive_rows};
ghost use Rattle.sel_arrow.specs.Rows.{rows, type_of};
ghost use Rattle.sel_arrow.specs.Value.{Number};
ghost use Rattle.sel_kernels.specs.Reverse.{last_to_first};

use crate::gather::take_unchecked;
use sel_arrow::array::Array;
use sel_arrow::array_ref::ArrayRef;
use sel_arrow::primitive::{IdxArr, PrimitiveArray};
use sel_bits::buffer::Buffer;
use sel_bits::faults::PolarsResult;
use std::alloc::Global;

/// Returns the rows of `column` in reverse order, in its type.
///
/// # Errors
/// `OutOfMemory` if an allocation fails.
#[tactic(auto, using(crate::proofs::RowNeeds::all_inside, crate::proofs::RowNeeds::reversed_take))]
pub fn reverse(alloc: Global, column: &ArrayRef) -> PolarsResult<ArrayRef>
    ensures rows { IfOk result (λ reversed. rows reversed.column ≡
        reverse (rows column.now.column)) }
    ensures dtype { IfOk result (λ reversed. type_of reversed.column ≡
        type_of column.now.column) }
    ensures refusal { IfErr result IsOutOfMemory }
{
    let indices = reversed_indices(alloc, column.len())?;
    let reversed = take_unchecked(alloc, column, &indices)?;
    Ok(reversed)
}

/// Returns the row numbers of a column of `len` rows, last to first.
fn reversed_indices(alloc: Global, len: usize) -> PolarsResult<IdxArr>
    requires { len ≤ max_rows }
    ensures rows { IfOk result (λ indices. primitive_rows indices ≡
        map (λ place. Number (pos place)) (last_to_first len)) }
    ensures refusal { IfErr result IsOutOfMemory }
{
    let mut places = Vec::with_capacity(alloc, len)?;
    let mut left = len;
    while left > 0 {
        left -= 1;
        places.push_reserved(left as u32);
    }
    let values = Buffer::from_vec(places)?;
    Ok(PrimitiveArray {
        values,
        validity: None,
    })
}
