//! Gather for boolean columns.

ghost use Rattle.std.specs.Prelude.{◌≡◌, IsTrue, length, IfOk, IfErr};
ghost use Rattle.sel_bits.specs.Faults.{IsOutOfMemory};
ghost use Rattle.sel_arrow.specs.Columns.{boolean_rows, primitive_rows};
ghost use Rattle.sel_kernels.specs.Pick.{all_within, take_rows};

use crate::gather::bitmap::take_bitmap_nulls_unchecked;
use crate::gather::validity::take_validity;
use sel_arrow::boolean::BooleanArray;
use sel_arrow::primitive::IdxArr;
use sel_bits::faults::PolarsResult;
use std::alloc::Global;

/// Returns the rows of `values` at `indices`; a null index gives a null row.
///
/// The values in null slots of `indices` are ignored.
///
/// # Requires
/// Every non-null index is less than `values.len()`; check with `gather::indices_in_bounds`.
///
/// # Errors
/// `OutOfMemory` if an allocation fails.
#[tactic(auto, using(crate::proofs::Selects::row_lengths))]
pub fn take_unchecked(
    alloc: Global,
    values: &BooleanArray,
    indices: &IdxArr,
) -> PolarsResult<BooleanArray>
    requires { IsTrue (all_within (length (boolean_rows values.now)) (primitive_rows indices.now)) }
    ensures rows { IfOk result (λ taken. boolean_rows taken ≡
        take_rows (boolean_rows values.now) (primitive_rows indices.now)) }
    ensures refusal { IfErr result IsOutOfMemory }
{
    let bits = take_bitmap_nulls_unchecked(alloc, &values.values, indices)?;
    let validity = take_validity(alloc, &values.validity, indices)?;
    Ok(BooleanArray {
        values: bits,
        validity,
    })
}
