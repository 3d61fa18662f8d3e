//! Element access for fixed-size lists of integers, if neither lists, integers nor indices have a
//! validity.

ghost use Rattle.std.specs.Prelude.{◌≡◌, ◌≤◌, ◌*◌, length, None, IfOk, IfErr, IfSome};
ghost use Rattle.sel_bits.specs.Faults.{IsOutOfMemory};
ghost use Rattle.sel_bits.specs.Limits.{max_rows};
ghost use Rattle.sel_arrow.specs.Columns.{primitive_rows};
ghost use Rattle.sel_arrow.specs.Masked.{number_rows};
ghost use Rattle.sel_arrow.specs.NestedArrays.{block_column};
ghost use Rattle.sel_arrow.specs.Rows.{rows, type_of};
ghost use Rattle.sel_kernels.specs.BareElements.{bare_elements, MayMake};
ghost use Rattle.sel_kernels.specs.Entries.{fixed_get};

use sel_arrow::array::Array;
use sel_arrow::array_ref::ArrayRef;
use sel_arrow::column::Column;
use sel_arrow::fixed_size_list::FixedSizeListArray;
use sel_arrow::match_numbers;
use sel_arrow::primitive::{ArrowPrimitive, PrimitiveArray};
use sel_bits::buffer::Buffer;
use sel_bits::faults::PolarsResult;
use sel_bits::native::NativeType;
use sel_bits::number::negative_to_usize;
use std::alloc::Global;

/// Returns a column whose row k is the element of list k at index k.
///
/// Returns `None` if an index is out of bounds, if the lists, the child or the indices have a
/// validity, or if the child is not primitive; the contract leaves open when. Fails only with
/// `OutOfMemory`.
pub(crate) fn elements_at(
    alloc: Global,
    arr: &FixedSizeListArray,
    index: &PrimitiveArray<i64>,
) -> PolarsResult<Option<ArrayRef>>
    requires { length (primitive_rows index.now) ≡ length (rows (block_column arr.now)) }
    ensures { MayMake result (type_of arr.now.values.value)
        (fixed_get (rows (block_column arr.now)) arr.now.size (primitive_rows index.now)) }
{
    if arr.validity.is_some() {
        return Ok(None);
    }
    if index.validity.is_some() {
        return Ok(None);
    }
    elements_of(alloc, arr.values(), arr.size, index.values.as_slice())
}

/// Returns the element of each list at its index, dispatching on the type of the child.
///
/// List k is the rows of `child` from k * size up to (k + 1) * size. Returns `None` if an index is
/// out of bounds, or if `child` is not primitive or has a validity.
fn elements_of(
    alloc: Global,
    child: &Column,
    size: usize,
    indices: &[i64],
) -> PolarsResult<Option<ArrayRef>>
    requires len { length indices.now * size ≡ length (rows child.now) }
    requires few { length indices.now ≤ max_rows }
    ensures { MayMake result (type_of child.now)
        (bare_elements (rows child.now) size indices.now) }
{
    match_numbers! { child, numbers => numbers_of(alloc, numbers, size, indices),
        _ => Ok(None),
    }
}

/// Returns the element of each list at its index, as a column of any type.
///
/// Returns `None` if an index is out of bounds, or if `numbers` has a validity.
fn numbers_of<T: ArrowPrimitive>(
    alloc: Global,
    numbers: &PrimitiveArray<T>,
    size: usize,
    indices: &[i64],
) -> PolarsResult<Option<ArrayRef>>
    requires len { length indices.now * size ≡ length (primitive_rows numbers.now) }
    requires few { length indices.now ≤ max_rows }
    ensures { MayMake result T.shape (bare_elements (primitive_rows numbers.now) size indices.now) }
{
    if numbers.validity.is_some() {
        return Ok(None);
    }
    let Some(values) = values_of(alloc, numbers.values.as_slice(), size, indices)? else {
        return Ok(None);
    };
    let values = Buffer::from_vec(values)?;
    let column = PrimitiveArray {
        values,
        validity: None,
    };
    Ok(Some(column.into_ref()))
}

/// Returns the value of each list at its index, or `None` if an index is out of bounds.
///
/// List k is the values of `from` from k * size up to (k + 1) * size.
fn values_of<T: NativeType>(
    alloc: Global,
    from: &[T],
    size: usize,
    indices: &[i64],
) -> PolarsResult<Option<Vec<T>>>
    requires len { length indices.now * size ≡ length from.now }
    requires few { length from.now ≤ max_rows }
    ensures rows { IfOk result (λ made. IfSome made (λ values.
        number_rows T.number values.items None ≡
        bare_elements (number_rows T.number from.now None) size indices.now)) }
    ensures refusal { IfErr result IsOutOfMemory }
{
    let mut values = Vec::with_capacity(alloc, indices.len())?;
    for k in 0..indices.len() {
        let Some(i) = negative_to_usize(indices[k], size) else {
            return Ok(None);
        };
        values.push_reserved(from[k * size + i]);
    }
    Ok(Some(values))
}
