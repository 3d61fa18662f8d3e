//! Filters for the values of fixed-size list columns.

ghost use Rattle.std.specs.Prelude.{◌≡◌, ◌≤◌, ◌<◌, ◌*◌, length};
ghost use Rattle.std.specs.Mem.{type_size};
ghost use Rattle.sel_bits.specs.Limits.{max_rows};
ghost use Rattle.sel_arrow.specs.Columns.{primitive_rows};
ghost use Rattle.sel_arrow.specs.Rows.{rows, type_of};
ghost use Rattle.sel_kernels.specs.Kept.{KeepsBlocks};

use sel_arrow::column::Column;
use sel_arrow::match_numbers;
use sel_arrow::primitive::{ArrowPrimitive, PrimitiveArray};
use sel_bits::bitmap::Bitmap;
use sel_bits::buffer::Buffer;
use sel_bits::faults::PolarsResult;
use sel_filter::arrays::filter_arrays;
use std::alloc::Global;

/// Returns the values of the lists of `size` values whose bit is set; `count` is their number.
///
/// The result does not depend on `count`, the memory that is reserved does.
///
/// Returns `None` if they are not copied in whole lists: if they are not primitive, if they have a
/// validity, or if the list size is not one of the common sizes.
pub(crate) fn filter_child(
    alloc: Global,
    values: &Column,
    size: usize,
    mask: &Bitmap,
    count: usize,
) -> PolarsResult<Option<Column>>
    requires fills { length (rows values.now) ≡ length mask.now.bits * size }
    requires few { length (rows values.now) ≤ max_rows }
    ensures { KeepsBlocks result size (type_of values.now) (rows values.now) mask.now.bits }
{
    match_numbers! { values, numbers => filter_numbers(alloc, numbers, size, mask, count),
        _ => Ok(None),
    }
}

/// Returns the primitive values of the lists whose bit is set, or `None` as `filter_child` does.
fn filter_numbers<T: ArrowPrimitive>(
    alloc: Global,
    numbers: &PrimitiveArray<T>,
    size: usize,
    mask: &Bitmap,
    count: usize,
) -> PolarsResult<Option<Column>>
    requires sized { type_size T.row ≤ 16 }
    requires fills { length (primitive_rows numbers.now) ≡ length mask.now.bits * size }
    requires few { length (primitive_rows numbers.now) ≤ max_rows }
    ensures { KeepsBlocks result size T.shape (primitive_rows numbers.now) mask.now.bits }
{
    match size {
        1 => filter_sized::<T, 1>(alloc, numbers, mask, count),
        2 => filter_sized::<T, 2>(alloc, numbers, mask, count),
        3 => filter_sized::<T, 3>(alloc, numbers, mask, count),
        4 => filter_sized::<T, 4>(alloc, numbers, mask, count),
        8 => filter_sized::<T, 8>(alloc, numbers, mask, count),
        16 => filter_sized::<T, 16>(alloc, numbers, mask, count),
        32 => filter_sized::<T, 32>(alloc, numbers, mask, count),
        _ => Ok(None),
    }
}

/// Returns the column of the values of the lists of `N` values whose bit is set, or `None` if the
/// values have a validity.
fn filter_sized<T: ArrowPrimitive, const N: usize>(
    alloc: Global,
    numbers: &PrimitiveArray<T>,
    mask: &Bitmap,
    count: usize,
) -> PolarsResult<Option<Column>>
    requires some { 0 < N }
    requires small { N ≤ 64 }
    requires sized { type_size T.row ≤ 16 }
    requires fills { length (primitive_rows numbers.now) ≡ length mask.now.bits * N }
    requires few { length (primitive_rows numbers.now) ≤ max_rows }
    ensures { KeepsBlocks result N T.shape (primitive_rows numbers.now) mask.now.bits }
{
    if numbers.validity.is_some() {
        return Ok(None);
    }
    let (lists, _) = numbers.values.as_slice().as_chunks::<N>();
    let kept = filter_arrays(alloc, lists, mask, count)?;
    let values = Buffer::from_vec(kept)?;
    Ok(Some(T::into_column(values, None)))
}
