//! Gather for fixed-size list columns.

ghost use Rattle.std.specs.Prelude.{◌≡◌, ◌+◌, ◌*◌, ◌^◌, ◌<◌, ◌≤◌, ◌++◌, None, length, pos, IsTrue, IfOk, IfErr, OnOk};
ghost use Rattle.sel_bits.specs.Faults.{IsOutOfMemory};
ghost use Rattle.sel_bits.specs.Limits.{max_rows};
ghost use Rattle.sel_arrow.specs.Columns.{primitive_rows};
ghost use Rattle.sel_arrow.specs.Masked.{number_value};
ghost use Rattle.sel_arrow.specs.Rows.{rows, row_count, type_of, IsWellFormed};
ghost use Rattle.sel_kernels.specs.Blocks.{block_items, blocks_within, is_block_within, IsBeginning};
ghost use Rattle.sel_kernels.specs.Steps.{after_block_copy};
ghost use Rattle.sel_kernels.specs.BareBlocks.{holds_bare, is_bare, TakesBlocks};
ghost use Rattle.sel_kernels.specs.Need.{ExceedsRows, IsLimitOrMemory};
ghost use Rattle.sel_kernels.specs.Pick.{all_within, take_rows};
ghost use Rattle.sel_kernels.specs.TakenFields.{TakesColumn};

use crate::gather::blocks::take_block_values;
use crate::gather::validity::take_validity;
use sel_arrow::array::Array;
use sel_arrow::array_ref::ArrayRef;
use sel_arrow::column::Column;
use sel_arrow::match_numbers;
use sel_arrow::primitive::{ArrowPrimitive, IdxArr, PrimitiveArray};
use sel_arrow::validity::MOST_ROWS;
use sel_bits::block_copy::BlockCopy;
use sel_bits::buffer::Buffer;
use sel_bits::faults::{Limit, PolarsError, PolarsResult};
use sel_bits::native::NativeType;
use std::alloc::Global;

/// Appends the items from `i * size` to `(i + 1) * size` of the source for each index `i`.
///
/// A null index appends `zero` `size` times. Each index is one copy. The values in null slots of
/// `indices` are ignored.
///
/// # Requires
/// `out` has made no copies, and every non-null index refers to a block of `size` items in the
/// source; check with `gather::blocks_in_bounds`.
///
/// # Errors
/// `OutOfMemory` if an allocation fails or the number of items overflows `usize`. The items of
/// `out` are then a prefix of the full result.
pub fn take_blocks<T: Copy>(
    out: &mut BlockCopy<'_, T>,
    size: usize,
    indices: &IdxArr,
    zero: T,
) -> PolarsResult<()>
    requires fresh { out.old.copies ≡ 0 }
    requires inside { IsTrue
        (blocks_within size (length out.old.source) (primitive_rows indices.now)) }
    ensures items { OnOk result
        (out.new.items
        ≡ out.old.items ++ block_items size zero out.old.source (primitive_rows indices.now)) }
    ensures copies { OnOk result (out.new.copies ≡ length (primitive_rows indices.now)) }
    ensures source { out.new.source ≡ out.old.source }
    ensures beginning { IsBeginning out.new.items
        (out.old.items ++ block_items size zero out.old.source (primitive_rows indices.now)) }
    ensures refusal { IfErr result IsOutOfMemory }
{
    let count = indices.len();
    let source_len = out.source_len();
    prove!(source_len <= usize::MAX);
    let Some(room) = count.checked_mul(size) else {
        return Err(PolarsError::OutOfMemory);
    };
    out.reserve(room)?;
    for k in 0..count {
        take_block(out, size, indices.get(k), zero)?;
    }
    Ok(())
}

/// Appends one block.
fn take_block<T: Copy>(
    out: &mut BlockCopy<'_, T>,
    size: usize,
    index: Option<u32>,
    zero: T,
) -> PolarsResult<()>
    requires inside { IsTrue
        (is_block_within size (length out.old.source) (number_value pos index)) }
    requires short { length out.old.source < 2 ^ 64 }
    requires countable { out.old.copies ≤ max_rows }
    ensures block { OnOk result (out.new ≡ after_block_copy size zero out.old
        (number_value pos index)) }
    ensures unchanged { IfErr result (λ _. out.new ≡ out.old) }
    ensures refusal { IfErr result IsOutOfMemory }
{
    match index {
        None => out.fill(zero, size),
        Some(place) => out.copy(place as usize * size, size),
    }
}

/// Returns whether a column is a fixed-size list whose child, at every depth, has no validity.
///
/// The leaf must be a primitive column.
pub(crate) fn holds_numbers(values: &Column) -> bool
    ensures { result ≡ holds_bare values.now }
{
    match values {
        Column::FixedSizeList { values, .. } => is_bare_column(values),
        _ => false,
    }
}

/// Returns whether a column is primitive, or nested fixed-size lists of it, without validities.
fn is_bare_column(column: &Column) -> bool
    ensures { result ≡ is_bare column.now }
{
    match_numbers! { column, numbers => numbers.validity.is_none(),
        Column::FixedSizeList {
            values,
            validity,
            ..
        } => validity.is_none() && is_bare_column(values),
        _ => false,
    }
}

/// Returns the lists at `indices`, null where the index or the list is null.
///
/// `values` must satisfy `holds_numbers`. Primitive values are copied in whole blocks, with zeros
/// for a null index.
///
/// # Errors
/// `SizeLimit(Limit::Rows)` if the result would have more rows at some depth than a column may
/// have; `OutOfMemory` if an allocation fails.
pub(crate) fn take_unchecked(
    alloc: Global,
    values: &Column,
    indices: &IdxArr,
) -> PolarsResult<ArrayRef>
    requires formed { IsWellFormed values.now }
    requires bare { IsTrue (holds_bare values.now) }
    requires inside { IsTrue (all_within (length (rows values.now)) (primitive_rows indices.now)) }
    ensures { TakesColumn result (type_of values.now)
        (take_rows (rows values.now) (primitive_rows indices.now)) }
{
    let Column::FixedSizeList {
        size,
        values: child,
        validity,
        ..
    } = values
    else {
        unreachable!()
    };
    if indices.is_empty() {
        let column = values.sliced(alloc, 0, 0)?;
        return Ok(ArrayRef { column });
    }
    let count = rows_below(indices.len(), *size)?;
    let validity = take_validity(alloc, validity, indices)?;
    let below = take_level(alloc, child, *size, count, indices)?;
    let values = Box::new(alloc, below)?;
    Ok(ArrayRef {
        column: Column::FixedSizeList {
            size: *size,
            len: indices.len(),
            values,
            validity,
        },
    })
}

/// Returns `count * size`; `SizeLimit(Limit::Rows)` if that exceeds the row limit.
fn rows_below(count: usize, size: usize) -> PolarsResult<usize>
    requires few { count ≤ max_rows }
    requires narrow { size ≤ max_rows }
    ensures below { IfOk result (λ below. below ≡ count * size) }
    ensures few { IfOk result (λ below. below ≤ max_rows) }
    ensures refusal { IfErr result (IsLimitOrMemory (ExceedsRows (count * size))) }
{
    let below = count * size;
    if below > MOST_ROWS {
        return Err(PolarsError::SizeLimit(Limit::Rows));
    }
    Ok(below)
}

/// Returns `size` rows per index: the child rows of the list it refers to, unspecified if null.
///
/// `count` is the number of rows returned.
///
/// # Errors
/// `SizeLimit(Limit::Rows)` if the result would have more rows at some depth than a column may
/// have; `OutOfMemory` if an allocation fails.
fn take_level(
    alloc: Global,
    column: &Column,
    size: usize,
    count: usize,
    indices: &IdxArr,
) -> PolarsResult<Column>
    requires formed { IsWellFormed column.now }
    requires bare { IsTrue (is_bare column.now) }
    requires inside { IsTrue
        (blocks_within size (row_count column.now) (primitive_rows indices.now)) }
    requires some { 0 < length (primitive_rows indices.now) }
    requires count { count ≡ length (primitive_rows indices.now) * size }
    requires few { count ≤ max_rows }
    ensures { TakesBlocks result size (type_of column.now) (rows column.now)
        (primitive_rows indices.now) count }
{
    match_numbers! { column, numbers => take_leaf(alloc, numbers, size, indices),
        Column::FixedSizeList {
            size: width,
            values,
            ..
        } => {
            let below = rows_below(count, *width)?;
            let values = take_level(alloc, values, size * *width, below, indices)?;
            let values = Box::new(alloc, values)?;
            Ok(Column::FixedSizeList {
                size: *width,
                len: count,
                values,
                validity: None,
            })
        }
        _ => unreachable!(),
    }
}

/// Returns `size` primitive values per index: the block it refers to, or zeros for a null index.
fn take_leaf<T: ArrowPrimitive>(
    alloc: Global,
    numbers: &PrimitiveArray<T>,
    size: usize,
    indices: &IdxArr,
) -> PolarsResult<Column>
    requires bare { numbers.now.validity ≡ None }
    requires inside { IsTrue
        (blocks_within size (length (primitive_rows numbers.now)) (primitive_rows indices.now)) }
    requires few { length (primitive_rows indices.now) * size ≤ max_rows }
    ensures { TakesBlocks result size T.shape (primitive_rows numbers.now)
        (primitive_rows indices.now) (length (primitive_rows indices.now) * size) }
{
    let zero = T::from_usize(0).unwrap_or(T::LEAST);
    let values = take_block_values(alloc, numbers.values.as_slice(), size, indices, zero)?;
    let values = Buffer::from_vec(values)?;
    Ok(T::into_column(values, None))
}
