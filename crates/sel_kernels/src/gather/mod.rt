//! Gather for columns of any type.

ghost use Rattle.std.specs.Prelude.{◌≡◌, ◌≤◌, ◌<◌, All, length, map, slice_index_or, IsTrue, IfOk, IfErr};
ghost use Rattle.sel_bits.specs.Limits.{max_rows};
ghost use Rattle.sel_arrow.specs.Columns.{null_rows, primitive_rows};
ghost use Rattle.sel_arrow.specs.Rows.{rows, type_of, IsField, IsWellFormed};
ghost use Rattle.sel_arrow.specs.declared.column.Column.{Struct};
ghost use Rattle.sel_gather.specs.Gathers.{SelectsFrom};
ghost use Rattle.sel_kernels.specs.Blocks.{blocks_within};
ghost use Rattle.sel_kernels.specs.Need.{IsLimitOrMemory};
ghost use Rattle.sel_arrow.specs.Masked.{number_value};
ghost use Rattle.sel_arrow.specs.Value.{Null};
ghost use Rattle.sel_kernels.specs.Pick.{is_within, all_within, all_below, take_rows};
ghost use Rattle.sel_kernels.specs.TakenFields.{TakesColumn, exceeded_in_taken};

pub mod binary;
mod binview;
mod bit_slice;
pub mod bitmap;
mod blocks;
pub mod boolean;
pub mod checked;
pub mod fixed_size_list;
pub(crate) mod generic_binary;
mod near;
pub mod primitive;
pub mod sublist;
mod validity;

use crate::runs::Taken;
use binview::{take_texts, take_views};
pub use fixed_size_list::take_blocks;
use primitive::take_primitive_unchecked;
use sel_arrow::array::Array;
use sel_arrow::array_ref::ArrayRef;
use sel_arrow::column::Column;
use sel_arrow::match_numbers;
use sel_arrow::null::NullArray;
use sel_arrow::primitive::{ArrowPrimitive, IdxArr, PrimitiveArray};
use sel_bits::bitmap::Bitmap;
use sel_bits::faults::PolarsResult;
use sel_bits::native::{Index, NativeType};
pub use sel_gather::checks::picks_in_bounds;
pub use sel_gather::gather::collect_rows;
use sel_gather::gather::gather_lists;
use sel_gather::one_source::collect_one_plan;
use sel_runs::row_refs::Walk;
use std::alloc::Global;
use validity::live_indices;

/// Returns the rows of `values` at `indices`; a null index gives a null row.
///
/// The result has the type of `values`. The values in null slots of `indices` are ignored.
///
/// # Requires
/// Every non-null index is less than `values.len()`; check with [`indices_in_bounds`].
///
/// # Errors
/// `SizeLimit` if the result exceeds a limit: `Limit::Rows` if a list child at some depth would
/// have more than 4,294,967,295 rows, `Limit::Bytes` if a binary column would have more than
/// 9,223,372,036,854,775,807 bytes. `OutOfMemory` if an allocation fails.
pub fn take_unchecked(alloc: Global, values: &ArrayRef, indices: &IdxArr) -> PolarsResult<ArrayRef>
    requires { IsTrue (all_within (length (rows values.now.column)) (primitive_rows indices.now)) }
    ensures { SelectsFrom result (type_of values.now.column)
        (take_rows (rows values.now.column) (primitive_rows indices.now)) }
{
    let taken = take_any(alloc, values.as_column(), indices)?;
    Ok(taken)
}

/// Returns the rows at `indices`, dispatching on the column type.
#[cycle(taking)]
fn take_any(alloc: Global, values: &Column, indices: &IdxArr) -> PolarsResult<ArrayRef>
    requires formed { IsWellFormed values.now }
    requires inside { IsTrue (all_within (length (rows values.now)) (primitive_rows indices.now)) }
    ensures { TakesColumn result (type_of values.now)
        (take_rows (rows values.now) (primitive_rows indices.now)) }
{
    match_numbers! { values, column => take_numbers(alloc, column, indices),
        Column::Null(column) => Ok(take_nulls(column, indices).into_ref()),
        Column::Boolean(column) => Ok(boolean::take_unchecked(alloc, column, indices)?.into_ref()),
        Column::LargeBinary(column) => {
            Ok(binary::take_binary(alloc, column, indices)?.into_ref())
        }
        Column::BinaryView(column) => Ok(take_views(alloc, column, indices)?.into_ref()),
        Column::Utf8View(column) => Ok(take_texts(alloc, column, indices)?.into_ref()),
        Column::LargeList { .. } | Column::FixedSizeList { .. } => {
            take_lists(alloc, values, indices)
        }
        Column::Struct {
            len,
            fields,
            validity,
        } => take_struct(alloc, *len, fields, validity, indices),
    }
}

/// Returns the struct values at `indices`, gathered field by field, from `count` rows.
///
/// The fields have a null for each null row, so no value under one is copied.
#[cycle(taking)]
fn take_struct(
    alloc: Global,
    count: usize,
    fields: &Vec<Column>,
    validity: &Option<Bitmap>,
    indices: &IdxArr,
) -> PolarsResult<ArrayRef>
    requires formed { IsWellFormed (Struct count fields.now validity.now) }
    requires inside { IsTrue (all_within count (primitive_rows indices.now)) }
    ensures { TakesColumn result (type_of (Struct count fields.now validity.now))
        (take_rows (rows (Struct count fields.now validity.now)) (primitive_rows indices.now)) }
{
    let live = live_indices(alloc, validity, indices)?;
    let fields = take_fields(alloc, fields, count, &live)?;
    let PrimitiveArray { validity, .. } = live;
    let column = Column::Struct {
        len: indices.len(),
        fields,
        validity,
    };
    Ok(ArrayRef { column })
}

/// Returns the rows of each column at `indices`; each column has `_count` rows.
#[cycle(taking)]
fn take_fields(
    alloc: Global,
    columns: &[Column],
    _count: usize,
    indices: &IdxArr,
) -> PolarsResult<Vec<Column>>
    requires fields { All (IsField _count) columns.now }
    requires inside { IsTrue (all_within _count (primitive_rows indices.now)) }
    ensures rows { IfOk result (λ taken. map rows taken.items ≡
        map (λ column. take_rows (rows column) (primitive_rows indices.now)) columns.now) }
    ensures dtypes { IfOk result (λ taken. map type_of taken.items ≡ map type_of columns.now) }
    ensures fields { IfOk result
        (λ taken. All (IsField (length (primitive_rows indices.now))) taken.items) }
    ensures refusal { IfErr result
        (IsLimitOrMemory (exceeded_in_taken columns.now (primitive_rows indices.now))) }
{
    let mut taken = Vec::with_capacity(alloc, columns.len())?;
    for column in columns {
        let ArrayRef { column } = take_any(alloc, column, indices)?;
        taken.push(column)?;
    }
    Ok(taken)
}

/// Returns the rows of a list column at `indices`.
fn take_lists(alloc: Global, values: &Column, indices: &IdxArr) -> PolarsResult<ArrayRef>
    requires formed { IsWellFormed values.now }
    requires inside { IsTrue (all_within (length (rows values.now)) (primitive_rows indices.now)) }
    ensures { TakesColumn result (type_of values.now)
        (take_rows (rows values.now) (primitive_rows indices.now)) }
{
    if fixed_size_list::holds_numbers(values) {
        return fixed_size_list::take_unchecked(alloc, values, indices);
    }
    let places = Taken { indices };
    let plan = Walk { places, at: 0 };
    if let Column::LargeList { values: child, .. } = values {
        let sources = [values];
        let column = gather_lists(alloc, child, &sources, &plan)?;
        return Ok(ArrayRef { column });
    }
    let taken = collect_one_plan(alloc, values, &plan)?;
    Ok(taken)
}

/// Returns primitive values at `indices`, as a column of any type.
fn take_numbers<T: ArrowPrimitive>(
    alloc: Global,
    values: &PrimitiveArray<T>,
    indices: &IdxArr,
) -> PolarsResult<ArrayRef>
    requires { IsTrue (all_within (length (primitive_rows values.now))
        (primitive_rows indices.now)) }
    ensures { TakesColumn result T.shape
        (take_rows (primitive_rows values.now) (primitive_rows indices.now)) }
{
    Ok(take_primitive_unchecked(alloc, values, indices)?.into_ref())
}

/// Returns one null for each index.
fn take_nulls(values: &NullArray, indices: &IdxArr) -> NullArray
    requires { IsTrue (all_within (length (null_rows values.now)) (primitive_rows indices.now)) }
    ensures { null_rows result ≡ take_rows (null_rows values.now) (primitive_rows indices.now) }
{
    let _ = values;
    NullArray {
        length: indices.len(),
    }
}

/// Returns whether every non-null index is less than `len`.
///
/// The validity is read only if a stored value is out of bounds.
#[tactic(auto, using(crate::proofs::Takes::below_masked))]
pub fn indices_in_bounds(indices: &IdxArr, len: usize) -> bool
    ensures { result ≡ all_within len (primitive_rows indices.now) }
{
    idx_slice_in_bounds(indices.values.as_slice(), len) || indices_in_bounds_of(indices, len)
}

/// Returns whether every non-null index is less than `len`, for indices of any integer type.
pub fn indices_in_bounds_of<I: Index>(indices: &PrimitiveArray<I>, len: usize) -> bool
    ensures { result ≡ all_within len (primitive_rows indices.now) }
{
    for k in 0..row_count(indices) {
        if !is_row_in_bounds(indices, k, len) {
            return false;
        }
    }
    true
}

/// Returns whether every index is less than `len`.
#[tactic(auto, using(crate::proofs::Takes::few_below))]
pub fn idx_slice_in_bounds(indices: &[u32], len: usize) -> bool
    ensures { result ≡ all_below len indices.now }
{
    len > u32::MAX as usize || are_below(indices, len as u32)
}

/// Returns whether every index is less than `len`.
///
/// Looks for the greatest index: SSE4 has an operation for the maxima of several pairs of unsigned
/// integers, but none that compares them.
#[tactic(auto, using(crate::proofs::Takes::none_below))]
fn are_below(places: &[u32], len: u32) -> bool
    ensures { result ≡ all_below len places.now }
{
    if len == 0 {
        return places.is_empty();
    }
    let mut greatest = 0;
    for place in places {
        greatest = greatest.max(*place);
    }
    greatest < len
}

/// Returns whether every non-null index refers to a whole block of `size` items among `len` items.
pub fn blocks_in_bounds(indices: &IdxArr, size: usize, len: usize) -> bool
    ensures { result ≡ blocks_within size len (primitive_rows indices.now) }
{
    if size == 0 {
        return true;
    }
    indices_in_bounds(indices, len / size)
}

/// Returns the number of rows of a primitive column, at most 4,294,967,295.
#[tactic(auto, using(crate::proofs::Selects::kept_columns))]
fn row_count<T: NativeType>(column: &PrimitiveArray<T>) -> usize
    ensures count { result ≡ length (primitive_rows column.now) }
    ensures few { result ≤ max_rows }
{
    column.values().len()
}

/// Returns whether the index in row `k` is null or less than `len`.
///
/// The validity is read only if the stored value is out of bounds.
#[tactic(auto, using(crate::proofs::Selects::row_lengths))]
fn is_row_in_bounds<I: NativeType>(indices: &PrimitiveArray<I>, k: usize, len: usize) -> bool
    requires { k < length (primitive_rows indices.now) }
    ensures { result ≡ is_within len (slice_index_or (primitive_rows indices.now) k Null) }
{
    is_in_bounds(Some(indices.values.as_slice()[k]), len) || is_in_bounds(indices.get(k), len)
}

/// Returns whether `index` is `None` or less than `len`.
fn is_in_bounds<I: NativeType>(index: Option<I>, len: usize) -> bool
    ensures { result ≡ is_within len (number_value I.number index) }
{
    match index {
        None => true,
        Some(index) => match index.try_usize() {
            None => false,
            Some(place) => place < len,
        },
    }
}
