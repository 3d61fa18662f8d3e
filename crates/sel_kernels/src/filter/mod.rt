//! Filters for columns of any type.

ghost use Rattle.std.specs.Prelude.{◌≡◌, ◌≤◌, ◌∷◌, [], All, length, map, IfOk, IfErr};
ghost use Rattle.sel_bits.specs.Faults.{IsOutOfMemory};
ghost use Rattle.sel_bits.specs.Limits.{max_rows};
ghost use Rattle.sel_bits.specs.Bits.{count_true};
ghost use Rattle.sel_arrow.specs.Columns.{null_rows, boolean_rows, primitive_rows, binview_rows, utf8view_rows};
ghost use Rattle.sel_arrow.specs.Rows.{rows, type_of, IsField, IsWellFormed};
ghost use Rattle.sel_arrow.specs.declared.column.Column.{Boolean, Struct};
ghost use Rattle.sel_arrow.specs.Value.{Null};
ghost use Rattle.sel_gather.specs.Gathers.{Collects};
ghost use Rattle.sel_runs.specs.Picks.{pick};
ghost use Rattle.sel_kernels.specs.FixedSizeLists.{IsFixedSizeList};
ghost use Rattle.sel_kernels.specs.Kept.{KeepsColumn};
ghost use Rattle.sel_kernels.specs.Pick.{place_pick};
ghost use Rattle.sel_kernels.specs.Select.{select, effective_mask, kept};

pub mod boolean;
mod fixed_size_list;
pub mod primitive;
pub mod scalar;
pub mod selection;

use crate::runs::{MaskRows, MaskRuns, count_runs};
pub use boolean::filter_boolean_kernel;
use boolean::{filter_counted_booleans, filter_validity};
use fixed_size_list::filter_child;
use primitive::filter_counted_buffer;
use sel_arrow::array::Array;
use sel_arrow::array_ref::ArrayRef;
use sel_arrow::binview::BinaryViewArray;
use sel_arrow::boolean::BooleanArray;
use sel_arrow::column::Column;
use sel_arrow::match_numbers;
use sel_arrow::null::NullArray;
use sel_arrow::primitive::{ArrowPrimitive, PrimitiveArray};
use sel_arrow::utf8view::Utf8ViewArray;
use sel_bits::bitmap::Bitmap;
use sel_bits::faults::PolarsResult;
use sel_gather::gather::{collect_plan, collect_rising};
use sel_runs::run_refs::RunRefs;
use sel_runs::runs::NO_ROWS;
pub use selection::Selection;
use selection::first_kept;
use std::alloc::Global;

/// Returns the rows of `array` where `mask` is true and valid, in order.
///
/// A null in the mask counts as false. The result has the type of `array`.
///
/// # Requires
/// `array` and `mask` have the same length.
///
/// # Errors
/// `OutOfMemory` if an allocation fails.
#[tactic(auto, using(crate::proofs::Selects::effective_masks))]
pub fn filter(alloc: Global, array: &ArrayRef, mask: &BooleanArray) -> PolarsResult<ArrayRef>
    requires { length (rows array.now.column) ≡ length (boolean_rows mask.now) }
    ensures rows { IfOk result (λ kept. rows kept.column ≡
        select (rows array.now.column) (effective_mask (boolean_rows mask.now))) }
    ensures dtype { IfOk result (λ kept. type_of kept.column ≡ type_of array.now.column) }
    ensures refusal { IfErr result IsOutOfMemory }
{
    match &mask.validity {
        None => filter_with_bitmap(alloc, array, &mask.values),
        Some(validity) => {
            let effective_mask = mask.values.and(alloc, validity)?;
            filter_with_bitmap(alloc, array, &effective_mask)
        }
    }
}

/// Returns the rows of `array` whose bit in `mask` is set, in order.
///
/// The result has the type of `array`. If the set bits are consecutive, it may be a slice of
/// `array`, which the contract leaves open.
///
/// # Requires
/// `array` and `mask` have the same length.
///
/// # Errors
/// `OutOfMemory` if an allocation fails.
#[tactic(auto, using(crate::proofs::Selects::run_selected))]
pub fn filter_with_bitmap(alloc: Global, array: &ArrayRef, mask: &Bitmap) -> PolarsResult<ArrayRef>
    requires { length (rows array.now.column) ≡ length mask.now.bits }
    ensures rows { IfOk result (λ kept. rows kept.column ≡
        select (rows array.now.column) mask.now.bits) }
    ensures dtype { IfOk result (λ kept. type_of kept.column ≡ type_of array.now.column) }
    ensures refusal { IfErr result IsOutOfMemory }
{
    let count = mask.set_bits();
    match first_kept(mask, count)? {
        Some(first) => array.sliced(alloc, first, count),
        None => filter_column(alloc, array.as_column(), mask, count),
    }
}

/// Returns the rows of `array` that `selection` keeps, in order.
///
/// The result has the type of `array`. If the kept rows are consecutive, it may be a slice of
/// `array`, which the contract leaves open.
///
/// # Requires
/// `array` has `selection.len()` rows.
///
/// # Errors
/// `OutOfMemory` if an allocation fails.
#[tactic(auto, using(crate::proofs::Selects::run_selected))]
pub fn filter_selected(
    alloc: Global,
    array: &ArrayRef,
    selection: &Selection,
) -> PolarsResult<ArrayRef>
    requires { length (rows array.now.column) ≡ length selection.now.mask.bits }
    ensures rows { IfOk result (λ kept. rows kept.column ≡
        select (rows array.now.column) selection.now.mask.bits) }
    ensures dtype { IfOk result (λ kept. type_of kept.column ≡ type_of array.now.column) }
    ensures refusal { IfErr result IsOutOfMemory }
{
    match selection.first {
        Some(first) => array.sliced(alloc, first, selection.count),
        None => filter_column(alloc, array.as_column(), &selection.mask, selection.count),
    }
}

/// Returns the rows of a column whose bit is set; `count` is the number of set bits of `mask`.
///
/// Primitive, boolean and view columns are filtered by words of the mask, struct columns field by
/// field, fixed-size lists of primitive values list by list, and binary and other list columns by
/// runs of set bits.
#[cycle(filtering)]
fn filter_column(
    alloc: Global,
    column: &Column,
    mask: &Bitmap,
    count: usize,
) -> PolarsResult<ArrayRef>
    requires formed { IsWellFormed column.now }
    requires long { length (rows column.now) ≡ length mask.now.bits }
    requires count { count ≡ count_true mask.now.bits }
    ensures { KeepsColumn result (type_of column.now) (rows column.now) mask.now.bits }
{
    match_numbers! { column, column => filter_numbers(alloc, column, mask, count),
        Column::Null(column) => Ok(filter_null(column, mask, count).into_ref()),
        Column::Boolean(column) => filter_boolean(alloc, column, mask, count),
        Column::BinaryView(column) => Ok(filter_views(alloc, column, mask, count)?.into_ref()),
        Column::Utf8View(column) => Ok(filter_texts(alloc, column, mask, count)?.into_ref()),
        Column::Struct {
            len,
            fields,
            validity,
        } => filter_struct(alloc, *len, fields, validity, mask, count),
        Column::FixedSizeList {
            size,
            values,
            validity,
            ..
        } => filter_lists(alloc, column, *size, values, validity, mask, count),
        Column::LargeBinary(_) | Column::LargeList { .. } => {
            filter_runs(alloc, column, mask, count)
        }
    }
}

/// Returns the struct values whose bit is set, of `_len` rows.
#[cycle(filtering)]
fn filter_struct(
    alloc: Global,
    _len: usize,
    fields: &Vec<Column>,
    validity: &Option<Bitmap>,
    mask: &Bitmap,
    count: usize,
) -> PolarsResult<ArrayRef>
    requires formed { IsWellFormed (Struct _len fields.now validity.now) }
    requires long { _len ≡ length mask.now.bits }
    requires count { count ≡ count_true mask.now.bits }
    ensures { KeepsColumn result (type_of (Struct _len fields.now validity.now))
        (rows (Struct _len fields.now validity.now)) mask.now.bits }
{
    let validity = filter_validity(alloc, validity.as_ref(), mask, count)?;
    let fields = filter_fields(alloc, fields, mask, count)?;
    let column = Column::Struct {
        len: count,
        fields,
        validity,
    };
    Ok(ArrayRef { column })
}

/// Returns each column filtered by `mask`.
#[cycle(filtering)]
fn filter_fields(
    alloc: Global,
    columns: &[Column],
    mask: &Bitmap,
    count: usize,
) -> PolarsResult<Vec<Column>>
    requires fields { All (IsField (length mask.now.bits)) columns.now }
    requires count { count ≡ count_true mask.now.bits }
    ensures rows { IfOk result (λ kept. map rows kept.items ≡
        map (λ column. select (rows column) mask.now.bits) columns.now) }
    ensures dtypes { IfOk result (λ kept. map type_of kept.items ≡ map type_of columns.now) }
    ensures fields { IfOk result (λ kept. All (IsField (count_true mask.now.bits)) kept.items) }
    ensures refusal { IfErr result IsOutOfMemory }
{
    let mut kept = Vec::with_capacity(alloc, columns.len())?;
    for column in columns {
        let ArrayRef { column } = filter_column(alloc, column, mask, count)?;
        kept.push(column)?;
    }
    Ok(kept)
}

/// Returns the primitive values whose bit is set, as a column of any type.
#[tactic(auto, using(crate::proofs::Selects::kept_columns))]
fn filter_numbers<T: ArrowPrimitive>(
    alloc: Global,
    column: &PrimitiveArray<T>,
    mask: &Bitmap,
    count: usize,
) -> PolarsResult<ArrayRef>
    requires long { length (primitive_rows column.now) ≡ length mask.now.bits }
    requires count { count ≡ count_true mask.now.bits }
    ensures { KeepsColumn result T.shape (primitive_rows column.now) mask.now.bits }
{
    let (values, validity) = filter_counted_buffer(
        alloc,
        &column.values,
        &column.validity,
        mask,
        count,
    )?;
    Ok(PrimitiveArray { values, validity }.into_ref())
}

/// Returns the fixed-size lists whose bit is set; `column` has these parts.
#[tactic(auto, using(crate::proofs::KeptColumns::row_counts))]
fn filter_lists(
    alloc: Global,
    column: &Column,
    size: usize,
    values: &Column,
    validity: &Option<Bitmap>,
    mask: &Bitmap,
    count: usize,
) -> PolarsResult<ArrayRef>
    requires formed { IsWellFormed column.now }
    requires parts { IsFixedSizeList column.now size values.now validity.now }
    requires long { length (rows column.now) ≡ length mask.now.bits }
    requires count { count ≡ count_true mask.now.bits }
    ensures { KeepsColumn result (type_of column.now) (rows column.now) mask.now.bits }
{
    let validity = filter_validity(alloc, validity.as_ref(), mask, count)?;
    let Some(child) = filter_child(alloc, values, size, mask, count)? else {
        return filter_runs(alloc, column, mask, count);
    };
    let values = Box::new(alloc, child)?;
    let column = Column::FixedSizeList {
        size,
        len: count,
        values,
        validity,
    };
    Ok(ArrayRef { column })
}

/// Returns the rows of a column whose bit is set, gathered by the runs of set bits.
///
/// The kept rows require no more rows or bytes at any depth than all rows, so no limit is exceeded.
fn filter_runs(
    alloc: Global,
    column: &Column,
    mask: &Bitmap,
    count: usize,
) -> PolarsResult<ArrayRef>
    requires formed { IsWellFormed column.now }
    requires long { length (rows column.now) ≡ length mask.now.bits }
    requires few { length mask.now.bits ≤ max_rows }
    requires count { count ≡ count_true mask.now.bits }
    ensures { KeepsColumn result (type_of column.now) (rows column.now) mask.now.bits }
{
    let column = collect_kept(alloc, column, mask, count)?;
    Ok(ArrayRef { column })
}

/// Returns the rows of `column` whose bit is set, as `filter_runs` does.
///
/// Lists are read one by one, by the bits of the mask, if most runs are short. If most are long,
/// the items of all lists of a run are copied at once. The runs of the mask are not listed for
/// lists, since they would take memory beside the runs of the items.
fn collect_kept(alloc: Global, column: &Column, mask: &Bitmap, count: usize) -> PolarsResult<Column>
    requires formed { IsWellFormed column.now }
    requires long { length (rows column.now) ≡ length mask.now.bits }
    requires few { length mask.now.bits ≤ max_rows }
    requires count { count ≡ count_true mask.now.bits }
    ensures { Collects result (type_of column.now) (column.now ∷ [])
        (pick Null (rows column.now ∷ []) (map place_pick (kept mask.now.bits))) }
{
    let sources = [column];
    let are_long = count_runs(mask) < few_runs(column, count);
    let is_list = is_list(column);
    if is_list && !are_long {
        let plan = RunRefs {
            first: NO_ROWS,
            rest: MaskRows { mask, at: 0 },
            left: count,
        };
        return collect_rising(alloc, &sources, &plan);
    }
    let plan = RunRefs {
        first: NO_ROWS,
        rest: MaskRuns { mask, at: 0 },
        left: count,
    };
    collect_plan(alloc, &sources, &plan, are_long && !is_list)
}

// From this average number of rows on, a run of set bits is long: copying its items at once is then
// faster than copying them row by row. docs/BENCHMARKS.md has the measurements.
const LONG_RUN: usize = 3;

const LONG_RUN_OF_NULLABLE_LISTS: usize = 5;

const LONG_LIST_RUN_IN_QUARTERS: usize = 9;

/// Returns how many runs are few for `count` kept rows, so that most are long. No contract depends
/// on the result.
///
/// The runs of items, which are listed, also end at lists that are null: with a validity they need
/// longer runs to take little memory.
fn few_runs(column: &Column, count: usize) -> usize {
    match column {
        Column::LargeList { validity: None, .. } => count / LONG_LIST_RUN_IN_QUARTERS * 4,
        Column::LargeList { .. } => count / LONG_RUN_OF_NULLABLE_LISTS,
        _ => count / LONG_RUN,
    }
}

/// Returns whether `column` has lists with offsets. No contract depends on the result.
fn is_list(column: &Column) -> bool {
    match column {
        Column::LargeList { .. } => true,
        _ => false,
    }
}

/// Returns one null for each set bit of `_mask`.
#[tactic(auto, using(crate::proofs::Selects::kept_nulls))]
fn filter_null(_array: &NullArray, _mask: &Bitmap, count: usize) -> NullArray
    requires long { length (null_rows _array.now) ≡ length _mask.now.bits }
    requires count { count ≡ count_true _mask.now.bits }
    ensures { null_rows result ≡ select (null_rows _array.now) _mask.now.bits }
{
    NullArray { length: count }
}

/// Returns the booleans whose bit is set, as a column of any type.
#[tactic(auto, using(crate::proofs::Selects::kept_columns))]
fn filter_boolean(
    alloc: Global,
    array: &BooleanArray,
    mask: &Bitmap,
    count: usize,
) -> PolarsResult<ArrayRef>
    requires long { length (boolean_rows array.now) ≡ length mask.now.bits }
    requires count { count ≡ count_true mask.now.bits }
    ensures { KeepsColumn result (type_of (Boolean array.now)) (boolean_rows array.now)
        mask.now.bits }
{
    let (values, validity) = filter_counted_booleans(
        alloc,
        &array.values,
        array.validity.as_ref(),
        mask,
        count,
    )?;
    Ok(BooleanArray { values, validity }.into_ref())
}

/// Returns the views whose bit is set; the data buffers are shared.
#[tactic(auto, using(crate::proofs::Selects::kept_views))]
fn filter_views(
    alloc: Global,
    array: &BinaryViewArray,
    mask: &Bitmap,
    count: usize,
) -> PolarsResult<BinaryViewArray>
    requires long { length (binview_rows array.now) ≡ length mask.now.bits }
    requires count { count ≡ count_true mask.now.bits }
    ensures rows { IfOk result (λ kept. binview_rows kept ≡
        select (binview_rows array.now) mask.now.bits) }
    ensures refusal { IfErr result IsOutOfMemory }
{
    let (views, validity) = filter_counted_buffer(
        alloc,
        &array.views,
        &array.validity,
        mask,
        count,
    )?;
    let buffers = array.buffers.try_clone()?;
    Ok(BinaryViewArray {
        views,
        buffers,
        validity,
    })
}

/// Returns the strings whose bit is set; only their views are copied.
#[tactic(auto, using(crate::proofs::Selects::passed_kept))]
pub(crate) fn filter_texts(
    alloc: Global,
    array: &Utf8ViewArray,
    mask: &Bitmap,
    count: usize,
) -> PolarsResult<Utf8ViewArray>
    requires long { length (utf8view_rows array.now) ≡ length mask.now.bits }
    requires count { count ≡ count_true mask.now.bits }
    ensures rows { IfOk result (λ kept. utf8view_rows kept ≡
        select (utf8view_rows array.now) mask.now.bits) }
    ensures refusal { IfErr result IsOutOfMemory }
{
    let bytes = filter_views(alloc, &array.bytes, mask, count)?;
    Ok(Utf8ViewArray { bytes })
}
