//! Element access for lists with 64-bit offsets, by one index for all lists.

ghost use Rattle.std.specs.Prelude.{◌≡◌, ◌<◌, ◌≤◌, ◌+◌, pos, [], ◌∷◌, map, length, slice_index_or, IfOk, IfErr, IfSome};
ghost use Rattle.std.specs.List.{range_with_len};
ghost use Rattle.std.specs.Option.{is_some};
ghost use Rattle.sel_bits.specs.Faults.{IsOutOfMemory};
ghost use Rattle.sel_bits.specs.Limits.{max_rows};
ghost use Rattle.sel_arrow.specs.Columns.{primitive_rows};
ghost use Rattle.sel_arrow.specs.Masked.{number_value};
ghost use Rattle.sel_arrow.specs.NestedArrays.{list_column};
ghost use Rattle.sel_arrow.specs.Pieces.{rows_between};
ghost use Rattle.sel_arrow.specs.Rows.{rows, type_of, IsWellFormed};
ghost use Rattle.sel_arrow.specs.Shape.{of_large_list, is_list_shape};
ghost use Rattle.sel_arrow.specs.Value.{Null};
ghost use Rattle.sel_arrow.specs.declared.column.Column.{LargeList};
ghost use Rattle.sel_gather.specs.Gathers.{SelectsFrom};
ghost use Rattle.sel_kernels.specs.Elements.{child_pick};
ghost use Rattle.sel_kernels.specs.Lists.{list_get, lacks_place, oob, child_place, places_in, unit_lists};

use crate::gather::sublist::pick_of_place;
use sel_arrow::array::Array;
use sel_arrow::array_ref::ArrayRef;
use sel_arrow::column::Column;
use sel_arrow::list::ListArray;
use sel_arrow::primitive::{IdxArr, PrimitiveArray};
use sel_arrow::validity::is_valid_at;
use sel_bits::bitmap::Bitmap;
use sel_bits::buffer::Buffer;
use sel_bits::faults::{PolarsError, PolarsResult};
use sel_bits::number::negative_to_usize;
use sel_bits::offsets::OffsetsBuffer;
use sel_bits::packer::BitPacker;
use sel_gather::one_source::collect_one_plan;
use sel_runs::row_refs::{Places, Walk};
use std::alloc::Global;

/// The number of lists that are looked at before it is known whether the index is out of bounds for
/// one of them.
const BLOCK: usize = 64;

/// Returns a column whose row k is the element of list k at `index`.
///
/// A negative index counts from the end. Row k is null if the element is null, list k is null or
/// the index is out of bounds for it. The result has the type of the child.
///
/// # Errors
/// `OutOfMemory` if an allocation fails; `SizeLimit` if the result exceeds a limit of
/// `take_unchecked`.
pub fn sublist_get(alloc: Global, arr: &ListArray<i64>, index: i64) -> PolarsResult<ArrayRef>
    ensures { SelectsFrom result (type_of arr.now.values.value)
        (list_get (rows (list_column arr.now)) index) }
{
    let places = ListPlaces { arr, index };
    let plan = Walk { places, at: 0 };
    collect_one_plan(alloc, arr.values(), &plan)
}

/// Returns indices into the child: row k is the position of the element of list k at `index`.
///
/// A negative index counts from the end. Row k is null if list k is null or the index is out of
/// bounds for it.
///
/// # Errors
/// `OutOfMemory` if an allocation fails.
#[tactic(auto, using(crate::proofs::Elements::mapped_count))]
pub fn sublist_get_indexes(alloc: Global, arr: &ListArray<i64>, index: i64) -> PolarsResult<IdxArr>
    ensures rows { IfOk result (λ indices. primitive_rows indices ≡
        map (number_value pos) (places_in arr.now.offsets arr.now.validity index)) }
    ensures refusal { IfErr result IsOutOfMemory }
{
    let len = arr.offsets.len_proxy();
    let mut values = Vec::with_capacity(alloc, len)?;
    let mut validity = BitPacker::with_capacity(alloc, len)?;
    for k in 0..len {
        let place = place_in_child(arr, index, k);
        values.push(place.unwrap_or(0))?;
        validity.push(place.is_some())?;
    }
    let validity = validity.into_bitmap(len)?;
    let values = Buffer::from_vec(values)?;
    Ok(PrimitiveArray {
        values,
        validity: Some(validity),
    })
}

/// Returns whether the index is out of bounds for some list. Null lists are skipped.
pub fn index_is_oob(arr: &ListArray<i64>, index: i64) -> bool
    ensures { result ≡ oob (rows (list_column arr.now)) index }
{
    is_any_oob(&arr.offsets, &arr.values, &arr.validity, index)
}

/// Returns whether the index is out of bounds for some list of a column, or `None` if its type is
/// not a list with 64-bit offsets. Null lists are skipped. Does not allocate.
pub fn column_index_is_oob(column: &ArrayRef, index: i64) -> Option<bool>
    ensures found { IfSome result (λ found. found ≡ oob (rows column.now.column) index) }
    ensures kind { is_some result ≡ is_list_shape (type_of column.now.column) }
{
    match column.as_column() {
        Column::LargeList {
            offsets,
            values,
            validity,
        } => Some(is_any_oob(offsets, values, validity, index)),
        _ => None,
    }
}

// Returns whether the index is out of bounds for some list of the column of these parts.
fn is_any_oob(
    offsets: &OffsetsBuffer<i64>,
    values: &Box<Column>,
    validity: &Option<Bitmap>,
    index: i64,
) -> bool
    requires { IsWellFormed (LargeList offsets.now values.now validity.now) }
    ensures { result ≡ oob (rows (LargeList offsets.now values.now validity.now)) index }
{
    // For speed: where nearly all lists are valid, as is usual, a branch on the validity of each costs
    // less than a block whose lists are all compared.
    if validity.is_some() {
        return is_oob_one_by_one(offsets, values, validity, index);
    }
    is_oob_by_blocks(offsets, values, validity, index)
}

// Returns whether the index is out of bounds for some list; looks at one after the other.
fn is_oob_one_by_one(
    offsets: &OffsetsBuffer<i64>,
    values: &Box<Column>,
    validity: &Option<Bitmap>,
    index: i64,
) -> bool
    requires { IsWellFormed (LargeList offsets.now values.now validity.now) }
    ensures { result ≡ oob (rows (LargeList offsets.now values.now validity.now)) index }
{
    for k in 0..offsets.len_proxy() {
        if is_oob_at(offsets, values, validity, index, k) {
            return true;
        }
    }
    false
}

// Returns whether the index is out of bounds for some list; looks at a block of lists without a
// branch, so that the compiler can compare several at once.
fn is_oob_by_blocks(
    offsets: &OffsetsBuffer<i64>,
    values: &Box<Column>,
    validity: &Option<Bitmap>,
    index: i64,
) -> bool
    requires { IsWellFormed (LargeList offsets.now values.now validity.now) }
    ensures { result ≡ oob (rows (LargeList offsets.now values.now validity.now)) index }
{
    let len = offsets.len_proxy();
    let mut start = 0;
    while start < len {
        let end = start + BLOCK.min(len - start);
        let mut found = false;
        for k in start..end {
            found |= is_oob_at(offsets, values, validity, index, k);
        }
        if found {
            return true;
        }
        start = end;
    }
    false
}

/// Returns a list column with each row of `array` in a list of one element; no list is null.
///
/// # Errors
/// `OutOfMemory` if an allocation fails; the error contains `array`.
pub fn array_to_unit_list(
    alloc: Global,
    array: ArrayRef,
) -> Result<ListArray<i64>, (ArrayRef, PolarsError)>
    ensures rows { IfOk result (λ lists. rows (list_column lists) ≡
        unit_lists (rows array.column)) }
    ensures dtype { IfOk result (λ lists. type_of (list_column lists) ≡
        of_large_list (type_of array.column)) }
    ensures back { IfErr result (λ refused. refused.0.column ≡ array.column) }
    ensures refusal { IfErr result (λ refused. refused.1 ≡ PolarsError.OutOfMemory) }
{
    match unit_offsets(alloc, array.len()) {
        Ok(offsets) => unit_column(alloc, offsets, array),
        Err(fault) => Err((array, fault)),
    }
}

// Returns the lists of one element with these offsets, or the array and `OutOfMemory`.
#[tactic(auto, using(crate::proofs::Elements::units_formed, crate::proofs::Elements::units_rows))]
fn unit_column(
    alloc: Global,
    offsets: OffsetsBuffer<i64>,
    array: ArrayRef,
) -> Result<ListArray<i64>, (ArrayRef, PolarsError)>
    requires { offsets ≡ range_with_len 0 (length (rows array.column) + 1) }
    ensures rows { IfOk result (λ lists. rows (list_column lists) ≡
        unit_lists (rows array.column)) }
    ensures dtype { IfOk result (λ lists. type_of (list_column lists) ≡
        of_large_list (type_of array.column)) }
    ensures back { IfErr result (λ refused. refused.0.column ≡ array.column) }
    ensures refusal { IfErr result (λ refused. refused.1 ≡ PolarsError.OutOfMemory) }
{
    let ArrayRef { column } = array;
    match Box::new(alloc, column) {
        Ok(values) => Ok(ListArray {
            offsets,
            values,
            validity: None,
        }),
        Err(refused) => Err((
            ArrayRef {
                column: refused.value,
            },
            PolarsError::OutOfMemory,
        )),
    }
}

// Returns the offsets `0, 1, .., len`, or `OutOfMemory`.
#[tactic(auto, using(crate::proofs::Elements::counted_numbers))]
fn unit_offsets(alloc: Global, len: usize) -> PolarsResult<OffsetsBuffer<i64>>
    requires { len ≤ max_rows }
    ensures value { IfOk result (λ offsets. offsets ≡ range_with_len 0 (len + 1)) }
    ensures refusal { IfErr result IsOutOfMemory }
{
    let mut offsets = Vec::with_capacity(alloc, len + 1)?;
    for offset in 0..len + 1 {
        offsets.push_reserved(offset as i64);
    }
    OffsetsBuffer::of_rising(offsets)
}

/// The elements of lists at one index, as row references to their child.
#[derive(Drop)]
struct ListPlaces<'a> {
    arr: &'a ListArray<i64>,
    index: i64,
}

impl Places for ListPlaces<'_> {
    ghost picks = { λ places. map child_pick
        (places_in places.arr.now.offsets places.arr.now.validity places.index) };

    #[inline(always)]
    #[tactic(auto, using(crate::proofs::Elements::places_long))]
    fn len(&self) -> usize {
        self.arr.offsets.len_proxy()
    }

    #[inline(always)]
    #[tactic(auto, using(crate::proofs::Elements::places_long))]
    fn get(&self, k: usize) -> Option<(u32, u32)> {
        pick_of_place(place_in_child(self.arr, self.index, k))
    }

    #[inline(always)]
    fn again(&self) -> Self {
        ListPlaces {
            arr: self.arr,
            index: self.index,
        }
    }

    #[inline(always)]
    fn has_nulls(&self) -> bool {
        self.arr.validity.is_some() || index_is_oob(self.arr, self.index)
    }
}

// Returns the child row of the element of list `k`; `None` if null or out of bounds.
#[inline(always)]
fn place_in_child(arr: &ListArray<i64>, index: i64, k: usize) -> Option<u32>
    requires { k < rows_between arr.now.offsets }
    ensures { result ≡ child_place arr.now.offsets arr.now.validity index k }
{
    if !is_valid_at(&arr.validity, k) {
        return None;
    }
    let start = arr.offsets.at(k);
    let place = negative_to_usize(index, arr.offsets.at(k + 1) - start)?;
    Some((start + place) as u32)
}

// Returns whether list `k` of the column of these parts is not null and the index is out of bounds
// for it.
#[inline(always)]
fn is_oob_at(
    offsets: &OffsetsBuffer<i64>,
    values: &Box<Column>,
    validity: &Option<Bitmap>,
    index: i64,
    k: usize,
) -> bool
    requires formed { IsWellFormed (LargeList offsets.now values.now validity.now) }
    requires inside { k < rows_between offsets.now }
    ensures { result ≡ lacks_place index
        (slice_index_or (rows (LargeList offsets.now values.now validity.now)) k Null) }
{
    if !is_valid_at(validity, k) {
        return false;
    }
    let len = offsets.at(k + 1) - offsets.at(k);
    negative_to_usize(index, len).is_none()
}
