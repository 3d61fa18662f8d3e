//! Element access for fixed-size lists, by one index for all lists or an index for each.

ghost use Rattle.std.specs.Prelude.{◌≡◌, ◌≤◌, ◌<◌, false, map, length, IfOk, IfErr, IfSome};
ghost use Rattle.std.specs.Option.{option_copied};
ghost use Rattle.sel_arrow.specs.Columns.{primitive_rows};
ghost use Rattle.sel_arrow.specs.Masked.{number_value};
ghost use Rattle.sel_bits.specs.Validity.{valid_at};
ghost use Rattle.sel_arrow.specs.NestedArrays.{block_column};
ghost use Rattle.sel_arrow.specs.Rows.{rows, type_of};
ghost use Rattle.sel_arrow.specs.Value.{Number};
ghost use Rattle.sel_kernels.specs.Elements.{child_pick};
ghost use Rattle.sel_gather.specs.Gathers.{SelectsFrom};
ghost use Rattle.sel_gather.specs.Need.{ExceedsNone};
ghost use Rattle.sel_kernels.specs.Entries.{fixed_get, at_each, is_get_error, place_of, IsGetError, exceeded_entries};
ghost use Rattle.sel_kernels.specs.Steps.{entry_place, entry_places};

use crate::gather::sublist::bare_elements::elements_at;
use crate::gather::sublist::pick_of_place;
use sel_arrow::array::Array;
use sel_arrow::array_ref::ArrayRef;
use sel_arrow::fixed_size_list::FixedSizeListArray;
use sel_arrow::primitive::PrimitiveArray;
use sel_arrow::validity::is_valid_at;
use sel_bits::bitmap::Bitmap;
use sel_bits::faults::{PolarsError, PolarsResult};
use sel_bits::number::negative_to_usize;
use sel_gather::one_source::collect_one_plan;
use sel_runs::row_refs::{Places, Walk};
use std::alloc::Global;

/// Returns a column whose row k is the element of list k at `index`.
///
/// A negative index counts from the end. Row k is null if the element is null, list k is null or
/// the index is out of bounds for the list size. The result has the type of the child.
///
/// # Errors
/// `ComputeError` if `null_on_oob` is false, the index is out of bounds and some list is not null;
/// checked before any allocation. Otherwise `OutOfMemory` if an allocation fails, or `SizeLimit` if
/// the result exceeds a limit of `take_unchecked`.
pub fn sub_fixed_size_list_get_literal(
    alloc: Global,
    arr: &FixedSizeListArray,
    index: i64,
    null_on_oob: bool,
) -> PolarsResult<ArrayRef>
    ensures rows { IfOk result (λ taken. rows taken.column
        ≡ fixed_get (rows (block_column arr.now)) arr.now.size (at_each arr.now index)) }
    ensures dtype { IfOk result (λ taken. type_of taken.column ≡ type_of arr.now.values.value) }
    ensures inside { IfOk result (λ _.
        is_get_error null_on_oob arr.now (at_each arr.now index) ≡ false) }
    ensures within { IfOk result
        (λ _. ExceedsNone (exceeded_entries arr.now (at_each arr.now index))) }
    ensures refusal { IfErr result (IsGetError null_on_oob arr.now (at_each arr.now index)) }
{
    if is_literal_error(arr, index, null_on_oob) {
        return Err(PolarsError::ComputeError);
    }
    let place = negative_to_usize(index, arr.size);
    let places = LiteralPlaces {
        blocks: Blocks {
            arr,
            validity: arr.validity.as_ref(),
            size: arr.size,
        },
        index,
        place,
    };
    let plan = Walk { places, at: 0 };
    collect_one_plan(alloc, arr.values(), &plan)
}

/// Returns a column whose row k is the element of list k at index k.
///
/// A negative index counts from the end. Row k is null if the element, list k or index k is null,
/// or the index is out of bounds for the list size. The result has the type of the child.
///
/// # Requires
/// `index` has as many rows as `arr`.
///
/// # Errors
/// `ComputeError` if `null_on_oob` is false and an index is null or out of bounds for a list that
/// is not null; checked before any allocation. Otherwise `OutOfMemory` if an allocation fails, or
/// `SizeLimit` if the result exceeds a limit of `take_unchecked`.
pub fn sub_fixed_size_list_get(
    alloc: Global,
    arr: &FixedSizeListArray,
    index: &PrimitiveArray<i64>,
    null_on_oob: bool,
) -> PolarsResult<ArrayRef>
    requires { length (primitive_rows index.now) ≡ length (rows (block_column arr.now)) }
    ensures rows { IfOk result (λ taken. rows taken.column
        ≡ fixed_get (rows (block_column arr.now)) arr.now.size (primitive_rows index.now)) }
    ensures dtype { IfOk result (λ taken. type_of taken.column ≡ type_of arr.now.values.value) }
    ensures inside { IfOk result (λ _.
        is_get_error null_on_oob arr.now (primitive_rows index.now) ≡ false) }
    ensures within { IfOk result (λ _. ExceedsNone
        (exceeded_entries arr.now (primitive_rows index.now))) }
    ensures refusal { IfErr result (IsGetError null_on_oob arr.now (primitive_rows index.now)) }
{
    if is_error(arr, index, null_on_oob) {
        return Err(PolarsError::ComputeError);
    }
    match elements_at(alloc, arr, index)? {
        Some(taken) => Ok(taken),
        None => gather_elements(alloc, arr, index),
    }
}

/// Returns a column whose row k is the element of list k at index k, by row references.
fn gather_elements(
    alloc: Global,
    arr: &FixedSizeListArray,
    index: &PrimitiveArray<i64>,
) -> PolarsResult<ArrayRef>
    requires { length (primitive_rows index.now) ≡ length (rows (block_column arr.now)) }
    ensures { SelectsFrom result (type_of arr.now.values.value)
        (fixed_get (rows (block_column arr.now)) arr.now.size (primitive_rows index.now)) }
{
    let places = EntryPlaces {
        blocks: Blocks {
            arr,
            validity: arr.validity.as_ref(),
            size: arr.size,
        },
        index,
    };
    let plan = Walk { places, at: 0 };
    collect_one_plan(alloc, arr.values(), &plan)
}

// Returns whether one index for all lists is an error.
fn is_literal_error(arr: &FixedSizeListArray, index: i64, null_on_oob: bool) -> bool
    ensures { result ≡ is_get_error null_on_oob arr.now (at_each arr.now index) }
{
    if null_on_oob {
        return false;
    }
    if negative_to_usize(index, arr.size).is_some() {
        return false;
    }
    for k in 0..arr.len {
        if is_valid_at(&arr.validity, k) {
            return true;
        }
    }
    false
}

// Returns whether some index is an error.
#[tactic(auto, using(crate::proofs::Elements::long_rows))]
fn is_error(arr: &FixedSizeListArray, index: &PrimitiveArray<i64>, null_on_oob: bool) -> bool
    requires { length (primitive_rows index.now) ≡ length (rows (block_column arr.now)) }
    ensures { result ≡ is_get_error null_on_oob arr.now (primitive_rows index.now) }
{
    if null_on_oob {
        return false;
    }
    for k in 0..arr.len {
        if is_valid_at(&arr.validity, k) && place_among(index.get(k), arr.size).is_none() {
            return true;
        }
    }
    false
}

/// A fixed-size list column, with its validity and its list size at hand for iteration.
#[derive(Clone, Copy, Drop)]
struct Blocks<'a> {
    arr: &'a FixedSizeListArray,
    validity: Option<&'a Bitmap>,
    size: usize,
    ghost shown: { option_copied validity ≡ arr.now.validity },
    ghost sized: { size ≡ arr.now.size },
}

impl Blocks<'_> {
    // Returns whether list `k` is not null.
    #[inline(always)]
    fn is_valid(&self, k: usize) -> bool
        requires { k < self.now.arr.now.len }
        ensures { result ≡ valid_at self.now.arr.now.validity k }
    {
        match self.validity {
            None => true,
            Some(validity) => validity.get_bit(k),
        }
    }

    // Returns the child row of element `place` of list `k`; `None` for a null list or no `place`.
    #[inline(always)]
    fn entry_at(&self, k: usize, place: Option<usize>) -> Option<u32>
        requires inside { k < self.now.arr.now.len }
        requires below { IfSome place (λ i. i < self.now.arr.now.size) }
        ensures { result ≡ entry_place self.now.arr.now k place }
    {
        if !self.is_valid(k) {
            return None;
        }
        let i = place?;
        Some((k * self.size + i) as u32)
    }
}

/// The elements of fixed-size lists at one index, as row references to their child.
#[derive(Drop)]
struct LiteralPlaces<'a> {
    blocks: Blocks<'a>,
    index: i64,
    place: Option<usize>,
    ghost placed: { place ≡ place_of blocks.arr.now.size (Number index) },
}

impl Places for LiteralPlaces<'_> {
    ghost picks = { λ places. map child_pick
        (entry_places places.blocks.arr.now (at_each places.blocks.arr.now places.index)) };

    #[inline(always)]
    #[tactic(auto, using(crate::proofs::Elements::entries_long, crate::proofs::Elements::lists_few))]
    fn len(&self) -> usize {
        self.blocks.arr.len
    }

    #[inline(always)]
    #[tactic(auto, using(crate::proofs::Elements::entries_long))]
    fn get(&self, k: usize) -> Option<(u32, u32)> {
        pick_of_place(self.blocks.entry_at(k, self.place))
    }

    #[inline(always)]
    fn again(&self) -> Self {
        LiteralPlaces {
            blocks: self.blocks,
            index: self.index,
            place: self.place,
        }
    }

    #[inline(always)]
    fn has_nulls(&self) -> bool {
        self.place.is_none() || self.blocks.validity.is_some()
    }
}

/// The elements of fixed-size lists at an index for each, as row references to their child.
#[derive(Drop)]
struct EntryPlaces<'a, 'b> {
    blocks: Blocks<'a>,
    index: &'b PrimitiveArray<i64>,
    ghost paired: { length (primitive_rows index.now) ≡
        length (rows (block_column blocks.arr.now)) },
}

impl Places for EntryPlaces<'_, '_> {
    ghost picks = { λ places. map child_pick
        (entry_places places.blocks.arr.now (primitive_rows places.index.now)) };

    #[inline(always)]
    #[tactic(auto, using(crate::proofs::Elements::entries_long, crate::proofs::Elements::lists_few))]
    fn len(&self) -> usize {
        self.blocks.arr.len
    }

    #[inline(always)]
    #[tactic(auto, using(crate::proofs::Elements::entries_long, crate::proofs::Elements::long_rows))]
    fn get(&self, k: usize) -> Option<(u32, u32)> {
        let place = place_among(self.index.get(k), self.blocks.size);
        pick_of_place(self.blocks.entry_at(k, place))
    }

    #[inline(always)]
    fn again(&self) -> Self {
        EntryPlaces {
            blocks: self.blocks,
            index: self.index,
        }
    }

    #[inline(always)]
    fn has_nulls(&self) -> bool {
        true
    }
}

// Returns the position of an index in a list; `None` if it is null or out of bounds.
fn place_among(index: Option<i64>, size: usize) -> Option<usize>
    ensures { result ≡ place_of size (number_value (λ i. i) index) }
{
    negative_to_usize(index?, size)
}
