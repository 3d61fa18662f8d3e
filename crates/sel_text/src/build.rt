//! Builds columns from parsed rows.

ghost use Rattle.std.specs.Prelude.{◌≡◌, ◌<◌, ◌≤◌, ◌+◌, ◌∷◌, ◌++◌, [], pos, true, false, ℕ, List, IfOk, IfErr, IfSome, IfNone, OnOk, length, map, replicate, MatchResult, Ok};
ghost use Rattle.std.specs.List.{flat_map, list_all};
ghost use Rattle.sel_bits.specs.Limits.{max_buffer_bytes};
ghost use Rattle.sel_arrow.specs.Columns.{binview_rows};
ghost use Rattle.sel_arrow.specs.DataType.{shape_of};
ghost use Rattle.sel_bits.specs.Validity.{Covers};
ghost use Rattle.sel_arrow.specs.Masked.{masked};
ghost use Rattle.sel_arrow.specs.Shape.{Shape, shapes_of, of_null, of_binary_view, of_boolean, of_large_binary, of_utf8_view, of_large_list, of_fixed_size_list, of_struct};
ghost use Rattle.sel_arrow.specs.Views.{inline_bytes, view_of};
ghost use Rattle.sel_arrow.specs.Value.{Value, Null, Number, is_valid};
ghost use Rattle.sel_text.specs.Below.{offsets_below, HasParts};
ghost use Rattle.sel_text.specs.Fits.{fits, fits_number};
ghost use Rattle.sel_text.specs.ItemValues.{item_value, rows_read};
ghost use Rattle.sel_text.specs.Limits.{all_placed_bytes, any_exceeds_limit, block_in, entries_in, exceeds_max, part_in, exceeds_limit};
ghost use Rattle.sel_text.specs.Steps.{is_view_shape, ReportsLimit, MakesColumn, ShowsRows};
ghost use Rattle.sel_text.specs.RowRuns.{repeated, rows_repeated};
ghost use Rattle.sel_text.specs.Stored.{bytes_behind, bytes_stored, bool_stored};
ghost use Rattle.sel_text.specs.Steps.{IsMemoryFault};

use crate::cell::Whole;
use crate::item::Item;
use crate::row_runs::{RowRun, RowWalk, once_each, push_entries, row_count};
use crate::text_error::Fault;
use crate::whole::FromWhole;
use sel_arrow::array::Array;
use sel_arrow::array_ref::ArrayRef;
use sel_arrow::binary::BinaryArray;
use sel_arrow::binview::BinaryViewArray;
use sel_arrow::boolean::BooleanArray;
use sel_arrow::datatype::ArrowDataType;
use sel_arrow::fixed_size_list::FixedSizeListArray;
use sel_arrow::list::ListArray;
use sel_arrow::null::NullArray;
use sel_arrow::primitive::PrimitiveArray;
use sel_arrow::structure::StructArray;
use sel_arrow::utf8view::Utf8ViewArray;
use sel_arrow::validity::MOST_ROWS;
use sel_arrow::view::View;
use sel_bits::bitmap::Bitmap;
use sel_bits::buffer::Buffer;
use sel_bits::offsets::OffsetsBuffer;
use std::alloc::Global;

/// The values in the null slots of a parsed column. The rows of the column do not depend on it.
#[derive(Debug, Clone, Copy, PartialEq, Eq)]
pub enum NullSlots {
    /// Zero, false, the empty byte string, and the empty list.
    Zeros,
    /// The maximum of the type, true, a byte string of one byte, and a list of one null entry.
    Others,
}

/// Builds the column of type `dtype` with these rows, assuming that they fit the type.
pub(crate) fn build(
    dtype: &ArrowDataType,
    alloc: Global,
    items: &[RowRun<'_>],
    beneath: NullSlots,
) -> Result<ArrayRef, Fault>
    ensures { list_all (fits (shape_of dtype.now)) (rows_repeated items.now) ≡ true →
        MakesColumn beneath (shape_of dtype.now) (rows_repeated items.now) result }
{
    let null = Item::Null;
    build_column(dtype, alloc, items, beneath, &null)
}

/// Builds the column of type `dtype` with these rows; `null` is a null row, for the child rows of
/// null rows.
#[cycle(building)]
fn build_column(
    dtype: &ArrowDataType,
    alloc: Global,
    items: &[RowRun<'_>],
    beneath: NullSlots,
    null: &Item,
) -> Result<ArrayRef, Fault>
    requires { item_value null.now ≡ Null }
    ensures { list_all (fits (shape_of dtype.now)) (rows_repeated items.now) ≡ true →
        MakesColumn beneath (shape_of dtype.now) (rows_repeated items.now) result }
{
    match dtype {
        ArrowDataType::Null => nulls(items),
        ArrowDataType::Boolean => truths(alloc, items, beneath),
        ArrowDataType::Int8 => numbers::<i8>(alloc, items, beneath),
        ArrowDataType::Int16 => numbers::<i16>(alloc, items, beneath),
        ArrowDataType::Int32 => numbers::<i32>(alloc, items, beneath),
        ArrowDataType::Int64 => numbers::<i64>(alloc, items, beneath),
        ArrowDataType::Int128 => numbers::<i128>(alloc, items, beneath),
        ArrowDataType::UInt8 => numbers::<u8>(alloc, items, beneath),
        ArrowDataType::UInt16 => numbers::<u16>(alloc, items, beneath),
        ArrowDataType::UInt32 => numbers::<u32>(alloc, items, beneath),
        ArrowDataType::UInt64 => numbers::<u64>(alloc, items, beneath),
        ArrowDataType::UInt128 => numbers::<u128>(alloc, items, beneath),
        ArrowDataType::LargeBinary => pieces(alloc, items, beneath),
        ArrowDataType::BinaryView => byte_views(alloc, items, beneath),
        ArrowDataType::Utf8View => texts(alloc, items, beneath),
        ArrowDataType::LargeList(child) => lists(child, alloc, items, beneath, null),
        ArrowDataType::FixedSizeList(child, size) => blocks(
            child, *size, alloc, items, beneath, null,
        ),
        ArrowDataType::Struct(fields) => tuples(fields, alloc, items, beneath, null),
    }
}

/// Returns the number of the rows and their validity. Fails only with `OutOfMemory`.
fn count_and_validity(alloc: Global, items: &[RowRun<'_>]) -> Result<(usize, Option<Bitmap>), Fault>
    ensures count { IfOk result (λ made. made.0 ≡ length (rows_repeated items.now)) }
    ensures covers { IfOk result (λ made. Covers made.1 (length (rows_repeated items.now))) }
    ensures hides { IfOk result (λ made. (plain : List Value) →
        ShowsRows (rows_repeated items.now) plain →
        masked made.1 plain ≡ rows_repeated items.now) }
    ensures memory { IfErr result IsMemoryFault }
{
    let count = match row_count(items) {
        Ok(count) => count,
        Err(fault) => return Err(fault),
    };
    match validity_of(alloc, items) {
        Ok(validity) => Ok((count, validity)),
        Err(fault) => Err(fault),
    }
}

/// Returns the validity of the rows, or `None` if all rows are valid. Fails only with
/// `OutOfMemory`.
fn validity_of(alloc: Global, items: &[RowRun<'_>]) -> Result<Option<Bitmap>, Fault>
    ensures covers { IfOk result (λ validity. Covers validity (length (rows_repeated items.now))) }
    ensures hides { IfOk result (λ validity. (plain : List Value) →
        ShowsRows (rows_repeated items.now) plain →
        masked validity plain ≡ rows_repeated items.now) }
    ensures memory { IfErr result IsMemoryFault }
{
    let count = row_count(items)?;
    let mut rows = RowWalk::new(items);
    let mut valid = Vec::with_capacity(alloc, count)?;
    for _ in 0..count {
        valid.push(is_filled(rows.next()))?;
    }
    if all_true(&valid) {
        return Ok(None);
    }
    Ok(Some(Bitmap::from_bools(alloc, &valid)?))
}

/// Returns whether all of `bits` are true.
#[tactic(auto, using(sel_arrow::proofs::Lists::all_lists))]
fn all_true(bits: &[bool]) -> bool
    ensures { result ≡ list_all (λ bit. bit) bits.now }
{
    for bit in bits {
        if !*bit {
            return false;
        }
    }
    true
}

/// Returns whether the row is not null.
fn is_filled(item: &Item) -> bool
    ensures { result ≡ is_valid (item_value item.now) }
{
    !matches!(item, Item::Null)
}

/// Builds a column of the null type.
fn nulls(items: &[RowRun<'_>]) -> Result<ArrayRef, Fault>
    ensures { (beneath : NullSlots) →
        list_all (fits of_null) (rows_repeated items.now) ≡ true →
        MakesColumn beneath of_null (rows_repeated items.now) result }
{
    let count = row_count(items)?;
    Ok(NullArray::try_new(count)?.into_ref())
}

/// Builds a boolean column.
fn truths(alloc: Global, items: &[RowRun<'_>], beneath: NullSlots) -> Result<ArrayRef, Fault>
    ensures { list_all (fits of_boolean) (rows_repeated items.now) ≡ true →
        MakesColumn beneath of_boolean (rows_repeated items.now) result }
{
    let count = row_count(items)?;
    let mut rows = RowWalk::new(items);
    let mut values = Vec::with_capacity(alloc, count)?;
    for _ in 0..count {
        values.push(boolean_in(rows.next(), beneath))?;
    }
    let values = Bitmap::from_bools(alloc, &values)?;
    Ok(BooleanArray::try_new(values, validity_of(alloc, items)?)?.into_ref())
}

/// Returns the boolean of a row, or the value for a null slot.
fn boolean_in(item: &Item, beneath: NullSlots) -> bool
    ensures { result ≡ bool_stored beneath (item_value item.now) }
{
    match item {
        Item::Truth(truth) => *truth,
        _ => match beneath {
            NullSlots::Zeros => false,
            NullSlots::Others => true,
        },
    }
}

/// Builds a primitive column.
fn numbers<T: FromWhole>(
    alloc: Global,
    items: &[RowRun<'_>],
    beneath: NullSlots,
) -> Result<ArrayRef, Fault>
    ensures { list_all (fits T.shape) (rows_repeated items.now) ≡ true →
        MakesColumn beneath T.shape (rows_repeated items.now) result }
{
    let zero = T::zero();
    let other = match beneath {
        NullSlots::Zeros => zero,
        NullSlots::Others => T::GREATEST,
    };
    let count = row_count(items)?;
    let mut rows = RowWalk::new(items);
    let mut values = Vec::with_capacity(alloc, count)?;
    for _ in 0..count {
        values.push(number_in::<T>(rows.next(), other))?;
    }
    let values = Buffer::from_vec(values)?;
    Ok(PrimitiveArray::try_new(values, validity_of(alloc, items)?)?.into_ref())
}

/// Returns the integer of a row, or `other` for a null row.
fn number_in<T: FromWhole>(item: &Item, other: T) -> T
    requires { fits_number T.shape (pos 0) ≡ true }
    ensures { fits T.shape (item_value item.now) ≡ true →
        ShowsRows (item_value item.now ∷ []) (Number (T.number result) ∷ []) }
{
    match item {
        Item::Number(whole) => T::from_whole(*whole).unwrap_or(other),
        _ => other,
    }
}

/// Returns the bytes of a row, or those for a null slot.
fn bytes_in(item: &Item, beneath: NullSlots) -> &[u8]
    ensures { result.now ≡ bytes_stored beneath (item_value item.now) }
{
    match item {
        Item::Bytes(bytes) => bytes,
        _ => match beneath {
            NullSlots::Zeros => b"",
            NullSlots::Others => b"?",
        },
    }
}

/// Builds a binary column with 64-bit offsets (LargeBinary).
fn pieces(alloc: Global, items: &[RowRun<'_>], beneath: NullSlots) -> Result<ArrayRef, Fault>
    ensures { list_all (fits of_large_binary) (rows_repeated items.now) ≡ true →
        MakesColumn beneath of_large_binary (rows_repeated items.now) result }
{
    let count = row_count(items)?;
    let mut rows = RowWalk::new(items);
    let mut bytes = Vec::new(alloc);
    let mut ends: Vec<i64> = vec![in alloc; 0]?;
    for _ in 0..count {
        bytes.extend_from_slice(bytes_in(rows.next(), beneath))?;
        ends.push(offset_at(bytes.len())?)?;
    }
    let offsets = OffsetsBuffer::try_from(ends)?;
    let bytes = Buffer::from_vec(bytes)?;
    Ok(BinaryArray::try_new(offsets, bytes, validity_of(alloc, items)?)?.into_ref())
}

/// Converts a position to an offset.
///
/// # Errors
/// `Limit` if it exceeds the range of `i64`.
fn offset_at(place: usize) -> Result<i64, Fault>
    ensures value { IfOk result (λ offset. offset ≡ pos place) }
    ensures refused { IfErr result (λ fault.
        (fault ≡ Fault.Limit) × (9223372036854775807 < place)) }
{
    match i64::try_from(place) {
        Ok(offset) => Ok(offset),
        Err(_) => Err(Fault::Limit),
    }
}

/// Builds a binary view column.
fn byte_views(alloc: Global, items: &[RowRun<'_>], beneath: NullSlots) -> Result<ArrayRef, Fault>
    ensures { list_all (fits of_binary_view) (rows_repeated items.now) ≡ true →
        MakesColumn beneath of_binary_view (rows_repeated items.now) result }
{
    match views(alloc, items, beneath) {
        Ok(array) => Ok(array.into_ref()),
        Err(fault) => Err(fault),
    }
}

/// Builds the array of a binary view column; byte strings longer than 12 bytes go to a single data
/// buffer.
fn views(alloc: Global, items: &[RowRun<'_>], beneath: NullSlots) -> Result<BinaryViewArray, Fault>
    ensures views { IfOk result (λ array. (shape : Shape) → is_view_shape shape ≡ true →
        list_all (fits shape) (rows_repeated items.now) ≡ true →
        binview_rows array ≡ rows_repeated items.now) }
    ensures within { IfOk result (λ _. (shape : Shape) → is_view_shape shape ≡ true →
        list_all (fits shape) (rows_repeated items.now) ≡ true →
        exceeds_max (all_placed_bytes (rows_repeated items.now)) ≡ false) }
    ensures limit { IfErr result (λ fault. (shape : Shape) → is_view_shape shape ≡ true →
        list_all (fits shape) (rows_repeated items.now) ≡ true →
        ReportsLimit (exceeds_limit beneath shape (rows_repeated items.now)) fault) }
{
    let count = row_count(items)?;
    let mut rows = RowWalk::new(items);
    let mut data = Vec::new(alloc);
    let mut views = Vec::with_capacity(alloc, count)?;
    for _ in 0..count {
        views.push(view_behind(&mut data, bytes_in(rows.next(), beneath))?)?;
    }
    let data = Buffer::from_vec(data)?;
    let buffers = Buffer::from_vec(vec![in alloc; data]?)?;
    let views = Buffer::from_vec(views)?;
    Ok(BinaryViewArray::try_new(views, buffers, validity_of(alloc, items)?)?)
}

/// Returns a view of `bytes`, appending them to the data buffer `placed` if they are longer than 12
/// bytes.
fn view_behind(placed: &mut Vec<u8>, bytes: &[u8]) -> Result<View, Fault>
    ensures view { IfOk result (λ view. view ≡ view_of bytes.now 0 (length placed.old.items)) }
    ensures inline { IfOk result (λ view. length bytes.now ≤ 12 → inline_bytes view ≡
        bytes.now) }
    ensures placed { IfOk result (λ _.
        placed.new.items ≡ placed.old.items ++ bytes_behind bytes.now) }
    ensures within { length placed.old.items ≤ max_buffer_bytes →
        OnOk result (length placed.new.items ≤ max_buffer_bytes) }
    ensures limit { IfErr result
        (λ fault. ReportsLimit
        (exceeds_max (length placed.old.items + length (bytes_behind bytes.now))) fault) }
{
    if bytes.len() <= 12 {
        return Ok(View::new_from_bytes(bytes, 0, 0));
    }
    let (Ok(size), Ok(start)) = (u32::try_from(bytes.len()), u32::try_from(placed.len())) else {
        return Err(Fault::Limit);
    };
    if size > u32::MAX - start {
        return Err(Fault::Limit);
    }
    placed.extend_from_slice(bytes)?;
    Ok(View::new_from_bytes(bytes, 0, start))
}

/// Builds a string view column (Utf8View).
fn texts(alloc: Global, items: &[RowRun<'_>], beneath: NullSlots) -> Result<ArrayRef, Fault>
    ensures { list_all (fits of_utf8_view) (rows_repeated items.now) ≡ true →
        MakesColumn beneath of_utf8_view (rows_repeated items.now) result }
{
    let BinaryViewArray {
        views,
        buffers,
        validity,
    } = views(alloc, items, beneath)?;
    Ok(Utf8ViewArray::try_new(views, buffers, validity)?.into_ref())
}

/// Builds a list column with 64-bit offsets (LargeList).
#[cycle(building)]
fn lists(
    dtype: &ArrowDataType,
    alloc: Global,
    items: &[RowRun<'_>],
    beneath: NullSlots,
    null: &Item,
) -> Result<ArrayRef, Fault>
    requires { item_value null.now ≡ Null }
    ensures { list_all (fits (of_large_list (shape_of dtype.now))) (rows_repeated items.now) ≡
        true → MakesColumn beneath (of_large_list (shape_of dtype.now)) (rows_repeated items.now)
        result }
{
    let validity = match validity_of(alloc, items) {
        Ok(validity) => validity,
        Err(fault) => return Err(fault),
    };
    match list_child(dtype, alloc, items, beneath, null) {
        Ok((child, offsets)) => list_column(alloc, offsets, child, validity),
        Err(fault) => Err(fault),
    }
}

/// Builds the child of a list column, and its offsets.
#[cycle(building)]
fn list_child(
    dtype: &ArrowDataType,
    alloc: Global,
    items: &[RowRun<'_>],
    beneath: NullSlots,
    null: &Item,
) -> Result<(ArrayRef, OffsetsBuffer<i64>), Fault>
    requires { item_value null.now ≡ Null }
    ensures child { list_all (fits (of_large_list (shape_of dtype.now)))
        (rows_repeated items.now) ≡ true → MatchResult result (λ made.
        MakesColumn beneath (shape_of dtype.now)
        (flat_map (entries_in beneath) (rows_repeated items.now)) (Ok made.0))
        (λ fault. ReportsLimit (exceeds_limit beneath (shape_of dtype.now)
        (flat_map (entries_in beneath) (rows_repeated items.now))) fault) }
    ensures offsets { IfOk result (λ made. made.1 ≡
        offsets_below (entries_in beneath) (rows_repeated items.now)) }
{
    let (entries, offsets) = match runs_between(alloc, items, null, beneath) {
        Ok(made) => made,
        Err(fault) => return Err(fault),
    };
    match build_column(dtype, alloc, &entries, beneath, null) {
        Ok(child) => Ok((child, offsets)),
        Err(fault) => Err(fault),
    }
}

/// Returns the list column with these parts.
fn list_column(
    alloc: Global,
    offsets: OffsetsBuffer<i64>,
    child: ArrayRef,
    validity: Option<Bitmap>,
) -> Result<ArrayRef, Fault>
    ensures { (beneath : NullSlots) (shape : Shape) (values : List Value) →
        list_all (fits (of_large_list shape)) values ≡ true →
        offsets ≡ offsets_below (entries_in beneath) values →
        MakesColumn beneath shape (flat_map (entries_in beneath) values) (Ok child) →
        Covers validity (length values) →
        ((plain : List Value) → ShowsRows values plain → masked validity plain ≡ values) →
        MakesColumn beneath (of_large_list shape) values result }
{
    match ListArray::try_new(alloc, offsets, child, validity) {
        Ok(array) => Ok(array.into_ref()),
        Err(fault) => Err(Fault::from(fault)),
    }
}

/// Returns the concatenated entries of the lists, each as a run of one, and their offsets.
fn runs_between<'a, 'b: 'a>(
    alloc: Global,
    items: &[RowRun<'b>],
    null: &'a Item,
    beneath: NullSlots,
) -> Result<(Vec<RowRun<'a>>, OffsetsBuffer<i64>), Fault>
    ensures entries { item_value null.now ≡ Null →
        IfOk result (λ made. rows_repeated made.0.items ≡ flat_map (entries_in beneath)
        (rows_repeated items.now)) }
    ensures offsets { item_value null.now ≡ Null → IfOk result (λ made. made.1 ≡
        offsets_below (entries_in beneath) (rows_repeated items.now)) }
    ensures memory { item_value null.now ≡ Null → IfErr result IsMemoryFault }
{
    let (entries, offsets) = match entries_between(alloc, items, null, beneath) {
        Ok(made) => made,
        Err(fault) => return Err(fault),
    };
    match once_each(alloc, &entries) {
        Ok(runs) => Ok((runs, offsets)),
        Err(fault) => Err(fault),
    }
}

/// Returns the concatenated entries of the lists, and their offsets.
fn entries_between<'a, 'b: 'a>(
    alloc: Global,
    items: &[RowRun<'b>],
    null: &'a Item,
    beneath: NullSlots,
) -> Result<(Vec<&'a Item>, OffsetsBuffer<i64>), Fault>
    ensures entries { item_value null.now ≡ Null →
        IfOk result (λ made. rows_read made.0.items ≡ flat_map (entries_in beneath)
        (rows_repeated items.now)) }
    ensures offsets { item_value null.now ≡ Null → IfOk result (λ made. made.1 ≡
        offsets_below (entries_in beneath) (rows_repeated items.now)) }
    ensures memory { item_value null.now ≡ Null → IfErr result IsMemoryFault }
{
    let count = match row_count(items) {
        Ok(count) => count,
        Err(fault) => return Err(fault),
    };
    let mut rows = RowWalk::new(items);
    let mut entries = Vec::new(alloc);
    let mut ends: Vec<i64> = vec![in alloc; 0]?;
    for _ in 0..count {
        if let Err(fault) = push_below(&mut entries, rows.next(), null, beneath) {
            return Err(fault);
        }
        match offset_at(entries.len()) {
            Ok(end) => ends.push(end)?,
            Err(fault) => return Err(fault),
        }
    }
    match OffsetsBuffer::try_from(ends) {
        Ok(offsets) => Ok((entries, offsets)),
        Err(fault) => Err(Fault::from(fault)),
    }
}

/// Appends the entries of a list, or those for a null slot. Fails only with `OutOfMemory`.
#[tactic(auto, using(crate::proofs::ItemRows::entries_read))]
fn push_below<'a, 'b: 'a>(
    entries: &mut Vec<&'a Item>,
    item: &'b Item,
    null: &'a Item,
    beneath: NullSlots,
) -> Result<(), Fault>
    ensures entries { item_value null.now ≡ Null → OnOk result (rows_read entries.new.items ≡
        rows_read entries.old.items ++ entries_in beneath (item_value item.now)) }
    ensures memory { IfErr result IsMemoryFault }
{
    if let Item::Items(list) = item {
        return push_each(entries, list);
    }
    match beneath {
        NullSlots::Zeros => Ok(()),
        NullSlots::Others => Ok(entries.push(null)?),
    }
}

/// Appends each entry of a list. Fails only with `OutOfMemory`.
fn push_each<'a>(entries: &mut Vec<&'a Item>, list: &'a [Item]) -> Result<(), Fault>
    ensures entries { OnOk result (rows_read entries.new.items ≡
        rows_read entries.old.items ++ map item_value list.now) }
    ensures memory { IfErr result IsMemoryFault }
{
    for entry in list {
        entries.push(entry)?;
    }
    Ok(())
}

/// Builds a fixed-size list column of list size `size`.
#[cycle(building)]
fn blocks(
    dtype: &ArrowDataType,
    size: usize,
    alloc: Global,
    items: &[RowRun<'_>],
    beneath: NullSlots,
    null: &Item,
) -> Result<ArrayRef, Fault>
    requires { item_value null.now ≡ Null }
    ensures { list_all (fits (of_fixed_size_list (shape_of dtype.now) size))
        (rows_repeated items.now) ≡ true → MakesColumn beneath
        (of_fixed_size_list (shape_of dtype.now) size) (rows_repeated items.now) result }
{
    match block_child(dtype, size, alloc, items, beneath, null) {
        Ok(child) => block_column(alloc, size, items, child),
        Err(fault) => Err(fault),
    }
}

/// Builds a fixed-size list column of list size `size` of its child.
fn block_column(
    alloc: Global,
    size: usize,
    items: &[RowRun<'_>],
    child: ArrayRef,
) -> Result<ArrayRef, Fault>
    ensures { (beneath : NullSlots) (shape : Shape) →
        list_all (fits (of_fixed_size_list shape size)) (rows_repeated items.now) ≡ true →
        MakesColumn beneath shape (flat_map (block_in size) (rows_repeated items.now)) (Ok child) →
        MakesColumn beneath (of_fixed_size_list shape size) (rows_repeated items.now) result }
{
    let (count, validity) = match count_and_validity(alloc, items) {
        Ok(made) => made,
        Err(fault) => {
            drop(child);
            return Err(fault);
        }
    };
    match FixedSizeListArray::try_new(alloc, size, count, child, validity) {
        Ok(array) => Ok(array.into_ref()),
        Err(fault) => Err(Fault::from(fault)),
    }
}

/// Builds the child of a fixed-size list column. Checks the number of its rows before it lists
/// them, and only counts them if they are of the null type, which has no data.
#[cycle(building)]
fn block_child(
    dtype: &ArrowDataType,
    size: usize,
    alloc: Global,
    items: &[RowRun<'_>],
    beneath: NullSlots,
    null: &Item,
) -> Result<ArrayRef, Fault>
    requires { item_value null.now ≡ Null }
    ensures { list_all (fits (of_fixed_size_list (shape_of dtype.now) size))
        (rows_repeated items.now) ≡ true → MakesColumn beneath (shape_of dtype.now)
        (flat_map (block_in size) (rows_repeated items.now)) result }
{
    let len = match row_count(items) {
        Ok(len) => len,
        Err(fault) => return Err(fault),
    };
    let count = match len.checked_mul(size) {
        Some(count) => count,
        None => return Err(Fault::Limit),
    };
    if count > MOST_ROWS {
        return Err(Fault::Limit);
    }
    if let ArrowDataType::Null = dtype {
        return Ok(NullArray::try_new(count)?.into_ref());
    }
    let entries = match entries_of(alloc, items, null, size) {
        Ok(entries) => entries,
        Err(fault) => return Err(fault),
    };
    build_column(dtype, alloc, &entries, beneath, null)
}

/// Returns the concatenated entries of the lists, with a run of `size` nulls for each null row.
/// Fails only with `OutOfMemory`.
fn entries_of<'a, 'b: 'a>(
    alloc: Global,
    items: &[RowRun<'b>],
    null: &'a Item,
    size: usize,
) -> Result<Vec<RowRun<'a>>, Fault>
    ensures entries { item_value null.now ≡ Null → IfOk result (λ entries.
        rows_repeated entries.items ≡ flat_map (block_in size) (rows_repeated items.now)) }
    ensures memory { IfErr result IsMemoryFault }
{
    let mut entries = Vec::new(alloc);
    for run in items {
        if let Err(fault) = push_blocks(&mut entries, run, null, size) {
            return Err(fault);
        }
    }
    Ok(entries)
}

/// Appends the entries of a list, or `size` nulls for a null row, as often as the row is repeated.
/// Fails only with `OutOfMemory`.
#[tactic(auto, using(crate::proofs::RowRuns::runs_more))]
fn push_blocks<'a, 'b: 'a>(
    entries: &mut Vec<RowRun<'a>>,
    run: &RowRun<'b>,
    null: &'a Item,
    size: usize,
) -> Result<(), Fault>
    ensures entries { item_value null.now ≡ Null → OnOk result
        (rows_repeated entries.new.items ≡ rows_repeated entries.old.items ++ flat_map
        (block_in size) (replicate run.now.times (item_value run.now.item.now))) }
    ensures memory { IfErr result IsMemoryFault }
{
    if let Some(list) = list_of(run.item) {
        return push_repeated(entries, list, run.times);
    }
    match run.times.checked_mul(size) {
        Some(times) => entries.push(RowRun { item: null, times })?,
        None => return Err(Fault::OutOfMemory),
    }
    Ok(())
}

/// Returns the entries of a list, or none for any other row.
#[tactic(auto, using(crate::proofs::ItemRows::block_read))]
fn list_of(item: &Item) -> Option<&[Item]>
    ensures list { IfSome result (λ list. (size : ℕ) →
        block_in size (item_value item.now) ≡ map item_value list.now) }
    ensures other { IfNone result ((size : ℕ) →
        block_in size (item_value item.now) ≡ replicate size Null) }
{
    match item {
        Item::Items(list) => Some(list),
        _ => None,
    }
}

/// Appends each entry of a list, `times` times. Fails only with `OutOfMemory`.
fn push_repeated<'a>(
    entries: &mut Vec<RowRun<'a>>,
    list: &'a [Item],
    times: usize,
) -> Result<(), Fault>
    ensures entries { OnOk result (rows_repeated entries.new.items ≡
        rows_repeated entries.old.items ++ repeated times (map item_value list.now)) }
    ensures memory { IfErr result IsMemoryFault }
{
    for _ in 0..times {
        if let Err(fault) = push_entries(entries, list) {
            return Err(fault);
        }
    }
    Ok(())
}

/// Builds a struct column.
#[cycle(building)]
fn tuples(
    dtypes: &[ArrowDataType],
    alloc: Global,
    items: &[RowRun<'_>],
    beneath: NullSlots,
    null: &Item,
) -> Result<ArrayRef, Fault>
    requires { item_value null.now ≡ Null }
    ensures { list_all (fits (of_struct (shapes_of (map shape_of dtypes.now))))
        (rows_repeated items.now) ≡ true →
        MakesColumn beneath (of_struct (shapes_of (map shape_of dtypes.now)))
        (rows_repeated items.now) result }
{
    let (count, validity) = match count_and_validity(alloc, items) {
        Ok(made) => made,
        Err(fault) => return Err(fault),
    };
    let mut fields = Vec::with_capacity(alloc, dtypes.len())?;
    if let Err(fault) = push_fields(&mut fields, dtypes, alloc, items, beneath, null) {
        drop(fields);
        return Err(fault);
    }
    match StructArray::try_new(alloc, count, fields, validity) {
        Ok(array) => Ok(array.into_ref()),
        Err(fault) => Err(Fault::from(fault)),
    }
}

/// Appends the fields of the struct column.
#[cycle(building)]
fn push_fields(
    fields: &mut Vec<ArrayRef>,
    dtypes: &[ArrowDataType],
    alloc: Global,
    items: &[RowRun<'_>],
    beneath: NullSlots,
    null: &Item,
) -> Result<(), Fault>
    requires { item_value null.now ≡ Null }
    ensures fields { list_all (fits (of_struct (shapes_of (map shape_of dtypes.now))))
        (rows_repeated items.now) ≡ true → OnOk result (HasParts fields.new.items
        fields.old.items (map shape_of dtypes.now) (rows_repeated items.now)) }
    ensures within { list_all (fits (of_struct (shapes_of (map shape_of dtypes.now))))
        (rows_repeated items.now) ≡ true → OnOk result (any_exceeds_limit beneath
        (shapes_of (map shape_of dtypes.now)) 0 (rows_repeated items.now) ≡ false) }
    ensures limit { list_all (fits (of_struct (shapes_of (map shape_of dtypes.now))))
        (rows_repeated items.now) ≡ true → IfErr result (ReportsLimit (any_exceeds_limit beneath
        (shapes_of (map shape_of dtypes.now)) 0 (rows_repeated items.now))) }
{
    for (k, dtype) in dtypes.iter().enumerate() {
        let parts = match parts_at(alloc, items, k, null) {
            Ok(parts) => parts,
            Err(fault) => return Err(fault),
        };
        let field = match build_column(dtype, alloc, &parts, beneath, null) {
            Ok(field) => field,
            Err(fault) => return Err(fault),
        };
        match fields.push(field) {
            Ok(()) => {}
            Err(failed) => return Err(Fault::from(failed)),
        }
    }
    Ok(())
}

/// Returns the entry of each struct row at index `place`, or `other` for a null row. Fails only
/// with `OutOfMemory`.
fn parts_at<'a, 'b: 'a>(
    alloc: Global,
    items: &[RowRun<'b>],
    place: usize,
    other: &'a Item,
) -> Result<Vec<RowRun<'a>>, Fault>
    ensures parts { item_value other.now ≡ Null → IfOk result (λ parts.
        rows_repeated parts.items ≡ map (part_in place) (rows_repeated items.now)) }
    ensures memory { IfErr result IsMemoryFault }
{
    let mut parts = Vec::with_capacity(alloc, items.len())?;
    for run in items {
        let item = part_at(run.item, place, other);
        let times = run.times;
        parts.push(RowRun { item, times })?;
    }
    Ok(parts)
}

/// Returns the entry of a struct row at index `place`, or `other` if the row is null.
#[tactic(auto, using(crate::proofs::ItemRows::part_there, crate::proofs::ItemRows::part_none))]
fn part_at<'a, 'b: 'a>(item: &'b Item, place: usize, other: &'a Item) -> &'a Item
    ensures { item_value other.now ≡ Null →
        item_value result.now ≡ part_in place (item_value item.now) }
{
    if let Item::Parts(parts) = item {
        if let Some(part) = parts.get(place) {
            return part;
        }
    }
    other
}
