//! Columns over shared buffers, without a copy.

ghost use Rattle.std.specs.Prelude.{◌≡◌, ◌≢◌, ◌≤◌, ◌<◌, ◌+◌, [], ◌∷◌, All, true, length, IfOk, IfErr, IfSome, None, map, take, drop};
ghost use Rattle.sel_bits.specs.Offsets.{offsets_fault};
ghost use Rattle.sel_arrow.specs.Depth.{depth, deepest};
ghost use Rattle.sel_bits.specs.Validity.{Covers};
ghost use Rattle.sel_arrow.specs.Masked.{number_rows, bool_rows};
ghost use Rattle.sel_arrow.specs.Nested.{block_rows, list_rows, struct_rows};
ghost use Rattle.sel_arrow.specs.Pieces.{byte_rows, rows_between};
ghost use Rattle.sel_arrow.specs.Rows.{rows, row_count, type_of};
ghost use Rattle.sel_arrow.specs.Shape.{of_boolean, of_large_binary, of_large_list, of_fixed_size_list, of_struct, shapes_of};
ghost use Rattle.sel_ffi.specs.Inputs.{positions, IsRuleOrMemory};
ghost use Rattle.sel_ffi.specs.Status.{no_column, unsupported_type, length_mismatch, too_deep, held_count, held_rows, held_type, HasColumn};
ghost use Rattle.sel_ffi.specs.Buffers.{bits_of, bytes_of, count_over, integers_of, validity_over, type_over};
ghost use Rattle.sel_ffi.specs.ColumnsOver.{is_bitmap, is_int64_buffer, is_integer_buffer, may_be_validity, validity_rule_over, flat_rules_over, integer_rows_over, binary_conditions, binary_rows_over, binary_rules_over, list_rows_over, list_rules_over, block_rules_over, struct_rules_over, MakesColumn};

use crate::buffer_ref::BufferRef;
use crate::column_ref::ColumnRef;
use crate::depth::{MAX_DEPTH, arrays_are_within, is_within};
use crate::handle::Handle;
use crate::several::share_all;
use crate::shared_buffer::SharedBuffer;
use crate::status::{
    LENGTH_MISMATCH, NO_COLUMN, OUT_OF_MEMORY, TOO_DEEP, UNSUPPORTED_TYPE, put, status_of_maker,
};
use sel_arrow::array::Array;
use sel_arrow::array_ref::ArrayRef;
use sel_arrow::binary::BinaryArray;
use sel_arrow::boolean::BooleanArray;
use sel_arrow::fixed_size_list::FixedSizeListArray;
use sel_arrow::list::ListArray;
use sel_arrow::primitive::{ArrowPrimitive, PrimitiveArray};
use sel_arrow::structure::StructArray;
use sel_bits::bitmap::Bitmap;
use sel_bits::buffer::Buffer;
use sel_bits::faults::{MakeError, Malformed};
use sel_bits::offsets::OffsetsBuffer;
use std::alloc::Global;

/// Returns whether the buffer can be a validity: it is a bitmap, or the handle has no buffer.
pub(crate) fn may_be_validity(of: &BufferRef) -> bool
    ensures { result ≡ may_be_validity of.now.buffer }
{
    match of.shared() {
        None => true,
        Some(SharedBuffer::Bits(_)) => true,
        Some(_) => false,
    }
}

/// Returns the validity of `len` rows, from bit `first` of the bitmap on; none if the handle has no
/// buffer.
///
/// # Requires
/// The handle has a bitmap or no buffer; check with [`may_be_validity`].
///
/// # Errors
/// `ValidityLength` if the bitmap has fewer than `first + len` bits; `OutOfMemory`.
pub(crate) fn validity_from(
    of: &BufferRef,
    first: usize,
    len: usize,
) -> Result<Option<Bitmap>, MakeError>
    requires { may_be_validity of.now.buffer ≡ true }
    ensures value { IfOk result (λ validity. validity ≡ validity_over of.now.buffer first len) }
    ensures covers { IfOk result (λ validity. Covers validity len) }
    ensures accepted { IfOk result (λ _. validity_rule_over of.now.buffer first len ≡ None) }
    ensures refused { IfErr result
        (IsRuleOrMemory (validity_rule_over of.now.buffer first len)) }
{
    let Some(SharedBuffer::Bits(bits)) = of.shared() else {
        return Ok(None);
    };
    let all = bits.len();
    if first > all || len > all - first {
        return Err(MakeError::Malformed(Malformed::ValidityLength));
    }
    match bits.try_clone() {
        Ok(copy) => Ok(Some(copy.sliced(first, len))),
        Err(_) => Err(MakeError::OutOfMemory),
    }
}

/// Builds the column of the integers of a buffer. Its validity is as in [`validity_from`].
///
/// # Requires
/// `validity` has a bitmap or no buffer.
///
/// # Errors
/// The first of these rules that is broken: `ValidityLength`, `TooManyRows`; or `OutOfMemory`.
fn integers_from<T: ArrowPrimitive>(
    values: &Buffer<T>,
    validity: &BufferRef,
    first: usize,
) -> Result<ArrayRef, MakeError>
    requires { may_be_validity validity.now.buffer ≡ true }
    ensures rows { IfOk result (λ made. rows made.column ≡ number_rows T.number values.now
        (validity_over validity.now.buffer first (length values.now))) }
    ensures dtype { IfOk result (λ made. type_of made.column ≡ T.shape) }
    ensures accepted { IfOk result (λ _.
        flat_rules_over (length values.now) validity.now.buffer first ≡ None) }
    ensures refused { IfErr result (IsRuleOrMemory
        (flat_rules_over (length values.now) validity.now.buffer first)) }
{
    let bits = validity_from(validity, first, values.len())?;
    let Ok(values) = values.try_clone() else {
        return Err(MakeError::OutOfMemory);
    };
    match PrimitiveArray::<T>::try_new(values, bits) {
        Ok(array) => Ok(array.into_ref()),
        Err(fault) => Err(fault),
    }
}

/// Stores in `out` the column of [`integers_from`].
///
/// # Requires
/// The type of `T` has at most 128 levels, as each integer type does, and `validity` has a bitmap
/// or no buffer.
///
/// Errors: those of [`integers_from`]. On error `out` is unchanged.
fn put_integers<T: ArrowPrimitive>(
    alloc: Global,
    values: &Buffer<T>,
    validity: &BufferRef,
    first: usize,
    out: &mut Handle,
) -> u32
    requires shallow { depth T.shape ≤ 128 }
    requires validity { may_be_validity validity.now.buffer ≡ true }
    ensures { MakesColumn result out.old.tree out.new.tree T.shape (number_rows T.number
        values.now (validity_over validity.now.buffer first (length values.now))) []
        (flat_rules_over (length values.now) validity.now.buffer first) }
{
    match integers_from(values, validity, first) {
        Ok(column) => put(alloc, column, out),
        Err(fault) => status_of_maker(fault),
    }
}

/// Stores in `out` the column of the integers of a buffer. Its validity is as in
/// [`validity_from`].
///
/// Errors: `UNSUPPORTED_TYPE` if `values` is no buffer of integers, or `validity` has another
/// buffer than a bitmap; `VALIDITY_LENGTH`; `TOO_MANY_ROWS`; `OUT_OF_MEMORY`. On error `out` is
/// unchanged.
pub fn integers_over(
    alloc: Global,
    values: &BufferRef,
    validity: &BufferRef,
    first: usize,
    out: &mut Handle,
) -> u32
    ensures { MakesColumn result out.old.tree out.new.tree (type_over values.now.buffer)
        (integer_rows_over values.now.buffer validity.now.buffer first)
        ((unsupported_type, may_be_validity validity.now.buffer ≡ true)
        ∷ (unsupported_type, is_integer_buffer values.now.buffer ≡ true) ∷ [])
        (flat_rules_over (count_over values.now.buffer) validity.now.buffer first) }
{
    if !may_be_validity(validity) {
        return UNSUPPORTED_TYPE;
    }
    let Some(shared) = values.shared() else {
        return UNSUPPORTED_TYPE;
    };
    match shared {
        SharedBuffer::Int8(values) => put_integers(alloc, values, validity, first, out),
        SharedBuffer::Int16(values) => put_integers(alloc, values, validity, first, out),
        SharedBuffer::Int32(values) => put_integers(alloc, values, validity, first, out),
        SharedBuffer::Int64(values) => put_integers(alloc, values, validity, first, out),
        SharedBuffer::UInt8(values) => put_integers(alloc, values, validity, first, out),
        SharedBuffer::UInt16(values) => put_integers(alloc, values, validity, first, out),
        SharedBuffer::UInt32(values) => put_integers(alloc, values, validity, first, out),
        SharedBuffer::UInt64(values) => put_integers(alloc, values, validity, first, out),
        _ => UNSUPPORTED_TYPE,
    }
}

/// Builds the boolean column of `len` bits of a bitmap, from bit `start` on. Its validity is as in
/// [`validity_from`].
///
/// # Requires
/// `values` has at least `start + len` bits, and `validity` has a bitmap or no buffer.
///
/// # Errors
/// The first of these rules that is broken: `ValidityLength`, `TooManyRows`; or `OutOfMemory`.
fn booleans_from(
    values: &Bitmap,
    start: usize,
    len: usize,
    validity: &BufferRef,
    first: usize,
) -> Result<ArrayRef, MakeError>
    requires within { start + len ≤ length values.now.bits }
    requires validity { may_be_validity validity.now.buffer ≡ true }
    ensures rows { IfOk result (λ made. rows made.column ≡
        bool_rows (take len (drop start values.now.bits))
        (validity_over validity.now.buffer first len)) }
    ensures dtype { IfOk result (λ made. type_of made.column ≡ of_boolean) }
    ensures accepted { IfOk result (λ _. flat_rules_over len validity.now.buffer first ≡ None) }
    ensures refused { IfErr result
        (IsRuleOrMemory (flat_rules_over len validity.now.buffer first)) }
{
    let bits = validity_from(validity, first, len)?;
    let Ok(values) = values.try_clone() else {
        return Err(MakeError::OutOfMemory);
    };
    match BooleanArray::try_new(values.sliced(start, len), bits) {
        Ok(array) => Ok(array.into_ref()),
        Err(fault) => Err(fault),
    }
}

/// Stores in `out` the boolean column of `len` bits of a bitmap, from bit `start` on. Its validity
/// is as in [`validity_from`].
///
/// Errors: `UNSUPPORTED_TYPE` if `values` is no bitmap, or `validity` has another buffer than one;
/// `LENGTH_MISMATCH` if `values` has fewer than `start + len` bits; `VALIDITY_LENGTH`;
/// `TOO_MANY_ROWS`; `OUT_OF_MEMORY`. On error `out` is unchanged.
pub fn booleans_over(
    alloc: Global,
    values: &BufferRef,
    start: usize,
    len: usize,
    validity: &BufferRef,
    first: usize,
    out: &mut Handle,
) -> u32
    ensures { MakesColumn result out.old.tree out.new.tree of_boolean
        (bool_rows (take len (drop start (bits_of values.now.buffer)))
        (validity_over validity.now.buffer first len))
        ((unsupported_type, is_bitmap values.now.buffer ≡ true)
        ∷ (unsupported_type, may_be_validity validity.now.buffer ≡ true)
        ∷ (length_mismatch, start + len ≤ length (bits_of values.now.buffer)) ∷ [])
        (flat_rules_over len validity.now.buffer first) }
{
    let Some(SharedBuffer::Bits(values)) = values.shared() else {
        return UNSUPPORTED_TYPE;
    };
    if !may_be_validity(validity) {
        return UNSUPPORTED_TYPE;
    }
    let all = values.len();
    if start > all || len > all - start {
        return LENGTH_MISMATCH;
    }
    match booleans_from(values, start, len, validity, first) {
        Ok(column) => put(alloc, column, out),
        Err(fault) => status_of_maker(fault),
    }
}

/// Returns integers as offsets.
///
/// # Errors
/// `OffsetCount`, `OffsetNegative` or `OffsetOrder`; `OutOfMemory`.
#[tactic(auto, using(crate::proofs::Positions::shown))]
fn offsets_from(integers: &Buffer<i64>) -> Result<OffsetsBuffer<i64>, MakeError>
    ensures value { IfOk result (λ offsets. offsets ≡ positions integers.now) }
    ensures accepted { IfOk result (λ _. offsets_fault (λ x. x) integers.now ≡ None) }
    ensures refused { IfErr result (IsRuleOrMemory (offsets_fault (λ x. x) integers.now)) }
{
    let Ok(integers) = integers.try_clone() else {
        return Err(MakeError::OutOfMemory);
    };
    OffsetsBuffer::<i64>::try_from_buffer(integers)
}

/// Builds the binary column of offsets and bytes. Its validity is as in [`validity_from`].
///
/// # Requires
/// `validity` has a bitmap or no buffer.
///
/// # Errors
/// The first of these rules that is broken: those of [`offsets_from`], `ValidityLength`,
/// `TooManyRows`, `OffsetRange`; or `OutOfMemory`.
#[tactic(auto, using(std::proofs::lemmas::Grind::common_steps))]
fn binary_from(
    offsets: &Buffer<i64>,
    bytes: &Buffer<u8>,
    validity: &BufferRef,
    first: usize,
) -> Result<ArrayRef, MakeError>
    requires { may_be_validity validity.now.buffer ≡ true }
    ensures rows { IfOk result (λ made. rows made.column ≡
        byte_rows (positions offsets.now) bytes.now
        (validity_over validity.now.buffer first (rows_between (positions offsets.now)))) }
    ensures dtype { IfOk result (λ made. type_of made.column ≡ of_large_binary) }
    ensures accepted { IfOk result (λ _.
        binary_rules_over offsets.now bytes.now validity.now.buffer first ≡ None) }
    ensures refused { IfErr result
        (IsRuleOrMemory (binary_rules_over offsets.now bytes.now validity.now.buffer first)) }
{
    let offsets = offsets_from(offsets)?;
    let bits = validity_from(validity, first, offsets.len_proxy())?;
    let Ok(bytes) = bytes.try_clone() else {
        return Err(MakeError::OutOfMemory);
    };
    match BinaryArray::<i64>::try_new(offsets, bytes, bits) {
        Ok(array) => Ok(array.into_ref()),
        Err(fault) => Err(fault),
    }
}

/// Stores in `out` the binary column of a buffer of offsets and a buffer of bytes. Its validity is
/// as in [`validity_from`].
///
/// Errors: `UNSUPPORTED_TYPE` if a handle has another buffer; `NO_OFFSETS`, `NEGATIVE_OFFSET`,
/// `DECREASING_OFFSET`; `VALIDITY_LENGTH`; `TOO_MANY_ROWS`, `OFFSET_RANGE`; `OUT_OF_MEMORY`. On
/// error `out` is unchanged.
pub fn binary_over(
    alloc: Global,
    offsets: &BufferRef,
    bytes: &BufferRef,
    validity: &BufferRef,
    first: usize,
    out: &mut Handle,
) -> u32
    ensures { MakesColumn result out.old.tree out.new.tree of_large_binary
        (binary_rows_over offsets.now.buffer bytes.now.buffer validity.now.buffer first)
        (binary_conditions offsets.now.buffer bytes.now.buffer validity.now.buffer)
        (binary_rules_over (integers_of offsets.now.buffer) (bytes_of bytes.now.buffer)
        validity.now.buffer first) }
{
    let Some(SharedBuffer::UInt8(bytes)) = bytes.shared() else {
        return UNSUPPORTED_TYPE;
    };
    let Some(SharedBuffer::Int64(offsets)) = offsets.shared() else {
        return UNSUPPORTED_TYPE;
    };
    if !may_be_validity(validity) {
        return UNSUPPORTED_TYPE;
    }
    match binary_from(offsets, bytes, validity, first) {
        Ok(column) => put(alloc, column, out),
        Err(fault) => status_of_maker(fault),
    }
}

/// Builds the column of lists with these 64-bit offsets over `child`. Its validity is as in
/// [`validity_from`].
///
/// # Requires
/// `validity` has a bitmap or no buffer.
///
/// # Errors
/// The first of these rules that is broken: those of [`offsets_from`], `ValidityLength`,
/// `TooManyRows`, `OffsetRange`; or `OutOfMemory`. On error `child` is freed.
fn lists_from(
    alloc: Global,
    offsets: &Buffer<i64>,
    child: ArrayRef,
    validity: &BufferRef,
    first: usize,
) -> Result<ArrayRef, MakeError>
    requires { may_be_validity validity.now.buffer ≡ true }
    ensures rows { IfOk result (λ made. rows made.column ≡
        list_rows (positions offsets.now) (rows child.column)
        (validity_over validity.now.buffer first (rows_between (positions offsets.now)))) }
    ensures dtype { IfOk result (λ made. type_of made.column ≡
        of_large_list (type_of child.column)) }
    ensures accepted { IfOk result (λ _. list_rules_over
        offsets.now (row_count child.column) validity.now.buffer first ≡ None) }
    ensures refused { IfErr result (IsRuleOrMemory (list_rules_over
        offsets.now (row_count child.column) validity.now.buffer first)) }
{
    let offsets = match offsets_from(offsets) {
        Ok(offsets) => offsets,
        Err(fault) => {
            drop(child);
            return Err(fault);
        }
    };
    let bits = match validity_from(validity, first, offsets.len_proxy()) {
        Ok(bits) => bits,
        Err(fault) => {
            drop(child);
            return Err(fault);
        }
    };
    match ListArray::<i64>::try_new(alloc, offsets, child, bits) {
        Ok(array) => Ok(array.into_ref()),
        Err(fault) => Err(fault),
    }
}

/// Stores in `out` the list column of a buffer of offsets over a column, whose buffers it shares.
/// Its validity is as in [`validity_from`].
///
/// Errors: `NO_COLUMN` if `child` is empty; `TOO_DEEP` if it has 128 levels; `UNSUPPORTED_TYPE` if
/// `offsets` is no buffer of 64-bit integers, or `validity` has another buffer than a bitmap;
/// `NO_OFFSETS`, `NEGATIVE_OFFSET`, `DECREASING_OFFSET`; `VALIDITY_LENGTH`; `TOO_MANY_ROWS`,
/// `OFFSET_RANGE`; `OUT_OF_MEMORY`. On error `out` is unchanged.
#[tactic(auto, using(crate::proofs::Reported::same_count))]
pub fn list_over(
    alloc: Global,
    offsets: &BufferRef,
    child: &ColumnRef,
    validity: &BufferRef,
    first: usize,
    out: &mut Handle,
) -> u32
    ensures { MakesColumn result out.old.tree out.new.tree
        (of_large_list (held_type child.now.tree))
        (list_rows_over offsets.now.buffer (held_rows child.now.tree) validity.now.buffer first)
        ((no_column, HasColumn child.now.tree)
        ∷ (too_deep, depth (held_type child.now.tree) < 128)
        ∷ (unsupported_type, is_int64_buffer offsets.now.buffer ≡ true)
        ∷ (unsupported_type, may_be_validity validity.now.buffer ≡ true) ∷ [])
        (list_rules_over (integers_of offsets.now.buffer) (held_count child.now.tree)
        validity.now.buffer first) }
{
    let Some(column) = child.column() else {
        return NO_COLUMN;
    };
    if !is_within(column.as_column(), MAX_DEPTH - 1) {
        return TOO_DEEP;
    }
    let Some(SharedBuffer::Int64(offsets)) = offsets.shared() else {
        return UNSUPPORTED_TYPE;
    };
    if !may_be_validity(validity) {
        return UNSUPPORTED_TYPE;
    }
    let Ok(copy) = column.try_clone(alloc) else {
        return OUT_OF_MEMORY;
    };
    match lists_from(alloc, offsets, copy, validity, first) {
        Ok(column) => put(alloc, column, out),
        Err(fault) => status_of_maker(fault),
    }
}

/// Builds the column of `len` fixed-size lists of `width` rows of `child` each. Its validity is as
/// in [`validity_from`].
///
/// # Requires
/// `validity` has a bitmap or no buffer.
///
/// # Errors
/// The first of these rules that is broken: `ValidityLength`, `TooManyRows`, `Width`,
/// `ChildLength`; or `OutOfMemory`. On error `child` is freed.
fn blocks_from(
    alloc: Global,
    width: usize,
    len: usize,
    child: ArrayRef,
    validity: &BufferRef,
    first: usize,
) -> Result<ArrayRef, MakeError>
    requires { may_be_validity validity.now.buffer ≡ true }
    ensures rows { IfOk result (λ made. rows made.column ≡ block_rows width len
        (rows child.column) (validity_over validity.now.buffer first len)) }
    ensures dtype { IfOk result (λ made. type_of made.column ≡
        of_fixed_size_list (type_of child.column) width) }
    ensures accepted { IfOk result (λ _. block_rules_over
        width len (row_count child.column) validity.now.buffer first ≡ None) }
    ensures refused { IfErr result (IsRuleOrMemory (block_rules_over
        width len (row_count child.column) validity.now.buffer first)) }
{
    let bits = match validity_from(validity, first, len) {
        Ok(bits) => bits,
        Err(fault) => {
            drop(child);
            return Err(fault);
        }
    };
    match FixedSizeListArray::try_new(alloc, width, len, child, bits) {
        Ok(array) => Ok(array.into_ref()),
        Err(fault) => Err(fault),
    }
}

/// Stores in `out` the column of `len` fixed-size lists of `width` rows over a column, whose
/// buffers it shares. Its validity is as in [`validity_from`].
///
/// Errors: `NO_COLUMN` if `child` is empty; `TOO_DEEP` if it has 128 levels; `UNSUPPORTED_TYPE` if
/// `validity` has another buffer than a bitmap; `VALIDITY_LENGTH`; `TOO_MANY_ROWS`, `LIST_SIZE`,
/// `CHILD_LENGTH`; `OUT_OF_MEMORY`. On error `out` is unchanged.
#[tactic(auto, using(crate::proofs::Reported::same_count))]
pub fn fixed_size_list_over(
    alloc: Global,
    width: usize,
    len: usize,
    child: &ColumnRef,
    validity: &BufferRef,
    first: usize,
    out: &mut Handle,
) -> u32
    ensures { MakesColumn result out.old.tree out.new.tree
        (of_fixed_size_list (held_type child.now.tree) width) (block_rows width len
        (held_rows child.now.tree) (validity_over validity.now.buffer first len))
        ((no_column, HasColumn child.now.tree)
        ∷ (too_deep, depth (held_type child.now.tree) < 128)
        ∷ (unsupported_type, may_be_validity validity.now.buffer ≡ true) ∷ [])
        (block_rules_over width len (held_count child.now.tree) validity.now.buffer first) }
{
    let Some(column) = child.column() else {
        return NO_COLUMN;
    };
    if !is_within(column.as_column(), MAX_DEPTH - 1) {
        return TOO_DEEP;
    }
    if !may_be_validity(validity) {
        return UNSUPPORTED_TYPE;
    }
    let Ok(copy) = column.try_clone(alloc) else {
        return OUT_OF_MEMORY;
    };
    match blocks_from(alloc, width, len, copy, validity, first) {
        Ok(column) => put(alloc, column, out),
        Err(fault) => status_of_maker(fault),
    }
}

/// Builds the struct column of `len` rows of these fields. Its validity is as in [`validity_from`].
///
/// # Requires
/// `validity` has a bitmap or no buffer.
///
/// # Errors
/// The first of these rules that is broken: `ValidityLength`, `TooManyRows`, `FieldLength`; or
/// `OutOfMemory`. On error the fields are freed.
#[tactic(auto, using(crate::proofs::Tuples::tuples))]
fn structs_from(
    alloc: Global,
    len: usize,
    fields: Vec<ArrayRef>,
    validity: &BufferRef,
    first: usize,
) -> Result<ArrayRef, MakeError>
    requires { may_be_validity validity.now.buffer ≡ true }
    ensures rows { IfOk result (λ made. rows made.column ≡ struct_rows len
        (map (λ field. rows field.column) fields.items)
        (validity_over validity.now.buffer first len)) }
    ensures dtype { IfOk result (λ made. type_of made.column ≡
        of_struct (shapes_of (map (λ field. type_of field.column) fields.items))) }
    ensures accepted { IfOk result (λ _. struct_rules_over len
        (map (λ field. row_count field.column) fields.items) validity.now.buffer first ≡ None) }
    ensures refused { IfErr result (IsRuleOrMemory (struct_rules_over len
        (map (λ field. row_count field.column) fields.items) validity.now.buffer first)) }
{
    let bits = match validity_from(validity, first, len) {
        Ok(bits) => bits,
        Err(fault) => {
            drop(fields);
            return Err(fault);
        }
    };
    match StructArray::try_new(alloc, len, fields, bits) {
        Ok(array) => Ok(array.into_ref()),
        Err(fault) => Err(fault),
    }
}

/// Stores in `out` the struct column of `len` rows over columns, whose buffers it shares. Its
/// validity is as in [`validity_from`].
///
/// Errors: `UNSUPPORTED_TYPE` if `validity` has another buffer than a bitmap; `NO_COLUMN` if a
/// field is empty; `TOO_DEEP` if one has 128 levels; `VALIDITY_LENGTH`; `TOO_MANY_ROWS`,
/// `FIELD_LENGTH`; `OUT_OF_MEMORY`. On error `out` is unchanged.
#[tactic(auto, using(crate::proofs::Counts::counts))]
pub fn struct_over(
    alloc: Global,
    len: usize,
    fields: &[ColumnRef],
    validity: &BufferRef,
    first: usize,
    out: &mut Handle,
) -> u32
    ensures { MakesColumn result out.old.tree out.new.tree
        (of_struct (shapes_of (map (λ field. held_type field.tree) fields.now)))
        (struct_rows len (map (λ field. held_rows field.tree) fields.now)
        (validity_over validity.now.buffer first len))
        ((unsupported_type, may_be_validity validity.now.buffer ≡ true)
        ∷ (no_column, All (λ field. HasColumn field.tree) fields.now)
        ∷ (
          too_deep,
          deepest (shapes_of (map (λ field. held_type field.tree) fields.now)) < 128,
        ) ∷ [])
        (struct_rules_over len (map (λ field. held_count field.tree) fields.now)
        validity.now.buffer first) }
{
    if !may_be_validity(validity) {
        return UNSUPPORTED_TYPE;
    }
    let shared = match share_all(alloc, fields) {
        Ok(shared) => shared,
        Err(status) => return status,
    };
    if !arrays_are_within(&shared, MAX_DEPTH - 1) {
        drop(shared);
        return TOO_DEEP;
    }
    match structs_from(alloc, len, shared, validity, first) {
        Ok(column) => put(alloc, column, out),
        Err(fault) => status_of_maker(fault),
    }
}
