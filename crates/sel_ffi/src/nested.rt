//! Binary, list, fixed-size list and struct columns built from parts that callers pass.

ghost use Rattle.std.specs.Prelude.{◌≡◌, None, IfOk, IfErr, length, map, pos};
ghost use Rattle.sel_bits.specs.Faults.{IsFaultOrMemory};
ghost use Rattle.sel_bits.specs.Offsets.{offsets_fault};
ghost use Rattle.sel_arrow.specs.Nested.{list_rows, block_rows, struct_rows};
ghost use Rattle.sel_arrow.specs.Pieces.{byte_rows, rows_between};
ghost use Rattle.sel_arrow.specs.Rows.{rows, row_count, type_of};
ghost use Rattle.sel_arrow.specs.Shape.{of_large_binary, of_large_list, of_fixed_size_list, of_struct, shapes_of};
ghost use Rattle.sel_ffi.specs.Inputs.{positions, validity_in, validity_rule, binary_rules, list_rules, block_rules, struct_rules, IsRuleOrMemory};

use crate::inputs::{copied_values, validity_of};
use sel_arrow::array::Array;
use sel_arrow::array_ref::ArrayRef;
use sel_arrow::binary::BinaryArray;
use sel_arrow::fixed_size_list::FixedSizeListArray;
use sel_arrow::list::ListArray;
use sel_arrow::structure::StructArray;
use sel_bits::faults::MakeError;
use sel_bits::offsets::OffsetsBuffer;
use std::alloc::Global;

/// Copies the offsets.
///
/// # Errors
/// `OffsetCount`, `OffsetNegative` or `OffsetOrder`; `OutOfMemory`.
#[tactic(auto, using(crate::proofs::Positions::shown))]
pub fn offsets_of(alloc: Global, offsets: &[i64]) -> Result<OffsetsBuffer<i64>, MakeError>
    ensures value { IfOk result (λ buffer. buffer ≡ positions offsets.now) }
    ensures accepted { IfOk result (λ _. offsets_fault (λ x. x) offsets.now ≡ None) }
    ensures refused { IfErr result (IsRuleOrMemory (offsets_fault (λ x. x) offsets.now)) }
{
    OffsetsBuffer::try_from_buffer(copied_values(alloc, offsets)?)
}

/// Builds a binary column with 64-bit offsets from copies of its offsets, values and validity.
///
/// # Errors
/// The first of these rules that is broken: those of [`offsets_of`], `ValidityLength`,
/// `TooManyRows`, `OffsetRange`; or `OutOfMemory`.
#[tactic(auto, using(std::proofs::lemmas::Grind::common_steps))]
pub fn binary_of(
    alloc: Global,
    offsets: &[i64],
    values: &[u8],
    bytes: &[u8],
    has: bool,
) -> Result<ArrayRef, MakeError>
    ensures rows { IfOk result (λ made. rows made.column ≡ byte_rows (positions offsets.now)
        values.now (validity_in bytes.now has (rows_between (positions offsets.now)))) }
    ensures dtype { IfOk result (λ made. type_of made.column ≡ of_large_binary) }
    ensures accepted { IfOk result (λ _. binary_rules offsets.now values.now bytes.now has ≡
        None) }
    ensures refused { IfErr result
        (IsRuleOrMemory (binary_rules offsets.now values.now bytes.now has)) }
{
    let offsets = offsets_of(alloc, offsets)?;
    let validity = validity_of(alloc, bytes, has, offsets.len_proxy())?;
    let values = copied_values(alloc, values)?;
    match BinaryArray::<i64>::try_new(offsets, values, validity) {
        Ok(array) => Ok(array.into_ref()),
        Err(fault) => Err(fault),
    }
}

/// Builds a column of lists with 64-bit offsets over `child`.
///
/// Copies the offsets and the validity.
///
/// # Errors
/// The first of these rules that is broken: those of [`offsets_of`], `ValidityLength`,
/// `TooManyRows`, `OffsetRange`; or `OutOfMemory`. On error `child` is freed.
pub fn lists_of(
    alloc: Global,
    offsets: &[i64],
    bytes: &[u8],
    has: bool,
    child: ArrayRef,
) -> Result<ArrayRef, MakeError>
    ensures rows { IfOk result (λ made. rows made.column ≡ list_rows (positions offsets.now)
        (rows child.column) (validity_in bytes.now has (rows_between (positions offsets.now)))) }
    ensures dtype { IfOk result (λ made. type_of made.column ≡
        of_large_list (type_of child.column)) }
    ensures accepted { IfOk result (λ _.
        list_rules offsets.now (row_count child.column) bytes.now has ≡ None) }
    ensures refused { IfErr result
        (IsRuleOrMemory (list_rules offsets.now (row_count child.column) bytes.now has)) }
{
    let offsets = match offsets_of(alloc, offsets) {
        Ok(offsets) => offsets,
        Err(fault) => {
            drop(child);
            return Err(fault);
        }
    };
    let validity = match validity_of(alloc, bytes, has, offsets.len_proxy()) {
        Ok(validity) => validity,
        Err(fault) => {
            drop(child);
            return Err(fault);
        }
    };
    match ListArray::<i64>::try_new(alloc, offsets, child, validity) {
        Ok(array) => Ok(array.into_ref()),
        Err(fault) => Err(fault),
    }
}

/// Builds a column of `len` fixed-size lists of `width` rows of `child` each.
///
/// Copies the validity.
///
/// # Errors
/// The first of these rules that is broken: `ValidityLength`, `TooManyRows`, `Width`,
/// `ChildLength`; or `OutOfMemory`. On error `child` is freed.
pub fn blocks_of(
    alloc: Global,
    width: usize,
    len: usize,
    bytes: &[u8],
    has: bool,
    child: ArrayRef,
) -> Result<ArrayRef, MakeError>
    ensures rows { IfOk result (λ made. rows made.column ≡
        block_rows width len (rows child.column) (validity_in bytes.now has len)) }
    ensures dtype { IfOk result (λ made. type_of made.column ≡
        of_fixed_size_list (type_of child.column) width) }
    ensures accepted { IfOk result (λ _.
        block_rules width len (row_count child.column) bytes.now has ≡ None) }
    ensures refused { IfErr result
        (IsRuleOrMemory (block_rules width len (row_count child.column) bytes.now has)) }
{
    let validity = match validity_of(alloc, bytes, has, len) {
        Ok(validity) => validity,
        Err(fault) => {
            drop(child);
            return Err(fault);
        }
    };
    match FixedSizeListArray::try_new(alloc, width, len, child, validity) {
        Ok(array) => Ok(array.into_ref()),
        Err(fault) => Err(fault),
    }
}

/// Builds a struct column of `len` rows from its fields.
///
/// Copies the validity.
///
/// # Errors
/// The first of these rules that is broken: `ValidityLength`, `TooManyRows`, `FieldLength`; or
/// `OutOfMemory`. On error the fields are freed.
#[tactic(auto, using(crate::proofs::Tuples::tuples))]
pub fn struct_of(
    alloc: Global,
    len: usize,
    bytes: &[u8],
    has: bool,
    fields: Vec<ArrayRef>,
) -> Result<ArrayRef, MakeError>
    ensures rows { IfOk result (λ made. rows made.column ≡ struct_rows len
        (map (λ field. rows field.column) fields.items) (validity_in bytes.now has len)) }
    ensures dtype { IfOk result (λ made. type_of made.column ≡
        of_struct (shapes_of (map (λ field. type_of field.column) fields.items))) }
    ensures accepted { IfOk result (λ _. struct_rules len
        (map (λ field. row_count field.column) fields.items) bytes.now has ≡ None) }
    ensures refused { IfErr result (IsRuleOrMemory (struct_rules len
        (map (λ field. row_count field.column) fields.items) bytes.now has)) }
{
    let validity = match validity_of(alloc, bytes, has, len) {
        Ok(validity) => validity,
        Err(fault) => {
            drop(fields);
            return Err(fault);
        }
    };
    match StructArray::try_new(alloc, len, fields, validity) {
        Ok(array) => Ok(array.into_ref()),
        Err(fault) => Err(fault),
    }
}
