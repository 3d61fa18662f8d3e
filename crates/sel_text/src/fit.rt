//! Laws of columns: the rows fit the type, and printing and parsing lose nothing.

ghost use Rattle.std.specs.Prelude.{◌≡◌, ◌≤◌, ◌<◌, All, false, IfOk, IfErr, IsTrue};
ghost use Rattle.std.specs.List.{list_all};
ghost use Rattle.sel_arrow.specs.Columns.{primitive_rows};
ghost use Rattle.sel_arrow.specs.DataType.{shape_of};
ghost use Rattle.sel_arrow.specs.Depth.{depth};
ghost use Rattle.sel_arrow.specs.Rows.{rows, type_of, IsWellFormed};
ghost use Rattle.sel_arrow.specs.Shape.{Shape, of_int8, of_int16, of_int32, of_int64, of_int128, of_uint8, of_uint16, of_uint32, of_uint64, of_uint128};
ghost use Rattle.sel_text.specs.Fits.{are_bytes, fits, fits_number, RowsFit};
ghost use Rattle.sel_text.specs.Limits.{exceeds_limit};
ghost use Rattle.sel_text.specs.TextErrors.{IsLimitOrMemoryError};

use crate::build::NullSlots;
use crate::parse::parse_column;
use crate::print::print_rows;
use crate::read_type::parse_dtype;
use crate::text_error::TextError;
use crate::types::print_dtype;
use sel_arrow::array_ref::ArrayRef;
use sel_arrow::column::Column;
use sel_arrow::datatype::ArrowDataType;
use sel_arrow::match_numbers;
use sel_arrow::primitive::PrimitiveArray;
use sel_bits::buffer::Buffer;
use sel_bits::native::NativeType;
use std::alloc::Global;

/// An integer type with the data type of its columns, which each value fits.
trait FitsShape: NativeType {
    /// The data type of such a column.
    ghost shape: { Shape };

    /// Shows that a value fits the type.
    fn law_value_fits(self)
        ensures { IsTrue (fits_number shape (Self.number self)) };
}

impl FitsShape for i8 {
    ghost shape = { of_int8 };

    fn law_value_fits(self) {}
}

impl FitsShape for i16 {
    ghost shape = { of_int16 };

    fn law_value_fits(self) {}
}

impl FitsShape for i32 {
    ghost shape = { of_int32 };

    fn law_value_fits(self) {}
}

impl FitsShape for i64 {
    ghost shape = { of_int64 };

    fn law_value_fits(self) {}
}

impl FitsShape for i128 {
    ghost shape = { of_int128 };

    fn law_value_fits(self) {}
}

impl FitsShape for u8 {
    ghost shape = { of_uint8 };

    fn law_value_fits(self) {}
}

impl FitsShape for u16 {
    ghost shape = { of_uint16 };

    fn law_value_fits(self) {}
}

impl FitsShape for u32 {
    ghost shape = { of_uint32 };

    fn law_value_fits(self) {}
}

impl FitsShape for u64 {
    ghost shape = { of_uint64 };

    fn law_value_fits(self) {}
}

impl FitsShape for u128 {
    ghost shape = { of_uint128 };

    fn law_value_fits(self) {}
}

/// Shows that the rows of a well-formed column fit its type: each integer is in the range of its
/// type, each byte is less than 256 and each string is UTF-8, in child columns too.
///
/// Returns nothing. Reads each integer once: a contract knows the range of an integer only where
/// the program reads it.
///
/// # Requires
/// The column is well-formed; check with `Column::is_well_formed`.
#[cycle(fitting)]
#[tactic(auto, using(crate::proofs::FittingRows::column_fits))]
pub fn law_rows_fit(column: &Column)
    requires { IsWellFormed column.now }
    ensures { IsTrue (list_all (fits (type_of column.now)) (rows column.now)) }
{
    match_numbers! { column, array => law_numbers_fit(array),
        Column::Null(_) => {}
        Column::Boolean(_) => {}
        Column::Utf8View(_) => {}
        Column::LargeBinary(array) => law_bytes_fit(array.values.as_slice()),
        Column::BinaryView(array) => law_buffers_fit(array.buffers.as_slice()),
        Column::LargeList { values, .. } => law_rows_fit(values),
        Column::FixedSizeList { values, .. } => law_rows_fit(values),
        Column::Struct { fields, .. } => law_fields_fit(fields),
    }
}

/// Shows that the rows of each of several well-formed columns fit its type.
#[cycle(fitting)]
fn law_fields_fit(fields: &[Column])
    requires { All IsWellFormed fields.now }
    ensures { All RowsFit fields.now }
{
    for field in fields {
        law_rows_fit(field);
    }
}

/// Shows that the rows of an integer column fit its type.
fn law_numbers_fit<T: FitsShape>(array: &PrimitiveArray<T>)
    ensures { IsTrue (list_all (fits T.shape) (primitive_rows array.now)) }
{
    let values = array.values.as_slice();
    for value in values {
        (*value).law_value_fits();
    }
}

/// Shows that bytes are less than 256.
#[tactic(auto, using(crate::proofs::FittingRows::bytes_from))]
pub(crate) fn law_bytes_fit(bytes: &[u8])
    ensures { IsTrue (are_bytes bytes.now) }
{}

/// Shows that the bytes of data buffers are less than 256.
fn law_buffers_fit(buffers: &[Buffer<u8>])
    ensures { IsTrue (list_all are_bytes buffers.now) }
{
    for buffer in buffers {
        law_bytes_fit(buffer.as_slice());
    }
}

/// Prints the type and the rows of a column, and parses both texts: printing and parsing lose
/// nothing. Returns a column with the same type and the same rows.
///
/// `beneath` selects the values in null slots of the result.
///
/// # Requires
/// The column is well-formed; check with `Column::is_well_formed`.
///
/// # Errors
/// `Limit` if the type is nested more than 64 levels deep, or if a column that is parsed from the
/// rows would exceed a size limit; `OutOfMemory` if an allocation fails.
pub fn law_round_trip(
    alloc: Global,
    column: &Column,
    beneath: NullSlots,
) -> Result<ArrayRef, TextError>
    requires { IsWellFormed column.now }
    ensures rows { IfOk result (λ again. rows again.column ≡ rows column.now) }
    ensures dtype { IfOk result (λ again. type_of again.column ≡ type_of column.now) }
    ensures levels { IfOk result (λ _. depth (type_of column.now) ≤ 64) }
    ensures within { IfOk result (λ _.
        exceeds_limit beneath (type_of column.now) (rows column.now) ≡ false) }
    ensures refused { IfErr result IsLimitOrMemoryError }
    ensures limit { IfErr result (λ error. error ≡ TextError.Limit →
        depth (type_of column.now) ≤ 64 →
        IsTrue (exceeds_limit beneath (type_of column.now) (rows column.now))) }
{
    law_rows_fit(column);
    let dtype = match read_again(alloc, column) {
        Ok(dtype) => dtype,
        Err(error) => return Err(error),
    };
    let text = match print_rows(alloc, column) {
        Ok(text) => text,
        Err(_) => return Err(TextError::OutOfMemory),
    };
    match parse_column(alloc, &dtype, &text, beneath) {
        Ok(again) => {
            law_rows_fit(again.as_column());
            Ok(again)
        }
        Err(error) => Err(error),
    }
}

/// Prints the type of a well-formed column and parses the text.
fn read_again(alloc: Global, column: &Column) -> Result<ArrowDataType, TextError>
    requires { IsWellFormed column.now }
    ensures dtype { IfOk result (λ dtype. shape_of dtype ≡ type_of column.now) }
    ensures levels { IfOk result (λ _. depth (type_of column.now) ≤ 64) }
    ensures refused { IfErr result IsLimitOrMemoryError }
    ensures limit { IfErr result (λ error. error ≡ TextError.Limit →
        64 < depth (type_of column.now)) }
{
    let Ok(dtype) = column.dtype(alloc) else {
        return Err(TextError::OutOfMemory);
    };
    match print_dtype(alloc, &dtype) {
        Ok(text) => parse_dtype(alloc, &text),
        Err(_) => Err(TextError::OutOfMemory),
    }
}
