//! Columns printed as row text and parsed from it.

ghost use Rattle.std.specs.Prelude.{◌≡◌, ◌≢◌, ◌≤◌, ◌⊎◌, ℕ, List, [], ◌∷◌, Some, true, false, length, IfOk, IfErr, IfSome, IsTrue};
ghost use Rattle.sel_arrow.specs.DataType.{shape_of, widths_fit};
ghost use Rattle.sel_arrow.specs.Depth.{depth};
ghost use Rattle.sel_arrow.specs.Rows.{rows, type_of};
ghost use Rattle.sel_arrow.specs.Shape.{Shape};
ghost use Rattle.sel_arrow.specs.Value.{Value};
ghost use Rattle.sel_c.specs.Parsed.{exceeds_parse_limit, ExceedsAlways, IsRowsText, IsTypeText, Parses};
ghost use Rattle.sel_c.specs.Printed.{filled, Prints};
ghost use Rattle.sel_ffi.specs.Status.{ok, out_of_memory, type_syntax, row_syntax, row_type_mismatch, text_limit, IsOneOf, Makes};
ghost use Rattle.sel_text.specs.Limits.{exceeds_limit};
ghost use Rattle.sel_text.specs.Notation.{is_row_notation, is_type_notation, HasFirstError, IsFirstError};
ghost use Rattle.sel_text.specs.Spelling.{spelled};
ghost use Rattle.sel_text.specs.TextErrors.{HasFittingRows, IsLimitOrMemoryError, IsOffsetWithin, IsRowTextError, IsTypeTextError};
ghost use Rattle.sel_text.specs.Texts.{text_of};
ghost use Rattle.sel_text.specs.Types.{type_text};
ghost use Rattle.sel_text.specs.Written.{widths_written};

use sel_arrow::array_ref::ArrayRef;
use sel_arrow::datatype::ArrowDataType;
use sel_ffi::handle::Handle;
use sel_ffi::status::{
    OK, OUT_OF_MEMORY, ROW_SYNTAX, ROW_TYPE_MISMATCH, TEXT_LIMIT, TYPE_SYNTAX, put,
};
use sel_text::build::NullSlots;
use sel_text::parse::parse_column;
use sel_text::print::print_rows;
use sel_text::read_type::parse_dtype;
use sel_text::syntax::{find_row_error, find_type_error};
use sel_text::text_error::TextError;
use sel_text::types::print_dtype;
use std::alloc::{AllocError, Global};
use std::str;

/// Writes the row text of the column into `out`, truncated to its length, and the length of the
/// whole text to `len`.
///
/// Errors: `OUT_OF_MEMORY`.
pub fn print_into(alloc: Global, column: &ArrayRef, out: &mut [u8], len: &mut usize) -> u32
    ensures { Prints result (Some column.now)
        (text_of (type_of column.now.column) (rows column.now.column))
        out.old out.new len.old len.new }
{
    let Ok(text) = print_rows(alloc, column.as_column()) else {
        return OUT_OF_MEMORY;
    };
    let bytes = text.as_str().as_bytes();
    *len = bytes.len();
    fill(bytes, out);
    OK
}

/// Writes the text of the column's type into `out`, truncated to its length, and the length of the
/// whole text to `len`.
///
/// Errors: `OUT_OF_MEMORY`.
pub fn print_type_into(alloc: Global, column: &ArrayRef, out: &mut [u8], len: &mut usize) -> u32
    ensures { Prints result (Some column.now) (type_text (type_of column.now.column))
        out.old out.new len.old len.new }
{
    let Ok(dtype) = column.as_column().dtype(alloc) else {
        return OUT_OF_MEMORY;
    };
    let printed = print_dtype(alloc, &dtype);
    drop(dtype);
    let Ok(text) = printed else {
        return OUT_OF_MEMORY;
    };
    let bytes = text.as_str().as_bytes();
    *len = bytes.len();
    fill(bytes, out);
    OK
}

// Copies as many bytes as fit.
fn fill(text: &[u8], out: &mut [u8])
    ensures { out.new ≡ filled text.now out.old }
{
    let count = text.len().min(out.len());
    out[..count].copy_from_slice(&text[..count]);
}

/// Parses the type `name` and the row text `text`, and stores the column in `out`.
///
/// Errors: `TYPE_SYNTAX` if `name` is not a type, with its byte position in `at`; `ROW_SYNTAX` if
/// `text` is not row text, and `ROW_TYPE_MISMATCH` if a value does not fit the type, with the byte
/// position in `text`; `TEXT_LIMIT` if the type or the rows exceed a size limit, or the type is
/// nested more than 64 levels deep; `OUT_OF_MEMORY`. On error `out` is unchanged.
pub fn parse_into(alloc: Global, name: &[u8], text: &[u8], at: &mut usize, out: &mut Handle) -> u32
    ensures { Parses result name.now text.now at.old at.new out.old.tree out.new.tree }
{
    let dtype = match read_dtype(alloc, name) {
        Ok(dtype) => dtype,
        Err(fault) => return type_error_status(fault, at),
    };
    let made = read_rows(alloc, &dtype, text);
    drop(dtype);
    match made {
        Ok(column) => put(alloc, column, out),
        Err(fault) => rows_error_status(fault, at),
    }
}

/// Parses a type.
///
/// # Errors
/// `Syntax` or `Type` with the byte position; `Limit`, also if a list size exceeds what a column
/// can have; `OutOfMemory`.
fn read_dtype(alloc: Global, bytes: &[u8]) -> Result<ArrowDataType, TextError>
    ensures text { IfOk result (λ dtype. spelled bytes.now ≡ Some (type_text (shape_of dtype))) }
    ensures narrow { IfOk result (λ dtype. IsTrue (widths_written (shape_of dtype))) }
    ensures levels { IfOk result (λ dtype. depth (shape_of dtype) ≤ 64) }
    ensures fit { IfOk result (λ dtype. widths_fit dtype ≡ true) }
    ensures notation { IfOk result (λ _. is_type_notation bytes.now ≡ true) }
    ensures refused { IfErr result (λ error. (shape : Shape) →
        IsTypeText shape bytes.now → IsLimitOrMemoryError error) }
    ensures limit { IfErr result (λ error. error ≡ TextError.Limit →
        (shape : Shape) (values : List Value) → IsTypeText shape bytes.now →
        IsTrue (exceeds_parse_limit shape values)) }
    ensures syntax { IfErr result (IsTypeTextError bytes.now) }
    ensures place { IfErr result (IsOffsetWithin (length bytes.now)) }
{
    let text = match str::from_utf8(bytes) {
        Ok(text) => text,
        Err(_) => return Err(not_utf8_type(find_type_error(alloc, bytes))),
    };
    let dtype = match parse_dtype(alloc, text) {
        Ok(dtype) => dtype,
        Err(fault) => return Err(fault),
    };
    if !dtype.widths_fit() {
        drop(dtype);
        return Err(TextError::Limit);
    }
    Ok(dtype)
}

/// Parses row text of this type.
///
/// # Errors
/// `Syntax` or `Type` with the byte position; `Limit`; `OutOfMemory`.
fn read_rows(alloc: Global, dtype: &ArrowDataType, bytes: &[u8]) -> Result<ArrayRef, TextError>
    ensures dtype { IfOk result (λ made. type_of made.column ≡ shape_of dtype.now) }
    ensures text { IfOk result (λ made.
        spelled bytes.now ≡ Some (text_of (shape_of dtype.now) (rows made.column))) }
    ensures within { IfOk result (λ _. (values : List Value) →
        IsRowsText (shape_of dtype.now) values bytes.now →
        exceeds_limit NullSlots.Zeros (shape_of dtype.now) values ≡ false) }
    ensures refused { IfErr result (λ error. (values : List Value) →
        IsRowsText (shape_of dtype.now) values bytes.now → IsLimitOrMemoryError error) }
    ensures limit { IfErr result (λ error. error ≡ TextError.Limit → (values : List Value) →
        IsRowsText (shape_of dtype.now) values bytes.now →
        IsTrue (exceeds_limit NullSlots.Zeros (shape_of dtype.now) values)) }
    ensures fit { IfErr result (λ error. error ≡ TextError.Limit →
        HasFittingRows (shape_of dtype.now) bytes.now) }
    ensures syntax { IfErr result (IsRowTextError bytes.now) }
    ensures place { IfErr result (IsOffsetWithin (length bytes.now)) }
{
    match str::from_utf8(bytes) {
        Ok(text) => parse_column(alloc, dtype, text, NullSlots::Zeros),
        Err(fault) => Err(not_utf8_rows(find_row_error(alloc, bytes), fault.valid_up_to())),
    }
}

/// Returns the error of a type that is not UTF-8: a syntax error where it was found, else `Limit`.
fn not_utf8_type(found: Result<Option<usize>, AllocError>) -> TextError
    ensures syntax { (bytes : List ℕ) → IfOk found (HasFirstError is_type_notation bytes) →
        IsTypeTextError bytes result }
    ensures place { (bytes : List ℕ) → IfOk found (HasFirstError is_type_notation bytes) →
        IsOffsetWithin (length bytes) result }
{
    match found {
        Ok(Some(at)) => TextError::Syntax { at },
        Ok(None) => TextError::Limit,
        Err(_) => TextError::OutOfMemory,
    }
}

/// Returns the error of row text that is not UTF-8: a syntax error where it was found, else a
/// misfit at `place`.
fn not_utf8_rows(found: Result<Option<usize>, AllocError>, place: usize) -> TextError
    ensures syntax { (bytes : List ℕ) → IfOk found (HasFirstError is_row_notation bytes) →
        IsRowTextError bytes result }
    ensures place { (bytes : List ℕ) → IfOk found (HasFirstError is_row_notation bytes) →
        place ≤ length bytes → IsOffsetWithin (length bytes) result }
    ensures limit { result ≢ TextError.Limit }
{
    match found {
        Ok(Some(at)) => TextError::Syntax { at },
        Ok(None) => TextError::Type { at: place },
        Err(_) => TextError::OutOfMemory,
    }
}

/// Returns the status code of an error in the type, and writes its byte position, if any, to `at`.
fn type_error_status(fault: TextError, at: &mut usize) -> u32
    ensures refused { result ≢ ok }
    ensures short { IsLimitOrMemoryError fault →
        IsOneOf result (out_of_memory ∷ text_limit ∷ []) }
    ensures limit { result ≡ text_limit → fault ≡ TextError.Limit }
    ensures syntax { (bytes : List ℕ) → IsTypeTextError bytes fault →
        result ≡ type_syntax → IsFirstError is_type_notation bytes at.new }
    ensures read { (bytes : List ℕ) → IsTypeTextError bytes fault → result ≡ text_limit →
        is_type_notation bytes ≡ true }
    ensures place { (count : ℕ) → IsOffsetWithin count fault → result ≡ type_syntax →
        at.new ≤ count }
    ensures no_place { IsOneOf result (out_of_memory ∷ text_limit ∷ []) → at.new ≡ at.old }
    ensures status { IsOneOf result (out_of_memory ∷ type_syntax ∷ text_limit ∷ []) }
{
    match fault {
        TextError::Syntax { at: place } | TextError::Type { at: place } => {
            *at = place;
            TYPE_SYNTAX
        }
        TextError::Limit => TEXT_LIMIT,
        TextError::OutOfMemory => OUT_OF_MEMORY,
    }
}

/// Returns the status code of an error in the row text, and writes its byte position, if any, to
/// `at`.
fn rows_error_status(fault: TextError, at: &mut usize) -> u32
    ensures refused { result ≢ ok }
    ensures short { IsLimitOrMemoryError fault →
        IsOneOf result (out_of_memory ∷ text_limit ∷ []) }
    ensures limit { result ≡ text_limit → fault ≡ TextError.Limit }
    ensures syntax { (bytes : List ℕ) → IsRowTextError bytes fault → result ≡ row_syntax →
        IsFirstError is_row_notation bytes at.new }
    ensures misfit { (bytes : List ℕ) → IsRowTextError bytes fault →
        result ≡ row_type_mismatch → is_row_notation bytes ≡ true }
    ensures place { (count : ℕ) → IsOffsetWithin count fault →
        IsOneOf result (row_syntax ∷ row_type_mismatch ∷ []) → at.new ≤ count }
    ensures no_place { IsOneOf result (out_of_memory ∷ text_limit ∷ []) → at.new ≡ at.old }
    ensures status { IsOneOf result (out_of_memory ∷ row_syntax ∷ row_type_mismatch ∷
        text_limit ∷ []) }
{
    match fault {
        TextError::Syntax { at: place } => {
            *at = place;
            ROW_SYNTAX
        }
        TextError::Type { at: place } => {
            *at = place;
            ROW_TYPE_MISMATCH
        }
        TextError::Limit => TEXT_LIMIT,
        TextError::OutOfMemory => OUT_OF_MEMORY,
    }
}
