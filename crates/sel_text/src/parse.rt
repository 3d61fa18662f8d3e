//! Parsing of columns.

ghost use Rattle.std.specs.Prelude.{◌≡◌, ◌≢◌, ℕ, Bool, true, false, List, Some, IfOk, IfErr, IsTrue, length, map};
ghost use Rattle.std.specs.List.{list_all};
ghost use Rattle.sel_arrow.specs.DataType.{shape_of};
ghost use Rattle.sel_arrow.specs.Rows.{rows, type_of};
ghost use Rattle.sel_arrow.specs.Value.{Value};
ghost use Rattle.sel_text.specs.Fits.{fits};
ghost use Rattle.sel_text.specs.ItemValues.{item_value};
ghost use Rattle.sel_text.specs.Limits.{exceeds_limit};
ghost use Rattle.sel_text.specs.Notation.{is_row_notation};
ghost use Rattle.sel_text.specs.RowRuns.{rows_repeated};
ghost use Rattle.sel_text.specs.Steps.{ReportsLimit, MakesColumn};
ghost use Rattle.sel_text.specs.Spelling.{spelled};
ghost use Rattle.sel_text.specs.TextErrors.{HasFittingRows, IsLimitOrMemoryError, IsOffsetWithin, IsRowTextError};
ghost use Rattle.sel_text.specs.Steps.{HasRows, IsMemoryFault};
ghost use Rattle.sel_text.specs.Texts.{text_of};

use crate::build::{NullSlots, build};
use crate::item::{Item, read_items};
use crate::item_text::have_text;
use crate::print::print_rows;
use crate::row_runs::{RowRun, push_entries};
use crate::spelling::spelling;
use crate::syntax::find_row_error;
use crate::text_error::{Fault, TextError};
use sel_arrow::array::Array;
use sel_arrow::array_ref::ArrayRef;
use sel_arrow::datatype::ArrowDataType;
use std::alloc::Global;

/// Parses the rows of a column of type `dtype`, as in `[1, null, -3]`.
///
/// White space may stand between tokens, and strings may have all of JSON's escapes: `print_rows`
/// prints the result as the canonical spelling of `text`. `beneath` selects the values in null
/// slots, which the contract leaves open.
///
/// # Errors
/// `Syntax` if `text` is not the notation of rows of any type, with the position of the first byte
/// with which no such text goes on, or the length of `text` if it ends too soon. Otherwise `Type`
/// if a value does not fit the type, with the position of the first one: values are compared with
/// their types as they end, so a list or struct value of the wrong length comes after its values.
/// Otherwise `Limit` if the column would exceed a size limit. `OutOfMemory` if an allocation fails.
#[tactic(auto, using(crate::proofs::Respelled::rows_respelled))]
pub fn parse_column(
    alloc: Global,
    dtype: &ArrowDataType,
    text: &str,
    beneath: NullSlots,
) -> Result<ArrayRef, TextError>
    ensures dtype { IfOk result (λ array. type_of array.column ≡ shape_of dtype.now) }
    ensures text { IfOk result (λ array.
        spelled text.now ≡ Some (text_of (shape_of dtype.now) (rows array.column))) }
    ensures within { IfOk result (λ _. (values : List Value) →
        IsTrue (list_all (fits (shape_of dtype.now)) values) →
        spelled text.now ≡ Some (text_of (shape_of dtype.now) values) →
        exceeds_limit beneath (shape_of dtype.now) values ≡ false) }
    ensures refused { IfErr result (λ error. (values : List Value) →
        IsTrue (list_all (fits (shape_of dtype.now)) values) →
        spelled text.now ≡ Some (text_of (shape_of dtype.now) values) →
        IsLimitOrMemoryError error) }
    ensures limit { IfErr result (λ error. error ≡ TextError.Limit → (values : List Value) →
        IsTrue (list_all (fits (shape_of dtype.now)) values) →
        spelled text.now ≡ Some (text_of (shape_of dtype.now) values) →
        IsTrue (exceeds_limit beneath (shape_of dtype.now) values)) }
    ensures fit { IfErr result (λ error. error ≡ TextError.Limit →
        HasFittingRows (shape_of dtype.now) text.now) }
    ensures syntax { IfErr result (IsRowTextError text.now) }
    ensures place { IfErr result (IsOffsetWithin (length text.now)) }
{
    let bytes = match spelling(alloc, text) {
        Ok(bytes) => bytes,
        Err(error) => return Err(located(alloc, text, error)),
    };
    match read_whole(dtype, alloc, &bytes, beneath) {
        Ok(array) => Ok(array),
        Err(fault) => Err(located(alloc, text, fault.placed(text, bytes.len()))),
    }
}

/// Returns the error of a text that is not read as rows: a syntax error with its position wherever
/// there is one, else `error`, as a misfit if it is an error of the text.
fn located(alloc: Global, text: &str, error: TextError) -> TextError
    ensures syntax { IsRowTextError text.now result }
    ensures place { IsOffsetWithin (length text.now) error →
        IsOffsetWithin (length text.now) result }
    ensures short { is_row_notation text.now ≡ true → IsLimitOrMemoryError error →
        IsLimitOrMemoryError result }
    ensures limit { result ≡ TextError.Limit → error ≡ TextError.Limit }
{
    if let TextError::OutOfMemory = error {
        return error;
    }
    let place = match find_row_error(alloc, text.as_bytes()) {
        Ok(place) => place,
        Err(_) => return TextError::OutOfMemory,
    };
    if let Some(at) = place {
        return TextError::Syntax { at };
    }
    match error {
        TextError::Syntax { at } => TextError::Type { at },
        _ => error,
    }
}

/// Parses the column and compares its printed form with the input, so that the correctness of a
/// returned column does not depend on the parser. Returns `Syntax` at the start of the input if
/// they differ.
fn read_whole(
    dtype: &ArrowDataType,
    alloc: Global,
    bytes: &[u8],
    beneath: NullSlots,
) -> Result<ArrayRef, Fault>
    ensures dtype { IfOk result (λ array. type_of array.column ≡ shape_of dtype.now) }
    ensures text { IfOk result (λ array.
        text_of (shape_of dtype.now) (rows array.column) ≡ bytes.now) }
    ensures within { IfOk result (λ _. (values : List Value) →
        IsTrue (list_all (fits (shape_of dtype.now)) values) →
        bytes.now ≡ text_of (shape_of dtype.now) values →
        exceeds_limit beneath (shape_of dtype.now) values ≡ false) }
    ensures refused { IfErr result (λ fault. (values : List Value) →
        IsTrue (list_all (fits (shape_of dtype.now)) values) →
        bytes.now ≡ text_of (shape_of dtype.now) values →
        ReportsLimit (exceeds_limit beneath (shape_of dtype.now) values) fault) }
    ensures fit { IfErr result (λ fault. fault ≡ Fault.Limit →
        HasRows (shape_of dtype.now) bytes.now) }
{
    let array = match read_rows(dtype, alloc, bytes, beneath) {
        Ok(array) => array,
        Err(fault) => return Err(fault),
    };
    match has_text(dtype, alloc, bytes, &array) {
        Ok(true) => Ok(array),
        Ok(false) => {
            drop(array);
            Err(Fault::Syntax(bytes.len()))
        }
        Err(fault) => {
            drop(array);
            Err(fault)
        }
    }
}

/// Returns whether the column has type `dtype` and prints as `bytes`. Fails only with
/// `OutOfMemory`.
fn has_text(
    dtype: &ArrowDataType,
    alloc: Global,
    bytes: &[u8],
    array: &ArrayRef,
) -> Result<bool, Fault>
    ensures dtype { IfOk result (λ same.
        IsTrue same → type_of array.now.column ≡ shape_of dtype.now) }
    ensures text { IfOk result (λ same.
        IsTrue same → text_of (shape_of dtype.now) (rows array.now.column) ≡ bytes.now) }
    ensures whole { type_of array.now.column ≡ shape_of dtype.now →
        text_of (shape_of dtype.now) (rows array.now.column) ≡ bytes.now →
        IfOk result (λ same. IsTrue same) }
    ensures memory { IfErr result IsMemoryFault }
{
    if !array.has_dtype(dtype) {
        return Ok(false);
    }
    match print_rows(alloc, array.as_column()) {
        Ok(printed) => Ok(printed.as_bytes() == bytes),
        Err(_) => Err(Fault::OutOfMemory),
    }
}

/// Parses the rows and builds the column. Fails with `Limit` only if the rows fit the type.
fn read_rows(
    dtype: &ArrowDataType,
    alloc: Global,
    bytes: &[u8],
    beneath: NullSlots,
) -> Result<ArrayRef, Fault>
    ensures made { (values : List Value) →
        IsTrue (list_all (fits (shape_of dtype.now)) values) →
        bytes.now ≡ text_of (shape_of dtype.now) values →
        MakesColumn beneath (shape_of dtype.now) values result }
    ensures fit { IfErr result (λ fault. fault ≡ Fault.Limit →
        HasRows (shape_of dtype.now) bytes.now) }
{
    let (items, rest) = match read_items(dtype, alloc, bytes) {
        Ok(read) => read,
        Err(fault) => return Err(no_limit(fault)),
    };
    if !rest.is_empty() {
        return Err(Fault::Syntax(rest.len()));
    }
    match build_rows(dtype, alloc, &items, beneath) {
        Ok(array) => Ok(array),
        Err(fault) => Err(of_rows(fault, dtype, alloc, bytes, &items)),
    }
}

/// Returns an error of the reader, which has no limits, as it is.
fn no_limit(fault: Fault) -> Fault
    ensures limit { result ≢ Fault.Limit }
    ensures memory { IsMemoryFault fault → IsMemoryFault result }
{
    match fault {
        Fault::Limit => Fault::Syntax(0),
        _ => fault,
    }
}

/// Returns an error of the rows: an exceeded limit is a misfit if they do not fit the type or
/// `bytes` is not their text.
fn of_rows(
    fault: Fault,
    dtype: &ArrowDataType,
    alloc: Global,
    bytes: &[u8],
    items: &[Item],
) -> Fault
    ensures fit { result ≡ Fault.Limit → HasRows (shape_of dtype.now) bytes.now }
    ensures told { (exceeds : Bool) →
        IsTrue (list_all (fits (shape_of dtype.now)) (map item_value items.now)) →
        bytes.now ≡ text_of (shape_of dtype.now) (map item_value items.now) →
        ReportsLimit exceeds fault → ReportsLimit exceeds result }
{
    let Fault::Limit = fault else {
        return no_limit(fault);
    };
    match have_text(dtype, alloc, bytes, items) {
        Ok(true) => Fault::Limit,
        Ok(false) => Fault::Type(bytes.len()),
        Err(_) => Fault::OutOfMemory,
    }
}

/// Builds the column of these rows.
fn build_rows(
    dtype: &ArrowDataType,
    alloc: Global,
    items: &[Item],
    beneath: NullSlots,
) -> Result<ArrayRef, Fault>
    ensures { list_all (fits (shape_of dtype.now)) (map item_value items.now) ≡ true →
        MakesColumn beneath (shape_of dtype.now) (map item_value items.now) result }
{
    let rows = match single_runs(alloc, items) {
        Ok(rows) => rows,
        Err(fault) => return Err(fault),
    };
    build(dtype, alloc, &rows, beneath)
}

/// Returns each of the rows as a run of one. Fails only with `OutOfMemory`.
fn single_runs(alloc: Global, items: &[Item]) -> Result<Vec<RowRun<'_>>, Fault>
    ensures rows { IfOk result (λ rows.
        rows_repeated rows.items ≡ map item_value items.now) }
    ensures memory { IfErr result IsMemoryFault }
{
    let mut rows = Vec::with_capacity(alloc, items.len())?;
    push_entries(&mut rows, items)?;
    Ok(rows)
}
