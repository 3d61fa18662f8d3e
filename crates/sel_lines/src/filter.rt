//! The command `filter COL MASK`.
ghost use Rattle.std.specs.Prelude.{◌≡◌, ◌≤◌, IfOk, IfErr, All, length, map, option_map, string_bytes};
ghost use Rattle.sel_bits.specs.Faults.{IsOutOfMemory};
ghost use Rattle.sel_kernels.specs.Select.{select, effective_mask};
ghost use Rattle.sel_arrow.specs.Columns.{boolean_rows, primitive_rows};
ghost use Rattle.sel_arrow.specs.Rows.{rows, type_of};
ghost use Rattle.sel_arrow.specs.Shape.{of_int64};
ghost use Rattle.sel_arrow.specs.Value.{Number, Truth};
ghost use Rattle.sel_lines.specs.Columns.{column_text};
ghost use Rattle.sel_lines.specs.Filter.{filter_answer, filter_words};
ghost use Rattle.sel_lines.specs.Lines.{longest_line};
ghost use Rattle.sel_lines.specs.Rows.{parsed_rows};

use crate::columns::{parse_column, print_computed};
use crate::rows::Rows;
use sel_arrow::array::Array;
use sel_arrow::array_ref::ArrayRef;
use sel_arrow::boolean::BooleanArray;
use sel_arrow::primitive::PrimitiveArray;
use sel_bits::faults::PolarsResult;
use sel_kernels::filter::filter;
use std::alloc::{AllocError, Global};

/// Returns the output of `filter` for `words`, or `None` if they are invalid.
///
/// # Errors
/// `AllocError` if an allocation fails.
pub fn answer_filter(alloc: Global, words: &[&str]) -> Result<Option<String>, AllocError>
    requires { All (λ word. length word.now ≤ longest_line) words.now }
    ensures { IfOk result (λ answer.
        option_map string_bytes answer ≡ filter_words (map (λ word. word.now) words.now)) }
{
    if words.len() != 2 {
        return Ok(None);
    }
    let Some(column) = parse_column::<i64>(alloc, words[0])? else {
        return Ok(None);
    };
    let Some(mask) = parse_column::<bool>(alloc, words[1])? else {
        return Ok(None);
    };
    answer_rows(alloc, column, mask)
}

fn answer_rows(
    alloc: Global,
    column: Rows<i64>,
    mask: Rows<bool>,
) -> Result<Option<String>, AllocError>
    ensures { IfOk result (λ answer. option_map string_bytes answer
        ≡ filter_answer (parsed_rows Number column) (parsed_rows Truth mask)) }
{
    print_computed(alloc, filter_rows(alloc, column, mask))
}

// Returns the parsed rows that the parsed mask keeps, or `None` if the lengths differ.
fn filter_rows(
    alloc: Global,
    column: Rows<i64>,
    mask: Rows<bool>,
) -> PolarsResult<Option<PrimitiveArray<i64>>>
    ensures rows { IfOk result (λ kept. option_map
        (λ column. column_text (primitive_rows column)) kept
        ≡ filter_answer (parsed_rows Number column) (parsed_rows Truth mask)) }
    ensures refusal { IfErr result IsOutOfMemory }
{
    let mask = mask.into_boolean(alloc)?;
    filter_numbers(alloc, column.into_primitive(alloc)?, &mask)
}

// Returns the rows that the mask keeps, or `None` if the lengths differ.
fn filter_numbers(
    alloc: Global,
    column: PrimitiveArray<i64>,
    mask: &BooleanArray,
) -> PolarsResult<Option<PrimitiveArray<i64>>>
    ensures rows { IfOk result (λ kept. option_map
        (λ column. column_text (primitive_rows column)) kept
        ≡ filter_answer (primitive_rows column) (boolean_rows mask.now)) }
    ensures refusal { IfErr result IsOutOfMemory }
{
    if column.len() != mask.len() {
        return Ok(None);
    }
    Ok(Some(filter_column(alloc, column, mask)?))
}

// Returns the rows that a mask of the same length keeps.
fn filter_column(
    alloc: Global,
    column: PrimitiveArray<i64>,
    mask: &BooleanArray,
) -> PolarsResult<PrimitiveArray<i64>>
    requires { length (primitive_rows column) ≡ length (boolean_rows mask.now) }
    ensures rows { IfOk result (λ kept. primitive_rows kept ≡
        select (primitive_rows column) (effective_mask (boolean_rows mask.now))) }
    ensures refusal { IfErr result IsOutOfMemory }
{
    let array = column.into_ref();
    let kept = filter(alloc, &array, mask);
    drop(array);
    Ok(numbers_of(kept?))
}

/// Returns the primitive column in `array`, which must have type int64.
pub fn numbers_of(array: ArrayRef) -> PrimitiveArray<i64>
    requires { type_of array.column ≡ of_int64 }
    ensures { primitive_rows result ≡ rows array.column }
{
    match array.into_array::<PrimitiveArray<i64>>() {
        Ok(numbers) => numbers,
        Err(_) => unreachable!(),
    }
}
