//! The command `table MASK IDX COL ...`.
ghost use Rattle.std.specs.Prelude.{◌≡◌, ◌≤◌, IfOk, IfErr, IfSome, All, length, map, option_map, string_bytes, pos};
ghost use Rattle.sel_bits.specs.Faults.{IsOutOfMemory};
ghost use Rattle.sel_arrow.specs.Columns.{boolean_rows, primitive_rows};
ghost use Rattle.sel_arrow.specs.Rows.{rows, type_of};
ghost use Rattle.sel_arrow.specs.Shape.{of_int64};
ghost use Rattle.sel_arrow.specs.Value.{Number, Truth};
ghost use Rattle.sel_lines.specs.Columns.{all_some, column_of, column_text};
ghost use Rattle.sel_lines.specs.Lines.{longest_line};
ghost use Rattle.sel_lines.specs.Numbers.{number_of};
ghost use Rattle.sel_lines.specs.Rows.{parsed_rows};
ghost use Rattle.sel_kernels.specs.SelectRows.{rows_of_arrays};
ghost use Rattle.sel_lines.specs.Table.{columns_text, selected_rows, table_answer, table_words};
ghost use Rattle.sel_lines.specs.Parts.{AreNumbers};

use crate::columns::{parse_column, print_column};
use crate::line_errors::memory_error;
use crate::rows::Rows;
use sel_arrow::array::Array;
use sel_arrow::array_ref::ArrayRef;
use sel_arrow::boolean::BooleanArray;
use sel_arrow::column::Column;
use sel_arrow::primitive::IdxArr;
use sel_bits::faults::PolarsResult;
use sel_kernels::select::{select_is_safe, select_rows};
use std::alloc::{AllocError, Global};

/// Returns the output of `table` for `words`, or `None` if they are invalid.
///
/// # Errors
/// `AllocError` if an allocation fails.
pub fn answer_table(alloc: Global, words: &[&str]) -> Result<Option<String>, AllocError>
    requires { All (λ word. length word.now ≤ longest_line) words.now }
    ensures { IfOk result (λ answer.
        option_map string_bytes answer ≡ table_words (map (λ word. word.now) words.now)) }
{
    if words.len() < 3 {
        return Ok(None);
    }
    let Some(mask) = parse_column::<bool>(alloc, words[0])? else {
        return Ok(None);
    };
    let Some(indices) = parse_column::<u32>(alloc, words[1])? else {
        return Ok(None);
    };
    let Some(columns) = parse_columns(alloc, &words[2..])? else {
        return Ok(None);
    };
    let answer = answer_columns(alloc, mask, indices, &columns);
    drop(columns);
    answer
}

// Parses one column from each word.
fn parse_columns(alloc: Global, words: &[&str]) -> Result<Option<Vec<ArrayRef>>, AllocError>
    requires { All (λ word. length word.now ≤ longest_line) words.now }
    ensures rows { IfOk result (λ columns.
        option_map (λ columns. rows_of_arrays columns.items) columns
        ≡ all_some (map (λ word. column_of number_of word.now) words.now)) }
    ensures dtype { IfOk result (λ columns. IfSome columns
        (λ columns. AreNumbers columns.items)) }
{
    let mut columns = Vec::with_capacity(alloc, words.len())?;
    for word in words {
        match parse_array(alloc, word) {
            Ok(Some(column)) => columns.push_reserved(column),
            Ok(None) => {
                drop(columns);
                return Ok(None);
            }
            Err(fault) => {
                drop(columns);
                return Err(fault);
            }
        }
    }
    Ok(Some(columns))
}

fn parse_array(alloc: Global, word: &str) -> Result<Option<ArrayRef>, AllocError>
    requires { length word.now ≤ longest_line }
    ensures rows { IfOk result (λ column.
        option_map (λ column. rows column.column) column ≡ column_of number_of word.now) }
    ensures dtype { IfOk result (λ column.
        IfSome column (λ column. type_of column.column ≡ of_int64)) }
{
    let Some(rows) = parse_column::<i64>(alloc, word)? else {
        return Ok(None);
    };
    match rows.into_primitive(alloc) {
        Ok(column) => Ok(Some(column.into_ref())),
        Err(fault) => Err(memory_error(fault)),
    }
}

fn answer_columns(
    alloc: Global,
    mask: Rows<bool>,
    indices: Rows<u32>,
    columns: &[ArrayRef],
) -> Result<Option<String>, AllocError>
    requires { AreNumbers columns.now }
    ensures { IfOk result (λ answer. option_map string_bytes answer
        ≡ table_answer (parsed_rows Truth mask) (parsed_rows (λ n. Number (pos n)) indices)
        (rows_of_arrays columns.now)) }
{
    match select_read(alloc, mask, indices, columns) {
        Ok(Some(selected)) => {
            let printed = print_columns(alloc, &selected);
            drop(selected);
            Ok(Some(printed?))
        }
        Ok(None) => Ok(None),
        Err(fault) => Err(memory_error(fault)),
    }
}

fn select_read(
    alloc: Global,
    mask: Rows<bool>,
    indices: Rows<u32>,
    columns: &[ArrayRef],
) -> PolarsResult<Option<Vec<ArrayRef>>>
    requires { AreNumbers columns.now }
    ensures rows { IfOk result (λ selected.
        option_map (λ selected. rows_of_arrays selected.items) selected
        ≡ selected_rows (parsed_rows Truth mask) (parsed_rows (λ n. Number (pos n)) indices)
        (rows_of_arrays columns.now)) }
    ensures dtype { IfOk result (λ selected. IfSome selected
        (λ selected. AreNumbers selected.items)) }
    ensures refusal { IfErr result IsOutOfMemory }
{
    let mask = mask.into_boolean(alloc)?;
    let indices = indices.into_primitive(alloc)?;
    select_columns(alloc, &mask, &indices, columns)
}

// Returns the rows at `indices` among the rows that `mask` keeps, or `None` if `select_is_safe`
// returns false.
#[tactic(auto, using(crate::proofs::TableWords::same_types))]
fn select_columns(
    alloc: Global,
    mask: &BooleanArray,
    indices: &IdxArr,
    columns: &[ArrayRef],
) -> PolarsResult<Option<Vec<ArrayRef>>>
    requires { AreNumbers columns.now }
    ensures rows { IfOk result (λ selected.
        option_map (λ selected. rows_of_arrays selected.items) selected
        ≡ selected_rows (boolean_rows mask.now) (primitive_rows indices.now)
        (rows_of_arrays columns.now)) }
    ensures dtype { IfOk result (λ selected. IfSome selected
        (λ selected. AreNumbers selected.items)) }
    ensures refusal { IfErr result IsOutOfMemory }
{
    if !select_is_safe(columns, mask, indices) {
        return Ok(None);
    }
    Ok(Some(select_rows(alloc, columns, mask, indices)?))
}

// Formats int64 columns, separated by spaces.
fn print_columns(alloc: Global, columns: &[ArrayRef]) -> Result<String, AllocError>
    requires { AreNumbers columns.now }
    ensures { IfOk result (λ text. string_bytes text ≡
        columns_text (rows_of_arrays columns.now)) }
{
    let mut text = String::new(alloc);
    for place in 0..columns.len() {
        if place > 0 {
            text.push(' ')?;
        }
        let printed = print_numbers(alloc, &columns[place])?;
        text.push_str(&printed)?;
    }
    Ok(text)
}

fn print_numbers(alloc: Global, column: &ArrayRef) -> Result<String, AllocError>
    requires { type_of column.now.column ≡ of_int64 }
    ensures { IfOk result (λ text. string_bytes text ≡ column_text (rows column.now.column)) }
{
    match column.as_column() {
        Column::Int64(numbers) => print_column(alloc, numbers),
        _ => unreachable!(),
    }
}
