//! Parsing and formatting of columns.
ghost use Rattle.std.specs.Prelude.{◌≡◌, ℕ, ◌+◌, ◌<◌, ◌≤◌, ◌++◌, List, Option, Some, IsOkAnd, IfOk, IfErr, OnOk, map, length, option_map, string_bytes, slice_index_or};
ghost use Rattle.std.specs.List.{join_with_byte};
ghost use Rattle.sel_bits.specs.Faults.{IsOutOfMemory};
ghost use Rattle.sel_arrow.specs.Columns.{primitive_rows};
ghost use Rattle.sel_arrow.specs.Value.{Null, Number};
ghost use Rattle.sel_lines.specs.Columns.{all_some, row_of, column_of, row_text, column_text};
ghost use Rattle.sel_lines.specs.Rows.{parsed_rows, shown_row};
ghost use Rattle.sel_lines.specs.Lines.{longest_line};

use crate::line_errors::memory_error;
use crate::numbers::Item;
use crate::rows::Rows;
use crate::words::split_at_each;
use sel_arrow::array::Array;
use sel_arrow::primitive::PrimitiveArray;
use sel_arrow::utf8view::Utf8ViewArray;
use sel_bits::faults::PolarsResult;
use std::alloc::{AllocError, Global};

/// Parses a column, or returns `None` if `word` is invalid.
///
/// # Requires
/// `word` has at most `LONGEST_LINE` bytes.
///
/// # Errors
/// `AllocError` if an allocation fails.
pub fn parse_column<T: Item>(alloc: Global, word: &str) -> Result<Option<Rows<T>>, AllocError>
    requires { length word.now ≤ longest_line }
    ensures { IfOk result (λ column. option_map (parsed_rows T.shown) column ≡
        column_of T.value_of word.now) }
{
    if word == "-" {
        return Ok(Some(Rows {
            values: Vec::new(alloc),
            validity: Vec::new(alloc),
        }));
    }
    let words = split_at_each(alloc, word, ',')?;
    parse_rows(alloc, &words)
}

#[tactic(auto, using(crate::proofs::RowLemmas::rows_none))]
fn parse_rows<T: Item>(alloc: Global, words: &[&str]) -> Result<Option<Rows<T>>, AllocError>
    requires { length words.now ≤ longest_line + 1 }
    ensures { IfOk result (λ column. option_map (parsed_rows T.shown) column
        ≡ all_some (map (λ word. row_of T.value_of word.now) words.now)) }
{
    let mut values = Vec::with_capacity(alloc, words.len())?;
    let mut validity = Vec::with_capacity(alloc, words.len())?;
    for word in words {
        let Some(row) = parse_row::<T>(word) else {
            return Ok(None);
        };
        values.push(row.unwrap_or(T::BENEATH_NULL))?;
        validity.push(row.is_some())?;
    }
    Ok(Some(Rows { values, validity }))
}

// Parses a row: `n` for null, or an item.
fn parse_row<T: Item>(word: &str) -> Option<Option<T>>
    ensures { option_map (shown_row T.shown) result ≡ row_of T.value_of word.now }
{
    if word == "n" {
        return Some(None);
    }
    match T::parse(word) {
        Some(item) => Some(Some(item)),
        None => None,
    }
}

/// Formats a column.
///
/// # Errors
/// `AllocError` if an allocation fails.
#[tactic(auto, using(crate::proofs::RowLemmas::text_of_none, crate::proofs::RowLemmas::text_of_some))]
pub fn print_column<C: Printed>(alloc: Global, column: &C) -> Result<String, AllocError>
    ensures { IfOk result (λ text. string_bytes text ≡ column_text (C.rows column.now)) }
{
    if column.is_empty() {
        return String::from_str(alloc, "-");
    }
    print_rows(alloc, column)
}

/// Formats the column that a command computed, or returns `None` if there is none.
///
/// # Requires
/// The only error is `OutOfMemory`.
///
/// # Errors
/// `AllocError` if an allocation fails or has failed before.
pub fn print_computed<C: Printed + Drop>(
    alloc: Global,
    computed: PolarsResult<Option<C>>,
) -> Result<Option<String>, AllocError>
    requires { IfErr computed IsOutOfMemory }
    ensures { IfOk result (λ text. IsOkAnd computed (λ column.
        option_map string_bytes text ≡ option_map (λ c. column_text (C.rows c)) column)) }
{
    match computed {
        Ok(Some(column)) => print_some(alloc, &column),
        Ok(None) => Ok(None),
        Err(fault) => Err(memory_error(fault)),
    }
}

fn print_some<C: Printed>(alloc: Global, column: &C) -> Result<Option<String>, AllocError>
    ensures { IfOk result (λ text.
        option_map string_bytes text ≡ Some (column_text (C.rows column.now))) }
{
    Ok(Some(print_column(alloc, column)?))
}

fn print_rows<C: Printed>(alloc: Global, column: &C) -> Result<String, AllocError>
    ensures { IfOk result (λ text. string_bytes text ≡
        join_with_byte 44 (map row_text (C.rows column.now))) }
{
    let mut text = String::new(alloc);
    for place in 0..column.len() {
        if place > 0 {
            text.push(',')?;
        }
        column.push_row(alloc, place, &mut text)?;
    }
    Ok(text)
}

/// A column whose rows can be formatted.
pub trait Printed: Array {
    /// Appends row `place` to `text`.
    fn push_row(&self, alloc: Global, place: usize, text: &mut String) -> Result<(), AllocError>
        requires { place < length (Self.rows self.now) }
        ensures { OnOk result (string_bytes text.new ≡
            string_bytes text.old ++ row_text (slice_index_or (Self.rows self.now) place Null)) };
}

impl Printed for PrimitiveArray<i64> {
    fn push_row(&self, _alloc: Global, place: usize, text: &mut String) -> Result<(), AllocError> {
        match self.get(place) {
            Some(number) => write!(text, "{number}"),
            None => text.push('n'),
        }
    }
}

impl Printed for PrimitiveArray<u32> {
    fn push_row(&self, _alloc: Global, place: usize, text: &mut String) -> Result<(), AllocError> {
        match self.get(place) {
            Some(index) => write!(text, "{index}"),
            None => text.push('n'),
        }
    }
}

impl Printed for Utf8ViewArray {
    fn push_row(&self, alloc: Global, place: usize, text: &mut String) -> Result<(), AllocError> {
        match self.get(alloc, place) {
            Ok(Some(row)) => {
                text.push('=')?;
                text.push_str(&row)
            }
            Ok(None) => text.push('n'),
            Err(fault) => Err(memory_error(fault)),
        }
    }
}
