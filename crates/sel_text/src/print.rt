//! Printing of columns.

ghost use Rattle.std.specs.Prelude.{◌≡◌, ◌+◌, ◌≤◌, ◌<◌, ◌++◌, ℕ, All, length, map, slice_index_or, string_bytes, true, IsTrue, IfOk, IfErr, OnOk, encode_utf8};
ghost use Rattle.std.specs.Char.{digit_char};
ghost use Rattle.std.specs.Str.{is_utf8};
ghost use Rattle.std.specs.List.{flat_map, join_with_byte, slice_range};
ghost use Rattle.sel_bits.specs.Faults.{IsOutOfMemory};
ghost use Rattle.sel_arrow.specs.Rows.{rows, type_of, IsWellFormed};
ghost use Rattle.sel_arrow.specs.Shape.{Shape};
ghost use Rattle.sel_arrow.specs.Value.{Null};
ghost use Rattle.sel_text.specs.Cells.{cell_value, whole_number, CellFits, CellKind, HasCellRow, is_flat};
ghost use Rattle.sel_text.specs.Texts.{escaped, parenthesized, hex_byte, hex_text, quoted, text_of, value_text};
ghost use Rattle.sel_text.specs.Steps.{field_text};

use crate::cell::{Cell, Whole, cell_at};
use sel_arrow::binview::bytes_at;
use sel_arrow::column::Column;
use sel_bits::faults::PolarsResult;
use std::alloc::{AllocError, Global};
use std::str;

/// Returns the notation of the rows, as in `[1,null,-3]`, without spaces between its parts.
///
/// # Requires
/// The column is well-formed; check with `Column::is_well_formed`.
///
/// # Errors
/// `OutOfMemory` if an allocation fails.
pub fn print_rows(alloc: Global, column: &Column) -> PolarsResult<String>
    requires { IsWellFormed column.now }
    ensures text { IfOk result (λ text. string_bytes text ≡
        text_of (type_of column.now) (rows column.now)) }
    ensures refusal { IfErr result IsOutOfMemory }
{
    let mut text = String::new(alloc);
    push_items(column, 0, column.len(), &mut text)?;
    Ok(text)
}

/// Returns the notation of row `i`.
///
/// # Requires
/// The column is well-formed (check with `Column::is_well_formed`), and `i` is less than the number
/// of rows.
///
/// # Errors
/// `OutOfMemory` if an allocation fails.
pub fn row_at(alloc: Global, column: &Column, i: usize) -> PolarsResult<String>
    requires formed { IsWellFormed column.now }
    requires inside { i < length (rows column.now) }
    ensures text { IfOk result (λ text. string_bytes text ≡
        value_text (type_of column.now) (slice_index_or (rows column.now) i Null)) }
    ensures refusal { IfErr result IsOutOfMemory }
{
    let mut text = String::new(alloc);
    push_row(column, i, &mut text)?;
    Ok(text)
}

/// Appends the notation of row `i` to `text`.
#[cycle(printing)]
fn push_row(column: &Column, i: usize, text: &mut String) -> Result<(), AllocError>
    requires { HasCellRow i column.now }
    ensures { OnOk result (string_bytes text.new ≡ string_bytes text.old ++
        value_text (type_of column.now) (slice_index_or (rows column.now) i Null)) }
{
    match cell_at(column, i) {
        Cell::Items(child, start, end) => push_items(child, start, end, text),
        Cell::Parts(fields, place) => push_parts(fields, place, text),
        cell => push_flat(cell, text),
    }
}

/// Appends the notation of the list of the rows from `start` up to `end` to `text`.
#[cycle(printing)]
fn push_items(
    column: &Column,
    start: usize,
    end: usize,
    text: &mut String,
) -> Result<(), AllocError>
    requires formed { IsWellFormed column.now }
    requires order { start ≤ end }
    requires inside { end ≤ length (rows column.now) }
    ensures { OnOk result (string_bytes text.new ≡ string_bytes text.old ++
        text_of (type_of column.now) (slice_range (rows column.now) start end)) }
{
    text.push('[')?;
    for i in start..end {
        if i > start {
            text.push(',')?;
        }
        push_row(column, i, text)?;
    }
    text.push(']')?;
    Ok(())
}

/// Appends the notation of the struct value of row `place` of each field to `text`.
#[cycle(printing)]
fn push_parts(fields: &[Column], place: usize, text: &mut String) -> Result<(), AllocError>
    requires { All (HasCellRow place) fields.now }
    ensures { OnOk result (string_bytes text.new ≡ string_bytes text.old ++
        parenthesized (map (field_text place) fields.now)) }
{
    text.push('(')?;
    for (k, field) in fields.iter().enumerate() {
        if k > 0 {
            text.push(',')?;
        }
        push_row(field, place, text)?;
    }
    text.push(')')?;
    Ok(())
}

/// Appends the notation of a row that is neither a list nor a struct value to `text`.
fn push_flat(cell: Cell, text: &mut String) -> Result<(), AllocError>
    requires flat { is_flat cell ≡ true }
    requires fits { CellFits cell }
    ensures { OnOk result ((shape : Shape) → CellKind shape cell.entry →
        string_bytes text.new ≡ string_bytes text.old ++ value_text shape (cell_value cell.entry)) }
{
    match cell {
        Cell::Null => text.push_str("null"),
        Cell::Truth(true) => text.push_str("true"),
        Cell::Truth(false) => text.push_str("false"),
        Cell::Whole(Whole::Signed(number)) => write!(text, "{number}"),
        Cell::Whole(Whole::Unsigned(number)) => write!(text, "{number}"),
        Cell::Bytes(bytes) => push_hex(bytes, text),
        Cell::View(buffers, view) => {
            let space = view.inline_space();
            push_hex(bytes_at(buffers, view, &space), text)
        }
        Cell::Text(buffers, view) => {
            let space = view.inline_space();
            push_quoted(bytes_at(buffers, view, &space), text)
        }
        Cell::Items(..) | Cell::Parts(..) => unreachable!(),
    }
}

/// Appends bytes in hexadecimal to `text`.
pub(crate) fn push_hex(bytes: &[u8], text: &mut String) -> Result<(), AllocError>
    ensures { OnOk result (string_bytes text.new ≡ string_bytes text.old ++ hex_text bytes.now) }
{
    text.push_str("h\"")?;
    for byte in bytes {
        push_hex_byte(*byte, text)?;
    }
    text.push('"')?;
    Ok(())
}

/// Appends the two hexadecimal digits of a byte to `text`.
fn push_hex_byte(byte: u8, text: &mut String) -> Result<(), AllocError>
    ensures { OnOk result (string_bytes text.new ≡ string_bytes text.old ++ hex_byte byte) }
{
    text.push(hex_digit(byte / 16))?;
    text.push(hex_digit(byte % 16))
}

/// Returns the hexadecimal digit of a value less than 16.
fn hex_digit(digit: u8) -> char
    requires { digit < 16 }
    ensures { result ≡ digit_char digit }
{
    if digit < 10 {
        char::from(b'0' + digit)
    } else {
        char::from(b'a' + (digit - 10))
    }
}

/// Appends a quoted UTF-8 string to `text`.
pub(crate) fn push_quoted(bytes: &[u8], text: &mut String) -> Result<(), AllocError>
    requires { IsTrue (is_utf8 bytes.now) }
    ensures { OnOk result (string_bytes text.new ≡ string_bytes text.old ++ quoted bytes.now) }
{
    let Ok(source) = str::from_utf8(bytes) else {
        unreachable!()
    };
    text.push('"')?;
    for letter in source.chars() {
        push_escaped(letter, text)?;
    }
    text.push('"')?;
    Ok(())
}

/// Appends a character as it is written between quotes to `text`.
#[tactic(auto, using(crate::proofs::Escapes::plain_letter))]
pub(crate) fn push_escaped(letter: char, text: &mut String) -> Result<(), AllocError>
    ensures { OnOk result (string_bytes text.new ≡ string_bytes text.old ++
        flat_map escaped (encode_utf8 letter)) }
{
    match letter {
        '"' => text.push_str("\\\""),
        '\\' => text.push_str("\\\\"),
        '\n' => text.push_str("\\n"),
        '\r' => text.push_str("\\r"),
        '\t' => text.push_str("\\t"),
        '\u{8}' => text.push_str("\\b"),
        '\u{c}' => text.push_str("\\f"),
        '\0'..='\u{1f}' => {
            text.push_str("\\u00")?;
            push_hex_byte(letter as u8, text)
        }
        _ => text.push(letter),
    }
}
