//! Comparison of columns by their rows.

ghost use Rattle.std.specs.Prelude.{◌≡◌, ◌+◌, ◌≤◌, ◌↔◌, ℕ, All, length, map, slice_index_or, true, IsTrue};
ghost use Rattle.std.specs.List.{slice_range};
ghost use Rattle.sel_arrow.specs.Nested.{list_of, struct_at};
ghost use Rattle.sel_arrow.specs.Rows.{rows, IsWellFormed};
ghost use Rattle.sel_arrow.specs.Value.{Null, Bytes};
ghost use Rattle.sel_text.specs.Cells.{cell_value, whole_number, CellFits, HasCellRow, is_flat};

use crate::cell::{Cell, Whole, cell_at};
use sel_arrow::binview::bytes_at;
use sel_arrow::column::Column;

/// Returns whether two columns have the same rows. Does not allocate.
///
/// Compares values and not types: an `i8` of 1 equals a `u64` of 1, bytes equal a string with the
/// same bytes, a list equals a list with the same entries in another list layout, and a null column
/// equals any column of the same length whose rows are all null. Values in null slots are ignored.
///
/// # Requires
/// Both columns are well-formed; check with `Column::is_well_formed`.
pub fn equal_rows(column: &Column, other: &Column) -> bool
    requires formed { IsWellFormed column.now }
    requires others { IsWellFormed other.now }
    ensures { IsTrue result ↔ (rows column.now ≡ rows other.now) }
{
    equal_items(column, 0, column.len(), Cell::Items(other, 0, other.len()))
}

/// Returns whether row `i` of one column equals row `j` of another.
#[cycle(comparing)]
fn equal_at(column: &Column, i: usize, other: &Column, j: usize) -> bool
    requires row { HasCellRow i column.now }
    requires twin { HasCellRow j other.now }
    ensures { IsTrue result ↔
        (slice_index_or (rows column.now) i Null ≡ slice_index_or (rows other.now) j Null) }
{
    let twin = cell_at(other, j);
    match cell_at(column, i) {
        Cell::Items(child, start, end) => equal_items(child, start, end, twin),
        Cell::Parts(fields, place) => equal_parts(fields, place, twin),
        cell => equal_flat(cell, twin),
    }
}

/// Returns whether a row equals the list of the rows of `column` from `start` up to `end`.
#[cycle(comparing)]
#[tactic(auto, using(crate::proofs::Equalities::part_more, crate::proofs::Equalities::lists_differ, crate::proofs::Equalities::lists_differ_at, crate::proofs::Equalities::lists_same))]
fn equal_items(column: &Column, start: usize, end: usize, twin: Cell) -> bool
    requires formed { IsWellFormed column.now }
    requires order { start ≤ end }
    requires inside { end ≤ length (rows column.now) }
    requires fits { CellFits twin }
    ensures { IsTrue result ↔
        (list_of (slice_range (rows column.now) start end) ≡ cell_value twin.entry) }
{
    let Cell::Items(other, from, to) = twin else {
        return false;
    };
    if end - start != to - from {
        return false;
    }
    for k in 0..end - start {
        if !equal_at(column, start + k, other, from + k) {
            return false;
        }
    }
    true
}

/// Returns whether a row equals the struct value of row `place` of each field.
#[cycle(comparing)]
#[tactic(auto, using(sel_arrow::proofs::Types::both_lists))]
fn equal_parts(fields: &[Column], place: usize, twin: Cell) -> bool
    requires rows { All (HasCellRow place) fields.now }
    requires fits { CellFits twin }
    ensures { IsTrue result ↔ (struct_at (map rows fields.now) place ≡ cell_value twin.entry) }
{
    let Cell::Parts(others, at) = twin else {
        return false;
    };
    if fields.len() != others.len() {
        return false;
    }
    for (k, field) in fields.iter().enumerate() {
        if !equal_at(field, place, &others[k], at) {
            return false;
        }
    }
    true
}

/// Returns whether two rows are equal, the first of which is neither a list nor a struct value.
fn equal_flat(cell: Cell, twin: Cell) -> bool
    requires flat { is_flat cell ≡ true }
    requires fits { CellFits cell }
    requires twin { CellFits twin }
    ensures { IsTrue result ↔ (cell_value cell.entry ≡ cell_value twin.entry) }
{
    match cell {
        Cell::Null => matches!(twin, Cell::Null),
        Cell::Truth(truth) => match twin {
            Cell::Truth(other) => truth == other,
            _ => false,
        },
        Cell::Whole(number) => match twin {
            Cell::Whole(other) => equal_numbers(number, other),
            _ => false,
        },
        Cell::Bytes(bytes) => equal_bytes(bytes, twin),
        Cell::View(buffers, view) => {
            let space = view.inline_space();
            equal_bytes(bytes_at(buffers, view, &space), twin)
        }
        Cell::Text(buffers, view) => {
            let space = view.inline_space();
            equal_bytes(bytes_at(buffers, view, &space), twin)
        }
        Cell::Items(..) | Cell::Parts(..) => unreachable!(),
    }
}

/// Returns whether a row equals these bytes.
fn equal_bytes(bytes: &[u8], twin: Cell) -> bool
    requires { CellFits twin }
    ensures { IsTrue result ↔ (Bytes bytes.now ≡ cell_value twin.entry) }
{
    match twin {
        Cell::Bytes(others) => bytes == others,
        Cell::View(buffers, view) => {
            let space = view.inline_space();
            bytes == bytes_at(buffers, view, &space)
        }
        Cell::Text(buffers, view) => {
            let space = view.inline_space();
            bytes == bytes_at(buffers, view, &space)
        }
        _ => false,
    }
}

/// Returns whether two integers are equal.
fn equal_numbers(number: Whole, other: Whole) -> bool
    ensures { IsTrue result ↔ (whole_number number ≡ whole_number other) }
{
    match (number, other) {
        (Whole::Signed(x), Whole::Signed(y)) => x == y,
        (Whole::Unsigned(x), Whole::Unsigned(y)) => x == y,
        (Whole::Signed(x), Whole::Unsigned(y)) | (Whole::Unsigned(y), Whole::Signed(x)) => {
            x >= 0 && x as u128 == y
        }
    }
}
