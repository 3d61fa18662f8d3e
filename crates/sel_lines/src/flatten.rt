//! The command `flatten H W:COL ...`.
ghost use Rattle.std.specs.Prelude.{◌≡◌, ◌≤◌, IfOk, IfErr, All, Some, length, map, option_map, string_bytes, codes, ◌++◌, ◌∷◌, []};
ghost use Rattle.sel_bits.specs.Faults.{IsOutOfMemory};
ghost use Rattle.sel_arrow.specs.Columns.{primitive_rows};
ghost use Rattle.sel_arrow.specs.Rows.{rows, type_of};
ghost use Rattle.sel_arrow.specs.Shape.{of_int64};
ghost use Rattle.sel_gather.specs.Need.{IsLimitOrMemory};
ghost use Rattle.sel_lines.specs.Columns.{all_some};
ghost use Rattle.sel_lines.specs.Flatten.{flatten_part, part_of_halves, side_by_side, flat_text, flatten_answer, flatten_words};
ghost use Rattle.sel_lines.specs.Parts.{read_part};
ghost use Rattle.sel_lines.specs.Lines.{longest_line};

use crate::columns::{parse_column, print_column};
use crate::filter::numbers_of;
use crate::line_errors::memory_error;
use crate::numbers::parse_size;
use crate::words::split_at_each;
use sel_arrow::array::Array;
use sel_arrow::array_ref::ArrayRef;
use sel_arrow::primitive::PrimitiveArray;
use sel_bits::faults::{PolarsError, PolarsResult};
use sel_kernels::horizontal_flatten::{flatten_is_safe, horizontal_flatten_unchecked};
use std::alloc::{AllocError, Global};

/// A column and its number of values per output row.
#[derive(Drop)]
pub struct Part {
    pub width: usize,
    pub column: PrimitiveArray<i64>,
}

/// Returns the output of `flatten` for `words`, or `None` if they are invalid.
///
/// # Errors
/// `AllocError` if an allocation fails.
pub fn answer_flatten(alloc: Global, words: &[&str]) -> Result<Option<String>, AllocError>
    requires { All (λ word. length word.now ≤ longest_line) words.now }
    ensures { IfOk result (λ answer.
        option_map string_bytes answer ≡ flatten_words (map (λ word. word.now) words.now)) }
{
    let Some((height, words)) = words.split_first() else {
        return Ok(None);
    };
    let Some(height) = parse_size(height) else {
        return Ok(None);
    };
    let Some(parts) = parse_parts(alloc, words)? else {
        return Ok(None);
    };
    answer_parts(alloc, parts, height)
}

#[tactic(auto, using(crate::proofs::RowLemmas::rows_none, crate::proofs::RowLemmas::rows_pushed))]
fn parse_parts(alloc: Global, words: &[&str]) -> Result<Option<Vec<Part>>, AllocError>
    requires { All (λ word. length word.now ≤ longest_line) words.now }
    ensures { IfOk result (λ parts. option_map (λ parts. map read_part parts.items) parts
        ≡ all_some (map (λ word. flatten_part word.now) words.now)) }
{
    let mut parts = Vec::with_capacity(alloc, words.len())?;
    for word in words {
        let Some(part) = parse_part(alloc, word)? else {
            return Ok(None);
        };
        parts.push(part)?;
    }
    Ok(Some(parts))
}

fn parse_part(alloc: Global, word: &str) -> Result<Option<Part>, AllocError>
    requires { length word.now ≤ longest_line }
    ensures { IfOk result (λ part. option_map read_part part ≡ flatten_part word.now) }
{
    let halves = split_at_each(alloc, word, ':')?;
    parse_halves(alloc, &halves)
}

fn parse_halves(alloc: Global, halves: &[&str]) -> Result<Option<Part>, AllocError>
    requires { All (λ half. length half.now ≤ longest_line) halves.now }
    ensures { IfOk result (λ part. option_map read_part part ≡
        part_of_halves (map (λ half. half.now) halves.now)) }
{
    if halves.len() != 2 {
        return Ok(None);
    }
    let Some(width) = parse_size(halves[0]) else {
        return Ok(None);
    };
    let Some(column) = parse_column::<i64>(alloc, halves[1])? else {
        return Ok(None);
    };
    match column.into_primitive(alloc) {
        Ok(column) => Ok(Some(Part { width, column })),
        Err(fault) => Err(memory_error(fault)),
    }
}

#[tactic(auto, using(crate::proofs::Flattened::answer_read))]
fn answer_parts(
    alloc: Global,
    parts: Vec<Part>,
    height: usize,
) -> Result<Option<String>, AllocError>
    ensures { IfOk result (λ answer.
        option_map string_bytes answer ≡ flatten_answer height (map read_part parts.items)) }
{
    match flatten_parts(alloc, parts, height) {
        Ok(Some(flat)) => Ok(Some(print_column(alloc, &flat)?)),
        Ok(None) => Ok(None),
        Err(PolarsError::OutOfMemory) => Err(AllocError),
        Err(PolarsError::SizeLimit(_)) => Ok(Some(String::from_str(alloc, "size limit rows")?)),
        Err(PolarsError::ComputeError) => unreachable!(),
    }
}

// Returns the horizontal flatten of all parts, or `None` if there are none or lengths do not match.
fn flatten_parts(
    alloc: Global,
    parts: Vec<Part>,
    height: usize,
) -> PolarsResult<Option<PrimitiveArray<i64>>>
    ensures rows { IfOk result (λ flat. option_map (λ column. primitive_rows column) flat
        ≡ side_by_side height (map (λ part. primitive_rows part.column) parts.items)
        (map (λ part. part.width) parts.items)) }
    ensures refusal { IfErr result (IsLimitOrMemory (λ _.
        option_map flat_text (side_by_side height
        (map (λ part. primitive_rows part.column) parts.items)
        (map (λ part. part.width) parts.items)) ≡ Some (codes "size limit rows"))) }
{
    let widths = widths_of(alloc, &parts)?;
    let arrays = arrays_of(alloc, parts)?;
    let flat = flatten_columns(alloc, &arrays, &widths, height);
    drop(arrays);
    flat
}

fn widths_of(alloc: Global, parts: &[Part]) -> PolarsResult<Vec<usize>>
    ensures widths { IfOk result (λ widths. widths.items ≡ map (λ part. part.width) parts.now) }
    ensures refusal { IfErr result IsOutOfMemory }
{
    let mut widths = Vec::with_capacity(alloc, parts.len())?;
    for part in parts {
        widths.push(part.width)?;
    }
    Ok(widths)
}

fn arrays_of(alloc: Global, parts: Vec<Part>) -> PolarsResult<Vec<ArrayRef>>
    ensures rows { IfOk result (λ arrays. map (λ a. rows a.column) arrays.items ≡
        map (λ part. primitive_rows part.column) parts.items) }
    ensures dtype { IfOk result (λ arrays. All (λ a. type_of a.column ≡ of_int64)
        arrays.items) }
    ensures refusal { IfErr result IsOutOfMemory }
{
    let mut arrays = Vec::with_capacity(alloc, parts.len())?;
    for part in parts {
        let column = part.column.into_ref();
        if let Err(fault) = push_array(&mut arrays, column) {
            drop(arrays);
            return Err(fault);
        }
    }
    Ok(arrays)
}

// Appends an array. Errors: `OutOfMemory`, and the arrays are unchanged.
fn push_array(arrays: &mut Vec<ArrayRef>, array: ArrayRef) -> PolarsResult<()>
    ensures items { IfOk result (λ _. arrays.new.items ≡ arrays.old.items ++ array ∷ []) }
    ensures refusal { IfErr result IsOutOfMemory }
{
    match arrays.push(array) {
        Ok(()) => Ok(()),
        Err(refused) => {
            drop(refused.value);
            Err(PolarsError::OutOfMemory)
        }
    }
}

// Returns the horizontal flatten of the columns, or `None` if `flatten_is_safe` returns false.
fn flatten_columns(
    alloc: Global,
    arrays: &[ArrayRef],
    widths: &[usize],
    height: usize,
) -> PolarsResult<Option<PrimitiveArray<i64>>>
    requires { All (λ a. type_of a.column ≡ of_int64) arrays.now }
    ensures rows { IfOk result (λ flat. option_map (λ column. primitive_rows column) flat
        ≡ side_by_side height (map (λ a. rows a.column) arrays.now) widths.now) }
    ensures refusal { IfErr result (IsLimitOrMemory (λ _.
        option_map flat_text (side_by_side height (map (λ a. rows a.column) arrays.now)
        widths.now) ≡ Some (codes "size limit rows"))) }
{
    if !flatten_is_safe(arrays, widths, height) {
        return Ok(None);
    }
    let flat = horizontal_flatten_unchecked(alloc, arrays, widths, height)?;
    Ok(Some(numbers_of(flat)))
}
