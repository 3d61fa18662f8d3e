//! The command `take COL IDX`.
ghost use Rattle.std.specs.Prelude.{◌≡◌, ◌≤◌, IfOk, IfErr, All, length, map, option_map, string_bytes, pos};
ghost use Rattle.sel_bits.specs.Faults.{IsOutOfMemory};
ghost use Rattle.sel_arrow.specs.Columns.{primitive_rows};
ghost use Rattle.sel_arrow.specs.Value.{Number};
ghost use Rattle.sel_lines.specs.Columns.{column_text};
ghost use Rattle.sel_lines.specs.Lines.{longest_line};
ghost use Rattle.sel_lines.specs.Rows.{parsed_rows};
ghost use Rattle.sel_lines.specs.Take.{take_answer, take_words};

use crate::columns::{parse_column, print_computed};
use crate::rows::Rows;
use sel_arrow::array::Array;
use sel_arrow::primitive::{IdxArr, PrimitiveArray};
use sel_bits::faults::PolarsResult;
use sel_kernels::gather::indices_in_bounds;
use sel_kernels::gather::primitive::take_primitive_unchecked;
use std::alloc::{AllocError, Global};

/// Returns the output of `take` for `words`, or `None` if they are invalid.
///
/// # Errors
/// `AllocError` if an allocation fails.
pub fn answer_take(alloc: Global, words: &[&str]) -> Result<Option<String>, AllocError>
    requires { All (λ word. length word.now ≤ longest_line) words.now }
    ensures { IfOk result (λ answer.
        option_map string_bytes answer ≡ take_words (map (λ word. word.now) words.now)) }
{
    if words.len() != 2 {
        return Ok(None);
    }
    let Some(column) = parse_column::<i64>(alloc, words[0])? else {
        return Ok(None);
    };
    let Some(indices) = parse_column::<u32>(alloc, words[1])? else {
        return Ok(None);
    };
    answer_rows(alloc, column, indices)
}

fn answer_rows(
    alloc: Global,
    column: Rows<i64>,
    indices: Rows<u32>,
) -> Result<Option<String>, AllocError>
    ensures { IfOk result (λ answer. option_map string_bytes answer
        ≡ take_answer (parsed_rows Number column) (parsed_rows (λ n. Number (pos n)) indices)) }
{
    print_computed(alloc, take_rows(alloc, column, indices))
}

// Returns the rows at `indices`, or `None` if an index is out of bounds.
fn take_rows(
    alloc: Global,
    column: Rows<i64>,
    indices: Rows<u32>,
) -> PolarsResult<Option<PrimitiveArray<i64>>>
    ensures rows { IfOk result (λ taken. option_map
        (λ column. column_text (primitive_rows column)) taken
        ≡ take_answer (parsed_rows Number column) (parsed_rows (λ n. Number (pos n)) indices)) }
    ensures refusal { IfErr result IsOutOfMemory }
{
    let column = column.into_primitive(alloc)?;
    let indices = indices.into_primitive(alloc)?;
    let taken = take_column(alloc, &column, &indices);
    drop(column);
    drop(indices);
    taken
}

// Returns the rows of a column at `indices`, or `None` if an index is out of bounds.
fn take_column(
    alloc: Global,
    column: &PrimitiveArray<i64>,
    indices: &IdxArr,
) -> PolarsResult<Option<PrimitiveArray<i64>>>
    ensures rows { IfOk result (λ taken. option_map
        (λ rows. column_text (primitive_rows rows)) taken
        ≡ take_answer (primitive_rows column.now) (primitive_rows indices.now)) }
    ensures refusal { IfErr result IsOutOfMemory }
{
    if !indices_in_bounds(indices, column.len()) {
        return Ok(None);
    }
    Ok(Some(take_primitive_unchecked(alloc, column, indices)?))
}
