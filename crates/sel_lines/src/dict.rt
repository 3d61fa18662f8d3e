//! The command `dict KEYS VALUES`.
ghost use Rattle.std.specs.Prelude.{◌≡◌, ◌≤◌, IfOk, IfErr, All, length, map, option_map, string_bytes, pos};
ghost use Rattle.sel_bits.specs.Faults.{IsOutOfMemory};
ghost use Rattle.sel_arrow.specs.Columns.{primitive_rows, utf8view_rows};
ghost use Rattle.sel_arrow.specs.Value.{Number};
ghost use Rattle.sel_lines.specs.Dict.{both_text, dict_answer, dict_words, without_nulls};
ghost use Rattle.sel_lines.specs.Lines.{longest_line};
ghost use Rattle.sel_lines.specs.Rows.{parsed_rows};

use crate::columns::{parse_column, print_column};
use crate::line_errors::memory_error;
use crate::rows::Rows;
use crate::texts::parse_texts;
use sel_arrow::array::Array;
use sel_arrow::primitive::PrimitiveArray;
use sel_arrow::utf8view::Utf8ViewArray;
use sel_bits::faults::PolarsResult;
use sel_kernels::propagate_dictionary::{keys_in_bounds, propagate_dictionary_value_nulls};
use std::alloc::{AllocError, Global};

/// Returns the output of `dict` for `words`, or `None` if they are invalid.
///
/// # Errors
/// `AllocError` if an allocation fails.
pub fn answer_dict(alloc: Global, words: &[&str]) -> Result<Option<String>, AllocError>
    requires { All (λ word. length word.now ≤ longest_line) words.now }
    ensures { IfOk result (λ answer.
        option_map string_bytes answer ≡ dict_words (map (λ word. word.now) words.now)) }
{
    if words.len() != 2 {
        return Ok(None);
    }
    let Some(keys) = parse_column::<u32>(alloc, words[0])? else {
        return Ok(None);
    };
    let Some(values) = parse_texts(alloc, words[1])? else {
        return Ok(None);
    };
    answer_rows(alloc, keys, &values)
}

fn answer_rows(
    alloc: Global,
    keys: Rows<u32>,
    values: &Utf8ViewArray,
) -> Result<Option<String>, AllocError>
    ensures { IfOk result (λ answer. option_map string_bytes answer
        ≡ dict_answer (parsed_rows (λ n. Number (pos n)) keys) (utf8view_rows values.now)) }
{
    match propagate_rows(alloc, keys, values) {
        Ok(Some((keys, values))) => Ok(Some(print_both(alloc, &keys, &values)?)),
        Ok(None) => Ok(None),
        Err(fault) => Err(memory_error(fault)),
    }
}

// Formats the keys and the values, separated by a space.
fn print_both(
    alloc: Global,
    keys: &PrimitiveArray<u32>,
    values: &Utf8ViewArray,
) -> Result<String, AllocError>
    ensures { IfOk result (λ text. string_bytes text ≡
        both_text (primitive_rows keys.now, utf8view_rows values.now)) }
{
    let mut text = print_column(alloc, keys)?;
    let behind = print_column(alloc, values)?;
    text.push(' ')?;
    text.push_str(&behind)?;
    Ok(text)
}

// Returns the keys and values without null values, or `None` if a key is out of bounds.
fn propagate_rows(
    alloc: Global,
    keys: Rows<u32>,
    values: &Utf8ViewArray,
) -> PolarsResult<Option<(PrimitiveArray<u32>, Utf8ViewArray)>>
    ensures rows { IfOk result (λ both. option_map
        (λ both. (primitive_rows both.0, utf8view_rows both.1)) both
        ≡ without_nulls (parsed_rows (λ n. Number (pos n)) keys) (utf8view_rows values.now)) }
    ensures refusal { IfErr result IsOutOfMemory }
{
    let keys = keys.into_primitive(alloc)?;
    let propagated = propagate_column(alloc, &keys, values);
    drop(keys);
    propagated
}

// Returns the new keys and values, or `None` if a key is out of bounds.
fn propagate_column(
    alloc: Global,
    keys: &PrimitiveArray<u32>,
    values: &Utf8ViewArray,
) -> PolarsResult<Option<(PrimitiveArray<u32>, Utf8ViewArray)>>
    ensures rows { IfOk result (λ both. option_map
        (λ both. (primitive_rows both.0, utf8view_rows both.1)) both
        ≡ without_nulls (primitive_rows keys.now) (utf8view_rows values.now)) }
    ensures refusal { IfErr result IsOutOfMemory }
{
    if !keys_in_bounds(keys, values.len()) {
        return Ok(None);
    }
    Ok(Some(propagate_dictionary_value_nulls(alloc, keys, values)?))
}
