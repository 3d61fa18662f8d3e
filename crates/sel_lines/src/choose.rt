//! The command `choose MASK T F`.
ghost use Rattle.std.specs.Prelude.{◌≡◌, ◌≤◌, IfOk, IfErr, All, length, map, option_map, string_bytes};
ghost use Rattle.sel_bits.specs.Faults.{IsOutOfMemory};
ghost use Rattle.sel_arrow.specs.Columns.{boolean_rows, primitive_rows};
ghost use Rattle.sel_arrow.specs.Value.{Number, Truth};
ghost use Rattle.sel_lines.specs.Choose.{choose_answer, choose_words, choose_result};
ghost use Rattle.sel_lines.specs.Columns.{column_of};
ghost use Rattle.sel_lines.specs.Lines.{longest_line};
ghost use Rattle.sel_lines.specs.Numbers.{number_of};
ghost use Rattle.sel_lines.specs.Rows.{parsed_rows};
ghost use Rattle.sel_lines.specs.Words.{if_both};

use crate::columns::{parse_column, print_computed};
use crate::rows::Rows;
use sel_arrow::array::Array;
use sel_arrow::boolean::BooleanArray;
use sel_arrow::primitive::PrimitiveArray;
use sel_bits::faults::PolarsResult;
use sel_ternary::if_then_else::IfThenElseKernel;
use std::alloc::{AllocError, Global};

/// Returns the output of `choose` for `words`, or `None` if they are invalid.
///
/// # Errors
/// `AllocError` if an allocation fails.
pub fn answer_choose(alloc: Global, words: &[&str]) -> Result<Option<String>, AllocError>
    requires { All (λ word. length word.now ≤ longest_line) words.now }
    ensures { IfOk result (λ answer.
        option_map string_bytes answer ≡ choose_words (map (λ word. word.now) words.now)) }
{
    if words.len() != 3 {
        return Ok(None);
    }
    let Some(mask) = parse_column::<bool>(alloc, words[0])? else {
        return Ok(None);
    };
    answer_sides(alloc, mask, words[1], words[2])
}

// Returns the output for a mask and the words of two columns.
fn answer_sides(
    alloc: Global,
    mask: Rows<bool>,
    if_true: &str,
    if_false: &str,
) -> Result<Option<String>, AllocError>
    requires true_side { length if_true.now ≤ longest_line }
    requires false_side { length if_false.now ≤ longest_line }
    ensures { IfOk result (λ answer. option_map string_bytes answer ≡
        if_both (choose_answer (parsed_rows Truth mask))
        (column_of number_of if_true.now) (column_of number_of if_false.now)) }
{
    let Some(if_true) = parse_column::<i64>(alloc, if_true)? else {
        return Ok(None);
    };
    let Some(if_false) = parse_column::<i64>(alloc, if_false)? else {
        return Ok(None);
    };
    answer_rows(alloc, mask, if_true, if_false)
}

fn answer_rows(
    alloc: Global,
    mask: Rows<bool>,
    if_true: Rows<i64>,
    if_false: Rows<i64>,
) -> Result<Option<String>, AllocError>
    ensures { IfOk result (λ answer. option_map string_bytes answer ≡
        choose_answer (parsed_rows Truth mask) (parsed_rows Number if_true)
        (parsed_rows Number if_false)) }
{
    print_computed(alloc, choose_rows(alloc, mask, if_true, if_false))
}

fn choose_rows(
    alloc: Global,
    mask: Rows<bool>,
    if_true: Rows<i64>,
    if_false: Rows<i64>,
) -> PolarsResult<Option<PrimitiveArray<i64>>>
    ensures rows { IfOk result (λ chosen. option_map (λ column. primitive_rows column) chosen ≡
        choose_result (parsed_rows Truth mask) (parsed_rows Number if_true)
        (parsed_rows Number if_false)) }
    ensures refusal { IfErr result IsOutOfMemory }
{
    let mask = mask.into_boolean(alloc)?;
    choose_numbers(alloc, &mask, if_true, if_false)
}

fn choose_numbers(
    alloc: Global,
    mask: &BooleanArray,
    if_true: Rows<i64>,
    if_false: Rows<i64>,
) -> PolarsResult<Option<PrimitiveArray<i64>>>
    ensures rows { IfOk result (λ chosen. option_map (λ column. primitive_rows column) chosen ≡
        choose_result (boolean_rows mask.now) (parsed_rows Number if_true)
        (parsed_rows Number if_false)) }
    ensures refusal { IfErr result IsOutOfMemory }
{
    let if_true = if_true.into_primitive(alloc)?;
    let if_false = if_false.into_primitive(alloc)?;
    choose_columns(alloc, mask, &if_true, &if_false)
}

// Returns the if-then-else rows, or `None` if the mask has a null or the lengths differ.
#[tactic(auto, using(crate::proofs::Chosen::choices))]
fn choose_columns(
    alloc: Global,
    mask: &BooleanArray,
    if_true: &PrimitiveArray<i64>,
    if_false: &PrimitiveArray<i64>,
) -> PolarsResult<Option<PrimitiveArray<i64>>>
    ensures rows { IfOk result (λ chosen. option_map (λ column. primitive_rows column) chosen
        ≡ choose_result (boolean_rows mask.now)
        (primitive_rows if_true.now) (primitive_rows if_false.now)) }
    ensures refusal { IfErr result IsOutOfMemory }
{
    if mask.has_nulls() {
        return Ok(None);
    }
    if if_true.len() != mask.len() {
        return Ok(None);
    }
    if if_false.len() != mask.len() {
        return Ok(None);
    }
    let chosen = PrimitiveArray::if_then_else(alloc, &mask.values, if_true, if_false)?;
    Ok(Some(chosen))
}
