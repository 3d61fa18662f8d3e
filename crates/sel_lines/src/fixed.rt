//! The command `fixed W LISTS INDEX OOB`.
ghost use Rattle.std.specs.Prelude.{◌≡◌, ◌≤◌, IfOk, All, List, length, map, replicate, option_map, string_bytes};
ghost use Rattle.sel_arrow.specs.Value.{Value, Number};
ghost use Rattle.sel_lines.specs.BlockParts.{AreKeptBlocks, HasBlocks};
ghost use Rattle.sel_lines.specs.Blocks.{widest};
ghost use Rattle.sel_lines.specs.Fixed.{entries_text, fixed_words};
ghost use Rattle.sel_lines.specs.Lines.{longest_line};

use crate::blocks::{Blocks, parse_blocks, parse_width};
use crate::columns::print_column;
use crate::filter::numbers_of;
use crate::line_errors::memory_error;
use crate::numbers::Item;
use sel_bits::faults::PolarsError;
use sel_kernels::gather::sublist::fixed_size_list::sub_fixed_size_list_get_literal;
use std::alloc::{AllocError, Global};

/// Returns the output of `fixed` for `words`, or `None` if they are invalid.
///
/// # Errors
/// `AllocError` if an allocation fails.
pub fn answer_fixed(alloc: Global, words: &[&str]) -> Result<Option<String>, AllocError>
    requires { All (λ word. length word.now ≤ longest_line) words.now }
    ensures { IfOk result (λ answer.
        option_map string_bytes answer ≡ fixed_words (map (λ word. word.now) words.now)) }
{
    if words.len() != 4 {
        return Ok(None);
    }
    let Some(width) = parse_width(words[0]) else {
        return Ok(None);
    };
    let Some(blocks) = parse_blocks(alloc, words[1], width)? else {
        return Ok(None);
    };
    let Some(index) = i64::parse(words[2]) else {
        return Ok(None);
    };
    let Some(null_on_oob) = bool::parse(words[3]) else {
        return Ok(None);
    };
    Ok(Some(answer_blocks(alloc, blocks, width, index, null_on_oob)?))
}

// Formats the elements at the index, or the error message if the index is out of bounds.
fn answer_blocks(
    alloc: Global,
    blocks: Blocks,
    width: usize,
    index: i64,
    null_on_oob: bool,
) -> Result<String, AllocError>
    requires narrow { width ≤ widest }
    requires kept { AreKeptBlocks width blocks }
    ensures { IfOk result (λ text. (read : List Value) → HasBlocks width read blocks →
        string_bytes text
        ≡ entries_text width read (replicate (length read) (Number index)) null_on_oob) }
{
    let array = blocks.into_array(alloc, width)?;
    let taken = sub_fixed_size_list_get_literal(alloc, &array, index, null_on_oob);
    drop(array);
    match taken {
        Ok(taken) => print_column(alloc, &numbers_of(taken)),
        Err(fault) => match fault {
            PolarsError::ComputeError => String::from_str(alloc, "get index is out of bounds"),
            other => Err(memory_error(other)),
        },
    }
}
