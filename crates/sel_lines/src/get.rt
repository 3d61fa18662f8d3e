//! The command `get LISTS INDEX`.
ghost use Rattle.std.specs.Prelude.{◌≡◌, ◌≤◌, IfOk, All, List, length, map, option_map, string_bytes};
ghost use Rattle.sel_arrow.specs.Value.{Value};
ghost use Rattle.sel_lines.specs.Columns.{column_text};
ghost use Rattle.sel_lines.specs.Get.{get_words};
ghost use Rattle.sel_lines.specs.Lines.{longest_line};
ghost use Rattle.sel_lines.specs.ListParts.{AreKept, HasRead};
ghost use Rattle.sel_kernels.specs.Lists.{list_get};

use crate::columns::print_column;
use crate::filter::numbers_of;
use crate::line_errors::memory_error;
use crate::lists::{Lists, parse_lists};
use crate::numbers::Item;
use sel_kernels::gather::sublist::list::sublist_get;
use std::alloc::{AllocError, Global};

/// Returns the output of `get` for `words`, or `None` if they are invalid.
///
/// # Errors
/// `AllocError` if an allocation fails.
pub fn answer_get(alloc: Global, words: &[&str]) -> Result<Option<String>, AllocError>
    requires { All (λ word. length word.now ≤ longest_line) words.now }
    ensures { IfOk result (λ answer.
        option_map string_bytes answer ≡ get_words (map (λ word. word.now) words.now)) }
{
    if words.len() != 2 {
        return Ok(None);
    }
    let Some(lists) = parse_lists(alloc, words[0])? else {
        return Ok(None);
    };
    let Some(index) = i64::parse(words[1]) else {
        return Ok(None);
    };
    Ok(Some(answer_lists(alloc, lists, index)?))
}

fn answer_lists(alloc: Global, lists: Lists, index: i64) -> Result<String, AllocError>
    requires { AreKept lists }
    ensures { IfOk result (λ text. (read : List Value) →
        HasRead read lists → string_bytes text ≡ column_text (list_get read index)) }
{
    let array = lists.into_array(alloc)?;
    let taken = sublist_get(alloc, &array, index);
    drop(array);
    match taken {
        Ok(taken) => print_column(alloc, &numbers_of(taken)),
        Err(fault) => Err(memory_error(fault)),
    }
}
