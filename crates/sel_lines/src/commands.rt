//! Execution of one input line.
ghost use Rattle.std.specs.Prelude.{◌≡◌, ◌≤◌, IfOk, All, length, string_bytes, option_map, map};
ghost use Rattle.sel_lines.specs.Commands.{answer_of_command, answer_of_line, answer_of_words};
ghost use Rattle.sel_lines.specs.Lines.{longest_line};

use crate::choose::answer_choose;
use crate::dict::answer_dict;
use crate::filter::answer_filter;
use crate::fixed::answer_fixed;
use crate::flatten::answer_flatten;
use crate::get::answer_get;
use crate::pext::answer_pext;
use crate::table::answer_table;
use crate::take::answer_take;
use crate::words::split_at_each;
use std::alloc::{AllocError, Global};

/// The maximum number of bytes of a line, without its line feed.
pub const LONGEST_LINE: usize = 1_048_576;

/// Returns the output for a line, or `None` if the line is invalid.
///
/// # Errors
/// `AllocError` if an allocation fails.
#[tactic(auto, using(crate::proofs::Answered::too_long, crate::proofs::Answered::no_text))]
pub fn answer_line(alloc: Global, line: &[u8]) -> Result<Option<String>, AllocError>
    ensures { IfOk result (λ answer. option_map string_bytes answer ≡ answer_of_line line.now) }
{
    if line.len() > LONGEST_LINE {
        return Ok(None);
    }
    let Ok(text) = str::from_utf8(line) else {
        return Ok(None);
    };
    let words = split_at_each(alloc, text, ' ')?;
    answer_words(alloc, &words)
}

fn answer_words(alloc: Global, words: &[&str]) -> Result<Option<String>, AllocError>
    requires { All (λ word. length word.now ≤ longest_line) words.now }
    ensures { IfOk result (λ answer.
        option_map string_bytes answer ≡ answer_of_words (map (λ word. word.now) words.now)) }
{
    match words.split_first() {
        Some((name, words)) => answer_command(alloc, name, words),
        None => Ok(None),
    }
}

fn answer_command(alloc: Global, name: &str, words: &[&str]) -> Result<Option<String>, AllocError>
    requires { All (λ word. length word.now ≤ longest_line) words.now }
    ensures { IfOk result (λ answer.
        option_map string_bytes answer ≡
        answer_of_command name.now (map (λ word. word.now) words.now)) }
{
    if name == "filter" {
        return answer_filter(alloc, words);
    }
    if name == "take" {
        return answer_take(alloc, words);
    }
    if name == "get" {
        return answer_get(alloc, words);
    }
    if name == "pext" {
        return answer_pext(alloc, words);
    }
    if name == "choose" {
        return answer_choose(alloc, words);
    }
    if name == "flatten" {
        return answer_flatten(alloc, words);
    }
    if name == "dict" {
        return answer_dict(alloc, words);
    }
    if name == "fixed" {
        return answer_fixed(alloc, words);
    }
    if name == "table" {
        return answer_table(alloc, words);
    }
    Ok(None)
}
