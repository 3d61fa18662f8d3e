//! The position of a syntax error: the least byte at which no text with that beginning can be read.

ghost use Rattle.std.specs.Prelude.{◌≡◌, [], IfOk, OnOk, reverse};
ghost use Rattle.sel_text.specs.Notation.{changed, goes_on, innermost, is_end, is_row_notation, is_type_notation, HasFirstError};

use crate::notation::{Bracket, Change, Next};
use std::alloc::{AllocError, Global};

/// Finds the first byte at which `text`, of any bytes, is not the beginning of the text of rows of
/// some type; its length if it is a beginning but no whole text; `None` if it is the text of rows.
///
/// # Errors
/// `AllocError` if an allocation fails.
pub fn find_row_error(alloc: Global, text: &[u8]) -> Result<Option<usize>, AllocError>
    ensures { IfOk result (HasFirstError is_row_notation text.now) }
{
    find_error(alloc, Next::Rows, text)
}

/// Finds the first byte at which `text`, of any bytes, is not the beginning of the text of a type;
/// its length if it is a beginning but no whole text; `None` if it is the text of a type.
///
/// # Errors
/// `AllocError` if an allocation fails.
pub fn find_type_error(alloc: Global, text: &[u8]) -> Result<Option<usize>, AllocError>
    ensures { IfOk result (HasFirstError is_type_notation text.now) }
{
    find_error(alloc, Next::Name, text)
}

/// Finds the first byte at which `text` is not the beginning of a text that begins with `start`.
#[tactic(auto, using(crate::proofs::Completions::at_end))]
fn find_error(alloc: Global, start: Next, text: &[u8]) -> Result<Option<usize>, AllocError>
    ensures { IfOk result (HasFirstError (goes_on start []) text.now) }
{
    let mut brackets = Vec::new(alloc);
    let mut next = start;
    for (i, byte) in text.iter().enumerate() {
        let Some((after, change)) = next.after(innermost_of(&brackets), *byte) else {
            return Ok(Some(i));
        };
        apply(change, &mut brackets)?;
        next = after;
    }
    if may_end(next, &brackets) {
        return Ok(None);
    }
    Ok(Some(text.len()))
}

/// Returns whether a text may end here.
fn may_end(next: Next, brackets: &[Bracket]) -> bool
    ensures { result ≡ is_end next (reverse brackets.now) }
{
    if brackets.is_empty() {
        next.ends()
    } else {
        false
    }
}

/// Returns the innermost open bracket, which is the last one.
fn innermost_of(brackets: &[Bracket]) -> Option<Bracket>
    ensures { result ≡ innermost (reverse brackets.now) }
{
    brackets.last().copied()
}

/// Opens or closes a bracket.
fn apply(change: Change, brackets: &mut Vec<Bracket>) -> Result<(), AllocError>
    ensures { OnOk result (reverse brackets.new.items ≡
        changed change (reverse brackets.old.items)) }
{
    match change {
        Change::Keep => Ok(()),
        Change::Open(bracket) => Ok(brackets.push(bracket)?),
        Change::Close => {
            brackets.pop();
            Ok(())
        }
    }
}
