//! A short example for Rattle callers: a column of numbers, a filter, a take, an if-then-else,
//! elements of lists, rows of several columns, and an error. `make tour` prints the results, by
//! `sel_bench tour`.
#![tactic(auto)]

mod examples;
mod page;
mod together;

use crate::examples::{ages, broken_rule, chosen, kept, last_of_each, lists, taken};
pub use crate::page::Stop;
use crate::page::show;
use crate::together::together;
use std::alloc::Global;

/// Returns the output of all examples, a line each.
///
/// # Errors
/// `Stop` if a kernel or a constructor returns an error, such as out of memory.
pub fn tour(alloc: Global) -> Result<String, Stop> {
    let mut page = String::new(alloc);
    kernels(alloc, &mut page)?;
    together(alloc, &mut page)?;
    broken_rule(alloc, &mut page)?;
    Ok(page)
}

/// Prints a column of ages, and what the kernels return for it.
fn kernels(alloc: Global, page: &mut String) -> Result<(), Stop> {
    show(alloc, page, "ages", ages(alloc))?;
    show(alloc, page, "kept by [true,true,null,true]", kept(alloc))?;
    show(alloc, page, "taken at [3,null,1]", taken(alloc))?;
    show(alloc, page, "or 0 by [true,true,false,true]", chosen(alloc))?;
    show(alloc, page, "lists of ages", lists(alloc, &[0, 2, 2, 4]))?;
    show(alloc, page, "last of each list", last_of_each(alloc))
}
