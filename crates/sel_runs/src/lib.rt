//! Which rows a gather copies, and copies of values and bits at them.
//!
//! `row_refs` has iterators over row references, `runs` has runs of consecutive rows, and
//! `run_refs` has iterators over them. `gather_values` returns the values and the validity bits at
//! row references, `copy_values` copies them by runs, and `bits` concatenates validities.
#![tactic(auto)]

pub mod bits;
mod copy_values;
pub mod each;
pub mod gather_values;
pub mod part;
pub mod repeat;
pub mod row_refs;
pub mod run_refs;
pub mod runs;
