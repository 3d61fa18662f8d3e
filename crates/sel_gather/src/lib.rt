//! Gathers rows from several columns of one type, nested to any depth.
//!
//! `sel_runs` says which rows, by row references and by runs. Here are their rows: `gather` at row
//! references, `copy` by runs, `one_source` from a single column. Each takes a column apart by its
//! type, and a file for each kind of column (`primitive`, `boolean`, `binary`, `view`, `lists` and
//! `list_walk`, `structs`, `null`) copies its part.
#![tactic(auto)]

mod binary;
mod boolean;
pub mod checks;
pub mod copy;
mod flat_lists;
pub mod gather;
mod growable;
mod item_runs;
mod list_walk;
mod lists;
mod live_runs;
mod nested;
mod null;
pub mod one_source;
mod primitive;
mod spans;
mod structs;
mod typed_arrays;
mod validity;
pub mod view;
