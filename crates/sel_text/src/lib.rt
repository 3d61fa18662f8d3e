//! A text notation for column types and rows, and comparison of columns by their rows.
#![tactic(auto)]

pub mod build;
mod cell;
pub mod equal;
pub mod fit;
mod item;
mod item_text;
pub mod laws;
mod notation;
mod numerals;
pub mod parse;
pub mod print;
pub mod read_type;
mod row_runs;
mod spelling;
mod strings;
pub mod syntax;
pub mod text_error;
mod tokens;
pub mod types;
mod whole;
