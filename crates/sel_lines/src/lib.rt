//! Commands on text lines such as `take 5,n,7 2,n,1`, and the line that each command outputs.
#![tactic(auto)]

mod blocks;
mod choose;
mod columns;
pub mod commands;
pub mod counted;
mod dict;
mod filter;
mod fixed;
mod flatten;
mod get;
mod line_errors;
mod lists;
mod numbers;
mod pext;
pub mod reading;
mod rows;
pub mod run;
mod table;
mod take;
mod texts;
mod words;
pub mod writing;
