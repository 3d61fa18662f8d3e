//! If-then-else kernels: select rows from two columns or scalars by a boolean mask.
#![tactic(auto)]

pub mod if_then_else;
