//! Filter kernels for bitmaps, slices of values and the bits of a word.
#![tactic(auto)]

pub mod arrays;
mod block;
pub mod boolean;
mod nibbles;
mod pext;
pub mod primitive;
pub mod scalar;
