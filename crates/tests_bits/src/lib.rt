//! Tests of bitmaps, buffers, numbers and counted readers, of filters of bits and of values, of row
//! references and runs, and of columns without children. And the bounds `Send` and `Sync` of every
//! type of column.
//! The modules `alloc_*` mark where a call begins and ends, so that `tools/refuse` can make each of
//! its allocations fail.
#![tactic(auto)]

#[cfg(test)]
mod alloc_bitmaps;
#[cfg(test)]
mod alloc_filters;
#[cfg(test)]
mod alloc_pieces;
#[cfg(test)]
mod alloc_words;
#[cfg(test)]
mod bits;
pub mod column_fixtures;
#[cfg(test)]
mod columns;
#[cfg(test)]
mod filters;
pub mod fixtures;
pub mod marks;
#[cfg(test)]
mod odd;
#[cfg(test)]
mod readers;
#[cfg(test)]
mod row_refs;
#[cfg(test)]
mod shared;
#[cfg(test)]
mod threads;
#[cfg(test)]
mod words;
