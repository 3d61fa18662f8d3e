//! Tests of what only Rattle code can call: kernels of typed arrays, of words and bits, the parts
//! of the copies, and public functions without a C call. The rows that the C calls return are tested
//! as data, in `tests/rows`. The modules `alloc_*` mark where a call begins and ends, so that
//! `tools/refuse` can make each of its allocations fail.
#![tactic(auto)]

#[cfg(test)]
mod alloc_pieces;
#[cfg(test)]
mod alloc_takes;
#[cfg(test)]
mod alloc_words;
#[cfg(test)]
mod broadcasts;
#[cfg(test)]
mod elements;
#[cfg(test)]
mod filters;
#[cfg(test)]
mod masks;
#[cfg(test)]
mod names;
#[cfg(test)]
mod nested;
#[cfg(test)]
mod odd;
#[cfg(test)]
mod parsed;
#[cfg(test)]
mod round_trips;
#[cfg(test)]
mod row_refs;
#[cfg(test)]
mod select;
#[cfg(test)]
mod takes;
#[cfg(test)]
mod views;
#[cfg(test)]
mod words;
