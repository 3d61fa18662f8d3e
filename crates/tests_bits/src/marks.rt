//! Marks where a call begins and ends, for `tools/refuse`, which makes only allocations between the
//! two fail. A mark is an allocation of a number of bytes that no other code of a test allocates;
//! `tools/refuse/growths.c` has the same numbers.

use sel_bits::faults::{PolarsError, PolarsResult};
use std::alloc::Global;

const BEGINS: usize = 1_000_003;

const BEGINS_FREE: usize = 1_000_033;

const ENDS: usize = 1_000_037;

const ENDS_REFUSED: usize = 1_000_039;

/// Allocates and frees this number of bytes.
fn mark(alloc: Global, bytes: usize) {
    match Vec::<u8>::with_capacity(alloc, bytes) {
        Ok(room) => drop(room),
        Err(_) => {}
    }
}

/// Marks the beginning of a call that allocates.
pub fn begins(alloc: Global) {
    mark(alloc, BEGINS);
}

/// Marks the beginning of a call that must not allocate: each of its allocations fails.
pub fn begins_free(alloc: Global) {
    mark(alloc, BEGINS_FREE);
}

/// Marks the end of a call that ran out of memory, or returned.
pub fn ends(alloc: Global, is_out_of_memory: bool) {
    mark(alloc, if is_out_of_memory { ENDS_REFUSED } else { ENDS });
}

/// Marks the end of a call that returned a value.
pub fn ends_answered(alloc: Global) {
    mark(alloc, ENDS);
}

/// Marks the end of a call that returned this result.
pub fn ends_by<T>(alloc: Global, answer: &PolarsResult<T>) {
    ends(alloc, is_out_of_memory(answer));
}

/// Returns whether the result is `OutOfMemory`.
pub fn is_out_of_memory<T>(answer: &PolarsResult<T>) -> bool {
    match answer {
        Ok(_) => false,
        Err(fault) => *fault == PolarsError::OutOfMemory,
    }
}
