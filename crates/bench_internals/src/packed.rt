//! Extraction of the bits of words under masks.

use crate::job::Job;
use crate::made::{LEFT, RIGHT, words, words_of_four};
use sel_bits::faults::PolarsResult;
use sel_filter::boolean::pext64_polyfill;
use std::alloc::Global;

/// Returns the sum of the results under masks with any number of bits.
pub fn pext(alloc: Global, job: &Job) -> PolarsResult<u64> {
    let values = words(alloc, LEFT, job.rows)?;
    let masks = words(alloc, RIGHT, job.rows)?;
    Ok(sum_of_all(&values, &masks, job.repeats))
}

/// Returns the sum of the results under masks with four bits.
pub fn pext_four(alloc: Global, job: &Job) -> PolarsResult<u64> {
    let values = words(alloc, LEFT, job.rows)?;
    let masks = words_of_four(alloc, RIGHT, job.rows)?;
    Ok(sum_of_all(&values, &masks, job.repeats))
}

/// Returns the sum over all repeats.
fn sum_of_all(values: &[u64], masks: &[u64], repeats: u64) -> u64 {
    let mut total = 0u64;
    for repeat in 0..repeats {
        total = total.wrapping_add(sum_of(values, masks, repeat));
    }
    total
}

/// Returns the sum of the results of one repeat; each value is xored with the number of the repeat.
fn sum_of(values: &[u64], masks: &[u64], repeat: u64) -> u64 {
    let mut total = 0u64;
    for i in 0..values.len().min(masks.len()) {
        let mask = masks[i];
        let packed = pext64_polyfill(values[i] ^ repeat, mask, mask.count_ones());
        total = total.wrapping_add(packed);
    }
    total
}
