//! Operations on bitmaps.

ghost use Rattle.std.specs.Prelude.{◌≡◌, ◌+◌, ◌≤◌, length, IfOk};

use crate::job::Job;
use crate::made::{LEFT, RIGHT, side};
use sel_bits::bitmap::Bitmap;
use sel_bits::faults::PolarsResult;
use std::alloc::Global;

/// Returns the number of true bits of the last `and`, plus the number of results whose first bit is
/// true.
pub fn and(alloc: Global, job: &Job) -> PolarsResult<u64> {
    let left = side(alloc, LEFT, job.left, job.rows)?;
    let right = side(alloc, RIGHT, job.right, job.rows)?;
    and_of(alloc, job, &left, &right)
}

/// Returns `rows` bits from `offset` on; for an odd repeat, from 64 bits later on.
fn part(side: &Bitmap, offset: usize, rows: usize, repeat: u64) -> PolarsResult<Bitmap>
    requires room { offset + rows + 64 ≤ length side.now.bits }
    requires small { offset + rows + 64 ≤ 67108992 }
    ensures { IfOk result (λ bitmap. length bitmap.bits ≡ rows) }
{
    let first = if repeat % 2 == 0 { offset } else { offset + 64 };
    Ok(side.try_clone()?.sliced(first, rows))
}

fn and_of(alloc: Global, job: &Job, left: &Bitmap, right: &Bitmap) -> PolarsResult<u64>
    requires left { job.now.left + job.now.rows + 64 ≤ length left.now.bits }
    requires right { job.now.right + job.now.rows + 64 ≤ length right.now.bits }
{
    let mut total = 0u64;
    for repeat in 0..job.repeats {
        let x = part(left, job.left, job.rows, repeat)?;
        let y = part(right, job.right, job.rows, repeat)?;
        let is_last = repeat.wrapping_add(1) == job.repeats;
        total = total.wrapping_add(read(&x.and(alloc, &y)?, is_last));
    }
    Ok(total)
}

/// Returns the first bit of a result, plus the number of true bits of the last one.
fn read(answer: &Bitmap, is_last: bool) -> u64 {
    if answer.is_empty() {
        return 0;
    }
    let first = u64::from(answer.get_bit(0));
    if is_last {
        first.wrapping_add(answer.set_bits() as u64)
    } else {
        first
    }
}

/// Returns the number of true bits over all repeats.
pub fn set_bits(alloc: Global, job: &Job) -> PolarsResult<u64> {
    let left = side(alloc, LEFT, job.left, job.rows)?;
    let mut total = 0u64;
    for repeat in 0..job.repeats {
        let bits = part(&left, job.left, job.rows, repeat)?;
        total = total.wrapping_add(bits.set_bits() as u64);
    }
    Ok(total)
}
