//! Filters that append the kept values to a vector.

ghost use Rattle.std.specs.Prelude.{◌≡◌, ◌+◌, ◌-◌, ◌*◌, ◌/◌, ◌<◌, ◌≤◌, ◌++◌, length, take, drop, OnOk, IfOk, IfErr, OnErr};
ghost use Rattle.sel_bits.specs.Faults.{IsOutOfMemory};
ghost use Rattle.sel_bits.specs.Bits.{bits_from};
ghost use Rattle.sel_filter.specs.Select.{select};
ghost use Rattle.sel_filter.specs.Scalar.{rows_to_boundary};

use crate::block::{SPARE, append_blocks, count_set};
use sel_bits::bitmap::Bitmap;
use sel_bits::faults::PolarsResult;

/// Appends the kept values before the next byte boundary of the mask; none if it is byte-aligned.
///
/// Returns the remaining values and the bytes of the remaining mask, which start at bit 0.
///
/// # Requires
/// `values` and `mask` have the same length.
///
/// # Errors
/// `OutOfMemory` if an allocation fails; the items of `out` are then unchanged.
pub fn scalar_filter_offset<'a, T: Copy>(
    values: &'a [T],
    mask: &'a Bitmap,
    out: &mut Vec<T>,
) -> PolarsResult<(&'a [T], &'a [u8])>
    requires { length values.now ≡ length mask.now.bits }
    ensures appended { let n = rows_to_boundary mask.now in OnOk result (out.new.items ≡
        out.old.items ++ select (take n values.entry.now) (take n mask.entry.now.bits)) }
    ensures values { IfOk result (λ rest. rest.0.now ≡
        drop (rows_to_boundary mask.entry.now) values.entry.now) }
    ensures bits { IfOk result (λ rest. bits_from rest.1.now 0 (length rest.0.now) ≡
        drop (rows_to_boundary mask.entry.now) mask.entry.now.bits) }
    ensures bytes { IfOk result (λ rest. length rest.1.now ≡ (length rest.0.now + 7) / 8) }
    ensures unchanged { OnErr result (out.new.items ≡ out.old.items) }
    ensures refusal { IfErr result IsOutOfMemory }
{
    let (bytes, offset, len) = mask.as_slice();
    if offset == 0 {
        return Ok((values, bytes));
    }
    let count = len.min(8 - offset);
    let first = [bytes[0] >> offset];
    scalar_filter(&values[..count], &first, out)?;
    Ok((&values[count..], &bytes[1..]))
}

/// Appends the values whose bit is set; bit i of `mask_bytes` belongs to value i.
///
/// Bits after the last value are ignored.
///
/// # Requires
/// `mask_bytes` has at least one bit per value.
///
/// # Errors
/// `OutOfMemory` if an allocation fails; the items of `out` are then unchanged.
pub fn scalar_filter<T: Copy>(values: &[T], mask_bytes: &[u8], out: &mut Vec<T>) -> PolarsResult<()>
    requires { length values.now ≤ 8 * length mask_bytes.now }
    ensures appended { OnOk result (out.new.items ≡
        out.old.items ++ select values.now (bits_from mask_bytes.now 0 (length values.now))) }
    ensures unchanged { OnErr result (out.new.items ≡ out.old.items) }
    ensures refusal { IfErr result IsOutOfMemory }
{
    let start = out.len();
    let count = count_set(&mask_bytes[..values.len().div_ceil(8)]);
    out.reserve(count.saturating_add(SPARE))?;
    let kept = append_blocks(values, mask_bytes, out);
    if kept.is_err() {
        out.truncate(start);
    }
    kept
}
