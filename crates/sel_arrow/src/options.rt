//! Conversion of optional rows to values and validity.
#![tactic(auto)]

ghost use Rattle.std.specs.Prelude.{◌≡◌, map, is_some, unwrap_or, IfOk, IfErr};
ghost use Rattle.sel_bits.specs.Faults.{IsOutOfMemory};

use sel_bits::bitmap::Bitmap;
use sel_bits::faults::PolarsResult;
use std::alloc::Global;

/// Returns a bitmap with a set bit for each row that is `Some`. Fails only with `OutOfMemory`.
pub(crate) fn valid_rows<T: Copy>(alloc: Global, rows: &[Option<T>]) -> PolarsResult<Bitmap>
    ensures bits { IfOk result (λ valid. valid.bits ≡ map is_some rows.now) }
    ensures refusal { IfErr result IsOutOfMemory }
{
    let mut valid = Vec::with_capacity(alloc, rows.len())?;
    for row in rows {
        valid.push(row.is_some())?;
    }
    Bitmap::from_bools(alloc, &valid)
}

/// Returns the rows, with `hidden` in place of each `None`. Fails only with `OutOfMemory`.
pub(crate) fn values_or<T: Copy>(
    alloc: Global,
    rows: &[Option<T>],
    hidden: T,
) -> PolarsResult<Vec<T>>
    ensures items { IfOk result (λ values. values.items ≡
        map (λ row. unwrap_or row hidden) rows.now) }
    ensures refusal { IfErr result IsOutOfMemory }
{
    let mut values = Vec::with_capacity(alloc, rows.len())?;
    for row in rows {
        values.push(row.unwrap_or(hidden))?;
    }
    Ok(values)
}
