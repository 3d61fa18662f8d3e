//! Validity of gathered rows.

ghost use Rattle.std.specs.Prelude.{◌≡◌, IsTrue, length, map, IfOk, IfErr};
ghost use Rattle.std.specs.Option.{ForSome};
ghost use Rattle.sel_bits.specs.Faults.{IsOutOfMemory};
ghost use Rattle.sel_arrow.specs.Columns.{primitive_rows};
ghost use Rattle.sel_bits.specs.Validity.{bits_for};
ghost use Rattle.sel_kernels.specs.Pick.{all_within, pick_of};
ghost use Rattle.sel_kernels.specs.ValidPicks.{live_index, valid_pick};

use crate::gather::bitmap::take_bits_or;
use sel_arrow::primitive::{IdxArr, PrimitiveArray};
use sel_bits::bitmap::Bitmap;
use sel_bits::faults::PolarsResult;
use std::alloc::Global;

/// Returns the validity of the rows at `indices`: true where the index and its row are valid.
///
/// Returns `None` if neither the rows nor the indices have a validity bitmap, and the validity of
/// the indices if only the rows have none.
pub(crate) fn take_validity(
    alloc: Global,
    validity: &Option<Bitmap>,
    indices: &IdxArr,
) -> PolarsResult<Option<Bitmap>>
    requires { ForSome validity.now
        (λ v. IsTrue (all_within (length v.bits) (primitive_rows indices.now))) }
    ensures bits { IfOk result (λ taken. bits_for (length (primitive_rows indices.now)) taken ≡
        map (valid_pick validity.now) (map pick_of (primitive_rows indices.now))) }
    ensures refusal { IfErr result IsOutOfMemory }
{
    match validity {
        Some(bits) => Ok(Some(take_bits_or(alloc, bits, indices, false)?)),
        None => match &indices.validity {
            None => Ok(None),
            Some(named) => Ok(Some(named.try_clone()?)),
        },
    }
}

/// Returns the indices with a null in place of each index of a null row.
///
/// The values of the indices are shared, and their validity is that of the rows at `indices`.
pub(crate) fn live_indices(
    alloc: Global,
    validity: &Option<Bitmap>,
    indices: &IdxArr,
) -> PolarsResult<IdxArr>
    requires { ForSome validity.now
        (λ v. IsTrue (all_within (length v.bits) (primitive_rows indices.now))) }
    ensures rows { IfOk result (λ live. primitive_rows live ≡
        map (live_index validity.now) (primitive_rows indices.now)) }
    ensures bits { IfOk result (λ live.
        bits_for (length (primitive_rows indices.now)) live.validity ≡
        map (valid_pick validity.now) (map pick_of (primitive_rows indices.now))) }
    ensures refusal { IfErr result IsOutOfMemory }
{
    let validity = take_validity(alloc, validity, indices)?;
    let values = indices.values.try_clone()?;
    Ok(PrimitiveArray { values, validity })
}
