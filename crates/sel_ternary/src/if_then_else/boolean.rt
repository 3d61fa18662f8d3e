//! If-then-else for boolean columns, by the words of their bitmaps.

ghost use Rattle.std.specs.Prelude.{◌≡◌, length, IfOk, IfErr};
ghost use Rattle.sel_bits.specs.Faults.{IsOutOfMemory};
ghost use Rattle.sel_ternary.specs.Choose.{broadcast_both, broadcast_true, broadcast_false};

use crate::if_then_else::IfThenElseKernel;
use crate::if_then_else::validity::if_then_else_validity;
use sel_arrow::boolean::BooleanArray;
use sel_arrow::datatype::ArrowDataType;
use sel_arrow::validity::MOST_ROWS;
use sel_bits::bitmap::Bitmap;
use sel_bits::faults::{Limit, PolarsError, PolarsResult};
use std::alloc::Global;

#[tactic(auto, using(crate::proofs::Validities::columns))]
impl IfThenElseKernel for BooleanArray {
    ghost use Rattle.std.specs.Prelude.{◌≡◌, ⊤};
    ghost use Rattle.sel_arrow.specs.Shape.{of_boolean};
    ghost use Rattle.sel_arrow.specs.Value.{Truth};
    ghost use Rattle.sel_ternary.specs.Sides.{exceeded_flat};

    type Scalar = bool;

    ghost scalar_row = { Truth };

    ghost fits = { λ _ _. ⊤ };

    ghost is_own = { λ type. type ≡ of_boolean };

    ghost exceeded = { λ _ if_true if_false rows limit. exceeded_flat if_true if_false rows limit };

    fn if_then_else(
        alloc: Global,
        mask: &Bitmap,
        if_true: &BooleanArray,
        if_false: &BooleanArray,
    ) -> PolarsResult<BooleanArray> {
        let values = Bitmap::choose(alloc, mask, &if_true.values, &if_false.values)?;
        let validity = if_then_else_validity(
            alloc,
            mask,
            if_true.validity.as_ref(),
            if_false.validity.as_ref(),
        )?;
        Ok(BooleanArray { values, validity })
    }

    fn if_then_else_broadcast_true(
        alloc: Global,
        mask: &Bitmap,
        if_true: &bool,
        if_false: &BooleanArray,
    ) -> PolarsResult<BooleanArray> {
        let values = value_or_bits(alloc, mask, *if_true, &if_false.values)?;
        let validity = if_then_else_validity(alloc, mask, None, if_false.validity.as_ref())?;
        Ok(BooleanArray { values, validity })
    }

    fn if_then_else_broadcast_false(
        alloc: Global,
        mask: &Bitmap,
        if_true: &BooleanArray,
        if_false: &bool,
    ) -> PolarsResult<BooleanArray> {
        let values = bits_or_value(alloc, mask, &if_true.values, *if_false)?;
        let validity = if_then_else_validity(alloc, mask, if_true.validity.as_ref(), None)?;
        Ok(BooleanArray { values, validity })
    }

    fn if_then_else_broadcast_both(
        alloc: Global,
        _dtype: ArrowDataType,
        mask: &Bitmap,
        if_true: &bool,
        if_false: &bool,
    ) -> PolarsResult<BooleanArray> {
        if mask.len() > MOST_ROWS {
            return Err(PolarsError::SizeLimit(Limit::Rows));
        }
        let values = one_of_values(alloc, mask, *if_true, *if_false)?;
        Ok(BooleanArray {
            values,
            validity: None,
        })
    }
}

/// Returns `if_true` where the mask bit is set, else the bit of `if_false`, or `OutOfMemory`.
#[tactic(auto, using(crate::proofs::BitChoices::bit_choices))]
fn value_or_bits(
    alloc: Global,
    mask: &Bitmap,
    if_true: bool,
    if_false: &Bitmap,
) -> PolarsResult<Bitmap>
    requires { length if_false.now.bits ≡ length mask.now.bits }
    ensures bits { IfOk result (λ chosen. chosen.bits ≡
        broadcast_true mask.now.bits if_true if_false.now.bits) }
    ensures refusal { IfErr result IsOutOfMemory }
{
    if if_true {
        if_false.or(alloc, mask)
    } else {
        if_false.and_not(alloc, mask)
    }
}

/// Returns the bit of `if_true` where the mask bit is set, else `if_false`, or `OutOfMemory`.
#[tactic(auto, using(crate::proofs::BitChoices::bit_choices))]
fn bits_or_value(
    alloc: Global,
    mask: &Bitmap,
    if_true: &Bitmap,
    if_false: bool,
) -> PolarsResult<Bitmap>
    requires { length if_true.now.bits ≡ length mask.now.bits }
    ensures bits { IfOk result (λ chosen. chosen.bits ≡
        broadcast_false mask.now.bits if_true.now.bits if_false) }
    ensures refusal { IfErr result IsOutOfMemory }
{
    if if_false {
        if_true.or_not(alloc, mask)
    } else {
        if_true.and(alloc, mask)
    }
}

/// Returns `if_true` where the mask bit is set, else `if_false`, or `OutOfMemory`.
#[tactic(auto, using(crate::proofs::BitChoices::bit_choices))]
fn one_of_values(
    alloc: Global,
    mask: &Bitmap,
    if_true: bool,
    if_false: bool,
) -> PolarsResult<Bitmap>
    ensures bits { IfOk result (λ chosen. chosen.bits ≡
        broadcast_both mask.now.bits if_true if_false) }
    ensures refusal { IfErr result IsOutOfMemory }
{
    match (if_true, if_false) {
        (false, false) => Bitmap::new_zeroed(alloc, mask.len()),
        (false, true) => mask.not(alloc),
        (true, false) => mask.try_clone(),
        (true, true) => Bitmap::new_with_value(alloc, true, mask.len()),
    }
}
