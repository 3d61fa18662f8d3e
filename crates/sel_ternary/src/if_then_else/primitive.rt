//! If-then-else for primitive columns.

ghost use Rattle.std.specs.Prelude.{length};

use crate::if_then_else::IfThenElseKernel;
use crate::if_then_else::by_lanes::{
    choose_column_or_scalar, choose_columns, choose_scalar_or_column, choose_scalars,
};
use crate::if_then_else::lanes::ChooseLanes;
use crate::if_then_else::validity::if_then_else_validity;
use sel_arrow::array::Array;
use sel_arrow::datatype::ArrowDataType;
use sel_arrow::primitive::{ArrowPrimitive, PrimitiveArray};
use sel_arrow::validity::MOST_ROWS;
use sel_bits::bitmap::Bitmap;
use sel_bits::faults::{Limit, PolarsError, PolarsResult};
use std::alloc::Global;

#[tactic(auto, using(crate::proofs::Validities::columns))]
impl<T: ArrowPrimitive + ChooseLanes> IfThenElseKernel for PrimitiveArray<T> {
    ghost use Rattle.std.specs.Prelude.{◌≡◌, ⊤};
    ghost use Rattle.sel_arrow.specs.Value.{Number};
    ghost use Rattle.sel_ternary.specs.Sides.{exceeded_flat};

    type Scalar = T;

    ghost scalar_row = { λ x. Number (T.number x) };

    ghost fits = { λ _ _. ⊤ };

    ghost is_own = { λ type. type ≡ T.shape };

    ghost exceeded = { λ _ if_true if_false rows limit. exceeded_flat if_true if_false rows limit };

    fn if_then_else(
        alloc: Global,
        mask: &Bitmap,
        if_true: &Self,
        if_false: &Self,
    ) -> PolarsResult<Self> {
        let (trues, falses) = (if_true.values.as_slice(), if_false.values.as_slice());
        let values = choose_columns(alloc, mask, trues, falses)?;
        let validity = if_then_else_validity(
            alloc,
            mask,
            if_true.validity.as_ref(),
            if_false.validity.as_ref(),
        )?;
        Ok(PrimitiveArray { values, validity })
    }

    fn if_then_else_broadcast_true(
        alloc: Global,
        mask: &Bitmap,
        if_true: &T,
        if_false: &Self,
    ) -> PolarsResult<Self> {
        let values = choose_scalar_or_column(alloc, mask, *if_true, if_false.values.as_slice())?;
        let validity = if_then_else_validity(alloc, mask, None, if_false.validity.as_ref())?;
        Ok(PrimitiveArray { values, validity })
    }

    fn if_then_else_broadcast_false(
        alloc: Global,
        mask: &Bitmap,
        if_true: &Self,
        if_false: &T,
    ) -> PolarsResult<Self> {
        let values = choose_column_or_scalar(alloc, mask, if_true.values.as_slice(), *if_false)?;
        let validity = if_then_else_validity(alloc, mask, if_true.validity.as_ref(), None)?;
        Ok(PrimitiveArray { values, validity })
    }

    fn if_then_else_broadcast_both(
        alloc: Global,
        _dtype: ArrowDataType,
        mask: &Bitmap,
        if_true: &T,
        if_false: &T,
    ) -> PolarsResult<Self> {
        if mask.len() > MOST_ROWS {
            return Err(PolarsError::SizeLimit(Limit::Rows));
        }
        let values = choose_scalars(alloc, mask, *if_true, *if_false)?;
        Ok(PrimitiveArray {
            values,
            validity: None,
        })
    }
}
