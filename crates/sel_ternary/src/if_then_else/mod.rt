//! If-then-else: row k is from the true values if bit k of the mask is set, else from the false.

ghost use Rattle.std.specs.Prelude.{◌≡◌, List, length, IfOk, IfErr};
ghost use Rattle.sel_bits.specs.declared.faults.Limit.{Limit};
ghost use Rattle.sel_arrow.specs.Shape.{Shape};
ghost use Rattle.sel_arrow.specs.Value.{Value};
ghost use Rattle.sel_ternary.specs.Choose.{choose, broadcast_both, broadcast_true, broadcast_false};
ghost use Rattle.sel_ternary.specs.Sides.{Side, column, scalar, IsLimitOrMemory, ExceedsNone};

use sel_arrow::array::Array;
use sel_arrow::datatype::ArrowDataType;
use sel_bits::bitmap::Bitmap;
use sel_bits::faults::PolarsResult;
use std::alloc::Global;

pub mod any;
mod array;
mod binview;
mod boolean;
mod by_lanes;
mod by_words;
mod lanes;
mod list;
mod lists;
mod loops;
mod primitive;
pub mod scalar;
mod side;
mod utf8view;
mod validity;
pub mod view;
mod view_columns;
mod view_lanes;
mod word_kernels;

pub use lanes::ChooseLanes;
pub use validity::if_then_else_validity;

/// Columns that support if-then-else with a boolean mask. A scalar is broadcast to all rows.
pub trait IfThenElseKernel: Sized + Array {
    ghost use Rattle.sel_arrow.specs.DataType.{shape_of};

    /// The type of a value that can be broadcast to all rows.
    type Scalar;

    /// The row value of a scalar.
    ghost scalar_row: { Self.Scalar → Value };

    /// The scalar can be a row of a column of this type.
    ghost fits: { Self.Scalar → Shape → Type 0 };

    /// This is the type of a column of type `Self`.
    ghost is_own: { Shape → Type 0 };

    /// The limits exceeded by an if-then-else result of this type with these rows.
    ghost exceeded: { Shape → Side Self Self.Scalar → Side Self Self.Scalar → List Value →
        Limit → Type 0 };

    /// Returns a column with row k of `if_true` where bit k of `mask` is set, else of `if_false`.
    ///
    /// # Requires
    /// Both columns have the same type (check with `same_dtype`), and a row for each bit of `mask`.
    ///
    /// # Errors
    /// `OutOfMemory` if an allocation fails; `SizeLimit` if the result exceeds a limit that
    /// `exceeded` gives.
    fn if_then_else(
        alloc: Global,
        mask: &Bitmap,
        if_true: &Self,
        if_false: &Self,
    ) -> PolarsResult<Self>
        requires true_side { length (Self.rows if_true.now) ≡ length mask.now.bits }
        requires false_side { length (Self.rows if_false.now) ≡ length mask.now.bits }
        requires alike { Self.shape if_true.now ≡ Self.shape if_false.now }
        ensures rows { IfOk result (λ chosen. Self.rows chosen ≡
            choose mask.now.bits (Self.rows if_true.now) (Self.rows if_false.now)) }
        ensures dtype { IfOk result (λ chosen. Self.shape chosen ≡ Self.shape if_true.now) }
        ensures within { IfOk result (λ _. ExceedsNone
            (exceeded (Self.shape if_true.now) (column if_true.now) (column if_false.now)
            (choose mask.now.bits (Self.rows if_true.now) (Self.rows if_false.now)))) }
        ensures refusal { IfErr result (IsLimitOrMemory
            (exceeded (Self.shape if_true.now) (column if_true.now) (column if_false.now)
            (choose mask.now.bits (Self.rows if_true.now) (Self.rows if_false.now)))) };

    /// Returns a column with the scalar where the bit of `mask` is set, else the row of `if_false`.
    ///
    /// # Requires
    /// `if_false` has a row for each bit of `mask`, and the scalar fits its type. Lists have a
    /// check for it, `scalar_fits`; the scalars of other columns always fit.
    ///
    /// # Errors
    /// `OutOfMemory` if an allocation fails; `SizeLimit` if the result exceeds a limit that
    /// `exceeded` gives.
    fn if_then_else_broadcast_true(
        alloc: Global,
        mask: &Bitmap,
        if_true: &Self::Scalar,
        if_false: &Self,
    ) -> PolarsResult<Self>
        requires false_side { length (Self.rows if_false.now) ≡ length mask.now.bits }
        requires fits { fits if_true.now (Self.shape if_false.now) }
        ensures rows { IfOk result (λ chosen. Self.rows chosen ≡
            broadcast_true mask.now.bits (scalar_row if_true.now) (Self.rows if_false.now)) }
        ensures dtype { IfOk result (λ chosen. Self.shape chosen ≡ Self.shape if_false.now) }
        ensures within { IfOk result (λ _. ExceedsNone
            (exceeded (Self.shape if_false.now) (scalar if_true.now) (column if_false.now)
            (broadcast_true mask.now.bits (scalar_row if_true.now) (Self.rows if_false.now)))) }
        ensures refusal { IfErr result (IsLimitOrMemory
            (exceeded (Self.shape if_false.now) (scalar if_true.now) (column if_false.now)
            (broadcast_true mask.now.bits (scalar_row if_true.now) (Self.rows if_false.now)))) };

    /// Returns a column with the row of `if_true` where the bit of `mask` is set, else the scalar.
    ///
    /// # Requires
    /// `if_true` has a row for each bit of `mask`, and the scalar fits its type. Lists have a check
    /// for it, `scalar_fits`; the scalars of other columns always fit.
    ///
    /// # Errors
    /// `OutOfMemory` if an allocation fails; `SizeLimit` if the result exceeds a limit that
    /// `exceeded` gives.
    fn if_then_else_broadcast_false(
        alloc: Global,
        mask: &Bitmap,
        if_true: &Self,
        if_false: &Self::Scalar,
    ) -> PolarsResult<Self>
        requires true_side { length (Self.rows if_true.now) ≡ length mask.now.bits }
        requires fits { fits if_false.now (Self.shape if_true.now) }
        ensures rows { IfOk result (λ chosen. Self.rows chosen ≡
            broadcast_false mask.now.bits (Self.rows if_true.now) (scalar_row if_false.now)) }
        ensures dtype { IfOk result (λ chosen. Self.shape chosen ≡ Self.shape if_true.now) }
        ensures within { IfOk result (λ _. ExceedsNone
            (exceeded (Self.shape if_true.now) (column if_true.now) (scalar if_false.now)
            (broadcast_false mask.now.bits (Self.rows if_true.now) (scalar_row if_false.now)))) }
        ensures refusal { IfErr result (IsLimitOrMemory
            (exceeded (Self.shape if_true.now) (column if_true.now) (scalar if_false.now)
            (broadcast_false mask.now.bits (Self.rows if_true.now) (scalar_row if_false.now)))) };

    /// Returns a column of type `dtype` with `if_true` where `mask` is set, else `if_false`.
    ///
    /// # Requires
    /// `dtype` is the type of a column of type `Self`, and both scalars fit it. List types have a
    /// check for it, `scalar_fits`; the scalars of other columns always fit.
    ///
    /// # Errors
    /// `OutOfMemory` if an allocation fails; `SizeLimit` if the result exceeds a limit that
    /// `exceeded` gives.
    fn if_then_else_broadcast_both(
        alloc: Global,
        dtype: ArrowDataType,
        mask: &Bitmap,
        if_true: &Self::Scalar,
        if_false: &Self::Scalar,
    ) -> PolarsResult<Self>
        requires own { is_own (shape_of dtype) }
        requires true_fits { fits if_true.now (shape_of dtype) }
        requires false_fits { fits if_false.now (shape_of dtype) }
        ensures rows { IfOk result (λ chosen. Self.rows chosen ≡
            broadcast_both mask.now.bits (scalar_row if_true.now) (scalar_row if_false.now)) }
        ensures dtype { IfOk result (λ chosen. Self.shape chosen ≡ shape_of dtype) }
        ensures within { IfOk result (λ _. ExceedsNone
            (exceeded (shape_of dtype) (scalar if_true.now) (scalar if_false.now)
            (broadcast_both mask.now.bits (scalar_row if_true.now) (scalar_row if_false.now)))) }
        ensures refusal { IfErr result (IsLimitOrMemory
            (exceeded (shape_of dtype) (scalar if_true.now) (scalar if_false.now)
            (broadcast_both mask.now.bits (scalar_row if_true.now) (scalar_row if_false.now)))) };
}
