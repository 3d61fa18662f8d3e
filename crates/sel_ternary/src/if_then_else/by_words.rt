//! If-then-else by the words of the mask, for columns of any type that has such a kernel.

ghost use Rattle.std.specs.Prelude.{◌≡◌, ◌≢◌, ◌≤◌, ◌+◌, ◌∷◌, [], length, true, false, IfOk, IfErr, IfSome};
ghost use Rattle.sel_bits.specs.Faults.{IsOutOfMemory};
ghost use Rattle.sel_bits.specs.Limits.{max_buffers, max_rows};
ghost use Rattle.sel_arrow.specs.Masked.{hidden};
ghost use Rattle.sel_arrow.specs.Rows.{rows as column_rows, buffers_held, type_of};
ghost use Rattle.sel_arrow.specs.Value.{Null};
ghost use Rattle.sel_ternary.specs.Chosen.{chosen_rows, first_row, spread_rows, AreSides, SideFits, SideIsValid};
ghost use Rattle.sel_ternary.specs.WordKernels.{first_count, has_word_kernel, HasRoom};
ghost use Rattle.sel_gather.specs.Need.{buffer_count, exceeded_taken, ExceedsNone};

use sel_arrow::array::Array;
use sel_arrow::array_ref::ArrayRef;
use sel_arrow::from_column::FromColumn;
use sel_bits::bitmap::Bitmap;
use sel_bits::faults::PolarsResult;
use std::alloc::Global;

/// Columns with if-then-else kernels by the words of the mask.
///
/// # Errors
/// Each function returns `OutOfMemory` if an allocation fails.
pub(crate) trait WordKernel: FromColumn + Drop {
    /// Returns the if-then-else of two columns. If its flag is false, a column has one row, which
    /// is not null and is broadcast.
    fn choose(
        alloc: Global,
        mask: &Bitmap,
        if_true: &Self,
        if_false: &Self,
        true_column: bool,
        false_column: bool,
    ) -> PolarsResult<Self>
        requires true_side { SideFits true_column (length (Self.rows if_true.now))
            (length mask.now.bits) }
        requires false_side { SideFits false_column (length (Self.rows if_false.now))
            (length mask.now.bits) }
        requires true_valid { SideIsValid true_column (Self.rows if_true.now) }
        requires false_valid { SideIsValid false_column (Self.rows if_false.now) }
        requires alike { Self.shape if_true.now ≡ Self.shape if_false.now }
        requires few { length mask.now.bits ≤ max_rows }
        requires room { HasRoom true_column false_column (first_count (Self.held if_true.now))
            (first_count (Self.held if_false.now)) }
        ensures rows { IfOk result (λ chosen. Self.rows chosen ≡ chosen_rows true_column
            false_column mask.now.bits (Self.rows if_true.now) (Self.rows if_false.now)) }
        ensures dtype { IfOk result (λ chosen. Self.shape chosen ≡ Self.shape if_true.now) }
        ensures refusal { IfErr result IsOutOfMemory };

    /// Returns the column with null rows where the bit of `keep` is not set.
    fn nulled(self, alloc: Global, keep: &Bitmap) -> PolarsResult<Self>
        requires { length keep.now.bits ≡ length (Self.rows self) }
        ensures rows { IfOk result (λ shown. Self.rows shown ≡
            hidden keep.now.bits (Self.rows self)) }
        ensures dtype { IfOk result (λ shown. Self.shape shown ≡ Self.shape self) }
        ensures refusal { IfErr result IsOutOfMemory };
}

/// Returns the if-then-else of columns that are arrays of type `A`. Returns none for another type,
/// or if both values are broadcast and null.
#[tactic(auto, using(crate::proofs::WordKernels::held_counts))]
pub(crate) fn choose_by_words<A: WordKernel>(
    alloc: Global,
    mask: &Bitmap,
    if_true: &ArrayRef,
    if_false: &ArrayRef,
    true_column: bool,
    false_column: bool,
) -> PolarsResult<Option<ArrayRef>>
    requires kernel { has_word_kernel (type_of if_true.now.column) ≡ true }
    requires sides { AreSides true_column false_column mask.now.bits if_true.now.column
        if_false.now.column }
    requires room { buffer_count if_true.now.column + buffer_count if_false.now.column ≤
        max_buffers }
    ensures rows { IfOk result (λ made. IfSome made (λ chosen. column_rows chosen.column ≡
        chosen_rows true_column false_column mask.now.bits (column_rows if_true.now.column)
        (column_rows if_false.now.column))) }
    ensures dtype { IfOk result (λ made. IfSome made (λ chosen.
        type_of chosen.column ≡ type_of if_true.now.column)) }
    ensures within { IfOk result (λ _. ExceedsNone (exceeded_taken (type_of if_true.now.column)
        (if_true.now.column ∷ if_false.now.column ∷ []) (chosen_rows true_column false_column
        mask.now.bits (column_rows if_true.now.column) (column_rows if_false.now.column)))) }
    ensures refusal { IfErr result IsOutOfMemory }
{
    let Some(first) = array_of::<A>(alloc, if_true)? else {
        return Ok(None);
    };
    let Some(second) = array_of::<A>(alloc, if_false)? else {
        return Ok(None);
    };
    match choose_arrays(alloc, mask, &first, &second, true_column, false_column)? {
        None => Ok(None),
        Some(chosen) => Ok(Some(chosen.into_ref())),
    }
}

// Returns a column as an array of this type, or none if it has another type.
fn array_of<A: FromColumn + Drop>(alloc: Global, column: &ArrayRef) -> PolarsResult<Option<A>>
    ensures rows { IfOk result (λ found. IfSome found
        (λ array. A.rows array ≡ column_rows column.now.column)) }
    ensures dtype { IfOk result (λ found. IfSome found
        (λ array. A.shape array ≡ type_of column.now.column)) }
    ensures buffers { IfOk result (λ found. IfSome found
        (λ array. A.held array ≡ buffers_held column.now.column)) }
    ensures refusal { IfErr result IsOutOfMemory }
{
    match column.try_clone(alloc)?.into_array::<A>() {
        Ok(array) => Ok(Some(array)),
        Err(back) => {
            drop(back);
            Ok(None)
        }
    }
}

// Returns the if-then-else of arrays or their only rows. Returns none if both are null rows.
#[tactic(auto, using(crate::proofs::WordKernels::null_rows))]
fn choose_arrays<A: WordKernel>(
    alloc: Global,
    mask: &Bitmap,
    if_true: &A,
    if_false: &A,
    true_column: bool,
    false_column: bool,
) -> PolarsResult<Option<A>>
    requires alike { A.shape if_true.now ≡ A.shape if_false.now }
    requires true_side { SideFits true_column (length (A.rows if_true.now))
        (length mask.now.bits) }
    requires false_side { SideFits false_column (length (A.rows if_false.now))
        (length mask.now.bits) }
    requires few { length mask.now.bits ≤ max_rows }
    requires room { first_count (A.held if_true.now) + first_count (A.held if_false.now) ≤
        max_buffers }
    ensures rows { IfOk result (λ made. IfSome made (λ chosen. A.rows chosen ≡ chosen_rows
        true_column false_column mask.now.bits (A.rows if_true.now) (A.rows if_false.now))) }
    ensures dtype { IfOk result (λ made. IfSome made (λ chosen.
        A.shape chosen ≡ A.shape if_true.now)) }
    ensures refusal { IfErr result IsOutOfMemory }
{
    if is_null_row(if_true, true_column) {
        if is_null_row(if_false, false_column) {
            return Ok(None);
        }
        let others = mask.not(alloc)?;
        let all = spread(alloc, mask, if_false, false_column)?;
        return Ok(Some(all.nulled(alloc, &others)?));
    }
    if is_null_row(if_false, false_column) {
        let all = spread(alloc, mask, if_true, true_column)?;
        return Ok(Some(all.nulled(alloc, mask)?));
    }
    Ok(Some(A::choose(alloc, mask, if_true, if_false, true_column, false_column)?))
}

// Returns whether an array stands for its only row, which is null.
#[tactic(auto, using(crate::proofs::WordKernels::null_rows))]
fn is_null_row<A: WordKernel>(array: &A, is_column: bool) -> bool
    ensures null { result ≡ true → is_column ≡ false }
    ensures row { result ≡ true → length (A.rows array.now) ≡ 1 →
        first_row (A.rows array.now) ≡ Null }
    ensures valid { result ≡ false → is_column ≡ false → length (A.rows array.now) ≡ 1 →
        first_row (A.rows array.now) ≢ Null }
{
    if is_column {
        return false;
    }
    array.has_nulls()
}

// Returns the column, or its only row, which is not null, for each bit of the mask.
#[tactic(auto, using(crate::proofs::WordKernels::null_rows))]
fn spread<A: WordKernel>(
    alloc: Global,
    mask: &Bitmap,
    array: &A,
    is_column: bool,
) -> PolarsResult<A>
    requires side { SideFits is_column (length (A.rows array.now)) (length mask.now.bits) }
    requires valid { SideIsValid is_column (A.rows array.now) }
    requires few { length mask.now.bits ≤ max_rows }
    ensures rows { IfOk result (λ all. A.rows all ≡
        spread_rows is_column mask.now.bits (A.rows array.now)) }
    ensures dtype { IfOk result (λ all. A.shape all ≡ A.shape array.now) }
    ensures refusal { IfErr result IsOutOfMemory }
{
    if is_column {
        return Ok(array.try_clone(alloc)?);
    }
    A::choose(alloc, mask, array, array, false, false)
}
