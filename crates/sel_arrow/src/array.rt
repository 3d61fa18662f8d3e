//! The operations that all columns share.

ghost use Rattle.std.specs.Prelude.{◌≡◌, ◌≤◌, ◌+◌, ◌<◌, ◌↔◌, ℕ, List, length, take, drop, count_by, IfOk, IfErr, IsTrue};
ghost use Rattle.std.specs.Option.{option_copied};
ghost use Rattle.sel_bits.specs.Faults.{IsOutOfMemory};
ghost use Rattle.sel_bits.specs.Limits.{max_rows};
ghost use Rattle.sel_arrow.specs.Value.{Value, is_null};
ghost use Rattle.sel_arrow.specs.Shape.{Shape};
ghost use Rattle.sel_arrow.specs.Nulls.{IsValidityOf};

use crate::array_ref::ArrayRef;
use crate::datatype::ArrowDataType;
use sel_bits::bitmap::Bitmap;
use sel_bits::faults::PolarsResult;
use std::alloc::Global;

/// A column. Contracts describe it by the list of its rows and its type.
///
/// A slice of a column is a column of a range of its rows; slicing copies no element.
pub trait Array: Sized {
    ghost use Rattle.sel_arrow.specs.DataType.{shape_of};
    ghost use Rattle.sel_arrow.specs.Rows.{rows as column_rows, buffers_held, type_of};

    /// The rows.
    ghost rows: { Self → List Value };

    /// The type.
    ghost shape: { Self → Shape };

    /// The data buffers of each view column in it.
    ghost held: { Self → List (List (List ℕ)) };

    /// Returns the number of rows, at most 4,294,967,295.
    fn len(&self) -> usize
        ensures len { result ≡ length (rows self.now) }
        ensures few { result ≤ max_rows };

    /// Returns whether the column has no rows.
    fn is_empty(&self) -> bool
        ensures { IsTrue result ↔ (length (rows self.now) ≡ 0) }
    {
        self.len() == 0
    }

    /// Returns the validity bitmap. Without one every row is valid, except in a null column, where
    /// no row is.
    fn validity(&self) -> Option<&Bitmap>
        ensures { IsValidityOf (shape self.now) (option_copied result) (rows self.now) };

    /// Returns the number of null rows.
    #[tactic(auto, using(crate::proofs::NullCounts::null_counts))]
    fn null_count(&self) -> usize
        ensures { result ≡ count_by is_null (rows self.now) }
    {
        let validity = self.validity();
        if self.has_dtype(&ArrowDataType::Null) {
            return self.len();
        }
        match validity {
            None => 0,
            Some(bits) => bits.unset_bits(),
        }
    }

    /// Returns whether at least one row is null.
    fn has_nulls(&self) -> bool
        ensures { IsTrue result ↔ (0 < count_by is_null (rows self.now)) }
    {
        self.null_count() > 0
    }

    /// Returns whether the column has the type `dtype`.
    fn has_dtype(&self, dtype: &ArrowDataType) -> bool
        ensures { IsTrue result ↔ (shape self.now ≡ shape_of dtype.now) };

    /// Returns whether both columns have the same type.
    fn same_dtype(&self, other: &Self) -> bool
        ensures { IsTrue result ↔ (shape self.now ≡ shape other.now) };

    /// Converts the column to a column of any type.
    fn into_ref(self) -> ArrayRef
        ensures rows { column_rows result.column ≡ rows self }
        ensures dtype { type_of result.column ≡ shape self }
        ensures buffers { buffers_held result.column ≡ held self };

    /// Returns the type of the column.
    ///
    /// # Errors
    /// `OutOfMemory` if an allocation fails.
    fn dtype(&self, alloc: Global) -> PolarsResult<ArrowDataType>
        ensures dtype { IfOk result (λ dtype. shape_of dtype ≡ shape self.now) }
        ensures refusal { IfErr result IsOutOfMemory };

    /// Returns the `len` rows from row `off` on. Keeps all data buffers, including those that no
    /// row of the result uses.
    ///
    /// # Requires
    /// `off + len` is at most the number of rows.
    ///
    /// # Errors
    /// `OutOfMemory` if an allocation fails.
    fn sliced(&self, alloc: Global, off: usize, len: usize) -> PolarsResult<Self>
        requires { off + len ≤ length (rows self.now) }
        ensures rows { IfOk result (λ part. rows part ≡ take len (drop off (rows self.now))) }
        ensures dtype { IfOk result (λ part. shape part ≡ shape self.now) }
        ensures buffers { IfOk result (λ part. held part ≡ held self.now) }
        ensures refusal { IfErr result IsOutOfMemory };

    /// Returns a column with the same rows, type and data buffers.
    ///
    /// # Errors
    /// `OutOfMemory` if an allocation fails.
    fn try_clone(&self, alloc: Global) -> PolarsResult<Self>
        ensures rows { IfOk result (λ copy. rows copy ≡ rows self.now) }
        ensures dtype { IfOk result (λ copy. shape copy ≡ shape self.now) }
        ensures buffers { IfOk result (λ copy. held copy ≡ held self.now) }
        ensures refusal { IfErr result IsOutOfMemory };
}
