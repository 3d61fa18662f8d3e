//! Null columns.

ghost use Rattle.std.specs.Prelude.{◌≡◌, ◌≤◌, None, IfOk, IfErr, []};
ghost use Rattle.sel_bits.specs.Limits.{max_rows};
ghost use Rattle.sel_bits.specs.Faults.{IsFault};
ghost use Rattle.sel_arrow.specs.Makers.{null_fault};

use crate::array::Array;
use crate::array_ref::ArrayRef;
use crate::column::Column;
use crate::datatype::ArrowDataType;
use crate::validity::MOST_ROWS;
use sel_bits::bitmap::Bitmap;
use sel_bits::faults::{MakeError, Malformed, PolarsResult};
use std::alloc::Global;

/// A column whose rows are all null.
#[derive(Drop)]
pub struct NullArray {
    pub length: usize,
    pub ghost rows_fit: { length ≤ max_rows },
}

impl NullArray {
    /// Builds a column of `len` nulls.
    ///
    /// # Errors
    /// `Malformed(TooManyRows)` if `len` exceeds 4,294,967,295.
    pub fn try_new(len: usize) -> Result<NullArray, MakeError>
        ensures length { IfOk result (λ column. column.length ≡ len) }
        ensures accepted { IfOk result (λ _. null_fault len ≡ None) }
        ensures refused { IfErr result (IsFault (null_fault len)) }
    {
        if len > MOST_ROWS {
            return Err(MakeError::Malformed(Malformed::TooManyRows));
        }
        Ok(NullArray { length: len })
    }
}

#[tactic(auto, using(crate::proofs::Rows::columns))]
impl Array for NullArray {
    ghost use Rattle.sel_arrow.specs.Columns.{null_rows};
    ghost use Rattle.sel_arrow.specs.Shape.{of_null};

    ghost rows = { null_rows };

    ghost shape = { λ _. of_null };

    ghost held = { λ _. [] };

    fn len(&self) -> usize {
        self.length
    }

    fn validity(&self) -> Option<&Bitmap> {
        None
    }

    fn has_dtype(&self, dtype: &ArrowDataType) -> bool {
        matches!(dtype, ArrowDataType::Null)
    }

    fn same_dtype(&self, _other: &NullArray) -> bool {
        true
    }

    fn into_ref(self) -> ArrayRef {
        ArrayRef {
            column: Column::Null(self),
        }
    }

    fn dtype(&self, _alloc: Global) -> PolarsResult<ArrowDataType> {
        Ok(ArrowDataType::Null)
    }

    fn sliced(&self, _alloc: Global, _off: usize, len: usize) -> PolarsResult<NullArray> {
        Ok(NullArray { length: len })
    }

    fn try_clone(&self, _alloc: Global) -> PolarsResult<NullArray> {
        Ok(NullArray {
            length: self.length,
        })
    }
}
