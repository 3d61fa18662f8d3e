//! Columns of any type that are well-formed at every depth.

ghost use Rattle.std.specs.Prelude.{◌≡◌, true, false, IfOk, IfErr};
ghost use Rattle.sel_arrow.specs.Rows.{rows, type_of, well_formed, IsWellFormed, buffers_held};

use crate::array::Array;
use crate::column::Column;
use crate::datatype::ArrowDataType;
use crate::from_column::FromColumn;
use sel_bits::bitmap::Bitmap;
use sel_bits::faults::PolarsResult;
use std::alloc::Global;

/// A well-formed column of any type.
#[derive(Drop)]
pub struct ArrayRef {
    pub column: Column,
    pub ghost formed: { IsWellFormed column },
}

impl ArrayRef {
    /// Wraps `column` if it is well-formed (`Column::is_well_formed`).
    ///
    /// # Errors
    /// Returns `column` unchanged if it is not well-formed.
    pub fn try_new(column: Column) -> Result<ArrayRef, Column>
        ensures column { IfOk result (λ array. array.column ≡ column) }
        ensures back { IfErr result (λ back. back ≡ column) }
        ensures accepted { IfOk result (λ _. well_formed column ≡ true) }
        ensures refused { IfErr result (λ _. well_formed column ≡ false) }
    {
        if column.is_well_formed() {
            Ok(ArrayRef { column })
        } else {
            Err(column)
        }
    }

    /// Returns a reference to the column.
    pub fn as_column(&self) -> &Column
        ensures column { result.now ≡ self.now.column }
        ensures formed { IsWellFormed result.now }
    {
        &self.column
    }

    /// Returns the column as an array of type `A`.
    ///
    /// # Errors
    /// Returns the column unchanged if it is of another type.
    pub fn into_array<A: FromColumn>(self) -> Result<A, ArrayRef>
        ensures rows { IfOk result (λ array. A.rows array ≡ rows self.column) }
        ensures dtype { IfOk result (λ array. A.shape array ≡ type_of self.column) }
        ensures buffers { IfOk result (λ array. A.held array ≡ buffers_held self.column) }
        ensures back { IfErr result (λ back. back.column ≡ self.column) }
        ensures other { IfErr result (λ _. A.is_other_type (type_of self.column)) }
    {
        let ArrayRef { column } = self;
        match A::from_column(column) {
            Ok(array) => Ok(array),
            Err(column) => Err(ArrayRef { column }),
        }
    }
}

impl Array for ArrayRef {
    ghost use Rattle.sel_arrow.specs.Rows.{rows as column_rows, type_of};

    ghost rows = { λ array. column_rows array.column };

    ghost shape = { λ array. type_of array.column };

    ghost held = { λ array. buffers_held array.column };

    fn len(&self) -> usize {
        self.column.len()
    }

    fn validity(&self) -> Option<&Bitmap> {
        self.column.validity()
    }

    fn has_dtype(&self, dtype: &ArrowDataType) -> bool {
        self.column.has_dtype(dtype)
    }

    fn same_dtype(&self, other: &ArrayRef) -> bool {
        self.column.same_dtype(&other.column)
    }

    fn into_ref(self) -> ArrayRef {
        self
    }

    fn dtype(&self, alloc: Global) -> PolarsResult<ArrowDataType> {
        self.column.dtype(alloc)
    }

    fn sliced(&self, alloc: Global, off: usize, len: usize) -> PolarsResult<ArrayRef> {
        let column = self.column.sliced(alloc, off, len)?;
        Ok(ArrayRef { column })
    }

    fn try_clone(&self, alloc: Global) -> PolarsResult<ArrayRef> {
        let column = self.column.try_clone(alloc)?;
        Ok(ArrayRef { column })
    }
}
