//! Primitive columns.

ghost use Rattle.std.specs.Prelude.{◌≡◌, ◌≢◌, ◌≤◌, ◌<◌, ◌↔◌, length, map, slice_index_or, None, IfOk, IfErr, IfSome, IfNone, IsTrue, []};
ghost use Rattle.std.specs.Option.{option_copied};
ghost use Rattle.sel_bits.specs.Limits.{max_rows};
ghost use Rattle.sel_bits.specs.Faults.{IsFault, IsFaultOrMemory};
ghost use Rattle.sel_arrow.specs.Makers.{flat_fault, null_fault};
ghost use Rattle.sel_bits.specs.Validity.{Covers};
ghost use Rattle.sel_arrow.specs.Masked.{number_rows, number_value};
ghost use Rattle.sel_arrow.specs.Shape.{Shape, of_null};
ghost use Rattle.sel_arrow.specs.Value.{Null};

use crate::array::Array;
use crate::array_ref::ArrayRef;
use crate::column::Column;
use crate::datatype::ArrowDataType;
use crate::options::{valid_rows, values_or};
use crate::validity::{MOST_ROWS, clone_validity, has_other_length, is_valid_at, sliced_validity};
use sel_bits::bitmap::Bitmap;
use sel_bits::buffer::Buffer;
use sel_bits::faults::{MakeError, Malformed, PolarsResult};
use sel_bits::native::NativeType;
use std::alloc::Global;

/// A primitive column: values of one fixed-width type.
#[derive(Drop)]
pub struct PrimitiveArray<T: NativeType> {
    pub values: Buffer<T>,
    pub validity: Option<Bitmap>,
    pub ghost rows_fit: { length values ≤ max_rows },
    pub ghost validity_fits: { Covers validity (length values) },
}

/// A column of indices.
pub type IdxArr = PrimitiveArray<u32>;

#[tactic(auto, using(crate::proofs::Rows::columns))]
impl<T: NativeType> PrimitiveArray<T> {
    ghost use Rattle.sel_arrow.specs.Columns.{primitive_rows};

    /// Builds a primitive column from its parts.
    ///
    /// # Errors
    /// `Malformed` with the first rule broken, in this order: `TooManyRows` if there are more than
    /// 4,294,967,295 rows, `ValidityLength` if the length of the validity is not the number of
    /// rows.
    pub fn try_new(
        values: Buffer<T>,
        validity: Option<Bitmap>,
    ) -> Result<PrimitiveArray<T>, MakeError>
        ensures values { IfOk result (λ column. column.values ≡ values) }
        ensures validity { IfOk result (λ column. column.validity ≡ validity) }
        ensures accepted { IfOk result (λ _. flat_fault (length values) validity ≡ None) }
        ensures refused { IfErr result (IsFault (flat_fault (length values) validity)) }
    {
        if values.len() > MOST_ROWS {
            return Err(MakeError::Malformed(Malformed::TooManyRows));
        }
        if has_other_length(&validity, values.len()) {
            return Err(MakeError::Malformed(Malformed::ValidityLength));
        }
        Ok(PrimitiveArray { values, validity })
    }

    /// Builds a primitive column from `rows`; `None` gives a null row.
    ///
    /// The value in a null slot is the minimum of the type, which the contract leaves open.
    ///
    /// # Errors
    /// `Malformed(TooManyRows)` if there are more than 4,294,967,295 rows; `OutOfMemory` if an
    /// allocation fails.
    pub fn from_options(alloc: Global, rows: &[Option<T>]) -> Result<PrimitiveArray<T>, MakeError>
        ensures rows { IfOk result (λ column. primitive_rows column ≡
            map (number_value T.number) rows.now) }
        ensures accepted { IfOk result (λ _. null_fault (length rows.now) ≡ None) }
        ensures refused { IfErr result (IsFaultOrMemory (null_fault (length rows.now))) }
    {
        if rows.len() > MOST_ROWS {
            return Err(MakeError::Malformed(Malformed::TooManyRows));
        }
        match (values_or(alloc, rows, T::LEAST), valid_rows(alloc, rows)) {
            (Ok(values), Ok(valid)) => match Buffer::from_vec(values) {
                Ok(values) => Ok(PrimitiveArray {
                    values,
                    validity: Some(valid),
                }),
                Err(_) => Err(MakeError::OutOfMemory),
            },
            _ => Err(MakeError::OutOfMemory),
        }
    }

    /// Returns the values, including those in null slots.
    pub fn values(&self) -> &Buffer<T>
        ensures { result.now ≡ self.now.values }
    {
        &self.values
    }

    /// Returns the value of row `i`, or `None` if the row is null.
    ///
    /// # Requires
    /// `i` is less than the number of rows.
    pub fn get(&self, i: usize) -> Option<T>
        requires { i < length (primitive_rows self.now) }
        ensures { number_value T.number result ≡ slice_index_or (primitive_rows self.now) i Null }
    {
        if is_valid_at(&self.validity, i) {
            Some(self.values.as_slice()[i])
        } else {
            None
        }
    }

    /// Replaces the validity.
    ///
    /// # Requires
    /// If there is a validity, its length is the number of rows; check with `has_other_length`.
    pub fn with_validity(self, validity: Option<Bitmap>) -> PrimitiveArray<T>
        requires { Covers validity (length (primitive_rows self)) }
        ensures rows { primitive_rows result ≡ number_rows T.number self.values validity }
        ensures validity { result.validity ≡ validity }
    {
        let PrimitiveArray {
            values,
            validity: _,
        } = self;
        PrimitiveArray { values, validity }
    }
}

/// A primitive type that has a `Column` variant.
pub trait ArrowPrimitive: NativeType {
    ghost use Rattle.sel_arrow.specs.DataType.{shape_of};
    ghost use Rattle.sel_arrow.specs.Rows.{rows, buffers_held, type_of, IsWellFormed};

    /// The data type of a column of this primitive type.
    ghost shape: { Shape };

    /// Returns the data type of a column of this primitive type.
    fn column_dtype() -> ArrowDataType
        ensures { shape_of result ≡ shape };

    /// Returns whether `dtype` is the data type of a column of this primitive type.
    fn is_column_dtype(dtype: &ArrowDataType) -> bool
        ensures { IsTrue result ↔ (shape ≡ shape_of dtype.now) };

    /// Builds a column from its parts.
    ///
    /// # Requires
    /// There are at most 4,294,967,295 values, and the length of `validity` is their count.
    fn into_column(values: Buffer<Self>, validity: Option<Bitmap>) -> Column
        requires few { length values ≤ max_rows }
        requires covers { Covers validity (length values) }
        ensures rows { rows result ≡ number_rows Self.number values validity }
        ensures dtype { type_of result ≡ shape }
        ensures buffers { buffers_held result ≡ [] }
        ensures formed { IsWellFormed result };

    /// Returns references to the values and the validity, or `None` if the column has a different
    /// type.
    fn of_column(column: &Column) -> Option<(&[Self], Option<&Bitmap>)>
        ensures rows { IfSome result (λ parts. number_rows Self.number parts.0.now
            (option_copied parts.1) ≡ rows column.now) }
        ensures covers { IfSome result (λ parts. Covers
            (option_copied parts.1) (length parts.0.now)) }
        ensures other { IfNone result (type_of column.now ≢ shape) };

    /// Returns the values and the validity.
    ///
    /// # Errors
    /// Returns the column unchanged if it has a different type.
    fn from_column(column: Column) -> Result<(Buffer<Self>, Option<Bitmap>), Column>
        ensures rows { IfOk result (λ parts. number_rows Self.number parts.0 parts.1 ≡
            rows column) }
        ensures few { IfOk result (λ parts. length parts.0 ≤ max_rows) }
        ensures covers { IfOk result (λ parts. Covers parts.1 (length parts.0)) }
        ensures dtype { IfOk result (λ _. type_of column ≡ shape) }
        ensures buffers { IfOk result (λ _. buffers_held column ≡ []) }
        ensures back { IfErr result (λ back. back ≡ column) }
        ensures other { IfErr result (λ _. type_of column ≢ shape) };

    /// The data type is not the null type.
    ghost no_null: { shape ≢ of_null };
}

#[tactic(auto, using(crate::proofs::Rows::columns))]
impl<T: ArrowPrimitive> Array for PrimitiveArray<T> {
    ghost use Rattle.sel_arrow.specs.Columns.{primitive_rows};

    ghost rows = { λ column. primitive_rows column };

    ghost shape = { λ _. T.shape };

    ghost held = { λ _. [] };

    fn len(&self) -> usize {
        self.values.len()
    }

    fn validity(&self) -> Option<&Bitmap> {
        self.validity.as_ref()
    }

    fn has_dtype(&self, dtype: &ArrowDataType) -> bool {
        T::is_column_dtype(dtype)
    }

    fn same_dtype(&self, _other: &PrimitiveArray<T>) -> bool {
        true
    }

    fn into_ref(self) -> ArrayRef {
        let PrimitiveArray { values, validity } = self;
        ArrayRef {
            column: T::into_column(values, validity),
        }
    }

    fn dtype(&self, _alloc: Global) -> PolarsResult<ArrowDataType> {
        Ok(T::column_dtype())
    }

    fn sliced(&self, _alloc: Global, off: usize, len: usize) -> PolarsResult<PrimitiveArray<T>> {
        let values = self.values.try_clone()?.sliced(off, len);
        let validity = sliced_validity(&self.validity, off, len)?;
        Ok(PrimitiveArray { values, validity })
    }

    fn try_clone(&self, _alloc: Global) -> PolarsResult<PrimitiveArray<T>> {
        let values = self.values.try_clone()?;
        let validity = clone_validity(&self.validity)?;
        Ok(PrimitiveArray { values, validity })
    }
}
