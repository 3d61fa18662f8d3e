//! Boolean columns.

ghost use Rattle.std.specs.Prelude.{◌≡◌, ◌≤◌, ◌<◌, length, map, slice_index_or, None, IfOk, IfErr, []};
ghost use Rattle.std.specs.Option.{option_copied};
ghost use Rattle.sel_bits.specs.Limits.{max_rows};
ghost use Rattle.sel_bits.specs.Faults.{IsFault, IsFaultOrMemory};
ghost use Rattle.sel_arrow.specs.Makers.{flat_fault, null_fault};
ghost use Rattle.sel_bits.specs.Validity.{Covers};
ghost use Rattle.sel_arrow.specs.Masked.{bool_rows, bool_value};
ghost use Rattle.sel_arrow.specs.Value.{Null};

use crate::array::Array;
use crate::array_ref::ArrayRef;
use crate::column::Column;
use crate::datatype::ArrowDataType;
use crate::options::{valid_rows, values_or};
use crate::validity::{MOST_ROWS, clone_validity, has_other_length, is_valid_at, sliced_validity};
use sel_bits::bitmap::Bitmap;
use sel_bits::faults::{MakeError, Malformed, PolarsResult};
use std::alloc::Global;

/// A boolean column, with one bit for each value.
#[derive(Drop)]
pub struct BooleanArray {
    pub values: Bitmap,
    pub validity: Option<Bitmap>,
    pub ghost rows_fit: { length values.bits ≤ max_rows },
    pub ghost validity_fits: { Covers validity (length values.bits) },
}

#[tactic(auto, using(crate::proofs::Rows::columns))]
impl BooleanArray {
    ghost use Rattle.sel_arrow.specs.Columns.{boolean_rows};

    /// Builds a boolean column from its parts.
    ///
    /// # Errors
    /// `Malformed` with the first rule broken, in this order: `TooManyRows` if there are more than
    /// 4,294,967,295 rows, `ValidityLength` if the length of the validity is not the number of
    /// rows.
    pub fn try_new(values: Bitmap, validity: Option<Bitmap>) -> Result<BooleanArray, MakeError>
        ensures values { IfOk result (λ column. column.values ≡ values) }
        ensures validity { IfOk result (λ column. column.validity ≡ validity) }
        ensures accepted { IfOk result (λ _. flat_fault (length values.bits) validity ≡ None) }
        ensures refused { IfErr result (IsFault (flat_fault (length values.bits) validity)) }
    {
        if values.len() > MOST_ROWS {
            return Err(MakeError::Malformed(Malformed::TooManyRows));
        }
        if has_other_length(&validity, values.len()) {
            return Err(MakeError::Malformed(Malformed::ValidityLength));
        }
        Ok(BooleanArray { values, validity })
    }

    /// Builds a boolean column from `rows`; `None` gives a null row.
    ///
    /// The value in a null slot is false, which the contract leaves open.
    ///
    /// # Errors
    /// `Malformed(TooManyRows)` if there are more than 4,294,967,295 rows; `OutOfMemory` if an
    /// allocation fails.
    pub fn from_options(alloc: Global, rows: &[Option<bool>]) -> Result<BooleanArray, MakeError>
        ensures rows { IfOk result (λ column. boolean_rows column ≡ map bool_value rows.now) }
        ensures accepted { IfOk result (λ _. null_fault (length rows.now) ≡ None) }
        ensures refused { IfErr result (IsFaultOrMemory (null_fault (length rows.now))) }
    {
        if rows.len() > MOST_ROWS {
            return Err(MakeError::Malformed(Malformed::TooManyRows));
        }
        match (values_or(alloc, rows, false), valid_rows(alloc, rows)) {
            (Ok(values), Ok(valid)) => match Bitmap::from_bools(alloc, &values) {
                Ok(values) => Ok(BooleanArray {
                    values,
                    validity: Some(valid),
                }),
                Err(_) => Err(MakeError::OutOfMemory),
            },
            _ => Err(MakeError::OutOfMemory),
        }
    }

    /// Returns the value bits, including those in null slots.
    pub fn values(&self) -> &Bitmap
        ensures { result.now ≡ self.now.values }
    {
        &self.values
    }

    /// Returns the value of row `i`, or `None` if the row is null.
    ///
    /// # Requires
    /// `i` is less than the number of rows.
    pub fn get(&self, i: usize) -> Option<bool>
        requires { i < length (boolean_rows self.now) }
        ensures { bool_value result ≡ slice_index_or (boolean_rows self.now) i Null }
    {
        if is_valid_at(&self.validity, i) {
            Some(self.values.get_bit(i))
        } else {
            None
        }
    }

    /// Replaces the validity.
    ///
    /// # Requires
    /// If there is a validity, its length is the number of rows; check with `has_other_length`.
    pub fn with_validity(self, validity: Option<Bitmap>) -> BooleanArray
        requires { Covers validity (length (boolean_rows self)) }
        ensures rows { boolean_rows result ≡ bool_rows self.values.bits validity }
        ensures validity { result.validity ≡ validity }
    {
        let BooleanArray {
            values,
            validity: _,
        } = self;
        BooleanArray { values, validity }
    }
}

#[tactic(auto, using(crate::proofs::Rows::columns))]
impl Array for BooleanArray {
    ghost use Rattle.sel_arrow.specs.Columns.{boolean_rows};
    ghost use Rattle.sel_arrow.specs.Shape.{of_boolean};

    ghost rows = { boolean_rows };

    ghost shape = { λ _. of_boolean };

    ghost held = { λ _. [] };

    fn len(&self) -> usize {
        self.values.len()
    }

    fn validity(&self) -> Option<&Bitmap> {
        self.validity.as_ref()
    }

    fn has_dtype(&self, dtype: &ArrowDataType) -> bool {
        matches!(dtype, ArrowDataType::Boolean)
    }

    fn same_dtype(&self, _other: &BooleanArray) -> bool {
        true
    }

    fn into_ref(self) -> ArrayRef {
        ArrayRef {
            column: Column::Boolean(self),
        }
    }

    fn dtype(&self, _alloc: Global) -> PolarsResult<ArrowDataType> {
        Ok(ArrowDataType::Boolean)
    }

    fn sliced(&self, _alloc: Global, off: usize, len: usize) -> PolarsResult<BooleanArray> {
        let values = self.values.try_clone()?.sliced(off, len);
        let validity = sliced_validity(&self.validity, off, len)?;
        Ok(BooleanArray { values, validity })
    }

    fn try_clone(&self, _alloc: Global) -> PolarsResult<BooleanArray> {
        let values = self.values.try_clone()?;
        let validity = clone_validity(&self.validity)?;
        Ok(BooleanArray { values, validity })
    }
}
