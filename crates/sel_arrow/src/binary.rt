//! Binary columns with offsets.

ghost use Rattle.std.specs.Prelude.{◌≡◌, ◌≤◌, ◌<◌, ◌+◌, ◌↔◌, length, count_by, slice_index_or, None, IfOk, IfErr, IsTrue, []};
ghost use Rattle.std.specs.Option.{option_copied};
ghost use Rattle.sel_bits.specs.Limits.{max_rows};
ghost use Rattle.sel_bits.specs.Faults.{IsFault};
ghost use Rattle.sel_bits.specs.Offsets.{IsRising};
ghost use Rattle.sel_arrow.specs.Makers.{binary_fault};
ghost use Rattle.sel_bits.specs.Validity.{Covers};
ghost use Rattle.sel_arrow.specs.Masked.{bytes_value};
ghost use Rattle.sel_arrow.specs.Nulls.{IsValidityOf};
ghost use Rattle.sel_arrow.specs.Pieces.{byte_rows, last_offset, rows_between};
ghost use Rattle.sel_arrow.specs.Shape.{of_large_binary};
ghost use Rattle.sel_arrow.specs.Value.{Null, is_null};

use crate::array::Array;
use crate::array_ref::ArrayRef;
use crate::column::Column;
use crate::datatype::ArrowDataType;
use crate::validity::{MOST_ROWS, clone_validity, has_other_length, is_valid_at, sliced_validity};
use sel_bits::bitmap::Bitmap;
use sel_bits::buffer::Buffer;
use sel_bits::faults::{MakeError, Malformed, PolarsResult};
use sel_bits::native::Offset;
use sel_bits::offsets::OffsetsBuffer;
use std::alloc::Global;

/// A binary column. Row i is the bytes from offset i up to offset i + 1, unless the validity marks
/// it null.
#[derive(Drop)]
pub struct BinaryArray<O: Offset> {
    pub offsets: OffsetsBuffer<O>,
    pub values: Buffer<u8>,
    pub validity: Option<Bitmap>,
    pub ghost rising: { IsRising offsets },
    pub ghost rows_fit: { rows_between offsets ≤ max_rows },
    pub ghost values_fit: { last_offset offsets ≤ length values },
    pub ghost bytes_fit: { length values ≤ 9223372036854775807 },
    pub ghost validity_fits: { Covers validity (rows_between offsets) },
}

#[tactic(auto, using(crate::proofs::ByteRows::byte_columns))]
impl<O: Offset> BinaryArray<O> {
    ghost use Rattle.sel_arrow.specs.Columns.{binary_rows};

    /// Builds a binary column from its parts.
    ///
    /// # Errors
    /// `Malformed` with the first rule broken, in this order: `TooManyRows` if there are more than
    /// 4,294,967,295 rows, `OffsetRange` if the last offset exceeds the length of `values`,
    /// `ValidityLength` if the length of the validity is not the number of rows.
    pub fn try_new(
        offsets: OffsetsBuffer<O>,
        values: Buffer<u8>,
        validity: Option<Bitmap>,
    ) -> Result<BinaryArray<O>, MakeError>
        ensures offsets { IfOk result (λ column. column.offsets ≡ offsets) }
        ensures values { IfOk result (λ column. column.values ≡ values) }
        ensures validity { IfOk result (λ column. column.validity ≡ validity) }
        ensures accepted { IfOk result (λ _. binary_fault offsets values validity ≡ None) }
        ensures refused { IfErr result (IsFault (binary_fault offsets values validity)) }
    {
        let rows = offsets.len_proxy();
        if rows > MOST_ROWS {
            return Err(MakeError::Malformed(Malformed::TooManyRows));
        }
        if offsets.at(rows) > values.as_slice().len() {
            return Err(MakeError::Malformed(Malformed::OffsetRange));
        }
        if has_other_length(&validity, rows) {
            return Err(MakeError::Malformed(Malformed::ValidityLength));
        }
        Ok(BinaryArray {
            offsets,
            values,
            validity,
        })
    }

    /// Returns the offsets, one more than there are rows.
    pub fn offsets(&self) -> &OffsetsBuffer<O>
        ensures { result.now ≡ self.now.offsets }
    {
        &self.offsets
    }

    /// Returns the value bytes, including those outside every row.
    pub fn values(&self) -> &Buffer<u8>
        ensures { result.now ≡ self.now.values }
    {
        &self.values
    }

    /// Returns the bytes of row `i`, or `None` if the row is null.
    ///
    /// # Requires
    /// `i` is less than the number of rows.
    pub fn get(&self, i: usize) -> Option<&[u8]>
        requires { i < length (binary_rows self.now) }
        ensures { bytes_value (option_copied result) ≡
            slice_index_or (binary_rows self.now) i Null }
    {
        if is_valid_at(&self.validity, i) {
            Some(&self.values.as_slice()[self.offsets.at(i)..self.offsets.at(i + 1)])
        } else {
            None
        }
    }

    /// Returns the number of rows, at most 4,294,967,295.
    pub fn len(&self) -> usize
        ensures len { result ≡ length (binary_rows self.now) }
        ensures few { result ≤ max_rows }
    {
        self.offsets.len_proxy()
    }

    /// Returns whether the column has no rows.
    pub fn is_empty(&self) -> bool
        ensures { IsTrue result ↔ (length (binary_rows self.now) ≡ 0) }
    {
        self.len() == 0
    }

    /// Returns the validity bitmap. Without one every row is valid.
    pub fn validity(&self) -> Option<&Bitmap>
        ensures { IsValidityOf of_large_binary (option_copied result) (binary_rows self.now) }
    {
        self.validity.as_ref()
    }

    /// Returns the number of null rows.
    pub fn null_count(&self) -> usize
        ensures { result ≡ count_by is_null (binary_rows self.now) }
    {
        match self.validity() {
            None => 0,
            Some(bits) => bits.unset_bits(),
        }
    }

    /// Returns whether at least one row is null.
    pub fn has_nulls(&self) -> bool
        ensures { IsTrue result ↔ (0 < count_by is_null (binary_rows self.now)) }
    {
        self.null_count() > 0
    }

    /// Replaces the validity.
    ///
    /// # Requires
    /// If there is a validity, its length is the number of rows; check with `has_other_length`.
    pub fn with_validity(self, validity: Option<Bitmap>) -> BinaryArray<O>
        requires { Covers validity (length (binary_rows self)) }
        ensures rows { binary_rows result ≡ byte_rows self.offsets self.values validity }
        ensures validity { result.validity ≡ validity }
    {
        let BinaryArray {
            offsets,
            values,
            validity: _,
        } = self;
        BinaryArray {
            offsets,
            values,
            validity,
        }
    }
}

#[tactic(auto, using(crate::proofs::ByteRows::byte_columns))]
impl Array for BinaryArray<i64> {
    ghost use Rattle.sel_arrow.specs.Columns.{binary_rows};

    ghost rows = { λ column. binary_rows column };

    ghost shape = { λ _. of_large_binary };

    ghost held = { λ _. [] };

    fn len(&self) -> usize {
        BinaryArray::len(self)
    }

    fn validity(&self) -> Option<&Bitmap> {
        BinaryArray::validity(self)
    }

    fn has_dtype(&self, dtype: &ArrowDataType) -> bool {
        matches!(dtype, ArrowDataType::LargeBinary)
    }

    fn same_dtype(&self, _other: &BinaryArray<i64>) -> bool {
        true
    }

    fn into_ref(self) -> ArrayRef {
        ArrayRef {
            column: Column::LargeBinary(self),
        }
    }

    fn dtype(&self, _alloc: Global) -> PolarsResult<ArrowDataType> {
        Ok(ArrowDataType::LargeBinary)
    }

    fn sliced(&self, _alloc: Global, off: usize, len: usize) -> PolarsResult<BinaryArray<i64>> {
        let offsets = self.offsets.try_clone()?.sliced(off, len);
        let values = self.values.try_clone()?;
        let validity = sliced_validity(&self.validity, off, len)?;
        Ok(BinaryArray {
            offsets,
            values,
            validity,
        })
    }

    fn try_clone(&self, _alloc: Global) -> PolarsResult<BinaryArray<i64>> {
        let offsets = self.offsets.try_clone()?;
        let values = self.values.try_clone()?;
        let validity = clone_validity(&self.validity)?;
        Ok(BinaryArray {
            offsets,
            values,
            validity,
        })
    }
}
