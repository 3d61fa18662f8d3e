//! List columns with offsets.

ghost use Rattle.std.specs.Prelude.{◌≡◌, ◌+◌, ◌≤◌, ◌↔◌, length, take, drop, None, IfOk, IfErr, IsTrue};
ghost use Rattle.sel_bits.specs.Faults.{IsFaultOrMemory, IsOutOfMemory};
ghost use Rattle.sel_arrow.specs.Makers.{list_fault};
ghost use Rattle.sel_bits.specs.Validity.{Covers};
ghost use Rattle.sel_arrow.specs.Nested.{list_rows};
ghost use Rattle.sel_arrow.specs.Rows.{rows, row_count, type_of, IsWellFormed, buffers_held};
ghost use Rattle.sel_arrow.specs.declared.column.Column.{LargeList};

use crate::array::Array;
use crate::array_ref::ArrayRef;
use crate::column::Column;
use crate::datatype::ArrowDataType;
use crate::rules::fault_of_lists;
use crate::validity::{clone_validity, sliced_validity};
use sel_bits::bitmap::Bitmap;
use sel_bits::faults::{MakeError, PolarsResult};
use sel_bits::native::Offset;
use sel_bits::offsets::OffsetsBuffer;
use std::alloc::Global;

/// An offset type of list columns. Only 64-bit offsets have a `Column` variant (LargeList).
pub trait ListOffset: Offset {}

impl ListOffset for i64 {}

/// A list column. List i is the rows of the child from offset i up to offset i + 1, unless the
/// validity marks it null.
#[derive(Drop)]
pub struct ListArray<O: ListOffset> {
    pub offsets: OffsetsBuffer<O>,
    pub values: Box<Column>,
    pub validity: Option<Bitmap>,
    pub ghost formed: { IsWellFormed (LargeList offsets values validity) },
}

#[tactic(auto, using(crate::proofs::NestedMakers::nested_makers))]
impl ListArray<i64> {
    ghost use Rattle.sel_arrow.specs.NestedArrays.{list_column};

    /// Builds a list column over the child `values`.
    ///
    /// # Errors
    /// `Malformed` with the first rule broken, in this order: `TooManyRows` if there are more than
    /// 4,294,967,295 lists, `OffsetRange` if the last offset exceeds the number of rows of the
    /// child, `ValidityLength` if the length of the validity is not the number of lists.
    /// `OutOfMemory` if no rule is broken and an allocation fails.
    #[tactic(auto, using(crate::proofs::NestedMakers::making))]
    pub fn try_new(
        alloc: Global,
        offsets: OffsetsBuffer<i64>,
        values: ArrayRef,
        validity: Option<Bitmap>,
    ) -> Result<ListArray<i64>, MakeError>
        ensures offsets { IfOk result (λ array. array.offsets ≡ offsets) }
        ensures values { IfOk result (λ array. array.values.value ≡ values.column) }
        ensures validity { IfOk result (λ array. array.validity ≡ validity) }
        ensures accepted { IfOk result (λ _. list_fault offsets (row_count values.column)
            validity ≡ None) }
        ensures refused { IfErr result (IsFaultOrMemory
            (list_fault offsets (row_count values.column) validity)) }
    {
        if let Some(fault) = fault_of_lists(&offsets, values.column.len(), &validity) {
            drop(values);
            return Err(MakeError::Malformed(fault));
        }
        let ArrayRef { column } = values;
        match Box::new(alloc, column) {
            Ok(values) => Ok(ListArray {
                offsets,
                values,
                validity,
            }),
            Err(refused) => {
                drop(refused.value);
                Err(MakeError::OutOfMemory)
            }
        }
    }

    /// Returns the offsets, one more than there are lists.
    pub fn offsets(&self) -> &OffsetsBuffer<i64>
        ensures { result.now ≡ self.now.offsets }
    {
        &self.offsets
    }

    /// Returns the child, including rows that are in no list.
    pub fn values(&self) -> &Column
        ensures column { result.now ≡ self.now.values.value }
        ensures formed { IsWellFormed result.now }
    {
        &self.values
    }

    /// Replaces the validity.
    ///
    /// # Requires
    /// If there is a validity, its length is the number of rows; check with `has_other_length`.
    pub fn with_validity(self, validity: Option<Bitmap>) -> ListArray<i64>
        requires { Covers validity (length (rows (list_column self))) }
        ensures rows { rows (list_column result) ≡
            list_rows self.offsets (rows self.values.value) validity }
        ensures dtype { type_of (list_column result) ≡ type_of (list_column self) }
        ensures buffers { buffers_held (list_column result) ≡ buffers_held (list_column self) }
        ensures validity { result.validity ≡ validity }
    {
        let ListArray {
            offsets,
            values,
            validity: _,
        } = self;
        ListArray {
            offsets,
            values,
            validity,
        }
    }

    /// Returns whether the rows of `scalar` can be one list of this column: they have the type of
    /// the child.
    pub fn scalar_fits(&self, scalar: &ArrayRef) -> bool
        ensures { IsTrue result ↔ (type_of scalar.now.column ≡ type_of self.now.values.value) }
    {
        scalar.column.same_dtype(&self.values)
    }

    /// Converts the array to a `Column`.
    pub(crate) fn into_column(self) -> Column
        ensures column { result ≡ list_column self }
        ensures formed { IsWellFormed result }
    {
        let ListArray {
            offsets,
            values,
            validity,
        } = self;
        Column::LargeList {
            offsets,
            values,
            validity,
        }
    }

    /// Returns `len` lists from list `off` on, of the column with these parts. Fails only with
    /// `OutOfMemory`.
    #[tactic(auto, using(crate::proofs::NestedParts::list_steps))]
    pub(crate) fn part_of(
        offsets: &OffsetsBuffer<i64>,
        values: &Box<Column>,
        validity: &Option<Bitmap>,
        alloc: Global,
        off: usize,
        len: usize,
    ) -> PolarsResult<ListArray<i64>>
        requires formed { IsWellFormed (LargeList offsets.now values.now validity.now) }
        requires inside { off + len ≤ length
            (rows (LargeList offsets.now values.now validity.now)) }
        ensures rows { IfOk result (λ part. rows (list_column part) ≡
            take len (drop off (rows (LargeList offsets.now values.now validity.now)))) }
        ensures dtype { IfOk result (λ part. type_of (list_column part) ≡
            type_of (LargeList offsets.now values.now validity.now)) }
        ensures buffers { IfOk result (λ part. buffers_held (list_column part) ≡
            buffers_held (LargeList offsets.now values.now validity.now)) }
        ensures refusal { IfErr result IsOutOfMemory }
    {
        let offsets = offsets.try_clone()?.sliced(off, len);
        let validity = sliced_validity(validity, off, len)?;
        let values = Box::new(alloc, values.try_clone(alloc)?)?;
        Ok(ListArray {
            offsets,
            values,
            validity,
        })
    }

    /// Returns a copy of the column with these parts. Fails only with `OutOfMemory`.
    #[tactic(auto, using(crate::proofs::NestedParts::list_steps))]
    #[cycle(copying)]
    pub(crate) fn copy_of(
        offsets: &OffsetsBuffer<i64>,
        values: &Box<Column>,
        validity: &Option<Bitmap>,
        alloc: Global,
    ) -> PolarsResult<ListArray<i64>>
        requires { IsWellFormed (LargeList offsets.now values.now validity.now) }
        ensures rows { IfOk result (λ copy. rows (list_column copy) ≡
            rows (LargeList offsets.now values.now validity.now)) }
        ensures dtype { IfOk result (λ copy. type_of (list_column copy) ≡
            type_of (LargeList offsets.now values.now validity.now)) }
        ensures buffers { IfOk result (λ copy. buffers_held (list_column copy) ≡
            buffers_held (LargeList offsets.now values.now validity.now)) }
        ensures refusal { IfErr result IsOutOfMemory }
    {
        let offsets = offsets.try_clone()?;
        let validity = clone_validity(validity)?;
        let values = Box::new(alloc, values.try_clone(alloc)?)?;
        Ok(ListArray {
            offsets,
            values,
            validity,
        })
    }
}

#[tactic(auto, using(crate::proofs::NestedMakers::nested_makers))]
impl Array for ListArray<i64> {
    ghost use Rattle.sel_arrow.specs.NestedArrays.{list_column};

    ghost rows = { λ array. rows (list_column array) };

    ghost shape = { λ array. type_of (list_column array) };

    ghost held = { λ array. buffers_held (list_column array) };

    fn len(&self) -> usize {
        self.offsets.len_proxy()
    }

    fn validity(&self) -> Option<&Bitmap> {
        self.validity.as_ref()
    }

    fn has_dtype(&self, dtype: &ArrowDataType) -> bool {
        match dtype {
            ArrowDataType::LargeList(child) => self.values.has_dtype(child),
            _ => false,
        }
    }

    fn same_dtype(&self, other: &ListArray<i64>) -> bool {
        self.values.same_dtype(&other.values)
    }

    fn into_ref(self) -> ArrayRef {
        ArrayRef {
            column: self.into_column(),
        }
    }

    fn dtype(&self, alloc: Global) -> PolarsResult<ArrowDataType> {
        let child = Box::new(alloc, self.values.dtype(alloc)?)?;
        Ok(ArrowDataType::LargeList(child))
    }

    fn sliced(&self, alloc: Global, off: usize, len: usize) -> PolarsResult<ListArray<i64>> {
        ListArray::part_of(&self.offsets, &self.values, &self.validity, alloc, off, len)
    }

    fn try_clone(&self, alloc: Global) -> PolarsResult<ListArray<i64>> {
        ListArray::copy_of(&self.offsets, &self.values, &self.validity, alloc)
    }
}
