//! Fixed-size list columns.

ghost use Rattle.std.specs.Prelude.{◌≡◌, ◌*◌, ◌+◌, ◌≤◌, ◌↔◌, length, take, drop, None, IfOk, IfErr, IsTrue};
ghost use Rattle.sel_bits.specs.Limits.{max_rows};
ghost use Rattle.sel_bits.specs.Faults.{IsFaultOrMemory, IsOutOfMemory};
ghost use Rattle.sel_arrow.specs.Makers.{block_fault};
ghost use Rattle.sel_bits.specs.Validity.{Covers};
ghost use Rattle.sel_arrow.specs.Nested.{block_rows};
ghost use Rattle.sel_arrow.specs.Rows.{rows, row_count, type_of, IsWellFormed, buffers_held};
ghost use Rattle.sel_arrow.specs.declared.column.Column.{FixedSizeList};

use crate::array::Array;
use crate::array_ref::ArrayRef;
use crate::column::Column;
use crate::datatype::ArrowDataType;
use crate::rules::fault_of_blocks;
use crate::validity::{clone_validity, sliced_validity};
use sel_bits::bitmap::Bitmap;
use sel_bits::faults::{MakeError, PolarsResult};
use std::alloc::Global;

/// A column of `len` lists of list size `size`. List i is the rows of the child from i * size up to
/// (i + 1) * size, unless the validity marks it null.
#[derive(Drop)]
pub struct FixedSizeListArray {
    pub size: usize,
    pub len: usize,
    pub values: Box<Column>,
    pub validity: Option<Bitmap>,
    pub ghost formed: { IsWellFormed (FixedSizeList size len values validity) },
}

#[tactic(auto, using(crate::proofs::NestedMakers::nested_makers))]
impl FixedSizeListArray {
    ghost use Rattle.sel_arrow.specs.NestedArrays.{block_column};

    /// Builds a column of `len` lists of list size `size` over the child `values`.
    ///
    /// # Errors
    /// `Malformed` with the first rule broken, in this order: `TooManyRows` if `len` exceeds
    /// 4,294,967,295, `Width` if `size` exceeds 4,294,967,295, `ChildLength` if the child does not
    /// have `len * size` rows, `ValidityLength` if the length of the validity is not `len`.
    /// `OutOfMemory` if no rule is broken and an allocation fails.
    #[tactic(auto, using(crate::proofs::NestedMakers::making))]
    pub fn try_new(
        alloc: Global,
        size: usize,
        len: usize,
        values: ArrayRef,
        validity: Option<Bitmap>,
    ) -> Result<FixedSizeListArray, MakeError>
        ensures size { IfOk result (λ array. array.size ≡ size) }
        ensures len { IfOk result (λ array. array.len ≡ len) }
        ensures values { IfOk result (λ array. array.values.value ≡ values.column) }
        ensures validity { IfOk result (λ array. array.validity ≡ validity) }
        ensures accepted { IfOk result (λ _. block_fault size len
            (row_count values.column) validity ≡ None) }
        ensures refused { IfErr result (IsFaultOrMemory
            (block_fault size len (row_count values.column) validity)) }
    {
        if let Some(fault) = fault_of_blocks(size, len, values.column.len(), &validity) {
            drop(values);
            return Err(MakeError::Malformed(fault));
        }
        let ArrayRef { column } = values;
        match Box::new(alloc, column) {
            Ok(values) => Ok(FixedSizeListArray {
                size,
                len,
                values,
                validity,
            }),
            Err(refused) => {
                drop(refused.value);
                Err(MakeError::OutOfMemory)
            }
        }
    }

    /// Returns the list size, at most 4,294,967,295.
    pub fn size(&self) -> usize
        ensures size { result ≡ self.now.size }
        ensures few { result ≤ max_rows }
    {
        self.size
    }

    /// Returns the child: the entries of all lists, concatenated, including those in null slots.
    pub fn values(&self) -> &Column
        ensures column { result.now ≡ self.now.values.value }
        ensures formed { IsWellFormed result.now }
    {
        &self.values
    }

    /// Replaces the validity.
    ///
    /// # Requires
    /// If there is a validity, its length is the number of rows; check with `has_other_length`.
    pub fn with_validity(self, validity: Option<Bitmap>) -> FixedSizeListArray
        requires { Covers validity (length (rows (block_column self))) }
        ensures rows { rows (block_column result) ≡
            block_rows self.size self.len (rows self.values.value) validity }
        ensures dtype { type_of (block_column result) ≡ type_of (block_column self) }
        ensures buffers { buffers_held (block_column result) ≡ buffers_held (block_column self) }
        ensures validity { result.validity ≡ validity }
    {
        let FixedSizeListArray {
            size,
            len,
            values,
            validity: _,
        } = self;
        FixedSizeListArray {
            size,
            len,
            values,
            validity,
        }
    }

    /// Returns whether the rows of `scalar` can be one list of this column: they have the type of
    /// the child, and their count is the list size.
    pub fn scalar_fits(&self, scalar: &ArrayRef) -> bool
        ensures { IsTrue result ↔
            ((type_of scalar.now.column ≡ type_of self.now.values.value) ×
            (length (rows scalar.now.column) ≡ self.now.size)) }
    {
        scalar.column.len() == self.size && scalar.column.same_dtype(&self.values)
    }

    /// Converts the array to a `Column`.
    pub(crate) fn into_column(self) -> Column
        ensures column { result ≡ block_column self }
        ensures formed { IsWellFormed result }
    {
        let FixedSizeListArray {
            size,
            len,
            values,
            validity,
        } = self;
        Column::FixedSizeList {
            size,
            len,
            values,
            validity,
        }
    }

    /// Returns `len` lists from list `off` on, of the column with these parts. Fails only with
    /// `OutOfMemory`.
    #[tactic(auto, using(crate::proofs::NestedParts::block_steps))]
    #[cycle(slicing)]
    pub(crate) fn part_of(
        size: usize,
        _count: usize,
        values: &Box<Column>,
        validity: &Option<Bitmap>,
        alloc: Global,
        off: usize,
        len: usize,
    ) -> PolarsResult<FixedSizeListArray>
        requires formed { IsWellFormed (FixedSizeList size _count values.now validity.now) }
        requires inside { off + len ≤ length
            (rows (FixedSizeList size _count values.now validity.now)) }
        ensures rows { IfOk result (λ part. rows (block_column part) ≡
            take len (drop off (rows (FixedSizeList size _count values.now validity.now)))) }
        ensures dtype { IfOk result (λ part. type_of (block_column part) ≡
            type_of (FixedSizeList size _count values.now validity.now)) }
        ensures buffers { IfOk result (λ part. buffers_held (block_column part) ≡
            buffers_held (FixedSizeList size _count values.now validity.now)) }
        ensures child { IfOk result (λ part. rows part.values.value ≡
            take (len * size) (drop (off * size) (rows values.now.value))) }
        ensures refusal { IfErr result IsOutOfMemory }
    {
        let validity = sliced_validity(validity, off, len)?;
        let values = values.sliced(alloc, off * size, len * size)?;
        let values = Box::new(alloc, values)?;
        Ok(FixedSizeListArray {
            size,
            len,
            values,
            validity,
        })
    }

    /// Returns a copy of the column with these parts. Fails only with `OutOfMemory`.
    #[tactic(auto, using(crate::proofs::NestedParts::block_steps))]
    #[cycle(copying)]
    pub(crate) fn copy_of(
        size: usize,
        len: usize,
        values: &Box<Column>,
        validity: &Option<Bitmap>,
        alloc: Global,
    ) -> PolarsResult<FixedSizeListArray>
        requires { IsWellFormed (FixedSizeList size len values.now validity.now) }
        ensures rows { IfOk result (λ copy. rows (block_column copy) ≡
            rows (FixedSizeList size len values.now validity.now)) }
        ensures dtype { IfOk result (λ copy. type_of (block_column copy) ≡
            type_of (FixedSizeList size len values.now validity.now)) }
        ensures buffers { IfOk result (λ copy. buffers_held (block_column copy) ≡
            buffers_held (FixedSizeList size len values.now validity.now)) }
        ensures refusal { IfErr result IsOutOfMemory }
    {
        let validity = clone_validity(validity)?;
        let values = Box::new(alloc, values.try_clone(alloc)?)?;
        Ok(FixedSizeListArray {
            size,
            len,
            values,
            validity,
        })
    }
}

#[tactic(auto, using(crate::proofs::NestedMakers::nested_makers))]
impl Array for FixedSizeListArray {
    ghost use Rattle.sel_arrow.specs.NestedArrays.{block_column};

    ghost rows = { λ array. rows (block_column array) };

    ghost shape = { λ array. type_of (block_column array) };

    ghost held = { λ array. buffers_held (block_column array) };

    fn len(&self) -> usize {
        self.len
    }

    fn validity(&self) -> Option<&Bitmap> {
        self.validity.as_ref()
    }

    fn has_dtype(&self, dtype: &ArrowDataType) -> bool {
        match dtype {
            ArrowDataType::FixedSizeList(child, size) => {
                self.size == *size && self.values.has_dtype(child)
            }
            _ => false,
        }
    }

    fn same_dtype(&self, other: &FixedSizeListArray) -> bool {
        self.size == other.size && self.values.same_dtype(&other.values)
    }

    fn into_ref(self) -> ArrayRef {
        ArrayRef {
            column: self.into_column(),
        }
    }

    fn dtype(&self, alloc: Global) -> PolarsResult<ArrowDataType> {
        let child = Box::new(alloc, self.values.dtype(alloc)?)?;
        Ok(ArrowDataType::FixedSizeList(child, self.size))
    }

    /// Returns `len` lists from list `off` on, over the corresponding range of the child.
    ///
    /// # Requires
    /// `off + len` is at most the number of lists.
    ///
    /// # Errors
    /// `OutOfMemory` if an allocation fails.
    fn sliced(&self, alloc: Global, off: usize, len: usize) -> PolarsResult<FixedSizeListArray>
        requires { off + len ≤ length (rows (block_column self.now)) }
        ensures rows { IfOk result (λ part. rows (block_column part) ≡
            take len (drop off (rows (block_column self.now)))) }
        ensures dtype { IfOk result (λ part. type_of (block_column part) ≡
            type_of (block_column self.now)) }
        ensures buffers { IfOk result (λ part. buffers_held (block_column part) ≡
            buffers_held (block_column self.now)) }
        ensures child { IfOk result (λ part. rows part.values.value ≡
            take (len * self.now.size) (drop (off * self.now.size) (rows self.now.values.value))) }
        ensures refusal { IfErr result IsOutOfMemory }
    {
        FixedSizeListArray::part_of(
            self.size,
            self.len,
            &self.values,
            &self.validity,
            alloc,
            off,
            len,
        )
    }

    fn try_clone(&self, alloc: Global) -> PolarsResult<FixedSizeListArray> {
        FixedSizeListArray::copy_of(self.size, self.len, &self.values, &self.validity, alloc)
    }
}
