//! Struct columns.

ghost use Rattle.std.specs.Prelude.{◌≡◌, ◌+◌, ◌≤◌, ◌==◌, length, take, drop, map, All, None, IfOk, IfErr};
ghost use Rattle.std.specs.List.{list_all};
ghost use Rattle.sel_bits.specs.Faults.{IsFaultOrMemory, IsOutOfMemory};
ghost use Rattle.sel_arrow.specs.Makers.{struct_fault};
ghost use Rattle.sel_bits.specs.Validity.{Covers};
ghost use Rattle.sel_arrow.specs.Nested.{struct_rows};
ghost use Rattle.sel_arrow.specs.Rows.{rows, row_count, type_of, IsField, IsWellFormed, buffers_held};
ghost use Rattle.sel_arrow.specs.declared.column.Column.{Struct};

use crate::array::Array;
use crate::array_ref::ArrayRef;
use crate::column::{Column, dtypes_of, have_dtypes, same_dtypes};
use crate::datatype::ArrowDataType;
use crate::rules::fault_of_struct;
use crate::validity::{clone_validity, sliced_validity};
use sel_bits::bitmap::Bitmap;
use sel_bits::faults::{MakeError, PolarsResult};
use std::alloc::Global;

/// A struct column of `len` rows. Row i holds row i of each field, unless the validity marks it
/// null.
#[derive(Drop)]
pub struct StructArray {
    pub len: usize,
    pub fields: Vec<Column>,
    pub validity: Option<Bitmap>,
    pub ghost formed: { IsWellFormed (Struct len fields validity) },
}

#[tactic(auto, using(crate::proofs::NestedMakers::nested_makers))]
impl StructArray {
    ghost use Rattle.sel_arrow.specs.NestedArrays.{struct_column};

    /// Builds a struct column of `len` rows from its fields.
    ///
    /// # Errors
    /// `Malformed` with the first rule broken, in this order: `TooManyRows` if `len` exceeds
    /// 4,294,967,295, `FieldLength` if a field does not have `len` rows, `ValidityLength` if the
    /// length of the validity is not `len`. `OutOfMemory` if no rule is broken and an allocation
    /// fails.
    pub fn try_new(
        alloc: Global,
        len: usize,
        fields: Vec<ArrayRef>,
        validity: Option<Bitmap>,
    ) -> Result<StructArray, MakeError>
        ensures len { IfOk result (λ array. array.len ≡ len) }
        ensures fields { IfOk result (λ array. array.fields.items ≡
            map (λ field. field.column) fields.items) }
        ensures validity { IfOk result (λ array. array.validity ≡ validity) }
        ensures accepted { IfOk result (λ _. struct_fault len
            (map (λ field. row_count field.column) fields.items) validity ≡ None) }
        ensures refused { IfErr result (IsFaultOrMemory
            (struct_fault len (map (λ field. row_count field.column) fields.items) validity)) }
    {
        let fit = have_rows(&fields, len);
        if let Some(fault) = fault_of_struct(len, fit, &validity) {
            return Err(MakeError::Malformed(fault));
        }
        match columns_of(alloc, fields) {
            Ok(fields) => Ok(StructArray {
                len,
                fields,
                validity,
            }),
            Err(_) => Err(MakeError::OutOfMemory),
        }
    }

    /// Returns the fields, in order.
    #[tactic(auto, using(crate::proofs::Trees::has_fields))]
    pub fn values(&self) -> &[Column]
        ensures columns { result.now ≡ self.now.fields.items }
        ensures formed { All (IsField self.now.len) result.now }
    {
        &self.fields
    }

    /// Replaces the validity.
    ///
    /// # Requires
    /// If there is a validity, its length is the number of rows; check with `has_other_length`.
    pub fn with_validity(self, validity: Option<Bitmap>) -> StructArray
        requires { Covers validity (length (rows (struct_column self))) }
        ensures rows { rows (struct_column result) ≡
            struct_rows self.len (map rows self.fields.items) validity }
        ensures dtype { type_of (struct_column result) ≡ type_of (struct_column self) }
        ensures buffers { buffers_held (struct_column result) ≡
            buffers_held (struct_column self) }
        ensures validity { result.validity ≡ validity }
    {
        let StructArray {
            len,
            fields,
            validity: _,
        } = self;
        StructArray {
            len,
            fields,
            validity,
        }
    }

    /// Converts the array to a `Column`.
    pub(crate) fn into_column(self) -> Column
        ensures column { result ≡ struct_column self }
        ensures formed { IsWellFormed result }
    {
        let StructArray {
            len,
            fields,
            validity,
        } = self;
        Column::Struct {
            len,
            fields,
            validity,
        }
    }

    /// Returns `len` rows from row `off` on, of the column with these parts. Fails only with
    /// `OutOfMemory`.
    #[tactic(auto, using(crate::proofs::NestedParts::tuple_steps))]
    #[cycle(slicing)]
    pub(crate) fn part_of(
        _count: usize,
        fields: &Vec<Column>,
        validity: &Option<Bitmap>,
        alloc: Global,
        off: usize,
        len: usize,
    ) -> PolarsResult<StructArray>
        requires formed { IsWellFormed (Struct _count fields.now validity.now) }
        requires inside { off + len ≤ length (rows (Struct _count fields.now validity.now)) }
        ensures rows { IfOk result (λ part. rows (struct_column part) ≡
            take len (drop off (rows (Struct _count fields.now validity.now)))) }
        ensures dtype { IfOk result (λ part. type_of (struct_column part) ≡
            type_of (Struct _count fields.now validity.now)) }
        ensures buffers { IfOk result (λ part. buffers_held (struct_column part) ≡
            buffers_held (Struct _count fields.now validity.now)) }
        ensures refusal { IfErr result IsOutOfMemory }
    {
        let validity = sliced_validity(validity, off, len)?;
        let fields = parts_of(fields, alloc, off, len)?;
        Ok(StructArray {
            len,
            fields,
            validity,
        })
    }

    /// Returns a copy of the column with these parts. Fails only with `OutOfMemory`.
    #[tactic(auto, using(crate::proofs::NestedParts::tuple_steps))]
    #[cycle(copying)]
    pub(crate) fn copy_of(
        len: usize,
        fields: &Vec<Column>,
        validity: &Option<Bitmap>,
        alloc: Global,
    ) -> PolarsResult<StructArray>
        requires { IsWellFormed (Struct len fields.now validity.now) }
        ensures rows { IfOk result (λ copy. rows (struct_column copy) ≡
            rows (Struct len fields.now validity.now)) }
        ensures dtype { IfOk result (λ copy. type_of (struct_column copy) ≡
            type_of (Struct len fields.now validity.now)) }
        ensures buffers { IfOk result (λ copy. buffers_held (struct_column copy) ≡
            buffers_held (Struct len fields.now validity.now)) }
        ensures refusal { IfErr result IsOutOfMemory }
    {
        let validity = clone_validity(validity)?;
        let fields = copies_of(fields, alloc)?;
        Ok(StructArray {
            len,
            fields,
            validity,
        })
    }
}

#[tactic(auto, using(crate::proofs::NestedMakers::nested_makers))]
impl Array for StructArray {
    ghost use Rattle.sel_arrow.specs.NestedArrays.{struct_column};

    ghost rows = { λ array. rows (struct_column array) };

    ghost shape = { λ array. type_of (struct_column array) };

    ghost held = { λ array. buffers_held (struct_column array) };

    fn len(&self) -> usize {
        self.len
    }

    fn validity(&self) -> Option<&Bitmap> {
        self.validity.as_ref()
    }

    fn has_dtype(&self, dtype: &ArrowDataType) -> bool {
        match dtype {
            ArrowDataType::Struct(dtypes) => have_dtypes(&self.fields, dtypes),
            _ => false,
        }
    }

    fn same_dtype(&self, other: &StructArray) -> bool {
        same_dtypes(&self.fields, &other.fields)
    }

    fn into_ref(self) -> ArrayRef {
        ArrayRef {
            column: self.into_column(),
        }
    }

    fn dtype(&self, alloc: Global) -> PolarsResult<ArrowDataType> {
        let dtypes = dtypes_of(alloc, &self.fields)?;
        Ok(ArrowDataType::Struct(dtypes))
    }

    fn sliced(&self, alloc: Global, off: usize, len: usize) -> PolarsResult<StructArray> {
        StructArray::part_of(self.len, &self.fields, &self.validity, alloc, off, len)
    }

    fn try_clone(&self, alloc: Global) -> PolarsResult<StructArray> {
        StructArray::copy_of(self.len, &self.fields, &self.validity, alloc)
    }
}

/// Returns whether each column has `len` rows.
#[tactic(auto, using(crate::proofs::Lists::all_lists))]
fn have_rows(columns: &[ArrayRef], len: usize) -> bool
    ensures { result ≡ list_all (λ column. row_count column.column == len) columns.now }
{
    for column in columns {
        if column.column.len() != len {
            return false;
        }
    }
    true
}

/// Unwraps the columns, all of which are well-formed. Fails only with `OutOfMemory`.
fn columns_of(alloc: Global, arrays: Vec<ArrayRef>) -> PolarsResult<Vec<Column>>
    ensures columns { IfOk result (λ columns. columns.items ≡
        map (λ array. array.column) arrays.items) }
    ensures formed { IfOk result (λ columns. All IsWellFormed columns.items) }
    ensures refusal { IfErr result IsOutOfMemory }
{
    let mut columns = Vec::with_capacity(alloc, arrays.len())?;
    for array in arrays {
        let ArrayRef { column } = array;
        columns.push(column)?;
    }
    Ok(columns)
}

/// Returns the `len` rows from row `off` on of each column. Fails only with `OutOfMemory`.
#[cycle(slicing)]
fn parts_of(columns: &[Column], alloc: Global, off: usize, len: usize) -> PolarsResult<Vec<Column>>
    requires within { All (λ column. IsWellFormed column ×
        (off + len ≤ length (rows column))) columns.now }
    ensures rows { IfOk result (λ parts. map rows parts.items ≡
        map (λ column. take len (drop off (rows column))) columns.now) }
    ensures dtype { IfOk result (λ parts. map type_of parts.items ≡ map type_of columns.now) }
    ensures buffers { IfOk result (λ parts. map buffers_held parts.items ≡
        map buffers_held columns.now) }
    ensures formed { IfOk result (λ parts. All (IsField len) parts.items) }
    ensures refusal { IfErr result IsOutOfMemory }
{
    let mut parts = Vec::new(alloc);
    for column in columns {
        parts.push(column.sliced(alloc, off, len)?)?;
    }
    Ok(parts)
}

/// Returns copies of the columns. Fails only with `OutOfMemory`.
#[cycle(copying)]
fn copies_of(columns: &[Column], alloc: Global) -> PolarsResult<Vec<Column>>
    requires formed { All IsWellFormed columns.now }
    ensures rows { IfOk result (λ copies. map rows copies.items ≡ map rows columns.now) }
    ensures dtype { IfOk result (λ copies. map type_of copies.items ≡ map type_of columns.now) }
    ensures buffers { IfOk result (λ copies. map buffers_held copies.items ≡
        map buffers_held columns.now) }
    ensures formed { IfOk result (λ copies. All IsWellFormed copies.items) }
    ensures refusal { IfErr result IsOutOfMemory }
{
    let mut copies = Vec::new(alloc);
    for column in columns {
        copies.push(column.try_clone(alloc)?)?;
    }
    Ok(copies)
}
