//! String view columns.

ghost use Rattle.std.specs.Prelude.{◌≡◌, ◌≤◌, ◌<◌, ◌+◌, length, slice_index_or, None, IfOk, IfErr, IsTrue, string_bytes, [], ◌∷◌};
ghost use Rattle.std.specs.Option.{option_copied, option_map};
ghost use Rattle.sel_bits.specs.Faults.{IsFault, IsOutOfMemory};
ghost use Rattle.sel_arrow.specs.Makers.{utf8view_fault};
ghost use Rattle.sel_arrow.specs.Masked.{bytes_value};
ghost use Rattle.sel_arrow.specs.Texts.{all_text};
ghost use Rattle.sel_arrow.specs.Value.{Null};
ghost use Rattle.sel_arrow.specs.Views.{view_rows};

use crate::array::Array;
use crate::array_ref::ArrayRef;
use crate::binview::BinaryViewArray;
use crate::column::Column;
use crate::datatype::ArrowDataType;
use crate::view::View;
use sel_bits::bitmap::Bitmap;
use sel_bits::buffer::Buffer;
use sel_bits::faults::{MakeError, Malformed, PolarsResult};
use std::alloc::Global;

/// A string view column: a binary view column whose valid rows are UTF-8.
#[derive(Drop)]
pub struct Utf8ViewArray {
    pub bytes: BinaryViewArray,
    pub ghost texts: { IsTrue (all_text (view_rows bytes.views bytes.buffers bytes.validity)) },
}

#[tactic(auto, using(crate::proofs::Texts::text_columns))]
impl Utf8ViewArray {
    ghost use Rattle.sel_arrow.specs.Columns.{binview_rows, utf8view_rows};

    /// Builds a string view column from its parts.
    ///
    /// # Errors
    /// The errors of `BinaryViewArray::try_new`, checked first; then `Malformed(Utf8)` if a valid
    /// row is not UTF-8.
    pub fn try_new(
        views: Buffer<View>,
        buffers: Buffer<Buffer<u8>>,
        validity: Option<Bitmap>,
    ) -> Result<Utf8ViewArray, MakeError>
        ensures views { IfOk result (λ column. column.bytes.views ≡ views) }
        ensures buffers { IfOk result (λ column. column.bytes.buffers ≡ buffers) }
        ensures validity { IfOk result (λ column. column.bytes.validity ≡ validity) }
        ensures accepted { IfOk result (λ _. utf8view_fault views buffers validity ≡ None) }
        ensures refused { IfErr result (IsFault (utf8view_fault views buffers validity)) }
    {
        match BinaryViewArray::try_new(views, buffers, validity) {
            Ok(bytes) => {
                if bytes.is_utf8() {
                    Ok(Utf8ViewArray { bytes })
                } else {
                    Err(MakeError::Malformed(Malformed::Utf8))
                }
            }
            Err(fault) => Err(fault),
        }
    }

    /// Returns the views, including those in null slots.
    pub fn views(&self) -> &Buffer<View>
        ensures { result.now ≡ self.now.bytes.views }
    {
        self.bytes.views()
    }

    /// Returns the data buffers.
    pub fn data_buffers(&self) -> &Buffer<Buffer<u8>>
        ensures { result.now ≡ self.now.bytes.buffers }
    {
        self.bytes.data_buffers()
    }

    /// Returns a copy of the string in row `i`, or `None` if the row is null.
    ///
    /// # Requires
    /// `i` is less than the number of rows.
    ///
    /// # Errors
    /// `OutOfMemory` if an allocation fails.
    pub fn get(&self, alloc: Global, i: usize) -> PolarsResult<Option<String>>
        requires { i < length (utf8view_rows self.now) }
        ensures row { IfOk result (λ row. bytes_value (option_map string_bytes row) ≡
            slice_index_or (utf8view_rows self.now) i Null) }
        ensures refusal { IfErr result IsOutOfMemory }
    {
        match self.bytes.get(alloc, i)? {
            None => Ok(None),
            Some(bytes) => Ok(Some(String::from_utf8(bytes).unwrap())),
        }
    }

    /// Returns the same rows as a binary view column.
    ///
    /// # Errors
    /// `OutOfMemory` if an allocation fails.
    pub fn to_binview(&self, alloc: Global) -> PolarsResult<BinaryViewArray>
        ensures rows { IfOk result (λ column. binview_rows column ≡ utf8view_rows self.now) }
        ensures buffers { IfOk result (λ column. column.buffers ≡ self.now.bytes.buffers) }
        ensures refusal { IfErr result IsOutOfMemory }
    {
        Ok(self.bytes.try_clone(alloc)?)
    }
}

#[tactic(auto, using(crate::proofs::Texts::text_columns))]
impl Array for Utf8ViewArray {
    ghost use Rattle.sel_arrow.specs.Columns.{utf8view_rows};
    ghost use Rattle.sel_arrow.specs.Shape.{of_utf8_view};

    ghost rows = { utf8view_rows };

    ghost shape = { λ _. of_utf8_view };

    ghost held = { λ column. column.bytes.buffers ∷ [] };

    fn len(&self) -> usize {
        self.bytes.len()
    }

    fn validity(&self) -> Option<&Bitmap> {
        self.bytes.validity()
    }

    fn has_dtype(&self, dtype: &ArrowDataType) -> bool {
        matches!(dtype, ArrowDataType::Utf8View)
    }

    fn same_dtype(&self, _other: &Utf8ViewArray) -> bool {
        true
    }

    fn into_ref(self) -> ArrayRef {
        ArrayRef {
            column: Column::Utf8View(self),
        }
    }

    fn dtype(&self, _alloc: Global) -> PolarsResult<ArrowDataType> {
        Ok(ArrowDataType::Utf8View)
    }

    fn sliced(&self, alloc: Global, off: usize, len: usize) -> PolarsResult<Utf8ViewArray> {
        let bytes = self.bytes.sliced(alloc, off, len)?;
        Ok(Utf8ViewArray { bytes })
    }

    fn try_clone(&self, alloc: Global) -> PolarsResult<Utf8ViewArray> {
        let bytes = self.bytes.try_clone(alloc)?;
        Ok(Utf8ViewArray { bytes })
    }
}
