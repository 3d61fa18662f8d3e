//! Binary view columns.

ghost use Rattle.std.specs.Prelude.{◌≡◌, ◌≤◌, ◌<◌, ◌+◌, length, slice_index_or, None, IfOk, IfErr, IsTrue, [], ◌∷◌};
ghost use Rattle.std.specs.Option.{option_copied, option_map};
ghost use Rattle.std.specs.Str.{is_utf8};
ghost use Rattle.sel_bits.specs.Limits.{max_buffers, max_rows};
ghost use Rattle.sel_bits.specs.Faults.{IsFault, IsOutOfMemory};
ghost use Rattle.sel_arrow.specs.Makers.{binview_fault, view_fault, views_fault};
ghost use Rattle.sel_bits.specs.Validity.{Covers};
ghost use Rattle.sel_arrow.specs.Masked.{bytes_value};
ghost use Rattle.sel_arrow.specs.Texts.{all_text, is_text};
ghost use Rattle.sel_arrow.specs.Value.{Null};
ghost use Rattle.sel_arrow.specs.Views.{all_placed, inline_space, is_placed, view_bytes, view_rows};

use crate::array::Array;
use crate::array_ref::ArrayRef;
use crate::column::Column;
use crate::datatype::ArrowDataType;
use crate::utf8view::Utf8ViewArray;
use crate::validity::{MOST_ROWS, clone_validity, has_other_length, is_valid_at, sliced_validity};
use crate::view::{INLINE_BYTES, View, read_word};
use sel_bits::bitmap::Bitmap;
use sel_bits::buffer::Buffer;
use sel_bits::faults::{MakeError, Malformed, PolarsResult};
use std::alloc::Global;
use std::str;

/// The maximum number of data buffers of a column.
pub const MOST_BUFFERS: usize = 4_294_967_295;

/// A binary view column. Each view is within range of the data buffers and has the right prefix.
#[derive(Drop)]
pub struct BinaryViewArray {
    pub views: Buffer<View>,
    pub buffers: Buffer<Buffer<u8>>,
    pub validity: Option<Bitmap>,
    pub ghost rows_fit: { length views ≤ max_rows },
    pub ghost buffers_fit: { length buffers ≤ max_buffers },
    pub ghost validity_fits: { Covers validity (length views) },
    pub ghost placed: { IsTrue (all_placed buffers views) },
}

#[tactic(auto, using(crate::proofs::ViewRows::view_columns))]
impl BinaryViewArray {
    ghost use Rattle.sel_arrow.specs.Columns.{binview_rows, utf8view_rows};

    /// Builds a binary view column from its parts.
    ///
    /// # Errors
    /// `Malformed` with the first rule broken, in this order: `TooManyRows` if there are more than
    /// 4,294,967,295 rows, `TooManyBuffers` if there are more than 4,294,967,295 data buffers,
    /// `ValidityLength` if the length of the validity is not the number of rows, and then, view by
    /// view and in null slots too, `ViewRange` if the view is out of range of the data buffers or
    /// `ViewPrefix` if its prefix is not the first four bytes of its data.
    pub fn try_new(
        views: Buffer<View>,
        buffers: Buffer<Buffer<u8>>,
        validity: Option<Bitmap>,
    ) -> Result<BinaryViewArray, MakeError>
        ensures views { IfOk result (λ column. column.views ≡ views) }
        ensures buffers { IfOk result (λ column. column.buffers ≡ buffers) }
        ensures validity { IfOk result (λ column. column.validity ≡ validity) }
        ensures accepted { IfOk result (λ _. binview_fault views buffers validity ≡ None) }
        ensures refused { IfErr result (IsFault (binview_fault views buffers validity)) }
    {
        if views.len() > MOST_ROWS {
            return Err(MakeError::Malformed(Malformed::TooManyRows));
        }
        if buffers.len() > MOST_BUFFERS {
            return Err(MakeError::Malformed(Malformed::TooManyBuffers));
        }
        if has_other_length(&validity, views.len()) {
            return Err(MakeError::Malformed(Malformed::ValidityLength));
        }
        if let Some(fault) = fault_of_views(buffers.as_slice(), views.as_slice()) {
            return Err(MakeError::Malformed(fault));
        }
        Ok(BinaryViewArray {
            views,
            buffers,
            validity,
        })
    }

    /// Returns the views, including those in null slots.
    pub fn views(&self) -> &Buffer<View>
        ensures { result.now ≡ self.now.views }
    {
        &self.views
    }

    /// Returns the data buffers.
    pub fn data_buffers(&self) -> &Buffer<Buffer<u8>>
        ensures { result.now ≡ self.now.buffers }
    {
        &self.buffers
    }

    /// Returns a copy of the bytes of row `i`, or `None` if the row is null.
    ///
    /// # Requires
    /// `i` is less than the number of rows.
    ///
    /// # Errors
    /// `OutOfMemory` if an allocation fails.
    pub fn get(&self, alloc: Global, i: usize) -> PolarsResult<Option<Vec<u8>>>
        requires { i < length (binview_rows self.now) }
        ensures row { IfOk result (λ row. bytes_value (option_map (λ bytes. bytes.items) row) ≡
            slice_index_or (binview_rows self.now) i Null) }
        ensures refusal { IfErr result IsOutOfMemory }
    {
        if is_valid_at(&self.validity, i) {
            let view = self.views.as_slice()[i];
            let space = view.inline_space();
            let bytes = bytes_at(self.buffers.as_slice(), view, &space);
            Ok(Some(Vec::from_slice(alloc, bytes)?))
        } else {
            Ok(None)
        }
    }

    /// Returns whether every valid row is UTF-8.
    #[tactic(auto, using(crate::proofs::Texts::whole_texts))]
    pub fn is_utf8(&self) -> bool
        ensures { result ≡ all_text (binview_rows self.now) }
    {
        for i in 0..self.views.len() {
            if !self.is_row_utf8(i) {
                return false;
            }
        }
        true
    }

    /// Returns whether row `i` is null or UTF-8.
    fn is_row_utf8(&self, i: usize) -> bool
        requires { i < length (binview_rows self.now) }
        ensures { result ≡ is_text (slice_index_or (binview_rows self.now) i Null) }
    {
        if is_valid_at(&self.validity, i) {
            let view = self.views.as_slice()[i];
            let space = view.inline_space();
            is_bytes_utf8(bytes_at(self.buffers.as_slice(), view, &space))
        } else {
            true
        }
    }

    /// Returns the same rows as a string view column, without checking that they are UTF-8.
    ///
    /// # Requires
    /// Every valid row is UTF-8; check with `is_utf8`.
    ///
    /// # Errors
    /// `OutOfMemory` if an allocation fails.
    pub fn to_utf8view_unchecked(&self, alloc: Global) -> PolarsResult<Utf8ViewArray>
        requires { IsTrue (all_text (binview_rows self.now)) }
        ensures rows { IfOk result (λ column. utf8view_rows column ≡ binview_rows self.now) }
        ensures buffers { IfOk result (λ column. column.bytes.buffers ≡ self.now.buffers) }
        ensures refusal { IfErr result IsOutOfMemory }
    {
        let bytes = self.try_clone(alloc)?;
        Ok(Utf8ViewArray { bytes })
    }

    /// Replaces the validity.
    ///
    /// # Requires
    /// If there is a validity, its length is the number of rows; check with `has_other_length`.
    pub fn with_validity(self, validity: Option<Bitmap>) -> BinaryViewArray
        requires { Covers validity (length (binview_rows self)) }
        ensures rows { binview_rows result ≡ view_rows self.views self.buffers validity }
        ensures buffers { result.buffers ≡ self.buffers }
        ensures validity { result.validity ≡ validity }
    {
        let BinaryViewArray {
            views,
            buffers,
            validity: _,
        } = self;
        BinaryViewArray {
            views,
            buffers,
            validity,
        }
    }
}

#[tactic(auto, using(crate::proofs::ViewRows::view_columns))]
impl Array for BinaryViewArray {
    ghost use Rattle.sel_arrow.specs.Columns.{binview_rows};
    ghost use Rattle.sel_arrow.specs.Shape.{of_binary_view};

    ghost rows = { binview_rows };

    ghost shape = { λ _. of_binary_view };

    ghost held = { λ column. column.buffers ∷ [] };

    fn len(&self) -> usize {
        self.views.len()
    }

    fn validity(&self) -> Option<&Bitmap> {
        self.validity.as_ref()
    }

    fn has_dtype(&self, dtype: &ArrowDataType) -> bool {
        matches!(dtype, ArrowDataType::BinaryView)
    }

    fn same_dtype(&self, _other: &BinaryViewArray) -> bool {
        true
    }

    fn into_ref(self) -> ArrayRef {
        ArrayRef {
            column: Column::BinaryView(self),
        }
    }

    fn dtype(&self, _alloc: Global) -> PolarsResult<ArrowDataType> {
        Ok(ArrowDataType::BinaryView)
    }

    fn sliced(&self, _alloc: Global, off: usize, len: usize) -> PolarsResult<BinaryViewArray> {
        let views = self.views.try_clone()?.sliced(off, len);
        let buffers = self.buffers.try_clone()?;
        let validity = sliced_validity(&self.validity, off, len)?;
        Ok(BinaryViewArray {
            views,
            buffers,
            validity,
        })
    }

    fn try_clone(&self, _alloc: Global) -> PolarsResult<BinaryViewArray> {
        let views = self.views.try_clone()?;
        let buffers = self.buffers.try_clone()?;
        let validity = clone_validity(&self.validity)?;
        Ok(BinaryViewArray {
            views,
            buffers,
            validity,
        })
    }
}

/// Returns the first rule that the first malformed view breaks.
fn fault_of_views(buffers: &[Buffer<u8>], views: &[View]) -> Option<Malformed>
    ensures { result ≡ views_fault buffers.now views.now }
{
    for view in views {
        let fault = fault_of_view(buffers, *view);
        if fault.is_some() {
            return fault;
        }
    }
    None
}

/// Returns the first rule that the view breaks.
fn fault_of_view(buffers: &[Buffer<u8>], view: View) -> Option<Malformed>
    ensures { result ≡ view_fault buffers.now view }
{
    if view.length <= INLINE_BYTES {
        return None;
    }
    let place = view.buffer_idx as usize;
    if place >= buffers.len() {
        return Some(Malformed::ViewRange);
    }
    let bytes = buffers[place].as_slice();
    let start = view.offset as usize;
    let end = start + view.length as usize;
    if end > bytes.len() {
        return Some(Malformed::ViewRange);
    }
    if read_word(&bytes[start..end], 0) != view.prefix {
        return Some(Malformed::ViewPrefix);
    }
    None
}

/// Returns whether the view is within range of `buffers` and has the right prefix.
#[tactic(auto, using(crate::proofs::ViewRows::fault_placed))]
pub fn is_view_placed(buffers: &[Buffer<u8>], view: View) -> bool
    ensures { result ≡ is_placed buffers.now view }
{
    fault_of_view(buffers, view).is_none()
}

/// Returns a reference to the bytes of `view`, without a copy.
///
/// # Requires
/// The view is within range of `buffers` and has the right prefix (check with [`is_view_placed`]);
/// `space` is the result of `View::inline_space` for `view`.
#[tactic(auto, using(crate::proofs::ViewRows::placing))]
pub fn bytes_at<'a>(buffers: &'a [Buffer<u8>], view: View, space: &'a [u8; 12]) -> &'a [u8]
    requires placed { IsTrue (is_placed buffers.now view) }
    requires space { space.now ≡ inline_space view }
    ensures { result.now ≡ view_bytes buffers.now view }
{
    if view.length <= INLINE_BYTES {
        return &space[..view.length as usize];
    }
    let bytes = buffers[view.buffer_idx as usize].as_slice();
    let start = view.offset as usize;
    &bytes[start..start + view.length as usize]
}

/// Returns whether the bytes are UTF-8.
#[tactic(auto, using(crate::proofs::Texts::utf8_tests))]
fn is_bytes_utf8(bytes: &[u8]) -> bool
    ensures { result ≡ is_utf8 bytes.now }
{
    match str::from_utf8(bytes) {
        Ok(_) => true,
        Err(_) => false,
    }
}
