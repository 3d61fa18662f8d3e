//! View columns built from copies of the views and data buffers that callers pass.

ghost use Rattle.std.specs.Prelude.{◌≡◌, None, IfOk, IfErr, length, map};
ghost use Rattle.sel_arrow.specs.Rows.{rows, type_of};
ghost use Rattle.sel_arrow.specs.Shape.{of_binary_view, of_utf8_view};
ghost use Rattle.sel_arrow.specs.Views.{view_rows};
ghost use Rattle.sel_ffi.specs.Inputs.{validity_in, validity_rule, views_in, binview_rules, utf8view_rules, IsRuleOrMemory};

use crate::inputs::validity_of;
use sel_arrow::array::Array;
use sel_arrow::array_ref::ArrayRef;
use sel_arrow::binview::BinaryViewArray;
use sel_arrow::utf8view::Utf8ViewArray;
use sel_arrow::view::View;
use sel_bits::bitmap::Bitmap;
use sel_bits::buffer::Buffer;
use sel_bits::faults::{MakeError, PolarsResult};
use std::alloc::Global;

/// A view as four 32-bit words: the 16 bytes of an Arrow view on a little-endian machine.
#[repr(C)]
#[derive(Clone, Copy)]
pub struct ViewWords {
    /// The number of bytes of the value.
    pub length: u32,
    /// The first four bytes of the value.
    pub prefix: u32,
    /// The index of the data buffer, unless the value is inline.
    pub buffer: u32,
    /// The offset of the value in the data buffer, unless the value is inline.
    pub offset: u32,
}

/// Copies the views.
///
/// # Errors
/// `OutOfMemory`.
fn views_of(alloc: Global, words: &[ViewWords]) -> PolarsResult<Buffer<View>>
    ensures views { IfOk result (λ views. views ≡ views_in words.now) }
{
    let mut views = Vec::with_capacity(alloc, words.len())?;
    for word in words {
        views.push(View {
            length: word.length,
            prefix: word.prefix,
            buffer_idx: word.buffer,
            offset: word.offset,
        })?;
    }
    Buffer::from_vec(views)
}

/// Copies the bytes of each slice into a buffer.
///
/// # Errors
/// `OutOfMemory`.
fn buffers_of(alloc: Global, slices: &[&[u8]]) -> PolarsResult<Buffer<Buffer<u8>>>
    ensures buffers { IfOk result (λ buffers. buffers ≡ map (λ s. s.now) slices.now) }
{
    let mut buffers = Vec::with_capacity(alloc, slices.len())?;
    for slice in slices {
        let copied = Vec::from_slice(alloc, *slice)?;
        buffers.push(Buffer::from_vec(copied)?)?;
    }
    Buffer::from_vec(buffers)
}

/// Returns copies of the views, the data buffers and the validity of a view column.
///
/// # Errors
/// `ValidityLength` if `bytes` has fewer bits than there are views; `OutOfMemory`.
fn view_parts(
    alloc: Global,
    words: &[ViewWords],
    slices: &[&[u8]],
    bytes: &[u8],
    has: bool,
) -> Result<(Buffer<View>, Buffer<Buffer<u8>>, Option<Bitmap>), MakeError>
    ensures views { IfOk result (λ parts. parts.0 ≡ views_in words.now) }
    ensures buffers { IfOk result (λ parts. parts.1 ≡ map (λ s. s.now) slices.now) }
    ensures validity { IfOk result (λ parts. parts.2 ≡
        validity_in bytes.now has (length words.now)) }
    ensures accepted { IfOk result (λ _. validity_rule bytes.now has (length words.now) ≡ None) }
    ensures refused { IfErr result
        (IsRuleOrMemory (validity_rule bytes.now has (length words.now))) }
{
    let validity = validity_of(alloc, bytes, has, words.len())?;
    let Ok(views) = views_of(alloc, words) else {
        return Err(MakeError::OutOfMemory);
    };
    match buffers_of(alloc, slices) {
        Ok(buffers) => Ok((views, buffers, validity)),
        Err(_) => Err(MakeError::OutOfMemory),
    }
}

/// Builds a binary view column from copies of its views, data buffers and validity.
///
/// # Errors
/// The first of these rules that is broken: `ValidityLength`, `TooManyRows`, `TooManyBuffers`, then
/// `ViewRange` and `ViewPrefix` of each view in order; or `OutOfMemory`.
pub fn binview_of(
    alloc: Global,
    words: &[ViewWords],
    slices: &[&[u8]],
    bytes: &[u8],
    has: bool,
) -> Result<ArrayRef, MakeError>
    ensures rows { IfOk result (λ made. rows made.column ≡ view_rows (views_in words.now)
        (map (λ s. s.now) slices.now) (validity_in bytes.now has (length words.now))) }
    ensures dtype { IfOk result (λ made. type_of made.column ≡ of_binary_view) }
    ensures accepted { IfOk result (λ _. binview_rules (views_in words.now)
        (map (λ s. s.now) slices.now) bytes.now has ≡ None) }
    ensures refused { IfErr result (IsRuleOrMemory (binview_rules (views_in words.now)
        (map (λ s. s.now) slices.now) bytes.now has)) }
{
    let (views, buffers, validity) = view_parts(alloc, words, slices, bytes, has)?;
    match BinaryViewArray::try_new(views, buffers, validity) {
        Ok(array) => Ok(array.into_ref()),
        Err(fault) => Err(fault),
    }
}

/// Builds a UTF-8 string view column from copies of its views, data buffers and validity.
///
/// # Errors
/// The first of these rules that is broken: those of [`binview_of`], then `Utf8`; or `OutOfMemory`.
pub fn utf8view_of(
    alloc: Global,
    words: &[ViewWords],
    slices: &[&[u8]],
    bytes: &[u8],
    has: bool,
) -> Result<ArrayRef, MakeError>
    ensures rows { IfOk result (λ made. rows made.column ≡ view_rows (views_in words.now)
        (map (λ s. s.now) slices.now) (validity_in bytes.now has (length words.now))) }
    ensures dtype { IfOk result (λ made. type_of made.column ≡ of_utf8_view) }
    ensures accepted { IfOk result (λ _. utf8view_rules (views_in words.now)
        (map (λ s. s.now) slices.now) bytes.now has ≡ None) }
    ensures refused { IfErr result (IsRuleOrMemory (utf8view_rules (views_in words.now)
        (map (λ s. s.now) slices.now) bytes.now has)) }
{
    let (views, buffers, validity) = view_parts(alloc, words, slices, bytes, has)?;
    match Utf8ViewArray::try_new(views, buffers, validity) {
        Ok(array) => Ok(array.into_ref()),
        Err(fault) => Err(fault),
    }
}
