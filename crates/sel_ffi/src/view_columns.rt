//! View columns over shared buffers, without a copy.

ghost use Rattle.std.specs.Prelude.{◌≡◌, ◌≢◌, IfOk, IfErr, None, All, true, length, map};
ghost use Rattle.sel_arrow.specs.Rows.{rows, type_of};
ghost use Rattle.sel_arrow.specs.Shape.{of_binary_view, of_utf8_view};
ghost use Rattle.sel_arrow.specs.Views.{view_rows};
ghost use Rattle.sel_ffi.specs.Inputs.{IsRuleOrMemory};
ghost use Rattle.sel_ffi.specs.Status.{out_of_memory, unsupported_type};
ghost use Rattle.sel_ffi.specs.Buffers.{bytes_of, validity_over, views_of};
ghost use Rattle.sel_ffi.specs.ColumnsOver.{is_byte_buffer, may_be_validity, validity_rule_over, view_conditions, view_rows_over, binary_view_rules_over, string_view_rules_over, MakesColumn};

use crate::buffer_ref::BufferRef;
use crate::columns::{may_be_validity, validity_from};
use crate::handle::Handle;
use crate::shared_buffer::SharedBuffer;
use crate::status::{OUT_OF_MEMORY, UNSUPPORTED_TYPE, put, status_of_maker};
use sel_arrow::array::Array;
use sel_arrow::array_ref::ArrayRef;
use sel_arrow::binview::BinaryViewArray;
use sel_arrow::utf8view::Utf8ViewArray;
use sel_arrow::view::View;
use sel_bits::bitmap::Bitmap;
use sel_bits::buffer::Buffer;
use sel_bits::faults::MakeError;
use std::alloc::Global;

/// Returns the bytes of several buffers.
///
/// Errors: `UNSUPPORTED_TYPE` if a handle has no buffer of bytes; `OUT_OF_MEMORY`.
fn data_from(alloc: Global, handles: &[BufferRef]) -> Result<Buffer<Buffer<u8>>, u32>
    ensures value { IfOk result (λ buffers. buffers ≡
        map (λ handle. bytes_of handle.buffer) handles.now) }
    ensures typed { IfOk result (λ _.
        All (λ handle. is_byte_buffer handle.buffer ≡ true) handles.now) }
    ensures refused { IfErr result (λ status. status ≢ out_of_memory →
        status ≡ unsupported_type) }
    ensures untyped { IfErr result (λ status. status ≡ unsupported_type →
        All (λ handle. is_byte_buffer handle.buffer ≡ true) handles.now → ⊥) }
{
    let Ok(mut buffers) = Vec::with_capacity(alloc, handles.len()) else {
        return Err(OUT_OF_MEMORY);
    };
    for handle in handles {
        let Some(SharedBuffer::UInt8(bytes)) = handle.shared() else {
            return Err(UNSUPPORTED_TYPE);
        };
        let Ok(bytes) = bytes.try_clone() else {
            return Err(OUT_OF_MEMORY);
        };
        if buffers.push(bytes).is_err() {
            return Err(OUT_OF_MEMORY);
        }
    }
    match Buffer::from_vec(buffers) {
        Ok(buffers) => Ok(buffers),
        Err(_) => Err(OUT_OF_MEMORY),
    }
}

/// Returns the views and their validity, which is as in [`validity_from`].
///
/// # Requires
/// `validity` has a bitmap or no buffer.
///
/// # Errors
/// `ValidityLength`; `OutOfMemory`.
fn views_from(
    views: &Buffer<View>,
    validity: &BufferRef,
    first: usize,
) -> Result<(Buffer<View>, Option<Bitmap>), MakeError>
    requires { may_be_validity validity.now.buffer ≡ true }
    ensures views { IfOk result (λ parts. parts.0 ≡ views.now) }
    ensures validity { IfOk result (λ parts. parts.1 ≡
        validity_over validity.now.buffer first (length views.now)) }
    ensures accepted { IfOk result (λ _.
        validity_rule_over validity.now.buffer first (length views.now) ≡ None) }
    ensures refused { IfErr result
        (IsRuleOrMemory (validity_rule_over validity.now.buffer first (length views.now))) }
{
    let bits = validity_from(validity, first, views.len())?;
    match views.try_clone() {
        Ok(views) => Ok((views, bits)),
        Err(_) => Err(MakeError::OutOfMemory),
    }
}

/// Builds the binary view column of these views and data buffers. Its validity is as in
/// [`validity_from`].
///
/// # Requires
/// `validity` has a bitmap or no buffer.
///
/// # Errors
/// The first of these rules that is broken: `ValidityLength`, `TooManyRows`, `TooManyBuffers`,
/// `ViewRange`, `ViewPrefix`; or `OutOfMemory`.
fn binary_views_from(
    views: &Buffer<View>,
    buffers: Buffer<Buffer<u8>>,
    validity: &BufferRef,
    first: usize,
) -> Result<ArrayRef, MakeError>
    requires { may_be_validity validity.now.buffer ≡ true }
    ensures rows { IfOk result (λ made. rows made.column ≡
        view_rows views.now buffers (validity_over validity.now.buffer first (length views.now))) }
    ensures dtype { IfOk result (λ made. type_of made.column ≡ of_binary_view) }
    ensures accepted { IfOk result (λ _.
        binary_view_rules_over views.now buffers validity.now.buffer first ≡ None) }
    ensures refused { IfErr result
        (IsRuleOrMemory (binary_view_rules_over views.now buffers validity.now.buffer first)) }
{
    let (views, bits) = views_from(views, validity, first)?;
    match BinaryViewArray::try_new(views, buffers, bits) {
        Ok(array) => Ok(array.into_ref()),
        Err(fault) => Err(fault),
    }
}

/// Builds the string view column of these views and data buffers. Its validity is as in
/// [`validity_from`].
///
/// # Requires
/// `validity` has a bitmap or no buffer.
///
/// # Errors
/// The first of these rules that is broken: `ValidityLength`, `TooManyRows`, `TooManyBuffers`,
/// `ViewRange`, `ViewPrefix`, `Utf8`; or `OutOfMemory`.
fn string_views_from(
    views: &Buffer<View>,
    buffers: Buffer<Buffer<u8>>,
    validity: &BufferRef,
    first: usize,
) -> Result<ArrayRef, MakeError>
    requires { may_be_validity validity.now.buffer ≡ true }
    ensures rows { IfOk result (λ made. rows made.column ≡
        view_rows views.now buffers (validity_over validity.now.buffer first (length views.now))) }
    ensures dtype { IfOk result (λ made. type_of made.column ≡ of_utf8_view) }
    ensures accepted { IfOk result (λ _.
        string_view_rules_over views.now buffers validity.now.buffer first ≡ None) }
    ensures refused { IfErr result
        (IsRuleOrMemory (string_view_rules_over views.now buffers validity.now.buffer first)) }
{
    let (views, bits) = views_from(views, validity, first)?;
    match Utf8ViewArray::try_new(views, buffers, bits) {
        Ok(array) => Ok(array.into_ref()),
        Err(fault) => Err(fault),
    }
}

/// Stores in `out` the binary view column of a buffer of views and of data buffers. Its validity is
/// as in [`validity_from`].
///
/// Errors: `UNSUPPORTED_TYPE` if a handle has another buffer; `VALIDITY_LENGTH`; `TOO_MANY_ROWS`,
/// `TOO_MANY_BUFFERS`, `VIEW_RANGE`, `VIEW_PREFIX`; `OUT_OF_MEMORY`. On error `out` is unchanged.
pub fn binary_views_over(
    alloc: Global,
    views: &BufferRef,
    buffers: &[BufferRef],
    validity: &BufferRef,
    first: usize,
    out: &mut Handle,
) -> u32
    ensures { MakesColumn result out.old.tree out.new.tree of_binary_view
        (view_rows_over views.now.buffer (map (λ handle. bytes_of handle.buffer) buffers.now)
        validity.now.buffer first)
        (view_conditions views.now.buffer buffers.now validity.now.buffer)
        (binary_view_rules_over (views_of views.now.buffer)
        (map (λ handle. bytes_of handle.buffer) buffers.now) validity.now.buffer first) }
{
    let Some(SharedBuffer::Views(views)) = views.shared() else {
        return UNSUPPORTED_TYPE;
    };
    if !may_be_validity(validity) {
        return UNSUPPORTED_TYPE;
    }
    let buffers = match data_from(alloc, buffers) {
        Ok(buffers) => buffers,
        Err(status) => return status,
    };
    match binary_views_from(views, buffers, validity, first) {
        Ok(column) => put(alloc, column, out),
        Err(fault) => status_of_maker(fault),
    }
}

/// Stores in `out` the string view column of a buffer of views and of data buffers. Its validity is
/// as in [`validity_from`].
///
/// Errors: `UNSUPPORTED_TYPE` if a handle has another buffer; `VALIDITY_LENGTH`; `TOO_MANY_ROWS`,
/// `TOO_MANY_BUFFERS`, `VIEW_RANGE`, `VIEW_PREFIX`, `INVALID_UTF8`; `OUT_OF_MEMORY`. On error `out`
/// is unchanged.
pub fn string_views_over(
    alloc: Global,
    views: &BufferRef,
    buffers: &[BufferRef],
    validity: &BufferRef,
    first: usize,
    out: &mut Handle,
) -> u32
    ensures { MakesColumn result out.old.tree out.new.tree of_utf8_view
        (view_rows_over views.now.buffer (map (λ handle. bytes_of handle.buffer) buffers.now)
        validity.now.buffer first)
        (view_conditions views.now.buffer buffers.now validity.now.buffer)
        (string_view_rules_over (views_of views.now.buffer)
        (map (λ handle. bytes_of handle.buffer) buffers.now) validity.now.buffer first) }
{
    let Some(SharedBuffer::Views(views)) = views.shared() else {
        return UNSUPPORTED_TYPE;
    };
    if !may_be_validity(validity) {
        return UNSUPPORTED_TYPE;
    }
    let buffers = match data_from(alloc, buffers) {
        Ok(buffers) => buffers,
        Err(status) => return status,
    };
    match string_views_from(views, buffers, validity, first) {
        Ok(column) => put(alloc, column, out),
        Err(fault) => status_of_maker(fault),
    }
}
