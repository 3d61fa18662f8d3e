//! Gather for binary view and string view columns.

ghost use Rattle.std.specs.Prelude.{◌≡◌, IsTrue, length, IfOk, IfErr};
ghost use Rattle.sel_bits.specs.Faults.{IsOutOfMemory};
ghost use Rattle.sel_arrow.specs.Columns.{binview_rows, primitive_rows, utf8view_rows};
ghost use Rattle.sel_kernels.specs.Pick.{all_within, take_rows};

use crate::gather::primitive::take_values;
use crate::gather::validity::take_validity;
use sel_arrow::binview::BinaryViewArray;
use sel_arrow::primitive::IdxArr;
use sel_arrow::utf8view::Utf8ViewArray;
use sel_arrow::view::View;
use sel_bits::buffer::Buffer;
use sel_bits::faults::PolarsResult;
use std::alloc::Global;

// The view for null slots if there are no views to take: no bytes.
const NO_BYTES: View = View {
    length: 0,
    prefix: 0,
    buffer_idx: 0,
    offset: 0,
};

/// Returns the views at `indices`; the data buffers are shared.
#[tactic(auto, using(crate::proofs::Selects::row_lengths))]
pub(crate) fn take_views(
    alloc: Global,
    values: &BinaryViewArray,
    indices: &IdxArr,
) -> PolarsResult<BinaryViewArray>
    requires { IsTrue (all_within (length (binview_rows values.now)) (primitive_rows indices.now)) }
    ensures rows { IfOk result (λ taken. binview_rows taken ≡
        take_rows (binview_rows values.now) (primitive_rows indices.now)) }
    ensures refusal { IfErr result IsOutOfMemory }
{
    let views = take_values(alloc, values.views.as_slice(), indices, NO_BYTES)?;
    let validity = take_validity(alloc, &values.validity, indices)?;
    let views = Buffer::from_vec(views)?;
    let buffers = values.buffers.try_clone()?;
    Ok(BinaryViewArray {
        views,
        buffers,
        validity,
    })
}

/// Returns the strings at `indices`; only their views are copied.
pub(crate) fn take_texts(
    alloc: Global,
    values: &Utf8ViewArray,
    indices: &IdxArr,
) -> PolarsResult<Utf8ViewArray>
    requires { IsTrue (all_within (length (utf8view_rows values.now))
        (primitive_rows indices.now)) }
    ensures rows { IfOk result (λ taken. utf8view_rows taken ≡
        take_rows (utf8view_rows values.now) (primitive_rows indices.now)) }
    ensures refusal { IfErr result IsOutOfMemory }
{
    let bytes = take_views(alloc, &values.bytes, indices)?;
    Ok(Utf8ViewArray { bytes })
}
