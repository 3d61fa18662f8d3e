//! View columns, collected by runs of rows over the data buffers of all sources.

ghost use Rattle.std.specs.Prelude.{◌≡◌, ◌≤◌, ◌<◌, ◌+◌, ◌++◌, ◌∷◌, [], All, length, map, take, drop, IfOk, IfErr, IsTrue, OnOk};
ghost use Rattle.std.specs.List.{flat_map};
ghost use Rattle.sel_bits.specs.Faults.{IsOutOfMemory};
ghost use Rattle.sel_bits.specs.Limits.{max_buffers, max_rows};
ghost use Rattle.sel_bits.specs.declared.faults.Limit.TheVariants.{Buffers as BufferLimit};
ghost use Rattle.sel_arrow.specs.Columns.{binview_rows};
ghost use Rattle.sel_arrow.specs.Masked.{hidden};
ghost use Rattle.sel_arrow.specs.Value.{Null};
ghost use Rattle.sel_arrow.specs.Views.{all_placed, view_value};
ghost use Rattle.sel_runs.specs.Picks.{pick, PickFits};
ghost use Rattle.sel_gather.specs.Raised.{raised, starts_of, IsBufferLimitOrMemory};
ghost use Rattle.sel_runs.specs.Runs.{expand};
ghost use Rattle.sel_bits.specs.Validity.{part_bits};
ghost use Rattle.sel_gather.specs.Sources.{binviews};

use crate::growable::{Growable, extend_runs};
use sel_arrow::binview::{BinaryViewArray, MOST_BUFFERS};
use sel_arrow::view::{INLINE_BYTES, View};
use sel_bits::buffer::Buffer;
use sel_bits::faults::{Limit, PolarsError, PolarsResult};
use sel_bits::packer::BitPacker;
use sel_runs::bits::{push_validity, validity_from};
use sel_runs::repeat::push_values;
use sel_runs::runs::Run;
use std::alloc::Global;
use std::marker::{Brand, PhantomData};

// The empty view, which is used in null slots.
const NO_BYTES: View = View {
    length: 0,
    prefix: 0,
    buffer_idx: 0,
    offset: 0,
};

/// The data buffers of the views under construction.
trait NullSlots {
    ghost use Rattle.std.specs.Prelude.{ℕ, List};

    ghost buffers: { List (List ℕ) };
}

impl NullSlots for Brand {
    ghost use Rattle.std.specs.Prelude.{[]};

    ghost buffers = { [] };
}

/// The views so far, over the data buffers of all sources, and one validity bit per view.
#[derive(Drop)]
struct GrowableViews<'a, B: NullSlots> {
    sources: &'a [&'a BinaryViewArray],
    starts: &'a [u32],
    views: Vec<View>,
    validity: BitPacker,
    beneath: PhantomData<B>,
    ghost joined: { flat_map (λ s. s.now.buffers) sources.now ≡ B.buffers },
    ghost few: { length B.buffers ≤ max_buffers },
    ghost started: { starts.now ≡ starts_of (λ s. s.now.buffers) sources.now },
    ghost lengths: { length validity ≡ length views.items },
    ghost placed: { IsTrue (all_placed B.buffers views.items) },
}

impl<B: NullSlots> Growable for GrowableViews<'_, B> {
    ghost sources = { λ g. map (λ s. binview_rows s.now) g.sources.now };

    ghost grown = { λ g. hidden g.validity (map (view_value B.buffers) g.views.items) };

    fn extend(self, source: u32, start: u32, len: u32) -> PolarsResult<Self> {
        let GrowableViews {
            sources,
            starts,
            mut views,
            mut validity,
            beneath,
        } = self;
        let from = sources[source as usize];
        let before = starts[source as usize];
        let (start, len) = (start as usize, len as usize);
        push_part(&mut views, &mut validity, from, start, len, before)?;
        Ok(GrowableViews {
            sources,
            starts,
            views,
            validity,
            beneath,
        })
    }

    fn extend_nulls(self, len: u32) -> PolarsResult<Self> {
        let GrowableViews {
            sources,
            starts,
            mut views,
            mut validity,
            beneath,
        } = self;
        push_values(&mut views, NO_BYTES, len as usize)?;
        validity.extend_constant(len as usize, false)?;
        Ok(GrowableViews {
            sources,
            starts,
            views,
            validity,
            beneath,
        })
    }
}

// Appends the `len` rows of a source from `start` on; its data buffers follow `before` others.
// Errors: `OutOfMemory`.
fn push_part(
    views: &mut Vec<View>,
    validity: &mut BitPacker,
    from: &BinaryViewArray,
    start: usize,
    len: usize,
    before: u32,
) -> PolarsResult<()>
    requires inside { start + len ≤ length from.now.views }
    requires room { before + length from.now.buffers ≤ max_buffers }
    ensures views { OnOk result (views.new.items ≡
        views.old.items ++ map (λ v. raised v before) (take len (drop start from.now.views))) }
    ensures bits { OnOk result (validity.new ≡
        validity.old ++ part_bits start len from.now.validity) }
    ensures refusal { IfErr result IsOutOfMemory }
{
    push_raised(views, from, start, len, before)?;
    push_validity(validity, from.validity.as_ref(), start, len)
}

// Appends the `len` views from `start` on; their data buffers follow `before` others. Errors:
// `OutOfMemory`.
//
// If `before` is 0, the views do not change and are copied at once.
fn push_raised(
    views: &mut Vec<View>,
    from: &BinaryViewArray,
    start: usize,
    len: usize,
    before: u32,
) -> PolarsResult<()>
    requires inside { start + len ≤ length from.now.views }
    requires room { before + length from.now.buffers ≤ max_buffers }
    ensures views { OnOk result (views.new.items ≡
        views.old.items ++ map (λ v. raised v before) (take len (drop start from.now.views))) }
    ensures refusal { IfErr result IsOutOfMemory }
{
    let all = from.views.as_slice();
    if before == 0 {
        views.extend_from_slice(&all[start..start + len])?;
        return Ok(());
    }
    for i in 0..len {
        views.push(raised_view(all[start + i], before))?;
    }
    Ok(())
}

/// Returns the view with `before` added to its buffer index; an inline view is returned unchanged.
///
/// # Requires
/// Unless the view is inline, its buffer index plus `before` is at most 2^32 - 1.
pub fn raised_view(view: View, before: u32) -> View
    requires { 12 < view.length → view.buffer_idx + before ≤ max_buffers }
    ensures { result ≡ raised view before }
{
    if view.length <= INLINE_BYTES {
        return view;
    }
    View {
        buffer_idx: view.buffer_idx + before,
        ..view
    }
}

// Checks the number of data buffers. Errors: `SizeLimit(Limit::Buffers)` if the sources have more
// than 2^32 - 1 in total.
fn check_buffers(sources: &[&BinaryViewArray]) -> PolarsResult<()>
    ensures few { IfOk result (λ _. length
        (flat_map (λ s. s.now.buffers) sources.now) ≤ max_buffers) }
    ensures refusal { IfErr result (λ fault. (fault ≡ PolarsError.SizeLimit BufferLimit) ×
        (max_buffers < length (flat_map (λ s. s.now.buffers) sources.now))) }
{
    let mut count = 0;
    for source in sources {
        count += source.buffers.len();
        if count > MOST_BUFFERS {
            return Err(PolarsError::SizeLimit(Limit::Buffers));
        }
    }
    Ok(())
}

// Returns, for each source, the number of data buffers of the sources before it. Errors:
// `OutOfMemory`.
fn starts_of_buffers(alloc: Global, sources: &[&BinaryViewArray]) -> PolarsResult<Vec<u32>>
    requires { length (flat_map (λ s. s.now.buffers) sources.now) ≤ max_buffers }
    ensures starts { IfOk result (λ starts. starts.items ≡
        starts_of (λ s. s.now.buffers) sources.now) }
    ensures refusal { IfErr result IsOutOfMemory }
{
    let mut starts = Vec::with_capacity(alloc, sources.len())?;
    let mut before = 0;
    for source in sources {
        starts.push(before)?;
        before += source.buffers.len() as u32;
    }
    Ok(starts)
}

// Returns the data buffers of all sources, in order. Errors: `OutOfMemory`.
fn joined_buffers(alloc: Global, sources: &[&BinaryViewArray]) -> PolarsResult<Buffer<Buffer<u8>>>
    ensures buffers { IfOk result (λ joined. joined ≡ flat_map (λ s. s.now.buffers)
        sources.now) }
    ensures refusal { IfErr result IsOutOfMemory }
{
    let mut joined = Vec::new(alloc);
    for source in sources {
        push_buffers(&mut joined, source.buffers.as_slice())?;
    }
    Buffer::from_vec(joined)
}

/// Appends data buffers, which share their memory with the originals.
///
/// # Errors
/// `OutOfMemory` if an allocation fails; the items of `joined` are unchanged.
pub fn push_buffers(joined: &mut Vec<Buffer<u8>>, buffers: &[Buffer<u8>]) -> PolarsResult<()>
    ensures buffers { OnOk result (joined.new.items ≡ joined.old.items ++ buffers.now) }
    ensures unchanged { IfErr result (λ _. joined.new.items ≡ joined.old.items) }
    ensures refusal { IfErr result IsOutOfMemory }
{
    let before = joined.len();
    joined.reserve(buffers.len())?;
    for buffer in buffers {
        if let Err(fault) = push_buffer(joined, buffer) {
            joined.truncate(before);
            return Err(fault);
        }
    }
    Ok(())
}

// Appends one data buffer, which shares its memory with the original. Errors: `OutOfMemory`; the
// items of `joined` are unchanged.
fn push_buffer(joined: &mut Vec<Buffer<u8>>, buffer: &Buffer<u8>) -> PolarsResult<()>
    ensures buffers { OnOk result (joined.new.items ≡ joined.old.items ++ buffer.now ∷ []) }
    ensures unchanged { IfErr result (λ _. joined.new.items ≡ joined.old.items) }
    ensures refusal { IfErr result IsOutOfMemory }
{
    joined.push(buffer.try_clone()?)?;
    Ok(())
}

/// Returns the rows of several view columns that runs refer to, in order; a run without a source
/// gives null rows.
///
/// The result has the data buffers of all sources, in order.
///
/// # Requires
/// Every run is within the rows of its source. The runs have `len` rows in total, at most 2^32 - 1.
///
/// # Errors
/// `OutOfMemory` if an allocation fails; `SizeLimit(Limit::Buffers)` if the sources have more than
/// 2^32 - 1 data buffers in total.
pub fn collect_views<'a>(
    alloc: Global,
    sources: &'a [&'a BinaryViewArray],
    runs: &[Run],
    len: usize,
) -> PolarsResult<BinaryViewArray>
    requires fits { All (PickFits (binviews sources.now)) (expand runs.now) }
    requires len { length (expand runs.now) ≡ len }
    requires few { len ≤ max_rows }
    ensures rows { IfOk result (λ array. binview_rows array ≡
        pick Null (binviews sources.now) (expand runs.now)) }
    ensures buffers { IfOk result (λ array. array.buffers ≡
        flat_map (λ s. s.now.buffers) sources.now) }
    ensures refusal { IfErr result (IsBufferLimitOrMemory
        (length (flat_map (λ s. s.now.buffers) sources.now))) }
{
    check_buffers(sources)?;
    collect_few::<Brand>(alloc, sources, runs, len)
}

// Returns the rows of [`collect_views`] for at most 2^32 - 1 data buffers. Errors: `OutOfMemory`.
fn collect_few<'a, B: NullSlots>(
    alloc: Global,
    sources: &'a [&'a BinaryViewArray],
    runs: &[Run],
    len: usize,
) -> PolarsResult<BinaryViewArray>
    requires joined { flat_map (λ s. s.now.buffers) sources.now ≡ B.buffers }
    requires few { length B.buffers ≤ max_buffers }
    requires fits { All (PickFits (binviews sources.now)) (expand runs.now) }
    requires len { length (expand runs.now) ≡ len }
    requires room { len ≤ max_rows }
    ensures rows { IfOk result (λ array. binview_rows array ≡
        pick Null (binviews sources.now) (expand runs.now)) }
    ensures buffers { IfOk result (λ array. array.buffers ≡
        flat_map (λ s. s.now.buffers) sources.now) }
    ensures refusal { IfErr result IsOutOfMemory }
{
    let starts = starts_of_buffers(alloc, sources)?;
    let empty = GrowableViews {
        sources,
        starts: &starts,
        views: Vec::with_capacity(alloc, len)?,
        validity: BitPacker::with_capacity(alloc, len)?,
        beneath: PhantomData::<B>,
    };
    let GrowableViews {
        views,
        validity,
        ..
    } = extend_runs(empty, runs)?;
    let validity = validity_from(validity, len)?;
    let views = Buffer::from_vec(views)?;
    let buffers = joined_buffers(alloc, sources)?;
    Ok(BinaryViewArray {
        views,
        buffers,
        validity,
    })
}
