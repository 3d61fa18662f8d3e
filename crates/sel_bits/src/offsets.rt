//! Offsets buffers of variable-size columns.

ghost use Rattle.std.specs.Prelude.{◌≡◌, ◌≤ℤ◌, ◌+◌, ◌-◌, ◌≤◌, ◌<◌, slice_index, ℤ, pos, length, take, drop, map, Some, None, IfOk, IfErr};
ghost use Rattle.sel_bits.specs.Faults.{IsFault, IsFaultOrMemory, IsOutOfMemory};
ghost use Rattle.sel_bits.specs.Offsets.{IsOffsets, IsRising, has_negative, has_fall, falls_after, offsets_fault};

use crate::buffer::Buffer;
use crate::faults::{MakeError, Malformed, PolarsResult};
use crate::native::{NativeType, Offset};
use std::marker::Model;

/// At least one offset, none of them negative or less than the one before. The first may be
/// greater than 0.
///
/// Contract model: the list of the offsets. (Arrow columnar format: variable-size layouts.)
#[derive(Drop)]
pub struct OffsetsBuffer<O: Offset> {
    offsets: Buffer<O>,
}

impl<O: Offset> Model for OffsetsBuffer<O> {
    ghost use Rattle.std.specs.Prelude.{List, ℕ};
    ghost use Rattle.sel_bits.specs.Offsets.{IsOffsets, magnitudes};

    ghost Value = { List ℕ };

    ghost view = { λ b. magnitudes O.number b.offsets };

    ghost invariant = { λ b. IsOffsets O.number b.offsets };
}

impl<O: Offset> OffsetsBuffer<O> {
    /// Returns the offsets as a buffer after validation.
    ///
    /// # Errors
    /// `Malformed` with the first rule that the offsets break, in this order: `OffsetCount`,
    /// `OffsetNegative`, `OffsetOrder`. Otherwise `OutOfMemory` if an allocation fails.
    #[tactic(auto, using(crate::proofs::OffsetLemmas::accepting))]
    pub fn try_from(offsets: Vec<O>) -> Result<OffsetsBuffer<O>, MakeError>
        ensures value { IfOk result (λ buffer. map O.number offsets.items ≡ map pos buffer) }
        ensures accepted { IfOk result (λ _. offsets_fault O.number offsets.items ≡ None) }
        ensures refusal { IfErr result (IsFaultOrMemory (offsets_fault O.number offsets.items)) }
    {
        if let Some(fault) = fault_of(&offsets) {
            return Err(MakeError::Malformed(fault));
        }
        match Buffer::from_vec(offsets) {
            Ok(offsets) => Ok(OffsetsBuffer { offsets }),
            Err(_) => Err(MakeError::OutOfMemory),
        }
    }

    /// Returns these offsets after validation, without a copy.
    ///
    /// # Errors
    /// `Malformed` with the first rule that the offsets break, in this order: `OffsetCount`,
    /// `OffsetNegative`, `OffsetOrder`.
    #[tactic(auto, using(crate::proofs::OffsetLemmas::accepting))]
    pub fn try_from_buffer(offsets: Buffer<O>) -> Result<OffsetsBuffer<O>, MakeError>
        ensures value { IfOk result (λ buffer. map O.number offsets ≡ map pos buffer) }
        ensures accepted { IfOk result (λ _. offsets_fault O.number offsets ≡ None) }
        ensures refusal { IfErr result (IsFault (offsets_fault O.number offsets)) }
    {
        if let Some(fault) = fault_of(offsets.as_slice()) {
            return Err(MakeError::Malformed(fault));
        }
        Ok(OffsetsBuffer { offsets })
    }

    /// Returns a buffer of the offsets, without a copy.
    ///
    /// # Errors
    /// `OutOfMemory` if the slice cannot be shared once more.
    pub fn to_buffer(&self) -> PolarsResult<Buffer<O>>
        ensures numbers { IfOk result (λ buffer. map O.number buffer ≡ map pos self.now) }
        ensures refusal { IfErr result IsOutOfMemory }
    {
        match self.offsets.try_clone() {
            Ok(buffer) => Ok(buffer),
            Err(fault) => Err(fault),
        }
    }

    /// Returns the offsets as a buffer without validation.
    ///
    /// # Requires
    /// There is at least one offset, and none is negative or less than the one before.
    ///
    /// # Errors
    /// `OutOfMemory` if an allocation fails.
    pub fn of_rising(offsets: Vec<O>) -> PolarsResult<OffsetsBuffer<O>>
        requires { IsOffsets O.number offsets.items }
        ensures value { IfOk result (λ buffer. map O.number offsets.items ≡ map pos buffer) }
        ensures refusal { IfErr result IsOutOfMemory }
    {
        let offsets = Buffer::from_vec(offsets)?;
        Ok(OffsetsBuffer { offsets })
    }

    /// Returns these offsets without validation and without a copy.
    ///
    /// # Requires
    /// There is at least one offset, and none is negative or less than the one before.
    pub fn of_rising_buffer(offsets: Buffer<O>) -> OffsetsBuffer<O>
        requires { IsOffsets O.number offsets }
        ensures { map O.number offsets ≡ map pos result }
    {
        OffsetsBuffer { offsets }
    }

    /// Returns the offsets, one more than there are rows.
    pub fn as_slice(&self) -> &[O]
        ensures numbers { map O.number result.now ≡ map pos self.now }
        ensures len { length result.now ≡ length self.now }
        ensures rising { IsRising self.now }
    {
        self.offsets.as_slice()
    }

    /// Returns offset `i` as a `usize`.
    ///
    /// # Requires
    /// `i` is at most the number of rows.
    pub fn at(&self, i: usize) -> usize
        requires { i < length self.now }
        ensures value { result ≡ slice_index self.now i }
        ensures rising { IsRising self.now }
    {
        self.offset_at(i).to_position()
    }

    /// Returns the first offset.
    pub fn first(&self) -> O
        ensures { O.number result ≡ pos (slice_index self.now 0) }
    {
        self.as_slice()[0]
    }

    /// Returns the last offset.
    pub fn last(&self) -> O
        ensures { O.number result ≡ pos (slice_index self.now (length self.now - 1)) }
    {
        self.offset_at(self.len_proxy())
    }

    /// Returns the number of rows.
    pub fn len_proxy(&self) -> usize
        ensures count { result + 1 ≡ length self.now }
        ensures rising { IsRising self.now }
    {
        self.as_slice().len() - 1
    }

    /// Returns the `len + 1` offsets of the `len` rows from row `off` on, without a copy.
    ///
    /// # Requires
    /// `off + len` is at most the number of rows.
    #[tactic(auto, using(crate::proofs::OffsetLemmas::part_accepted, crate::proofs::OffsetLemmas::part_shown))]
    pub fn sliced(self, off: usize, len: usize) -> OffsetsBuffer<O>
        requires { off + len < length self }
        ensures { result ≡ take (len + 1) (drop off self) }
    {
        OffsetsBuffer {
            offsets: self.offsets.sliced(off, len + 1),
        }
    }

    /// Returns a buffer of the same offsets, without a copy.
    ///
    /// # Errors
    /// `OutOfMemory` if the slice cannot be shared once more.
    pub fn try_clone(&self) -> PolarsResult<OffsetsBuffer<O>>
        ensures value { IfOk result (λ buffer. buffer ≡ self.now) }
        ensures refusal { IfErr result IsOutOfMemory }
    {
        let offsets = self.offsets.try_clone()?;
        Ok(OffsetsBuffer { offsets })
    }

    /// Returns offset `i`.
    #[tactic(auto, using(crate::proofs::OffsetLemmas::shown_at))]
    fn offset_at(&self, i: usize) -> O
        requires { i < length self.now }
        ensures value { O.number result ≡ pos (slice_index self.now i) }
        ensures rising { IsRising self.now }
    {
        self.as_slice()[i]
    }
}

/// Returns the first rule that the offsets break, or `None`.
fn fault_of<O: Offset>(offsets: &[O]) -> Option<Malformed>
    ensures { result ≡ offsets_fault O.number offsets.now }
{
    if offsets.is_empty() {
        Some(Malformed::OffsetCount)
    } else if any_negative(offsets) {
        Some(Malformed::OffsetNegative)
    } else if any_fall(offsets) {
        Some(Malformed::OffsetOrder)
    } else {
        None
    }
}

/// Returns whether some offset is negative.
fn any_negative<O: Offset>(offsets: &[O]) -> bool
    ensures { result ≡ has_negative O.number offsets.now }
{
    offsets.iter().any(|offset| offset.is_negative())
}

/// Returns whether some offset is less than the one before.
fn any_fall<O: Offset>(offsets: &[O]) -> bool
    ensures { result ≡ has_fall O.number offsets.now }
{
    match offsets {
        [] => false,
        [first, rest @ ..] => any_fall_after(*first, rest),
    }
}

/// Returns whether some offset is less than the one before, with `first` before the first.
fn any_fall_after<O: Offset>(first: O, offsets: &[O]) -> bool
    ensures { result ≡ falls_after O.number first offsets.now }
{
    let mut before = first;
    for offset in offsets {
        if offset.is_below(before) {
            return true;
        }
        before = *offset;
    }
    false
}
