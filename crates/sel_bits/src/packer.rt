//! A bitmap builder that appends up to 64 bits at a time.
#![tactic(auto, using(crate::proofs::BitLists::length_bits_from))]

ghost use Rattle.std.specs.Prelude.{◌≡◌, ℕ, ◌+◌, ◌-◌, ◌*◌, ◌^◌, ◌<◌, ◌≤◌, [], ◌∷◌, ◌++◌, length, take, drop, replicate, IfOk, IfErr, IfSome, IfNone, OnOk};
ghost use Rattle.sel_bits.specs.Faults.{IsOutOfMemory};
ghost use Rattle.sel_bits.specs.Bits.{unsliced};
ghost use Rattle.sel_bits.specs.Words.{bits, word_of};

use crate::bit_sink::BitSink;
use crate::bitmap::Bitmap;
use crate::faults::PolarsResult;
use crate::words::low_bits;
use std::alloc::Global;
use std::marker::Model;

/// The maximum number of bits of one append.
pub const MOST_BITS: usize = 64;

/// A bitmap builder: whole words of 64 bits, and fewer than 64 pending bits.
///
/// Contract model: the list of the bits so far.
#[derive(Drop)]
pub struct BitPacker {
    bytes: Vec<u8>,
    pending: u64,
    held: u32,
}

impl Model for BitPacker {
    ghost use Rattle.std.specs.Prelude.{Bool, List, ◌^◌, ◌<◌};
    ghost use Rattle.sel_bits.specs.Packing.{packed_bits};

    ghost Value = { List Bool };

    ghost view = { λ p. packed_bits p.bytes.items p.held p.pending };

    ghost invariant = { λ p. (p.held < 64) × (p.pending < 2 ^ p.held) };
}

impl BitPacker {
    /// Returns an empty builder with capacity for `count` bits.
    ///
    /// # Errors
    /// `OutOfMemory` if an allocation fails.
    #[tactic(auto, using(crate::proofs::Packs::packed_none))]
    pub fn with_capacity(alloc: Global, count: usize) -> PolarsResult<BitPacker>
        ensures value { IfOk result (λ packer. packer ≡ []) }
        ensures refusal { IfErr result IsOutOfMemory }
    {
        // (the pending bits at the end are written as a whole word)
        let bytes = Vec::with_capacity(alloc, count.div_ceil(8) + 8)?;
        Ok(BitPacker {
            bytes,
            pending: 0,
            held: 0,
        })
    }

    /// Returns the number of bits so far, or `None` if it does not fit in `usize`.
    #[tactic(auto, using(crate::proofs::Packs::length_packed))]
    pub fn len(&self) -> Option<usize>
        ensures some { IfSome result (λ len. len ≡ length self.now) }
        ensures none { IfNone result (2 ^ 64 ≤ length self.now) }
    {
        let Some(whole) = self.bytes.len().checked_mul(8) else {
            return None;
        };
        whole.checked_add(self.held as usize)
    }

    /// Appends the `count` lowest bits of `word`.
    ///
    /// # Requires
    /// `count` is at most 64, and the bits of `word` above them are zero.
    ///
    /// # Errors
    /// `OutOfMemory` if an allocation fails; the builder is unchanged.
    #[tactic(auto, using(crate::proofs::Packs::room_fits, crate::proofs::Packs::room_packed, crate::proofs::Packs::rest_fits, crate::proofs::Packs::full_packed))]
    #[inline(always)]
    pub fn append(&mut self, word: u64, count: u32) -> PolarsResult<()>
        requires count { count ≤ 64 }
        requires fits { word < 2 ^ count }
        ensures appended { OnOk result (self.new ≡ self.old ++ bits count word) }
        ensures unchanged { IfErr result (λ _. self.new ≡ self.old) }
        ensures refusal { IfErr result IsOutOfMemory }
    {
        let full = self.pending | (word << self.held);
        let held = self.held + count;
        if held < 64 {
            self.pending = full;
            self.held = held;
            return Ok(());
        }
        self.bytes.extend_from_slice(&full.to_le_bytes())?;
        // (the bits that did not fit: none if none were pending; the two shifts avoid one by 64)
        self.pending = (word >> 1) >> (63 - self.held);
        self.held = held - 64;
        Ok(())
    }

    /// Appends one bit.
    ///
    /// # Errors
    /// `OutOfMemory` if an allocation fails; the builder is unchanged.
    #[tactic(auto, using(crate::proofs::Lists::bits_of_bool))]
    #[inline]
    pub fn push(&mut self, bit: bool) -> PolarsResult<()>
        ensures pushed { OnOk result (self.new ≡ self.old ++ bit ∷ []) }
        ensures unchanged { IfErr result (λ _. self.new ≡ self.old) }
        ensures refusal { IfErr result IsOutOfMemory }
    {
        self.append(u64::from(bit), 1)
    }

    /// Appends the `len` bits of a bitmap from bit `start` on, up to 64 at a time.
    ///
    /// # Requires
    /// `start + len` is at most the length of `bits`.
    ///
    /// # Errors
    /// `OutOfMemory` if an allocation fails; the earlier bits are kept, and some of the new bits
    /// may have been appended.
    #[tactic(auto, using(crate::proofs::Extended::block_more, crate::proofs::Combining::part_fits))]
    pub fn extend_from_bitmap(
        &mut self,
        bits: &Bitmap,
        start: usize,
        len: usize,
    ) -> PolarsResult<()>
        requires { start + len ≤ length bits.now.bits }
        ensures extended { OnOk result (self.new ≡
            self.old ++ take len (drop start bits.now.bits)) }
        ensures len { OnOk result (length self.new ≡ length self.old + len) }
        ensures kept { IfErr result (λ _. take (length self.old) self.new ≡ self.old) }
        ensures refusal { IfErr result IsOutOfMemory }
    {
        // (the length of a bitmap fits in `usize`)
        let _whole = bits.len();
        let mut at = 0;
        while at < len {
            let count = (len - at).min(MOST_BITS);
            self.append(bits.word_at(start + at, count), count as u32)?;
            at += count;
        }
        Ok(())
    }

    /// Appends `len` copies of a bit, up to 64 at a time.
    ///
    /// # Errors
    /// `OutOfMemory` if an allocation fails; the earlier bits are kept, and some of the new bits
    /// may have been appended.
    #[tactic(auto, using(std::proofs::lemmas::Grind::common_steps, crate::proofs::Extended::copies_more, crate::proofs::Padded::word_of_lt))]
    pub fn extend_constant(&mut self, len: usize, value: bool) -> PolarsResult<()>
        ensures extended { OnOk result (self.new ≡ self.old ++ replicate len value) }
        ensures len { OnOk result (length self.new ≡ length self.old + len) }
        ensures kept { IfErr result (λ _. take (length self.old) self.new ≡ self.old) }
        ensures refusal { IfErr result IsOutOfMemory }
    {
        let mut at = 0;
        while at < len {
            let count = (len - at).min(MOST_BITS);
            self.append(word_of_copies(value, count), count as u32)?;
            at += count;
        }
        Ok(())
    }

    /// Returns the bits as a bitmap.
    ///
    /// # Requires
    /// `len` is the number of bits; check with [`BitPacker::len`].
    ///
    /// # Errors
    /// `OutOfMemory` if an allocation fails.
    #[tactic(auto, using(crate::proofs::Packs::length_packed, crate::proofs::Packs::packed_end))]
    pub fn into_bitmap(mut self, len: usize) -> PolarsResult<Bitmap>
        requires { length self ≡ len }
        ensures value { IfOk result (λ bitmap. bitmap ≡ unsliced self) }
        ensures refusal { IfErr result IsOutOfMemory }
    {
        self.bytes.extend_from_slice(&self.pending.to_le_bytes())?;
        Bitmap::from_u8_vec(self.bytes, len)
    }
}

impl BitSink for BitPacker {
    ghost so_far = { λ packer. packer };

    ghost beside = { λ _. [] };

    #[inline(always)]
    fn append_word(&mut self, word: u64, count: u32) -> PolarsResult<()> {
        self.append(word, count)
    }
}

/// Returns the word with `count` copies of a bit, from the lowest on, with zeros above.
#[tactic(auto, using(crate::proofs::Extended::all_ones, crate::proofs::Extended::word_of_false))]
pub(crate) fn word_of_copies(value: bool, count: usize) -> u64
    requires { count ≤ 64 }
    ensures { result ≡ word_of (replicate count value) }
{
    if value { low_bits(u64::MAX, count) } else { 0 }
}
