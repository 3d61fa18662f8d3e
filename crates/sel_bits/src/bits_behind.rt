//! Offsets, and a bitmap that is built behind them in the same block of memory.
#![tactic(auto, using(crate::proofs::BitLists::length_bits_from))]

ghost use Rattle.std.specs.Prelude.{◌≡◌, ◌^◌, ◌<◌, ◌≤◌, ◌++◌, [], length, IfOk, IfErr, IfSome, IfNone, OnOk};
ghost use Rattle.sel_bits.specs.Bits.{unsliced};
ghost use Rattle.sel_bits.specs.Faults.{IsOutOfMemory};
ghost use Rattle.sel_bits.specs.Words.{bits};

use crate::bit_sink::BitSink;
use crate::bitmap::Bitmap;
use crate::buffer::Buffer;
use crate::faults::PolarsResult;
use crate::shared_bytes::SharedBytes;
use crate::storage::Storage;
use crate::two_lists::TwoLists;
use std::alloc::Global;
use std::marker::Model;
use std::sync::Arc;

/// Offsets, and the bits of a bitmap that are appended behind them: whole words of 64 bits, and
/// fewer than 64 pending bits.
///
/// Contract model: the offsets, and the list of the bits so far.
#[derive(Drop)]
pub struct BitsBehind {
    lists: TwoLists<i64, u8>,
    pending: u64,
    held: u32,
}

impl Model for BitsBehind {
    ghost use Rattle.std.specs.Prelude.{◌^◌, ◌<◌};
    ghost use Rattle.sel_bits.specs.Behind.{OffsetsAndBits};
    ghost use Rattle.sel_bits.specs.Packing.{packed_bits};

    ghost Value = { OffsetsAndBits };

    ghost view = { λ b. record {
      offsets = b.lists.front.items;
      bits = packed_bits b.lists.back.items b.held b.pending;
    } };

    ghost invariant = { λ b. (b.held < 64) × (b.pending < 2 ^ b.held) };
}

impl BitsBehind {
    /// Returns these offsets, and no bits. The bits will use the spare capacity of the vector: eight
    /// bytes for each 64 bits, and eight more.
    ///
    /// # Errors
    /// The offsets, if there are none or the vector has no spare capacity.
    #[tactic(auto, using(crate::proofs::Packs::packed_none))]
    pub fn new(offsets: Vec<i64>) -> Result<BitsBehind, Vec<i64>>
        ensures value { IfOk result (λ behind. behind ≡
            record { offsets = offsets.items; bits = [] }) }
        ensures refusal { IfErr result (λ same. same ≡ offsets) }
    {
        match TwoLists::split(offsets) {
            Ok(lists) => Ok(BitsBehind {
                lists,
                pending: 0,
                held: 0,
            }),
            Err(offsets) => Err(offsets),
        }
    }

    /// Returns the number of bits so far, or `None` if it does not fit in `usize`.
    #[tactic(auto, using(crate::proofs::Packs::length_packed))]
    pub fn len(&self) -> Option<usize>
        ensures some { IfSome result (λ len. len ≡ length self.now.bits) }
        ensures none { IfNone result (2 ^ 64 ≤ length self.now.bits) }
    {
        let Some(whole) = self.lists.back.len().checked_mul(8) else {
            return None;
        };
        whole.checked_add(self.held as usize)
    }

    /// Appends the `count` lowest bits of `word`.
    ///
    /// # Requires
    /// `count` is at most 64, and the bits of `word` above them are zero.
    ///
    /// # Errors
    /// `OutOfMemory` if there is no capacity for them; nothing is appended.
    #[tactic(auto, using(crate::proofs::Packs::room_fits, crate::proofs::Packs::room_packed, crate::proofs::Packs::rest_fits, crate::proofs::Packs::full_packed))]
    #[inline(always)]
    pub fn append(&mut self, word: u64, count: u32) -> PolarsResult<()>
        requires count { count ≤ 64 }
        requires fits { word < 2 ^ count }
        ensures appended { OnOk result (self.new.bits ≡ self.old.bits ++ bits count word) }
        ensures unchanged { IfErr result (λ _. self.new.bits ≡ self.old.bits) }
        ensures offsets { self.new.offsets ≡ self.old.offsets }
        ensures refusal { IfErr result IsOutOfMemory }
    {
        let full = self.pending | (word << self.held);
        let held = self.held + count;
        if held < 64 {
            self.pending = full;
            self.held = held;
            return Ok(());
        }
        self.lists.append_bytes(full)?;
        // (the bits that did not fit: none if none were pending; the two shifts avoid one by 64)
        self.pending = (word >> 1) >> (63 - self.held);
        self.held = held - 64;
        Ok(())
    }

    /// Returns the offsets and the bitmap, which share one block of memory.
    ///
    /// # Requires
    /// `len` is the number of bits; check with [`BitsBehind::len`].
    ///
    /// # Errors
    /// `OutOfMemory` if an allocation fails, or there is no capacity for the last bits.
    #[tactic(auto, using(crate::proofs::Packs::length_packed, crate::proofs::Packs::packed_end, crate::proofs::Packs::length_bytes))]
    pub fn finish(self, alloc: Global, len: usize) -> PolarsResult<(Buffer<i64>, Bitmap)>
        requires { length self.bits ≡ len }
        ensures offsets { IfOk result (λ parts. parts.0 ≡ self.offsets) }
        ensures bitmap { IfOk result (λ parts. parts.1 ≡ unsliced self.bits) }
        ensures refusal { IfErr result IsOutOfMemory }
    {
        let BitsBehind {
            mut lists,
            pending,
            held: _,
        } = self;
        lists.append_bytes(pending)?;
        let count = lists.front.len();
        let lists = Arc::new(alloc, lists)?;
        let bytes = SharedBytes::Behind(lists.clone()?);
        let offsets = Buffer::of_part(Storage::Front(lists), 0, count);
        Ok((offsets, Bitmap::of_bytes(bytes, len)))
    }
}

impl BitSink for BitsBehind {
    ghost so_far = { λ behind. behind.bits };

    ghost beside = { λ behind. behind.offsets };

    #[inline(always)]
    fn append_word(&mut self, word: u64, count: u32) -> PolarsResult<()> {
        self.append(word, count)
    }
}
