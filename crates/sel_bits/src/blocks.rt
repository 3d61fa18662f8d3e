//! A reader of the bits of a bitmap in blocks of 56 that counts the blocks read.

ghost use Rattle.std.specs.Prelude.{◌≡◌, ◌+◌, ◌*◌, ◌/◌, ◌<◌, ◌≤◌, length, IfSome, IfNone, MatchOption};
ghost use Rattle.sel_bits.specs.Reading.{after_block, block_bits};
ghost use Rattle.sel_bits.specs.Words.{word_of};

use crate::bitmap::Bitmap;
use std::marker::Model;

/// The maximum number of bits of a block.
const BLOCK_BITS: usize = 56;

/// A reader of a bitmap in blocks of 56 bits; the last block may have fewer.
///
/// Contract model: the bitmap and the number of blocks read.
#[derive(Drop)]
pub struct U56Blocks<'a> {
    bitmap: &'a Bitmap,
    at: usize,
    blocks: u64,
}

impl<'a> Model for U56Blocks<'a> {
    ghost use Rattle.std.specs.Prelude.{◌≡◌, ◌+◌, ◌*◌, ◌≤◌, length, min};
    ghost use Rattle.sel_bits.specs.Reading.{BlockReading};

    ghost Value = { BlockReading };

    ghost view = { λ r. record { source = r.bitmap.now; blocks_read = r.blocks } };

    ghost invariant = { λ r. (r.at ≡ min (length r.bitmap.now.bits) (56 * r.blocks)) ×
        (56 * r.blocks ≤ length r.bitmap.now.bits + 55) };
}

impl<'a> U56Blocks<'a> {
    /// Returns a reader at the start of the bitmap.
    pub fn new(bitmap: &'a Bitmap) -> U56Blocks<'a>
        ensures { result ≡ record { source = bitmap.now; blocks_read = 0 } }
    {
        U56Blocks {
            bitmap,
            at: 0,
            blocks: 0,
        }
    }

    /// Returns the number of bits of the bitmap.
    pub fn len(&self) -> usize
        ensures { result ≡ length self.now.source.bits }
    {
        let source = self.bitmap;
        source.len()
    }

    /// Returns the number of blocks read: at most the length divided by 56, rounded up.
    pub fn blocks_read(&self) -> u64
        ensures count { result ≡ self.now.blocks_read }
        ensures bound { result ≤ (length self.now.source.bits + 55) / 56 }
    {
        self.blocks
    }

    /// Returns the next block as a word, with zeros above its bits, or `None` after the last bit.
    #[tactic(auto, using(crate::proofs::BlockParts::block_part))]
    #[inline]
    pub fn next(&mut self) -> Option<u64>
        ensures some { IfSome result
            (λ _. 56 * self.old.blocks_read < length self.old.source.bits) }
        ensures end { IfNone result (length self.old.source.bits ≤ 56 * self.old.blocks_read) }
        ensures block { IfSome result (λ block. block ≡ word_of (block_bits self.old)) }
        ensures after { MatchOption result (self.new ≡ self.old)
            (λ _. self.new ≡ after_block self.old) }
        ensures bound { self.new.blocks_read ≤ (length self.new.source.bits + 55) / 56 }
    {
        let bitmap = self.bitmap;
        let count = (bitmap.len() - self.at).min(BLOCK_BITS);
        if count == 0 {
            return None;
        }
        let block = bitmap.word_at(self.at, count);
        self.at += count;
        self.blocks += 1;
        Some(block)
    }
}
