//! A reader of single bits of a bitmap that counts the bits read.

ghost use Rattle.std.specs.Prelude.{◌≡◌, ◌<◌, length, slice_index_or, false};
ghost use Rattle.sel_bits.specs.Reading.{after_bit};

use crate::bitmap::Bitmap;
use std::marker::Model;

/// A reader of single bits of a bitmap.
///
/// Contract model: the bitmap and the number of reads.
#[derive(Drop)]
pub struct CountedBits<'a> {
    bitmap: &'a Bitmap,
    bits: u64,
}

impl<'a> Model for CountedBits<'a> {
    ghost use Rattle.sel_bits.specs.Reading.{BitReading};

    ghost Value = { BitReading };

    ghost view = { λ r. record { source = r.bitmap.now; bits_read = r.bits } };
}

impl<'a> CountedBits<'a> {
    /// Returns a reader of this bitmap, with no reads.
    pub fn new(bitmap: &'a Bitmap) -> CountedBits<'a>
        ensures { result ≡ record { source = bitmap.now; bits_read = 0 } }
    {
        CountedBits { bitmap, bits: 0 }
    }

    /// Returns the number of bits of the bitmap.
    pub fn len(&self) -> usize
        ensures { result ≡ length self.now.source.bits }
    {
        let source = self.bitmap;
        source.len()
    }

    /// Returns the number of reads.
    pub fn bits_read(&self) -> u64
        ensures { result ≡ self.now.bits_read }
    {
        self.bits
    }

    /// Returns bit `i`, and counts one read.
    ///
    /// # Requires
    /// `i` is less than the length, and the number of reads is less than 2^64 - 1.
    #[inline]
    pub fn get(&mut self, i: usize) -> bool
        requires within { i < length self.old.source.bits }
        requires counted { self.old.bits_read < 18446744073709551615 }
        ensures bit { result ≡ slice_index_or self.old.source.bits i false }
        ensures after { self.new ≡ after_bit self.old }
    {
        self.bits += 1;
        let source = self.bitmap;
        source.get_bit(i)
    }
}
