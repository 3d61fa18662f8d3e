//! A reader of the bits of a bitmap in aligned words that counts the words read.

ghost use Rattle.std.specs.Prelude.{◌≡◌, ◌≢◌, ◌+◌, ◌/◌, ◌<◌, ◌≤◌, length, take, drop, replicate, false, IfSome, IfNone, MatchOption};
ghost use Rattle.sel_bits.specs.Reading.{after_word, after_zeros, next_bits, next_count, reached};
ghost use Rattle.sel_bits.specs.Words.{word_of};

use crate::bitmap::Bitmap;
use std::marker::Model;

/// A reader of a bitmap in words that end at multiples of 64 bits in the shared bytes, or at the
/// last bit.
///
/// Contract model: the bitmap and the number of words read.
#[derive(Drop)]
pub struct AlignedWords<'a> {
    bitmap: &'a Bitmap,
    at: usize,
    words: u64,
}

impl<'a> Model for AlignedWords<'a> {
    ghost use Rattle.std.specs.Prelude.{◌≡◌, ◌+◌, ◌/◌, ◌≤◌, length};
    ghost use Rattle.sel_bits.specs.Reading.{WordReading, bits_in};

    ghost Value = { WordReading };

    ghost view = { λ r. record { source = r.bitmap.now; words_read = r.words } };

    ghost invariant = { λ r. (r.at ≡ bits_in r.bitmap.now r.words) ×
        (r.words ≤ length r.bitmap.now.bits / 64 + 2) };
}

impl<'a> AlignedWords<'a> {
    /// Returns a reader at the start of the bitmap.
    pub fn new(bitmap: &'a Bitmap) -> AlignedWords<'a>
        ensures { result ≡ record { source = bitmap.now; words_read = 0 } }
    {
        AlignedWords {
            bitmap,
            at: 0,
            words: 0,
        }
    }

    /// Returns the number of bits of the bitmap.
    pub fn len(&self) -> usize
        ensures { result ≡ length self.now.source.bits }
    {
        let source = self.bitmap;
        source.len()
    }

    /// Returns the number of words read: at most `len / 64 + 2`.
    pub fn words_read(&self) -> u64
        ensures count { result ≡ self.now.words_read }
        ensures bound { result ≤ length self.now.source.bits / 64 + 2 }
    {
        self.words
    }

    /// Returns the next word, with zeros above its bits, and its number of bits, or `None` after
    /// the last bit.
    ///
    /// The first word ends at a multiple of 64 bits in the shared bytes or at the last bit, the
    /// others have 64 bits, and the last word has the bits left.
    #[inline]
    pub fn next(&mut self) -> Option<(u64, usize)>
        ensures some { IfSome result (λ _. reached self.old < length self.old.source.bits) }
        ensures end { IfNone result (reached self.old ≡ length self.old.source.bits) }
        ensures word { IfSome result (λ part. part.0 ≡ word_of (next_bits self.old)) }
        ensures count { IfSome result (λ part. part.1 ≡ next_count self.old) }
        ensures after { MatchOption result (self.new ≡ self.old)
            (λ _. self.new ≡ after_word self.old) }
        ensures bound { self.new.words_read ≤ length self.new.source.bits / 64 + 2 }
    {
        let bitmap = self.bitmap;
        let left = bitmap.len() - self.at;
        if left == 0 {
            return None;
        }
        let room = 64 - (bitmap.offset() + self.at) % 64;
        let count = left.min(room);
        self.words += 1;
        // (a whole word needs no mask)
        if count == 64 {
            let word = bitmap.whole_word_at(self.at);
            self.at += 64;
            return Some((word, 64));
        }
        let word = bitmap.word_at(self.at, count);
        self.at += count;
        Some((word, count))
    }

    /// Skips the next words as long as they have 64 bits, all of them false, and returns the number
    /// of bits skipped and the word after them, as [`AlignedWords::next`] does.
    ///
    /// Each skipped word counts as read, and so does the returned one.
    #[inline]
    pub fn next_after_zeros(&mut self) -> (usize, Option<(u64, usize)>)
        ensures zeros { take result.0 (drop (reached self.old) self.old.source.bits) ≡
            replicate result.0 false }
        ensures skipped { reached (after_zeros self.old result.0) ≡ reached self.old + result.0 }
        ensures some { IfSome result.1 (λ _. reached (after_zeros self.old result.0) <
            length self.old.source.bits) }
        ensures end { IfNone result.1 (reached (after_zeros self.old result.0) ≡
            length self.old.source.bits) }
        ensures word { IfSome result.1 (λ part. part.0 ≡
            word_of (next_bits (after_zeros self.old result.0))) }
        ensures count { IfSome result.1 (λ part. part.1 ≡
            next_count (after_zeros self.old result.0)) }
        ensures nonzero { IfSome result.1 (λ part. part.1 ≡ 64 → part.0 ≢ 0) }
        ensures after { MatchOption result.1 (self.new ≡ after_zeros self.old result.0)
            (λ _. self.new ≡ after_word (after_zeros self.old result.0)) }
        ensures bound { self.new.words_read ≤ length self.new.source.bits / 64 + 2 }
    {
        let bitmap = self.bitmap;
        if (bitmap.offset() + self.at) % 64 != 0 {
            return (0, self.next());
        }
        let (words, stop) = bitmap.zero_words(self.at);
        let skipped = 64 * words;
        if let Some(word) = stop {
            self.words += words as u64 + 1;
            self.at += skipped + 64;
            return (skipped, Some((word, 64)));
        }
        self.words += words as u64;
        self.at += skipped;
        (skipped, self.next())
    }
}
