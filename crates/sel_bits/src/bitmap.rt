//! Bitmaps: boolean values, eight to a byte, least significant bit first, in shared bytes.
#![tactic(auto, using(crate::proofs::BitLists::length_bits_from))]

ghost use Rattle.std.specs.Prelude.{◌≡◌, ◌≢◌, ℕ, ◌+◌, ◌-◌, ◌*◌, ◌/◌, ◌%◌, ◌^◌, ◌<◌, ◌≤◌, [], ◌∷◌, ◌++◌, Bool, false, length, take, drop, slice_index_or, replicate, IfOk, IfErr, IfSome, IfNone, IsTrue, ◌↔◌, vec_len, if◌then◌else◌};
ghost use Rattle.sel_bits.specs.Faults.{IsOutOfMemory};
ghost use Rattle.sel_bits.specs.Bits.{bits_from, count_true, count_false, leading_ones, leading_zeros, trailing_zeros, unsliced};
ghost use Rattle.sel_bits.specs.Storage.{BitsOf, shared_bytes};
ghost use Rattle.sel_bits.specs.Words.{word_of};

use crate::buffer::Buffer;
use crate::faults::PolarsResult;
use crate::lent::Lent;
use crate::operations::{Not, word_by};
use crate::packer::{BitPacker, MOST_BITS};
use crate::shared_bytes::SharedBytes;
use crate::words::{count_set, first_word, whole_word};
use std::alloc::Global;
use std::marker::Model;

/// A list of booleans, the first of which is bit `offset` of shared bytes.
///
/// Contract model: the list and the bit offset. (Arrow columnar format: validity bitmaps.)
#[derive(Drop)]
pub struct Bitmap {
    bytes: SharedBytes,
    offset: usize,
    len: usize,
}

impl Model for Bitmap {
    ghost use Rattle.std.specs.Prelude.{◌+◌, ◌*◌, ◌≤◌, ◌<◌, ◌^◌, length};
    ghost use Rattle.sel_bits.specs.Storage.{shared_bytes};
    ghost use Rattle.sel_bits.specs.Bits.{Bits, bits_from};

    ghost Value = { Bits };

    ghost view = { λ b. record {
      bits = bits_from (shared_bytes b.bytes) b.offset b.len;
      offset = b.offset;
    } };

    ghost invariant = { λ b. (b.offset + b.len ≤ 8 * length (shared_bytes b.bytes)) ×
        (b.offset + b.len < 2 ^ 64) };
}

impl Bitmap {
    /// Returns an empty bitmap.
    ///
    /// # Errors
    /// `OutOfMemory` if an allocation fails.
    pub fn new(alloc: Global) -> PolarsResult<Bitmap>
        ensures value { IfOk result (λ bitmap. bitmap ≡ unsliced []) }
        ensures refusal { IfErr result IsOutOfMemory }
    {
        Bitmap::from_u8_vec(Vec::new(alloc), 0)
    }

    /// Returns a bitmap of `len` bits, each of them `value`.
    ///
    /// # Errors
    /// `OutOfMemory` if an allocation fails.
    #[tactic(auto, using(crate::proofs::Packed::equal_bits))]
    pub fn new_with_value(alloc: Global, value: bool, len: usize) -> PolarsResult<Bitmap>
        ensures value { IfOk result (λ bitmap. bitmap ≡ unsliced (replicate len value)) }
        ensures refusal { IfErr result IsOutOfMemory }
    {
        let bytes = vec![in alloc; byte_of(value); len.div_ceil(8)]?;
        Bitmap::from_u8_vec(bytes, len)
    }

    /// Returns a bitmap of `len` false bits.
    ///
    /// # Errors
    /// `OutOfMemory` if an allocation fails.
    pub fn new_zeroed(alloc: Global, len: usize) -> PolarsResult<Bitmap>
        ensures value { IfOk result (λ bitmap. bitmap ≡ unsliced (replicate len false)) }
        ensures refusal { IfErr result IsOutOfMemory }
    {
        Bitmap::new_with_value(alloc, false, len)
    }

    /// Returns a bitmap of the first `len` bits of `bytes`.
    ///
    /// # Requires
    /// `len` is at most the number of bits of `bytes`.
    ///
    /// # Errors
    /// `OutOfMemory` if an allocation fails.
    pub fn from_u8_vec(bytes: Vec<u8>, len: usize) -> PolarsResult<Bitmap>
        requires { len ≤ 8 * vec_len bytes }
        ensures value { IfOk result (λ bitmap. bitmap ≡ unsliced (bits_from bytes.items 0 len)) }
        ensures len { IfOk result (λ bitmap. length bitmap.bits ≡ len) }
        ensures refusal { IfErr result IsOutOfMemory }
    {
        let bytes = SharedBytes::from_vec(bytes)?;
        Ok(Bitmap::of_bytes(bytes, len))
    }

    /// Returns a bitmap of the first `len` bits of shared bytes.
    pub(crate) fn of_bytes(bytes: SharedBytes, len: usize) -> Bitmap
        requires { len ≤ 8 * length (shared_bytes bytes) }
        ensures { result ≡ unsliced (bits_from (shared_bytes bytes) 0 len) }
    {
        Bitmap {
            bytes,
            offset: 0,
            len,
        }
    }

    /// Returns a bitmap of the `len` bits from bit `first` of lent bytes on, without a copy.
    ///
    /// # Requires
    /// The bytes have at least `first + len` bits, and `first + len` fits `usize`.
    ///
    /// # Errors
    /// The lent bytes, if an allocation fails.
    pub fn from_lent(
        alloc: Global,
        bytes: Lent<u8>,
        first: usize,
        len: usize,
    ) -> Result<Bitmap, Lent<u8>>
        requires within { first + len ≤ 8 * length bytes.items }
        requires fits { first + len < 2 ^ 64 }
        ensures value { IfOk result (λ bitmap. bitmap ≡
            record { bits = bits_from bytes.items first len; offset = first }) }
        ensures len { IfOk result (λ bitmap. length bitmap.bits ≡ len) }
        ensures refusal { IfErr result (λ lent. lent.items ≡ bytes.items) }
    {
        let bytes = SharedBytes::from_lent(alloc, bytes)?;
        Ok(Bitmap {
            bytes,
            offset: first,
            len,
        })
    }

    /// Returns the lent bytes.
    ///
    /// # Errors
    /// The bitmap, if its bytes are not lent or have another owner.
    pub fn into_lent(self) -> Result<Lent<u8>, Bitmap>
        ensures value { IfOk result (λ lent. BitsOf self lent.items) }
        ensures refusal { IfErr result (λ bitmap. bitmap ≡ self) }
    {
        let Bitmap { bytes, offset, len } = self;
        match bytes.into_lent() {
            Ok(lent) => Ok(lent),
            Err(bytes) => Err(Bitmap { bytes, offset, len }),
        }
    }

    /// Returns a bitmap of these booleans.
    ///
    /// # Errors
    /// `OutOfMemory` if an allocation fails.
    #[tactic(auto, using(crate::proofs::Padded::word_of_lt, crate::proofs::Packed::bits_word_of, crate::proofs::Packed::block_packed))]
    pub fn from_bools(alloc: Global, values: &[bool]) -> PolarsResult<Bitmap>
        ensures value { IfOk result (λ bitmap. bitmap ≡ unsliced values.now) }
        ensures refusal { IfErr result IsOutOfMemory }
    {
        let mut packer = BitPacker::with_capacity(alloc, values.len())?;
        let mut rest = values;
        while !rest.is_empty() {
            let (block, others) = rest.split_at(rest.len().min(MOST_BITS));
            packer.append(word_of_bools(block), block.len() as u32)?;
            rest = others;
        }
        packer.into_bitmap(values.len())
    }

    /// Returns the number of bits.
    pub fn len(&self) -> usize
        ensures { result ≡ length self.now.bits }
    {
        self.len
    }

    /// Returns whether there are no bits.
    pub fn is_empty(&self) -> bool
        ensures { IsTrue result ↔ (length self.now.bits ≡ 0) }
    {
        self.len == 0
    }

    /// Returns the index of the first bit in the shared bytes.
    pub(crate) fn offset(&self) -> usize
        ensures value { result ≡ self.now.offset }
        ensures fits { self.now.offset + length self.now.bits < 2 ^ 64 }
    {
        self.offset
    }

    /// Returns bit `i`.
    ///
    /// # Requires
    /// `i` is less than the length.
    #[tactic(auto, using(crate::proofs::BitLists::length_bits_from, crate::proofs::BitLists::read_bit))]
    #[inline]
    pub fn get_bit(&self, i: usize) -> bool
        requires { i < length self.now.bits }
        ensures { result ≡ slice_index_or self.now.bits i false }
    {
        let at = self.offset + i;
        (self.bytes.as_slice()[at / 8] >> (at % 8)) & 1 == 1
    }

    /// Returns the word of the `len` bits from bit `at` on, with zeros above them.
    #[inline]
    #[tactic(auto, using(std::proofs::lemmas::Grind::common_steps, crate::proofs::BitLists::length_bits_from, crate::proofs::Loads::read_word))]
    pub(crate) fn word_at(&self, at: usize, len: usize) -> u64
        requires within { at + len ≤ length self.now.bits }
        requires few { len ≤ 64 }
        ensures { result ≡ word_of (take len (drop at self.now.bits)) }
    {
        // (a whole word needs no mask, and its bytes all exist)
        if len == 64 {
            return self.whole_word_at(at);
        }
        let first = self.offset + at;
        first_word(&self.bytes.as_slice()[first / 8..], first % 8, len)
    }

    /// Returns the word of the 64 bits from bit `at` on.
    #[inline]
    pub(crate) fn whole_word_at(&self, at: usize) -> u64
        requires { at + 64 ≤ length self.now.bits }
        ensures { result ≡ word_of (take 64 (drop at self.now.bits)) }
    {
        let first = self.offset + at;
        whole_word(self.bytes.as_slice(), first / 8, first % 8)
    }

    /// Returns the number of consecutive words of 64 false bits from bit `at` on, and the first
    /// other word of 64 bits, or `None` if fewer than 64 bits follow. Reads each word once.
    #[tactic(auto, using(crate::proofs::ZeroWords::word_more))]
    pub(crate) fn zero_words(&self, at: usize) -> (usize, Option<u64>)
        requires { at ≤ length self.now.bits }
        ensures within { at + 64 * result.0 ≤ length self.now.bits }
        ensures zeros { take (64 * result.0) (drop at self.now.bits) ≡
            replicate (64 * result.0) false }
        ensures some { IfSome result.1 (λ _. at + 64 * result.0 + 64 ≤ length self.now.bits) }
        ensures word { IfSome result.1 (λ word. word ≡
            word_of (take 64 (drop (at + 64 * result.0) self.now.bits))) }
        ensures nonzero { IfSome result.1 (λ word. word ≢ 0) }
        ensures end { IfNone result.1 (length self.now.bits < at + 64 * result.0 + 64) }
    {
        let most = (self.len() - at) / 64;
        let mut words = 0;
        while words < most {
            let next = self.whole_word_at(at + 64 * words);
            if next != 0 {
                return (words, Some(next));
            }
            words += 1;
        }
        (words, None)
    }

    /// Returns the number of true bits.
    pub fn set_bits(&self) -> usize
        ensures { result ≡ count_true self.now.bits }
    {
        let (bytes, shift, len) = self.as_slice();
        count_set(bytes, shift, len)
    }

    /// Returns whether all bits are true. Stops at the first word with a false bit.
    #[tactic(auto, using(crate::proofs::AllTrue::all_true))]
    pub fn is_all_true(&self) -> bool
        ensures { IsTrue result ↔ (count_true self.now.bits ≡ length self.now.bits) }
    {
        self.leading_ones() == self.len()
    }

    /// Returns whether all bits are false. Stops at the first word with a true bit.
    #[tactic(auto, using(crate::proofs::AllTrue::all_false))]
    pub fn is_all_false(&self) -> bool
        ensures { IsTrue result ↔ (count_true self.now.bits ≡ 0) }
    {
        self.leading_zeros() == self.len()
    }

    /// Returns the number of false bits.
    #[tactic(auto, using(crate::proofs::Packed::counts))]
    pub fn unset_bits(&self) -> usize
        ensures { result ≡ count_false self.now.bits }
    {
        self.len() - self.set_bits()
    }

    /// Returns the `len` bits from bit `off` on, without a copy of the shared bytes.
    ///
    /// # Requires
    /// `off + len` is at most the length.
    #[tactic(auto, using(crate::proofs::BitLists::length_bits_from, crate::proofs::BitLists::bits_from_part))]
    pub fn sliced(self, off: usize, len: usize) -> Bitmap
        requires { off + len ≤ length self.bits }
        ensures value { result ≡ record {
          bits = take len (drop off self.bits);
          offset = self.offset + off;
        } }
        ensures len { length result.bits ≡ len }
    {
        Bitmap {
            bytes: self.bytes,
            offset: self.offset + off,
            len,
        }
    }

    /// Removes the false bits before the first true bit, and returns their number.
    pub fn take_leading_zeros(&mut self) -> usize
        ensures count { result ≡ leading_zeros self.old.bits }
        ensures rest { self.new ≡
            record { bits = drop result self.old.bits; offset = self.old.offset + result } }
    {
        let count = self.leading_zeros();
        self.drop_front(count);
        count
    }

    /// Removes the true bits before the first false bit, and returns their number.
    pub fn take_leading_ones(&mut self) -> usize
        ensures count { result ≡ leading_ones self.old.bits }
        ensures rest { self.new ≡
            record { bits = drop result self.old.bits; offset = self.old.offset + result } }
    {
        let count = self.leading_ones();
        self.drop_front(count);
        count
    }

    /// Removes the false bits after the last true bit, and returns their number.
    #[tactic(auto, using(crate::proofs::BitLists::length_bits_from, crate::proofs::Zeros::bits_from_kept))]
    pub fn take_trailing_zeros(&mut self) -> usize
        ensures count { result ≡ trailing_zeros self.old.bits }
        ensures rest { self.new ≡ record {
          bits = take (length self.old.bits - result) self.old.bits;
          offset = self.old.offset;
        } }
    {
        let count = self.trailing_zeros();
        self.len -= count;
        count
    }

    /// Removes the first `count` bits.
    #[tactic(auto, using(crate::proofs::BitLists::length_bits_from, crate::proofs::Zeros::bits_from_dropped))]
    fn drop_front(&mut self, count: usize)
        requires { count ≤ length self.old.bits }
        ensures { self.new ≡ record {
          bits = drop count self.old.bits;
          offset = self.old.offset + count;
        } }
    {
        self.offset += count;
        self.len -= count;
    }

    /// Returns the number of false bits before the first true bit.
    fn leading_zeros(&self) -> usize
        ensures count { result ≡ leading_zeros self.now.bits }
        ensures within { result ≤ length self.now.bits }
    {
        self.zeros_from(0)
    }

    /// Returns the number of true bits before the first false bit.
    fn leading_ones(&self) -> usize
        ensures count { result ≡ leading_ones self.now.bits }
        ensures within { result ≤ length self.now.bits }
    {
        self.ones_from(0)
    }

    /// Returns the number of consecutive false bits from bit `start` on.
    ///
    /// # Requires
    /// `start` is at most the length.
    #[inline]
    #[tactic(auto, using(crate::proofs::Zeros::none_set, crate::proofs::Zeros::leading_rest))]
    pub fn zeros_from(&self, start: usize) -> usize
        requires { start ≤ length self.now.bits }
        ensures count { result ≡ leading_zeros (drop start self.now.bits) }
        ensures within { start + result ≤ length self.now.bits }
    {
        let mut at = start;
        while at < self.len() {
            let len = (self.len() - at).min(MOST_BITS);
            let word = self.word_at(at, len);
            if word != 0 {
                return at - start + word.trailing_zeros() as usize;
            }
            at += len;
        }
        at - start
    }

    /// Returns the number of consecutive true bits from bit `start` on.
    ///
    /// # Requires
    /// `start` is at most the length.
    #[inline]
    #[tactic(auto, using(std::proofs::lemmas::Grind::common_steps, crate::proofs::Combining::of_not, crate::proofs::Zeros::none_set))]
    pub fn ones_from(&self, start: usize) -> usize
        requires { start ≤ length self.now.bits }
        ensures count { result ≡ leading_ones (drop start self.now.bits) }
        ensures within { start + result ≤ length self.now.bits }
    {
        let mut at = start;
        while at < self.len() {
            let len = (self.len() - at).min(MOST_BITS);
            let word = word_by::<Not>(self, self, self, at, len);
            if word != 0 {
                return at - start + word.trailing_zeros() as usize;
            }
            at += len;
        }
        at - start
    }

    /// Returns the number of false bits after the last true bit.
    #[tactic(auto, using(crate::proofs::Zeros::none_set, crate::proofs::Zeros::trailing_all))]
    fn trailing_zeros(&self) -> usize
        ensures count { result ≡ trailing_zeros self.now.bits }
        ensures within { result ≤ length self.now.bits }
    {
        let mut end = self.len();
        while end > 0 {
            let len = end.min(MOST_BITS);
            let word = self.word_at(end - len, len);
            if word != 0 {
                return self.len() - (end - len) - (word.ilog2() as usize + 1);
            }
            end -= len;
        }
        self.len()
    }

    /// Returns the bytes with the bits, from the byte of the first bit on, the index of the first
    /// bit in the first byte, and the number of bits.
    #[tactic(auto, using(crate::proofs::BitLists::length_bits_from, crate::proofs::BitLists::bits_from_bytes))]
    pub fn as_slice(&self) -> (&[u8], usize, usize)
        ensures bits { self.now.bits ≡ bits_from result.0.now result.1 result.2 }
        ensures bytes { length result.0.now ≡ (result.1 + result.2 + 7) / 8 }
        ensures offset { result.1 ≡ self.now.offset % 8 }
        ensures len { result.2 ≡ length self.now.bits }
    {
        let first = self.offset / 8;
        let within = self.offset % 8;
        let count = (within + self.len).div_ceil(8);
        (
            &self.bytes.as_slice()[first..first + count],
            within,
            self.len,
        )
    }

    /// Returns the bytes of `as_slice` as a buffer, without a copy.
    ///
    /// # Errors
    /// `OutOfMemory` if the bytes cannot be shared once more.
    #[tactic(auto, using(std::proofs::lemmas::Grind::common_steps, crate::proofs::BitLists::length_bits_from, crate::proofs::BitLists::bits_from_bytes))]
    pub fn to_buffer(&self) -> PolarsResult<Buffer<u8>>
        ensures bits { IfOk result (λ bytes. self.now.bits ≡
            bits_from bytes (self.now.offset % 8) (length self.now.bits)) }
        ensures bytes { IfOk result (λ bytes. length bytes ≡
            (self.now.offset % 8 + length self.now.bits + 7) / 8) }
        ensures refusal { IfErr result IsOutOfMemory }
    {
        let count = (self.offset % 8 + self.len).div_ceil(8);
        let bytes = self.bytes.to_storage()?;
        Ok(Buffer::of_part(bytes, self.offset / 8, count))
    }

    /// Returns a bitmap of the same bits, without a copy of the shared bytes.
    ///
    /// # Errors
    /// `OutOfMemory` if the bytes cannot be shared once more.
    pub fn try_clone(&self) -> PolarsResult<Bitmap>
        ensures value { IfOk result (λ bitmap. bitmap ≡ self.now) }
        ensures refusal { IfErr result IsOutOfMemory }
    {
        let bytes = self.bytes.try_clone()?;
        Ok(Bitmap {
            bytes,
            offset: self.offset,
            len: self.len,
        })
    }
}

/// Returns the byte of eight equal bits.
fn byte_of(value: bool) -> u8
    ensures { result ≡ (if value then 255 else 0) }
{
    if value { u8::MAX } else { 0 }
}

/// Returns the word of these bits, from the lowest on, with zeros above.
fn word_of_bools(values: &[bool]) -> u64
    requires { length values.now ≤ 64 }
    ensures { result ≡ word_of values.now }
{
    let mut word = 0;
    for (i, value) in values.iter().enumerate() {
        word += u64::from(*value) << i;
    }
    word
}
