//! Bitwise operations on bitmaps.
#![tactic(auto, using(crate::proofs::Combining::combining))]

ghost use Rattle.std.specs.Prelude.{◌≡◌, ℕ, ◌+◌, ◌*◌, ◌/◌, ◌<◌, ◌≤◌, ◌&&◌, ◌||◌, ◌++◌, Bool, not, map, length, take, drop, IfOk, IfErr, if◌then◌else◌};
ghost use Rattle.std.specs.Vec.{vec_len, vec_capacity, vec_ptr};
ghost use Rattle.std.specs.Int.{bytes_low_first};
ghost use Rattle.sel_bits.specs.Faults.{IsOutOfMemory};
ghost use Rattle.sel_bits.specs.Bits.{bits_from, unsliced, zip_with, zip_three};
ghost use Rattle.sel_bits.specs.Choose.{choose};
ghost use Rattle.sel_bits.specs.Words.{is_set, word_of};

use crate::bitmap::Bitmap;
use crate::faults::PolarsResult;
use crate::words::{low_bits, whole_word};
use std::alloc::{Allocator, Global};

impl Bitmap {
    /// Returns a bitmap with the bitwise AND of two bitmaps.
    ///
    /// # Requires
    /// Both bitmaps have the same length.
    ///
    /// # Errors
    /// `OutOfMemory` if an allocation fails.
    pub fn and(&self, alloc: Global, other: &Bitmap) -> PolarsResult<Bitmap>
        requires { length self.now.bits ≡ length other.now.bits }
        ensures value { IfOk result (λ bitmap. bitmap ≡
            unsliced (zip_with (λ x y. x && y) self.now.bits other.now.bits)) }
        ensures refusal { IfErr result IsOutOfMemory }
    {
        combine::<And>(alloc, self, other, other)
    }

    /// Returns a bitmap with the bitwise OR of two bitmaps.
    ///
    /// # Requires
    /// Both bitmaps have the same length.
    ///
    /// # Errors
    /// `OutOfMemory` if an allocation fails.
    pub fn or(&self, alloc: Global, other: &Bitmap) -> PolarsResult<Bitmap>
        requires { length self.now.bits ≡ length other.now.bits }
        ensures value { IfOk result (λ bitmap. bitmap ≡
            unsliced (zip_with (λ x y. x || y) self.now.bits other.now.bits)) }
        ensures refusal { IfErr result IsOutOfMemory }
    {
        combine::<Or>(alloc, self, other, other)
    }

    /// Returns a bitmap with the bitwise AND of this bitmap and the negation of `other`.
    ///
    /// # Requires
    /// Both bitmaps have the same length.
    ///
    /// # Errors
    /// `OutOfMemory` if an allocation fails.
    pub fn and_not(&self, alloc: Global, other: &Bitmap) -> PolarsResult<Bitmap>
        requires { length self.now.bits ≡ length other.now.bits }
        ensures value { IfOk result (λ bitmap. bitmap ≡
            unsliced (zip_with (λ x y. x && not y) self.now.bits other.now.bits)) }
        ensures refusal { IfErr result IsOutOfMemory }
    {
        combine::<AndNot>(alloc, self, other, other)
    }

    /// Returns a bitmap with the bitwise OR of this bitmap and the negation of `other`.
    ///
    /// # Requires
    /// Both bitmaps have the same length.
    ///
    /// # Errors
    /// `OutOfMemory` if an allocation fails.
    pub fn or_not(&self, alloc: Global, other: &Bitmap) -> PolarsResult<Bitmap>
        requires { length self.now.bits ≡ length other.now.bits }
        ensures value { IfOk result (λ bitmap. bitmap ≡
            unsliced (zip_with (λ x y. x || not y) self.now.bits other.now.bits)) }
        ensures refusal { IfErr result IsOutOfMemory }
    {
        combine::<OrNot>(alloc, self, other, other)
    }

    /// Returns a bitmap with all bits negated.
    ///
    /// # Errors
    /// `OutOfMemory` if an allocation fails.
    pub fn not(&self, alloc: Global) -> PolarsResult<Bitmap>
        ensures value { IfOk result (λ bitmap. bitmap ≡ unsliced (map not self.now.bits)) }
        ensures refusal { IfErr result IsOutOfMemory }
    {
        combine::<Not>(alloc, self, self, self)
    }

    /// Returns a bitmap with the bit of `if_true` where `mask` is set, else that of `if_false`.
    ///
    /// # Requires
    /// All three bitmaps have the same length.
    ///
    /// # Errors
    /// `OutOfMemory` if an allocation fails.
    pub fn choose(
        alloc: Global,
        mask: &Bitmap,
        if_true: &Bitmap,
        if_false: &Bitmap,
    ) -> PolarsResult<Bitmap>
        requires true_side { length mask.now.bits ≡ length if_true.now.bits }
        requires false_side { length mask.now.bits ≡ length if_false.now.bits }
        ensures value { IfOk result (λ bitmap. bitmap ≡
            unsliced (choose mask.now.bits if_true.now.bits if_false.now.bits)) }
        ensures refusal { IfErr result IsOutOfMemory }
    {
        combine::<Choose>(alloc, mask, if_true, if_false)
    }
}

/// A boolean function of three bits, applied to 64 positions at once.
pub(crate) trait BitRule {
    ghost on_bits: { Bool → Bool → Bool → Bool };

    fn on_words(x: u64, y: u64, z: u64) -> u64
        ensures { (i : ℕ) → i < 64 →
            is_set result i ≡ on_bits (is_set x i) (is_set y i) (is_set z i) };
}

pub(crate) struct And;

impl BitRule for And {
    ghost use Rattle.std.specs.Prelude.{◌&&◌};

    ghost on_bits = { λ x y _. x && y };

    fn on_words(x: u64, y: u64, _z: u64) -> u64 {
        x & y
    }
}

pub(crate) struct Or;

impl BitRule for Or {
    ghost use Rattle.std.specs.Prelude.{◌||◌};

    ghost on_bits = { λ x y _. x || y };

    fn on_words(x: u64, y: u64, _z: u64) -> u64 {
        x | y
    }
}

pub(crate) struct AndNot;

impl BitRule for AndNot {
    ghost use Rattle.std.specs.Prelude.{◌&&◌, not};

    ghost on_bits = { λ x y _. x && not y };

    fn on_words(x: u64, y: u64, _z: u64) -> u64 {
        x & !y
    }
}

pub(crate) struct OrNot;

impl BitRule for OrNot {
    ghost use Rattle.std.specs.Prelude.{◌||◌, not};

    ghost on_bits = { λ x y _. x || not y };

    fn on_words(x: u64, y: u64, _z: u64) -> u64 {
        x | !y
    }
}

pub(crate) struct Not;

impl BitRule for Not {
    ghost use Rattle.std.specs.Prelude.{not};

    ghost on_bits = { λ x _ _. not x };

    fn on_words(x: u64, _y: u64, _z: u64) -> u64 {
        !x
    }
}

pub(crate) struct Choose;

impl BitRule for Choose {
    ghost use Rattle.std.specs.Prelude.{if◌then◌else◌};

    ghost on_bits = { λ x y z. if x then y else z };

    fn on_words(x: u64, y: u64, z: u64) -> u64 {
        (y & x) | (z & !x)
    }
}

/// Returns the function applied to the bits of three bitmaps, or `OutOfMemory`.
#[tactic(auto, using(std::proofs::lemmas::Grind::common_steps, crate::proofs::Combining::pieces))]
fn combine<R: BitRule>(alloc: Global, x: &Bitmap, y: &Bitmap, z: &Bitmap) -> PolarsResult<Bitmap>
    requires second { length x.now.bits ≡ length y.now.bits }
    requires third { length x.now.bits ≡ length z.now.bits }
    ensures value { IfOk result (λ bitmap. bitmap ≡
        unsliced (zip_three R.on_bits x.now.bits y.now.bits z.now.bits)) }
    ensures refusal { IfErr result IsOutOfMemory }
{
    let mut bytes = whole_words_by::<R>(alloc, x, y, z)?;
    let count = x.len();
    let at = 64 * (count / 64);
    push_word(word_by::<R>(x, y, z, at, count - at), &mut bytes);
    Bitmap::from_u8_vec(bytes, count)
}

/// Returns the bytes of the result for the whole words, with spare capacity for a word, or
/// `OutOfMemory`.
fn whole_words_by<R: BitRule>(
    alloc: Global,
    x: &Bitmap,
    y: &Bitmap,
    z: &Bitmap,
) -> PolarsResult<Vec<u8>>
    requires second { length x.now.bits ≡ length y.now.bits }
    requires third { length x.now.bits ≡ length z.now.bits }
    ensures packed { IfOk result (λ bytes. bits_from bytes.items 0 (8 * length bytes.items) ≡
        take (64 * (length x.now.bits / 64))
        (zip_three R.on_bits x.now.bits y.now.bits z.now.bits)) }
    ensures len { IfOk result (λ bytes. length bytes.items ≡
        8 * (length x.now.bits / 64)) }
    ensures room { IfOk result (λ bytes. vec_len bytes + 8 ≤ vec_capacity bytes) }
    ensures refusal { IfErr result IsOutOfMemory }
{
    let (x_bytes, x_shift, count) = x.as_slice();
    let (y_bytes, y_shift, _) = y.as_slice();
    let (z_bytes, z_shift, _) = z.as_slice();
    // Within the reserved capacity, so that the length of the vector stays in a register.
    let mut bytes = Vec::with_capacity(alloc, 8 * (count / 64) + 8)?;
    for block in 0..count / 64 {
        let at = 8 * block;
        let x_word = whole_word(x_bytes, at, x_shift);
        let y_word = whole_word(y_bytes, at, y_shift);
        let z_word = whole_word(z_bytes, at, z_shift);
        push_word(R::on_words(x_word, y_word, z_word), &mut bytes);
    }
    Ok(bytes)
}

/// Appends the eight bytes of a word, lowest first.
///
/// # Requires
/// `out` has spare capacity for eight bytes.
#[inline(always)]
pub(crate) fn push_word<A: Allocator>(word: u64, out: &mut Vec<u8, A>)
    requires room { vec_len out.old + 8 ≤ vec_capacity out.old }
    ensures items { out.new.items ≡ out.old.items ++ bytes_low_first 0 8 word }
    ensures capacity { vec_capacity out.new ≡ vec_capacity out.old }
    ensures place { vec_ptr out.new ≡ vec_ptr out.old }
{
    let bytes = word.to_le_bytes();
    for i in 0..8usize {
        out.push_reserved(bytes[i]);
    }
}

/// Returns the word of the result for the `len` bits from bit `at` on.
#[tactic(auto, using(crate::proofs::Combining::masked_made))]
#[inline]
pub(crate) fn word_by<R: BitRule>(x: &Bitmap, y: &Bitmap, z: &Bitmap, at: usize, len: usize) -> u64
    requires second { length x.now.bits ≡ length y.now.bits }
    requires third { length x.now.bits ≡ length z.now.bits }
    requires within { at + len ≤ length x.now.bits }
    requires few { len ≤ 64 }
    ensures { result ≡ word_of
        (take len (drop at (zip_three R.on_bits x.now.bits y.now.bits z.now.bits))) }
{
    let word = R::on_words(x.word_at(at, len), y.word_at(at, len), z.word_at(at, len));
    low_bits(word, len)
}
