//! Filters for bitmaps.

ghost use Rattle.std.specs.Prelude.{◌≡◌, ◌+◌, ◌-◌, ◌*◌, ◌/◌, ◌^◌, ◌<◌, ◌≤◌, ◌++◌, length, drop, IfOk, IfErr, OnOk};
ghost use Rattle.sel_bits.specs.Faults.{IsOutOfMemory};
ghost use Rattle.sel_bits.specs.Bits.{bits_from, count_true};
ghost use Rattle.sel_bits.specs.Words.{bits};
ghost use Rattle.sel_filter.specs.Select.{select};

use crate::nibbles::compress_by_fours;
use crate::pext::pext64_few;
pub use crate::pext::{pext64_polyfill, pext64_rounds};
use sel_bits::aligned_words::AlignedWords;
use sel_bits::bitmap::Bitmap;
use sel_bits::blocks::U56Blocks;
use sel_bits::counted_bits::CountedBits;
use sel_bits::faults::PolarsResult;
use sel_bits::packer::BitPacker;
use sel_bits::words::{first_word, whole_word};
use std::alloc::Global;

/// The largest number of set mask bits of a word that are read one by one.
const FEW_MASK_BITS: u32 = 8;

/// Returns the bits of `values` where `mask` is true, in order.
///
/// # Requires
/// `values` and `mask` have the same length.
///
/// # Errors
/// `OutOfMemory` if an allocation fails.
pub fn filter_boolean_kernel(alloc: Global, values: &Bitmap, mask: &Bitmap) -> PolarsResult<Bitmap>
    requires { length values.now.bits ≡ length mask.now.bits }
    ensures bits { IfOk result (λ kept. kept.bits ≡ select values.now.bits mask.now.bits) }
    ensures refusal { IfErr result IsOutOfMemory }
{
    filter_counted_bits(alloc, values, mask, mask.set_bits())
}

/// Returns the bits of `values` where `mask` is true, in order; `count` is the number of set bits
/// of `mask`.
///
/// # Requires
/// `values` and `mask` have the same length, and `count` is `mask.set_bits()`.
///
/// # Errors
/// `OutOfMemory` if an allocation fails.
#[tactic(auto, using(crate::proofs::Selects::selected))]
pub fn filter_counted_bits(
    alloc: Global,
    values: &Bitmap,
    mask: &Bitmap,
    count: usize,
) -> PolarsResult<Bitmap>
    requires long { length values.now.bits ≡ length mask.now.bits }
    requires count { count ≡ count_true mask.now.bits }
    ensures bits { IfOk result (λ kept. kept.bits ≡ select values.now.bits mask.now.bits) }
    ensures refusal { IfErr result IsOutOfMemory }
{
    if count == 0 {
        return Bitmap::new(alloc);
    }
    if count == mask.len() {
        return values.try_clone();
    }
    keep_words(alloc, count, values, mask)
}

/// Returns the bits where `mask` is true, by 64-bit words; `count` is the number of set mask bits.
///
/// The rows before a byte boundary of the mask go first, so that its words are read without shifts.
fn keep_words(alloc: Global, count: usize, values: &Bitmap, mask: &Bitmap) -> PolarsResult<Bitmap>
    requires long { length values.now.bits ≡ length mask.now.bits }
    requires count { count ≡ count_true mask.now.bits }
    ensures bits { IfOk result (λ kept. kept.bits ≡ select values.now.bits mask.now.bits) }
    ensures refusal { IfErr result IsOutOfMemory }
{
    let (mask_bytes, mask_shift, len) = mask.as_slice();
    let (value_bytes, value_shift, _) = values.as_slice();
    let mut kept = BitPacker::with_capacity(alloc, count)?;
    let head = len.min((8 - mask_shift) % 8);
    let marks = first_word(mask_bytes, mask_shift, head);
    let word = first_word(value_bytes, value_shift, head);
    append_kept(&mut kept, word, marks)?;
    let at = value_shift + head;
    let rest = &value_bytes[at / 8..];
    let rest_mask = &mask_bytes[(mask_shift + head) / 8..];
    append_words(&mut kept, rest, at % 8, rest_mask, len - head)?;
    kept.into_bitmap(count)
}

/// Appends the bits of `len` rows where the mask is true. Bit `shift` of the first byte of
/// `value_bytes` and bit 0 of `mask_bytes` belong to the first row.
fn append_words(
    kept: &mut BitPacker,
    value_bytes: &[u8],
    shift: usize,
    mask_bytes: &[u8],
    len: usize,
) -> PolarsResult<()>
    requires shift { shift < 8 }
    requires values { shift + len ≤ 8 * length value_bytes.now }
    requires mask { len ≤ 8 * length mask_bytes.now }
    ensures appended { OnOk result (kept.new ≡ kept.old ++
        select (bits_from value_bytes.now shift len) (bits_from mask_bytes.now 0 len)) }
    ensures refusal { IfErr result IsOutOfMemory }
{
    for block in 0..len / 64 {
        let marks = whole_word(mask_bytes, 8 * block, 0);
        if marks == 0 {
            continue;
        }
        append_kept(kept, whole_word(value_bytes, 8 * block, shift), marks)?;
    }
    let done = len / 64 * 8;
    let marks = first_word(&mask_bytes[done..], 0, len % 64);
    let word = first_word(&value_bytes[done..], shift, len % 64);
    append_kept(kept, word, marks)
}

/// Returns the bits of `values` where `mask` is true, in order, reading each of them once.
///
/// No other bit of `values` is read.
///
/// # Requires
/// Nothing has been read from either reader, and both sources have the same length.
///
/// # Errors
/// `OutOfMemory` if an allocation fails; both readers may then have been read in part.
#[tactic(auto, using(crate::proofs::Filtering::filtered))]
pub fn filter_boolean_kernel_sparse(
    alloc: Global,
    values: &mut CountedBits<'_>,
    mask: &mut AlignedWords<'_>,
) -> PolarsResult<Bitmap>
    requires values_unread { values.old.bits_read ≡ 0 }
    requires mask_unread { mask.old.words_read ≡ 0 }
    requires long { length values.old.source.bits ≡ length mask.old.source.bits }
    ensures bits { IfOk result (λ kept. kept.bits ≡
        select values.old.source.bits mask.old.source.bits) }
    ensures reads { IfOk result (λ _. values.new.bits_read ≡ count_true mask.old.source.bits) }
    ensures words { mask.new.words_read ≤ length mask.old.source.bits / 64 + 2 }
    ensures values_source { values.new.source ≡ values.old.source }
    ensures mask_source { mask.new.source ≡ mask.old.source }
    ensures refusal { IfErr result IsOutOfMemory }
{
    // The number of bits fits in `usize`.
    let whole = mask.len();
    let mut kept = BitPacker::with_capacity(alloc, whole)?;
    let mut start = 0;
    while let (zeros, Some((word, count))) = mask.next_after_zeros() {
        start += zeros;
        append_marked(values, start, word, &mut kept)?;
        start += count;
    }
    kept.into_bitmap(values.bits_read() as usize)
}

/// Appends the bits of `values` at `start` plus the position of each set bit of `word`.
fn append_marked(
    values: &mut CountedBits<'_>,
    start: usize,
    word: u64,
    kept: &mut BitPacker,
) -> PolarsResult<()>
    requires fits { length values.old.source.bits < 2 ^ 64 }
    requires within { word < 2 ^ (length values.old.source.bits - start) }
    requires reads { values.old.bits_read + count_true
        (bits (length values.old.source.bits - start) word) < 2 ^ 64 }
    ensures appended { OnOk result (kept.new ≡ kept.old ++ select
        (drop start values.old.source.bits) (bits (length values.old.source.bits - start) word)) }
    ensures reads { OnOk result (values.new.bits_read ≡
        values.old.bits_read + count_true (bits (length values.old.source.bits - start) word)) }
    ensures source { values.new.source ≡ values.old.source }
    ensures refusal { IfErr result IsOutOfMemory }
{
    let mut marks = word;
    while marks != 0 {
        let at = start + marks.trailing_zeros() as usize;
        kept.push(values.get(at))?;
        marks &= marks - 1;
    }
    Ok(())
}

/// Returns the bits of `values` where `mask` is true, in order, 56 bits at a time.
///
/// # Requires
/// Nothing has been read from either reader, and both sources have the same length.
///
/// # Errors
/// `OutOfMemory` if an allocation fails; both readers may then have been read in part.
#[tactic(auto, using(crate::proofs::BlockSelects::kept_all))]
pub fn filter_boolean_kernel_pext(
    alloc: Global,
    values: &mut U56Blocks<'_>,
    mask: &mut U56Blocks<'_>,
) -> PolarsResult<Bitmap>
    requires values_unread { values.old.blocks_read ≡ 0 }
    requires mask_unread { mask.old.blocks_read ≡ 0 }
    requires long { length values.old.source.bits ≡ length mask.old.source.bits }
    ensures bits { IfOk result (λ kept. kept.bits ≡
        select values.old.source.bits mask.old.source.bits) }
    ensures values_blocks { values.new.blocks_read ≤ (length values.old.source.bits + 55) / 56 }
    ensures mask_blocks { mask.new.blocks_read ≤ (length mask.old.source.bits + 55) / 56 }
    ensures values_source { values.new.source ≡ values.old.source }
    ensures mask_source { mask.new.source ≡ mask.old.source }
    ensures refusal { IfErr result IsOutOfMemory }
{
    // The number of bits fits in `usize`.
    let whole = mask.len();
    let mut kept = BitPacker::with_capacity(alloc, whole)?;
    let mut count = 0;
    while let Some(marks) = mask.next() {
        let block = values.next().unwrap();
        append_kept(&mut kept, block, marks)?;
        count += marks.count_ones() as usize;
    }
    kept.into_bitmap(count)
}

/// Appends the bits of `word` where `marks` has a set bit, in order.
#[inline(always)]
#[tactic(auto, using(crate::proofs::WordSelects::selected_bits))]
fn append_kept(kept: &mut BitPacker, word: u64, marks: u64) -> PolarsResult<()>
    ensures appended { OnOk result (kept.new ≡ kept.old ++ select (bits 64 word)
        (bits 64 marks)) }
    ensures refusal { IfErr result IsOutOfMemory }
{
    if marks == u64::MAX {
        return kept.append(word, 64);
    }
    let count = marks.count_ones();
    if count <= FEW_MASK_BITS {
        return kept.append(pext64_few(word, marks), count);
    }
    kept.append(compress_by_fours(word, marks), count)
}
