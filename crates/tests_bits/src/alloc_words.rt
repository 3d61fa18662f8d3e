//! Functions on bitmaps, buffers, words and readers that must not allocate: each allocation fails.

use crate::column_fixtures::offsets;
use crate::fixtures::{buffer, has_bits, same};
use crate::marks::{begins_free, ends_answered};
use sel_bits::aligned_words::AlignedWords;
use sel_bits::bitmap::Bitmap;
use sel_bits::block_copy::BlockCopy;
use sel_bits::blocks::U56Blocks;
use sel_bits::buffer::Buffer;
use sel_bits::counted_bits::CountedBits;
use sel_bits::moving_word::MovingWord;
use sel_bits::native::{NativeType, Offset};
use sel_bits::number::{load_padded_le_u64, negative_to_usize, prefix_xorsum};
use sel_bits::offsets::OffsetsBuffer;
use sel_filter::boolean::{pext64_polyfill, pext64_rounds};
use std::alloc::Global;
use std::test::Fail;

const BITS: [bool; 6] = [false, true, true, false, true, false];

/// Returns whether the properties of a bitmap are right, and its leading and trailing bits are
/// removed.
fn parts_bits(alloc: Global, bits: Bitmap) -> bool {
    if bits.len() != 6 {
        return false;
    }
    begins_free(alloc);
    let told = (
        bits.set_bits(),
        bits.unset_bits(),
        bits.is_empty(),
        bits.get_bit(1),
    );
    let bytes = bits.as_slice() == ([0b10110].as_slice(), 0, 6);
    let mut part = bits;
    let zeros = (part.take_leading_zeros(), part.take_trailing_zeros());
    let ones = part.take_leading_ones();
    ends_answered(alloc);
    (told == (3, 3, false, true))
        & bytes
        & (zeros == (1, 1))
        & (ones == 2)
        & has_bits(&part, &[false, true])
}

/// Returns whether a slice of a bitmap has its bits.
fn slices_bits(alloc: Global, bits: Bitmap) -> bool {
    if bits.len() != 6 {
        return false;
    }
    begins_free(alloc);
    let part = bits.sliced(1, 3);
    ends_answered(alloc);
    has_bits(&part, &[true, true, false])
}

#[test]
fn bitmap_slices_do_not_allocate(rt: HostRuntime) -> Result<(), Fail> {
    assert!(rt; parts_bits(rt.alloc(), Bitmap::from_bools(rt.alloc(), &BITS)?));
    assert!(rt; slices_bits(rt.alloc(), Bitmap::from_bools(rt.alloc(), &BITS)?));
    Ok(())
}

/// Returns whether a buffer, offsets and their slices have their values.
fn parts_values(alloc: Global, values: Buffer<u8>, ends: OffsetsBuffer<i64>) -> bool {
    if values.len() != 3 || ends.len_proxy() != 2 {
        return false;
    }
    begins_free(alloc);
    let first = (ends.first(), ends.last());
    let part = values.sliced(1, 2);
    let rest = ends.sliced(1, 1);
    ends_answered(alloc);
    (first == (0, 5)) & same(part.as_slice(), &[2, 3]) & same(rest.as_slice(), &[2, 5])
}

#[test]
fn buffer_slices_do_not_allocate(rt: HostRuntime) -> Result<(), Fail> {
    let values = buffer(rt.alloc(), &[1u8, 2, 3])?;
    let ends = offsets(rt.alloc(), &[0, 2, 5])?;
    assert!(rt; parts_values(rt.alloc(), values, ends));
    Ok(())
}

/// Returns whether the readers return the bits of a bitmap, and count what they return.
fn reads(alloc: Global, bits: &Bitmap) -> bool {
    if bits.len() != 6 {
        return false;
    }
    begins_free(alloc);
    let (mut blocks, mut words) = (U56Blocks::new(bits), AlignedWords::new(bits));
    let mut single = CountedBits::new(bits);
    let given = (blocks.next(), words.next(), single.get(1));
    let counts = (blocks.blocks_read(), words.words_read(), single.bits_read());
    ends_answered(alloc);
    (given == (Some(0b10110), Some((0b10110, 6)), true)) & (counts == (1, 1, 1))
}

#[test]
fn readers_do_not_allocate(rt: HostRuntime) -> Result<(), Fail> {
    let bits = Bitmap::from_bools(rt.alloc(), &BITS)?;
    assert!(rt; reads(rt.alloc(), &bits));
    Ok(())
}

/// Returns whether the functions on words and numbers return the right values.
fn works_on_words(alloc: Global) -> bool {
    let mask = 0b1100_1100u64;
    begins_free(alloc);
    let packed = pext64_polyfill(0b1011_0100, mask, mask.count_ones());
    let mut word = MovingWord::new(0b1011_0100);
    pext64_rounds(&mut word, mask);
    let sums = prefix_xorsum(0b101);
    let loaded = load_padded_le_u64(&[1, 1]);
    let place = negative_to_usize(-1, 3);
    let number = (i8::from_usize(127), i8::from_usize(128));
    let place_of = 7i8.try_usize();
    ends_answered(alloc);
    (packed == 0b1001)
        & (word.word() == 0b1001)
        & (sums == 0b110)
        & (loaded == 257)
        & (place == Some(2))
        & (number == (Some(127), None))
        & (place_of == Some(7))
}

/// Returns whether a moving word keeps and moves the bits under its masks.
fn moves_a_word(alloc: Global) -> bool {
    begins_free(alloc);
    let mut word = MovingWord::new(0b1101_0110);
    word.keep(0b1111_0000);
    word.move_down(0b0101_0000, 3);
    let told = (word.source(), word.word(), word.moves());
    ends_answered(alloc);
    told == (0b1101_0110, 0b1000_1010, 1)
}

/// Returns whether the functions on offsets and numbers return the right values.
fn converts_numbers(alloc: Global) -> bool {
    begins_free(alloc);
    let signs = ((-1i64).is_negative(), 3i32.is_below(5));
    let places = (5i64.to_position(), 7u8.to_usize());
    ends_answered(alloc);
    (signs == (true, true)) & (places == (5, 7))
}

/// Returns whether a copy without items is empty.
fn copies_nothing(alloc: Global) -> bool {
    let source = [1u8, 2, 3];
    begins_free(alloc);
    let out = BlockCopy::new(alloc, source.as_slice());
    let told = (out.source_len(), out.copies());
    let items = out.into_vec();
    ends_answered(alloc);
    (told == (3, 0)) & items.is_empty()
}

#[test]
fn word_and_number_functions_do_not_allocate(rt: HostRuntime) {
    assert!(rt; works_on_words(rt.alloc()));
    assert!(rt; moves_a_word(rt.alloc()));
    assert!(rt; converts_numbers(rt.alloc()));
    assert!(rt; copies_nothing(rt.alloc()));
}
