//! Words of zeros that a reader skips, and single bits, and how they are counted.

use sel_bits::aligned_words::AlignedWords;
use sel_bits::bitmap::Bitmap;
use sel_bits::counted_bits::CountedBits;
use std::test::Fail;

/// Returns whether 256 bits, true only at 3 and 199, have two zero words between two others.
fn skips_two_words(bitmap: &Bitmap) -> bool {
    let mut words = AlignedWords::new(bitmap);
    words.next_after_zeros() == (0, Some((0b1000, 64)))
        && words.words_read() == 1
        && words.next_after_zeros() == (128, Some((0b1000_0000, 64)))
        && words.words_read() == 4
        && words.next_after_zeros() == (0, None)
        && words.words_read() == 4
}

/// Returns whether the bits of the same bitmap from 4 to 200 begin with a word of 60 bits, which is
/// returned although it is zero, and end with a word of 8 bits.
fn returns_partial_word_of_zeros(bitmap: &Bitmap) -> bool {
    let mut words = AlignedWords::new(bitmap);
    words.next_after_zeros() == (0, Some((0, 60)))
        && words.next_after_zeros() == (128, Some((0b1000_0000, 8)))
        && words.next_after_zeros() == (0, None)
        && words.words_read() == 4
}

/// Returns whether 128 false bits are skipped, and counted as two words.
fn skips_to_end(bitmap: &Bitmap) -> bool {
    let mut words = AlignedWords::new(bitmap);
    words.next_after_zeros() == (128, None) && words.words_read() == 2
}

#[test]
fn zero_words_are_skipped(rt: HostRuntime) -> Result<(), Fail> {
    let mut bits = [false; 256];
    bits[3] = true;
    bits[199] = true;
    let bitmap = Bitmap::from_bools(rt.alloc(), &bits)?;
    assert!(rt; skips_two_words(&bitmap));
    assert!(rt; returns_partial_word_of_zeros(&bitmap.try_clone()?.sliced(4, 196)));
    assert!(rt; skips_to_end(&bitmap.sliced(64, 128)));
    Ok(())
}

#[test]
fn single_bits_are_counted(rt: HostRuntime) -> Result<(), Fail> {
    let bitmap = Bitmap::from_bools(rt.alloc(), &[true, false])?;
    let mut bits = CountedBits::new(&bitmap);
    assert!(rt; bits.len() == 2 && bits.bits_read() == 0);
    assert!(rt; (bits.get(0), bits.get(1), bits.get(0)) == (true, false, true));
    assert!(rt; bits.bits_read() == 3);
    Ok(())
}
