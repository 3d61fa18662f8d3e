//! Builders that bits are appended to.

ghost use Rattle.std.specs.Prelude.{◌≡◌, ◌+◌, ◌^◌, ◌<◌, ◌≤◌, ◌++◌, Bool, ℤ, List, length, take, drop, replicate, IfErr, OnOk};
ghost use Rattle.sel_bits.specs.Faults.{IsOutOfMemory};
ghost use Rattle.sel_bits.specs.Words.{bits};

use crate::bitmap::Bitmap;
use crate::faults::PolarsResult;
use crate::packer::{MOST_BITS, word_of_copies};

/// A builder of a bitmap, which may have offsets in the same block of memory.
pub trait BitSink {
    // The bits so far.
    ghost so_far: { Self → List Bool };

    // The offsets in the same block.
    ghost beside: { Self → List ℤ };

    /// Appends the `count` lowest bits of `word`.
    ///
    /// # Requires
    /// `count` is at most 64, and the bits of `word` above them are zero.
    ///
    /// # Errors
    /// `OutOfMemory` if an allocation fails.
    fn append_word(&mut self, word: u64, count: u32) -> PolarsResult<()>
        requires count { count ≤ 64 }
        requires fits { word < 2 ^ count }
        ensures appended { OnOk result (so_far self.new ≡ so_far self.old ++ bits count word) }
        ensures beside { beside self.new ≡ beside self.old }
        ensures refusal { IfErr result IsOutOfMemory };
}

/// Appends the `len` bits of a bitmap from bit `start` on, up to 64 at a time.
///
/// # Requires
/// `start + len` is at most the length of `map`.
///
/// # Errors
/// `OutOfMemory` if an allocation fails; some of the bits may have been appended.
#[tactic(auto, using(crate::proofs::Extended::block_more, crate::proofs::Combining::part_fits))]
pub fn append_bitmap<S: BitSink>(
    sink: &mut S,
    map: &Bitmap,
    start: usize,
    len: usize,
) -> PolarsResult<()>
    requires { start + len ≤ length map.now.bits }
    ensures appended { OnOk result (S.so_far sink.new ≡
        S.so_far sink.old ++ take len (drop start map.now.bits)) }
    ensures beside { S.beside sink.new ≡ S.beside sink.old }
    ensures refusal { IfErr result IsOutOfMemory }
{
    // (the length of a bitmap fits in `usize`)
    let _whole = map.len();
    let mut at = 0;
    while at < len {
        let count = (len - at).min(MOST_BITS);
        sink.append_word(map.word_at(start + at, count), count as u32)?;
        at += count;
    }
    Ok(())
}

/// Appends `len` copies of a bit, up to 64 at a time.
///
/// # Errors
/// `OutOfMemory` if an allocation fails; some of the bits may have been appended.
#[tactic(auto, using(std::proofs::lemmas::Grind::common_steps, crate::proofs::Extended::copies_more, crate::proofs::Padded::word_of_lt))]
pub fn append_copies<S: BitSink>(sink: &mut S, len: usize, value: bool) -> PolarsResult<()>
    ensures appended { OnOk result (S.so_far sink.new ≡
        S.so_far sink.old ++ replicate len value) }
    ensures beside { S.beside sink.new ≡ S.beside sink.old }
    ensures refusal { IfErr result IsOutOfMemory }
{
    let mut at = 0;
    while at < len {
        let count = (len - at).min(MOST_BITS);
        sink.append_word(word_of_copies(value, count), count as u32)?;
        at += count;
    }
    Ok(())
}
