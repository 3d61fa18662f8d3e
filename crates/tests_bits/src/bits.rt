//! Each public function once, against values that are worked out by hand or bit by bit.

use crate::column_fixtures::offsets;
use crate::fixtures::{begins_with, has_bits, same};
use sel_bits::bit_sink::{BitSink, append_bitmap, append_copies};
use sel_bits::bitmap::Bitmap;
use sel_bits::bits_behind::BitsBehind;
use sel_bits::buffer::Buffer;
use sel_bits::faults::{Limit, MakeError, Malformed, PolarsError, PolarsResult};
use sel_bits::lent::Lent;
use sel_bits::native::{Index, NativeType, Offset};
use sel_bits::number::{load_padded_le_u64, negative_to_usize, prefix_xorsum};
use sel_bits::offsets::OffsetsBuffer;
use sel_bits::packer::BitPacker;
use sel_bits::words::{first_word, whole_word};
use std::alloc::Global;
use std::process::Abort;
use std::test::Fail;

/// Returns whether the bytes of the bits 11 to 15 are the second byte, from its fourth bit on.
fn lends_bytes(part: &Bitmap) -> bool {
    part.as_slice() == ([0x0Fu8].as_slice(), 3, 5)
}

#[test]
fn bitmap_as_slice(rt: HostRuntime) -> Result<(), Fail> {
    let bytes = [0xB4u8, 0x0F, 0xFF].to_vec(rt.alloc())?;
    let part = Bitmap::from_u8_vec(bytes, 24)?.sliced(11, 5);
    assert!(rt; lends_bytes(&part));
    Ok(())
}

/// Returns whether a buffer gives lent memory without values back, or refuses it if out of memory.
fn gives_back(alloc: Global, memory: Lent<u8>) -> bool {
    match Buffer::from_lent(alloc, memory) {
        Ok(buffer) => match buffer.into_lent() {
            Ok(lent) => lent.counted().0 == 0,
            Err(_buffer) => false,
        },
        Err(lent) => lent.counted().0 == 0,
    }
}

#[test]
fn no_lent_memory_has_no_values(rt: HostRuntime) {
    let (count, memory) = Lent::none().counted();
    assert!(rt; gives_back(rt.alloc(), memory));
    assert!(rt; count == 0);
}

/// Returns whether sixty leading and sixty-six trailing zeros are removed, and three bits remain.
fn takes_both_ends(bitmap: &mut Bitmap) -> bool {
    bitmap.take_leading_zeros() == 60
        && bitmap.take_trailing_zeros() == 66
        && has_bits(bitmap, &[true, false, true])
}

#[test]
fn take_leading_and_trailing_zeros_of_bitmap(rt: HostRuntime) -> Result<(), Fail> {
    let mut bits = [false; 130];
    bits[61] = true;
    bits[63] = true;
    let mut bitmap = Bitmap::from_bools(rt.alloc(), &bits)?.sliced(1, 129);
    assert!(rt; takes_both_ends(&mut bitmap));
    Ok(())
}

/// Returns whether this number of bits have the value, from a bit on.
fn has_equal(bitmap: &Bitmap, value: bool, at: usize, count: usize) -> bool {
    if at > bitmap.len() {
        return false;
    }
    let counted = if value {
        bitmap.ones_from(at)
    } else {
        bitmap.zeros_from(at)
    };
    counted == count
}

#[test]
fn count_equal_bits_from_a_bit(rt: HostRuntime) -> Result<(), Fail> {
    let mut bits = [false; 200];
    for k in 61..190 {
        bits[k] = true;
    }
    let bitmap = Bitmap::from_bools(rt.alloc(), &bits)?.sliced(1, 199);
    for (value, at, count) in [
        (false, 0, 60),
        (false, 59, 1),
        (false, 60, 0),
        (false, 189, 10),
        (true, 60, 129),
        (true, 188, 1),
        (true, 59, 0),
        (true, 199, 0),
    ] {
        assert!(rt; has_equal(&bitmap, value, at, count), "from {at}");
    }
    Ok(())
}

/// Returns whether the bits are three bits, the 120 bits of the source from its sixth on, seventy
/// true ones, and two false ones.
fn is_extended(packed: &Bitmap, source: &Bitmap) -> bool {
    if packed.len() != 195 || source.len() != 130 {
        return false;
    }
    for i in 0..120 {
        if packed.get_bit(3 + i) != source.get_bit(5 + i) {
            return false;
        }
    }
    for i in 123..195 {
        if packed.get_bit(i) != (i < 193) {
            return false;
        }
    }
    begins_with(packed, &[true, false, true])
}

/// Appends three bits, two slices of the source, and three runs of equal bits.
fn push_all(packer: &mut BitPacker, source: &Bitmap) -> PolarsResult<()> {
    for bit in [true, false, true] {
        packer.push(bit)?;
    }
    for (start, len) in [(5, 120), (130, 0)] {
        if start + len <= source.len() {
            packer.extend_from_bitmap(source, start, len)?;
        }
    }
    for (len, value) in [(70, true), (0, true), (2, false)] {
        packer.extend_constant(len, value)?;
    }
    Ok(())
}

/// Returns these bits as a bitmap, or an error if there are not 195.
fn packed(alloc: Global, source: &Bitmap) -> PolarsResult<Bitmap> {
    let mut packer = BitPacker::with_capacity(alloc, 193)?;
    push_all(&mut packer, source)?;
    if packer.len() != Some(195) {
        return Err(PolarsError::ComputeError);
    }
    packer.into_bitmap(195)
}

#[test]
fn packer_appends_bits_and_slices(rt: HostRuntime) -> Result<(), Fail> {
    let source = Bitmap::from_u8_vec([0xB4u8; 17].to_vec(rt.alloc())?, 136)?.sliced(6, 130);
    let packed = packed(rt.alloc(), &source)?;
    assert!(rt; is_extended(&packed, &source));
    Ok(())
}

/// Returns these offsets in a vector with spare capacity for `spare` more.
fn roomy(alloc: Global, offsets: &[i64], spare: usize) -> PolarsResult<Vec<i64>> {
    let mut values = offsets.to_vec(alloc)?;
    values.reserve_exact(spare)?;
    Ok(values)
}

/// Appends three bits, a slice of the source, and two runs of equal bits.
fn append_all<S: BitSink>(sink: &mut S, source: &Bitmap) -> PolarsResult<()> {
    sink.append_word(0b101, 3)?;
    if source.len() == 130 {
        append_bitmap(sink, source, 5, 120)?;
    }
    append_copies(sink, 70, true)?;
    append_copies(sink, 2, false)
}

/// Returns these bits behind offsets, or an error if there are not 195.
fn behind(
    alloc: Global,
    offsets: Vec<i64>,
    source: &Bitmap,
) -> PolarsResult<(Buffer<i64>, Bitmap)> {
    match BitsBehind::new(offsets) {
        Ok(mut bits) => {
            append_all(&mut bits, source)?;
            if bits.len() != Some(195) {
                return Err(PolarsError::ComputeError);
            }
            bits.finish(alloc, 195)
        }
        Err(_) => Err(PolarsError::ComputeError),
    }
}

#[test]
fn offsets_and_bits_share_a_block(rt: HostRuntime) -> Result<(), Fail> {
    let alloc = rt.alloc();
    let source = Bitmap::from_u8_vec([0xB4u8; 17].to_vec(alloc)?, 136)?.sliced(6, 130);
    let (offsets, bits) = behind(alloc, roomy(alloc, &[0, 2, 2, 9], 4)?, &source)?;
    assert!(rt; same(offsets.as_slice(), &[0, 2, 2, 9]) && is_extended(&bits, &source));
    drop(offsets);
    let copy = bits.try_clone()?;
    drop(bits);
    assert!(rt; is_extended(&copy, &source));
    drop(copy);
    let (offsets, bits) = behind(alloc, roomy(alloc, &[3, 3], 5)?, &source)?;
    drop(bits);
    assert!(rt; same(offsets.as_slice(), &[3, 3]));
    Ok(())
}

/// Returns whether a packer has the bits that are appended to it as a sink.
fn packs_as_sink(alloc: Global, source: &Bitmap) -> PolarsResult<bool> {
    let mut packer = BitPacker::with_capacity(alloc, 0)?;
    append_all(&mut packer, source)?;
    if packer.len() != Some(195) {
        return Ok(false);
    }
    Ok(is_extended(&packer.into_bitmap(195)?, source))
}

#[test]
fn packer_is_a_sink(rt: HostRuntime) -> Result<(), Fail> {
    let source = Bitmap::from_u8_vec([0xB4u8; 17].to_vec(rt.alloc())?, 136)?.sliced(6, 130);
    assert!(rt; packs_as_sink(rt.alloc(), &source)?);
    Ok(())
}

/// Returns whether offsets cannot have bits behind them, and come back.
fn come_back(offsets: Vec<i64>, expected: &[i64]) -> bool {
    match BitsBehind::new(offsets) {
        Ok(_) => false,
        Err(same_offsets) => same(same_offsets.as_slice(), expected),
    }
}

/// Returns whether 64 bits fit behind an offset, and no more.
fn fills_the_capacity(offsets: Vec<i64>) -> bool {
    match BitsBehind::new(offsets) {
        Ok(mut bits) => {
            let first = bits.append(u64::MAX, 64);
            let second = bits.append(1, 64);
            first.is_ok() && second == Err(PolarsError::OutOfMemory) && bits.len() == Some(64)
        }
        Err(_) => false,
    }
}

#[test]
fn bits_behind_offsets_need_spare_capacity(rt: HostRuntime) -> Result<(), Fail> {
    let alloc = rt.alloc();
    let mut full = Vec::with_capacity(alloc, 2)?;
    full.push(0i64)?;
    full.push(7)?;
    assert!(rt; come_back(full, &[0, 7]));
    assert!(rt; come_back(roomy(alloc, &[], 4)?, &[]));
    assert!(rt; fills_the_capacity(roomy(alloc, &[0], 1)?));
    Ok(())
}

/// Returns the rule that offsets break.
fn broken_rule(alloc: Global, offsets: &[i32]) -> Result<Option<Malformed>, Fail> {
    match OffsetsBuffer::try_from(offsets.to_vec(alloc)?) {
        Ok(_) => Ok(None),
        Err(MakeError::Malformed(rule)) => Ok(Some(rule)),
        Err(MakeError::OutOfMemory) => Err(Fail::from("out of memory")),
    }
}

#[test]
fn offsets_rules_are_checked_in_order(rt: HostRuntime) -> Result<(), Fail> {
    let table: [(&[i32], Option<Malformed>); 5] = [
        (&[], Some(Malformed::OffsetCount)),
        (&[-1, 0], Some(Malformed::OffsetNegative)),
        (&[0, 2, 1], Some(Malformed::OffsetOrder)),
        (&[2, 1, -1], Some(Malformed::OffsetNegative)),
        (&[3], None),
    ];
    for (offsets, rule) in &table {
        assert!(rt; broken_rule(rt.alloc(), offsets)? == *rule);
    }
    Ok(())
}

/// Returns whether there are the offsets 2, 2, 5 and 9.
fn has_offsets(offsets: &OffsetsBuffer<i64>) -> bool {
    if offsets.len_proxy() != 3 {
        return false;
    }
    (offsets.first() == 2) & (offsets.at(1) == 2) & (offsets.at(2) == 5) & (offsets.last() == 9)
}

#[test]
fn single_offsets(rt: HostRuntime) -> Result<(), Fail> {
    let whole = offsets(rt.alloc(), &[2, 2, 5, 9])?;
    assert!(rt; has_offsets(&whole));
    Ok(())
}

/// Converts a number to the type and back.
fn back<T: NativeType>(n: usize) -> Option<usize> {
    T::from_usize(n)?.try_usize()
}

/// Returns whether the first number fits the type and the second does not.
fn ends_at<T: NativeType>(last: usize, next: usize) -> bool {
    back::<T>(last) == Some(last) && back::<T>(next).is_none()
}

/// Returns whether the greatest position fits the type.
fn holds_positions<T: NativeType>() -> bool {
    back::<T>(usize::MAX) == Some(usize::MAX)
}

#[test]
fn native_types_round_trip_usize(rt: HostRuntime) {
    assert!(rt; ends_at::<i8>(127, 128));
    assert!(rt; ends_at::<i16>(32767, 32768));
    assert!(rt; ends_at::<i32>(2147483647, 2147483648));
    assert!(rt; ends_at::<i64>(9223372036854775807, 9223372036854775808));
    assert!(rt; ends_at::<u8>(255, 256));
    assert!(rt; ends_at::<u16>(65535, 65536));
    assert!(rt; ends_at::<u32>(4294967295, 4294967296));
    assert!(rt; holds_positions::<u64>() && holds_positions::<i128>());
    assert!(rt; holds_positions::<u128>());
}

#[test]
fn native_types_out_of_usize_range(rt: HostRuntime) {
    assert!(rt; (-1i8).try_usize().is_none() && (1u128 << 64).try_usize().is_none());
    assert!(rt; 0i64.to_usize() == 0 && u64::MAX.to_usize() == usize::MAX);
    assert!(rt; 7i128.to_usize() == 7);
    assert!(rt; i32::LEAST == i32::MIN && <i32 as NativeType>::GREATEST == i32::MAX);
    assert!(rt; u128::LEAST == 0);
}

/// Returns the number of indices that are less than `n`.
fn count_below<I: Index>(indices: &[I], n: usize) -> usize {
    indices
        .iter()
        .filter(|index| index.try_usize().is_some_and(|at| at < n))
        .count()
}

/// Returns whether the first offset is negative and less than the second, by the functions of the
/// trait.
fn is_negative_and_below<O: Offset>(x: O, y: O) -> bool {
    x.is_negative() && x.is_below(y)
}

/// Returns whether the first offset is not negative and not less than the second.
fn is_neither<O: Offset>(x: O, y: O) -> bool {
    !x.is_negative() && !x.is_below(y)
}

#[test]
fn index_and_offset_traits(rt: HostRuntime) {
    assert!(rt; count_below(&[-1i64, 0, 4, 5], 5) == 2);
    assert!(rt; count_below(&[0u8, 255], 255) == 1);
    assert!(rt; is_negative_and_below(-1i32, 0));
    assert!(rt; is_neither(2i64, 2));
    assert!(rt; 5i32.to_position() == 5 && i64::MAX.to_position() == 9223372036854775807);
}

#[test]
fn negative_indices(rt: HostRuntime) {
    for (place, len, wanted) in [
        (0, 3, Some(0)),
        (2, 3, Some(2)),
        (3, 3, None),
        (-1, 3, Some(2)),
        (-3, 3, Some(0)),
        (-4, 3, None),
        (0, 0, None),
        (i64::MIN, 3, None),
    ] {
        assert!(rt;
            negative_to_usize(place, len) == wanted,
            "at {place} of {len}"
        );
    }
}

#[test]
fn word_loads_and_prefix_xor(rt: HostRuntime) {
    assert!(rt; prefix_xorsum(0b1011) == 0xFFFF_FFFF_FFFF_FFF2);
    assert!(rt; load_padded_le_u64(&[0x01, 0x02]) == 0x201);
    assert!(rt; load_padded_le_u64(&[1, 2, 3, 4, 5, 6, 7, 8, 9]) == 0x0807_0605_0403_0201);
    assert!(rt; whole_word(&[0, 1, 2, 3, 4, 5, 6, 7, 8, 9], 1, 4) == 0x9080_7060_5040_3020);
    assert!(rt; first_word(&[0x10, 0x32], 4, 8) == 0x21);
}

#[test]
fn error_messages(rt: HostRuntime) -> Result<(), Fail> {
    for (refusal, text) in [
        (PolarsError::OutOfMemory, "out of memory"),
        (PolarsError::SizeLimit(Limit::Rows), "size limit rows"),
        (PolarsError::SizeLimit(Limit::Bytes), "size limit bytes"),
        (PolarsError::SizeLimit(Limit::Buffers), "size limit buffers"),
        (
            PolarsError::SizeLimit(Limit::ViewBytes),
            "size limit view bytes",
        ),
        (PolarsError::ComputeError, "get index is out of bounds"),
    ] {
        assert!(rt; refusal.to_string(rt.alloc())?.as_str() == text);
    }
    Ok(())
}
