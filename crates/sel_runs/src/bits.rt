//! Concatenation of validity bitmaps.

ghost use Rattle.std.specs.Prelude.{◌≡◌, ◌≤◌, ◌+◌, ◌++◌, length, IfOk, IfErr, OnOk};
ghost use Rattle.std.specs.Option.{ForSome, option_copied};
ghost use Rattle.sel_bits.specs.Faults.{IsOutOfMemory};
ghost use Rattle.sel_bits.specs.Validity.{Covers, part_bits, bits_for};

use sel_bits::bit_sink::{BitSink, append_bitmap, append_copies};
use sel_bits::bitmap::Bitmap;
use sel_bits::faults::PolarsResult;
use sel_bits::packer::BitPacker;

/// Appends the `len` validity bits from `start` on; without a bitmap, appends `len` true bits.
///
/// # Requires
/// If there is a bitmap, it has at least `start + len` bits.
///
/// # Errors
/// `OutOfMemory` if an allocation fails.
pub fn push_validity<S: BitSink>(
    sink: &mut S,
    validity: Option<&Bitmap>,
    start: usize,
    len: usize,
) -> PolarsResult<()>
    requires { ForSome (option_copied validity) (λ v. start + len ≤ length v.bits) }
    ensures bits { OnOk result (S.so_far sink.new ≡
        S.so_far sink.old ++ part_bits start len (option_copied validity.entry)) }
    ensures beside { S.beside sink.new ≡ S.beside sink.old }
    ensures refusal { IfErr result IsOutOfMemory }
{
    match validity {
        None => append_copies(sink, len, true),
        Some(bits) => append_bitmap(sink, bits, start, len),
    }
}

/// Returns the validity of `len` rows with these bits.
///
/// It is `None` if all bits are true, which the contract leaves open.
///
/// # Requires
/// `packer` has `len` bits.
///
/// # Errors
/// `OutOfMemory` if an allocation fails.
pub fn validity_from(packer: BitPacker, len: usize) -> PolarsResult<Option<Bitmap>>
    requires { length packer ≡ len }
    ensures bits { IfOk result (λ validity. bits_for len validity ≡ packer) }
    ensures covers { IfOk result (λ validity. Covers validity len) }
    ensures refusal { IfErr result IsOutOfMemory }
{
    let bits = packer.into_bitmap(len)?;
    Ok(unless_all_true(bits, len))
}

/// Returns these bits as the validity of `len` rows: `None` if all are true, which the contract
/// leaves open.
///
/// # Requires
/// There are `len` bits.
pub fn unless_all_true(bits: Bitmap, len: usize) -> Option<Bitmap>
    requires { length bits.bits ≡ len }
    ensures bits { bits_for len result ≡ bits.bits }
    ensures covers { Covers result len }
{
    if bits.unset_bits() == 0 {
        return None;
    }
    Some(bits)
}
