//! Optional validity bitmaps; without one every row is valid.
#![tactic(auto, using(crate::proofs::Rows::columns))]

ghost use Rattle.std.specs.Prelude.{◌≡◌, ◌≤◌, ◌<◌, ◌+◌, length, IfOk, IfErr};
ghost use Rattle.std.specs.Option.{ForSome, option_map};
ghost use Rattle.sel_bits.specs.Faults.{IsOutOfMemory};
ghost use Rattle.sel_bits.specs.Validity.{Covers, valid_at, validity_differs};
ghost use Rattle.sel_arrow.specs.Masked.{part_of};

use sel_bits::bitmap::Bitmap;
use sel_bits::faults::PolarsResult;

/// The maximum number of rows of a column.
pub const MOST_ROWS: usize = 4_294_967_295;

/// Returns whether there is a validity and its length is not `len`.
pub fn has_other_length(validity: &Option<Bitmap>, len: usize) -> bool
    ensures { result ≡ validity_differs validity.now len }
{
    match validity {
        None => false,
        Some(bits) => bits.len() != len,
    }
}

/// Returns whether row `i` is valid.
///
/// # Requires
/// If there is a validity, `i` is less than its length.
pub fn is_valid_at(validity: &Option<Bitmap>, i: usize) -> bool
    requires { ForSome validity.now (λ v. i < length v.bits) }
    ensures { result ≡ valid_at validity.now i }
{
    match validity {
        None => true,
        Some(bits) => bits.get_bit(i),
    }
}

/// Returns the validity of the `len` rows from row `off` on.
///
/// # Requires
/// If there is a validity, `off + len` is at most its length.
///
/// # Errors
/// `OutOfMemory` if an allocation fails.
pub fn sliced_validity(
    validity: &Option<Bitmap>,
    off: usize,
    len: usize,
) -> PolarsResult<Option<Bitmap>>
    requires { ForSome validity.now (λ v. off + len ≤ length v.bits) }
    ensures value { IfOk result (λ part. part ≡ option_map (part_of off len) validity.now) }
    ensures refusal { IfErr result IsOutOfMemory }
{
    match validity {
        None => Ok(None),
        Some(bits) => Ok(Some(bits.try_clone()?.sliced(off, len))),
    }
}

/// Returns a copy of the validity.
///
/// # Errors
/// `OutOfMemory` if an allocation fails.
pub fn clone_validity(validity: &Option<Bitmap>) -> PolarsResult<Option<Bitmap>>
    ensures value { IfOk result (λ copy. copy ≡ validity.now) }
    ensures refusal { IfErr result IsOutOfMemory }
{
    match validity {
        None => Ok(None),
        Some(bits) => Ok(Some(bits.try_clone()?)),
    }
}
