//! Columns of 128-bit integers, exchanged as two 64-bit words each.

ghost use Rattle.std.specs.Prelude.{◌≡◌, ℤ, length, map, None, Some, IfOk, IfErr};
ghost use Rattle.sel_arrow.specs.Masked.{number_rows};
ghost use Rattle.sel_arrow.specs.Rows.{rows, type_of};
ghost use Rattle.sel_c.specs.Wides.{joined, signed_wide, unsigned_wide};
ghost use Rattle.sel_ffi.specs.Inputs.{validity_in, flat_rules, IsRuleOrMemory};
ghost use Rattle.sel_ffi.specs.Outputs.{CopiesNumbers};

use sel_arrow::array::Array;
use sel_arrow::array_ref::ArrayRef;
use sel_arrow::primitive::{ArrowPrimitive, PrimitiveArray};
use sel_arrow::validity::MOST_ROWS;
use sel_bits::faults::{MakeError, Malformed, PolarsResult};
use sel_ffi::inputs::numbers_of;
use sel_ffi::status::{LENGTH_MISMATCH, OK, OUT_OF_MEMORY, UNSUPPORTED_TYPE};
use std::alloc::Global;

/// A 128-bit integer as two 64-bit words, in the memory layout of a little-endian machine.
#[repr(C)]
#[derive(Clone, Copy)]
pub struct Wide {
    /// The lower 64 bits.
    pub low: u64,
    /// The upper 64 bits.
    pub high: u64,
}

/// A 128-bit integer type that is exchanged as two words.
pub trait InWords: ArrowPrimitive {
    ghost use Rattle.sel_c.specs.declared.calls.wides.Wide.{Wide};

    /// The integer that two words represent.
    ghost shown_by: { Wide → ℤ };

    /// Returns the integer of the words.
    fn of_words(words: Wide) -> Self
        ensures { Self.number result ≡ shown_by words };

    /// Returns the words of the integer.
    fn to_words(self) -> Wide
        ensures { shown_by result ≡ Self.number self };
}

impl InWords for u128 {
    ghost shown_by = { unsigned_wide };

    fn of_words(words: Wide) -> u128 {
        join(words)
    }

    fn to_words(self) -> Wide {
        split(self)
    }
}

impl InWords for i128 {
    ghost shown_by = { signed_wide };

    fn of_words(words: Wide) -> i128 {
        join(words).cast_signed()
    }

    fn to_words(self) -> Wide {
        split(self.cast_unsigned())
    }
}

fn join(words: Wide) -> u128
    ensures { result ≡ joined words }
{
    words.high as u128 * 18446744073709551616 + words.low as u128
}

fn split(number: u128) -> Wide
    ensures { joined result ≡ number }
{
    Wide {
        low: (number % 18446744073709551616) as u64,
        high: (number / 18446744073709551616) as u64,
    }
}

/// Returns the integers of the words.
///
/// # Errors
/// `OutOfMemory`.
fn joined_all<T: InWords>(alloc: Global, words: &[Wide]) -> PolarsResult<Vec<T>>
    ensures numbers { IfOk result (λ numbers.
        map T.number numbers.items ≡ map T.shown_by words.now) }
{
    let mut numbers = Vec::with_capacity(alloc, words.len())?;
    for pair in words {
        numbers.push(T::of_words(*pair))?;
    }
    Ok(numbers)
}

/// Writes the words of the integers into `out`.
///
/// # Requires
/// `out.len() == numbers.len()`.
fn split_all<T: InWords>(numbers: &[T], out: &mut [Wide])
    requires { length out.old ≡ length numbers.now }
    ensures numbers { map T.number numbers.now ≡ map T.shown_by out.new }
{
    let mut i = 0;
    while i < numbers.len() {
        out[i] = numbers[i].to_words();
        i += 1;
    }
}

/// Builds a column of 128-bit integers from copies of the words and of the validity in `bytes`.
///
/// # Errors
/// The first of these rules that is broken: `TooManyRows`, `ValidityLength`; or `OutOfMemory`.
pub fn wides_of<T: InWords>(
    alloc: Global,
    words: &[Wide],
    bytes: &[u8],
    has: bool,
) -> Result<ArrayRef, MakeError>
    ensures rows { IfOk result (λ made. rows made.column ≡ number_rows T.shown_by words.now
        (validity_in bytes.now has (length words.now))) }
    ensures dtype { IfOk result (λ made. type_of made.column ≡ T.shape) }
    ensures accepted { IfOk result (λ _. flat_rules (length words.now) bytes.now has ≡ None) }
    ensures refused { IfErr result (IsRuleOrMemory (flat_rules (length words.now) bytes.now has)) }
{
    // errors are found before the words are copied, which takes time and memory by their number
    if words.len() > MOST_ROWS {
        return Err(MakeError::Malformed(Malformed::TooManyRows));
    }
    if has && bytes.len() < words.len().div_ceil(8) {
        return Err(MakeError::Malformed(Malformed::ValidityLength));
    }
    let Ok(numbers) = joined_all::<T>(alloc, words) else {
        return Err(MakeError::OutOfMemory);
    };
    numbers_of(alloc, &numbers, bytes, has)
}

/// Copies the values, also those in null slots, into `out`.
///
/// Errors: `UNSUPPORTED_TYPE` if the column's type is not that of `T`; `LENGTH_MISMATCH` if the
/// length of `out` is not the number of rows; `OUT_OF_MEMORY`.
#[tactic(auto, using(crate::proofs::Shown::words))]
pub fn wides_into<T: InWords>(alloc: Global, column: &ArrayRef, out: &mut [Wide]) -> u32
    ensures { CopiesNumbers result (Some column.now) T.shape T.shown_by out.old out.new }
{
    let Ok(copy) = column.try_clone(alloc) else {
        return OUT_OF_MEMORY;
    };
    let array = match copy.into_array::<PrimitiveArray<T>>() {
        Ok(array) => array,
        Err(back) => {
            drop(back);
            return UNSUPPORTED_TYPE;
        }
    };
    let values = array.values().as_slice();
    if out.len() != values.len() {
        return LENGTH_MISMATCH;
    }
    split_all(values, out);
    OK
}
