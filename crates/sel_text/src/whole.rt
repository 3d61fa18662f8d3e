//! Conversion from integers to the ten integer types.

ghost use Rattle.std.specs.Prelude.{◌≡◌, pos, false, true, IfNone, IfSome};
ghost use Rattle.sel_text.specs.Cells.{whole_number};
ghost use Rattle.sel_text.specs.Fits.{fits_number};

use crate::cell::Whole;
use sel_arrow::primitive::ArrowPrimitive;

/// An integer type that converts from `Whole` if the value fits.
pub(crate) trait FromWhole: ArrowPrimitive {
    /// Returns zero.
    fn zero() -> Self
        ensures { fits_number Self.shape (pos 0) ≡ true };

    /// Returns the value, or `None` if it does not fit the type.
    fn from_whole(whole: Whole) -> Option<Self>
        ensures number { IfSome result (λ number. Self.number number ≡ whole_number whole) }
        ensures fit { IfSome result (λ _. fits_number Self.shape (whole_number whole) ≡ true) }
        ensures refused { IfNone result (fits_number Self.shape (whole_number whole) ≡ false) };
}

impl FromWhole for i8 {
    fn zero() -> i8 {
        0
    }

    fn from_whole(whole: Whole) -> Option<i8> {
        match whole {
            Whole::Signed(number) => i8::try_from(number).ok(),
            Whole::Unsigned(number) => i8::try_from(number).ok(),
        }
    }
}

impl FromWhole for i16 {
    fn zero() -> i16 {
        0
    }

    fn from_whole(whole: Whole) -> Option<i16> {
        match whole {
            Whole::Signed(number) => i16::try_from(number).ok(),
            Whole::Unsigned(number) => i16::try_from(number).ok(),
        }
    }
}

impl FromWhole for i32 {
    fn zero() -> i32 {
        0
    }

    fn from_whole(whole: Whole) -> Option<i32> {
        match whole {
            Whole::Signed(number) => i32::try_from(number).ok(),
            Whole::Unsigned(number) => i32::try_from(number).ok(),
        }
    }
}

impl FromWhole for i64 {
    fn zero() -> i64 {
        0
    }

    fn from_whole(whole: Whole) -> Option<i64> {
        match whole {
            Whole::Signed(number) => i64::try_from(number).ok(),
            Whole::Unsigned(number) => i64::try_from(number).ok(),
        }
    }
}

impl FromWhole for i128 {
    fn zero() -> i128 {
        0
    }

    fn from_whole(whole: Whole) -> Option<i128> {
        match whole {
            Whole::Signed(number) => i128::try_from(number).ok(),
            Whole::Unsigned(number) => i128::try_from(number).ok(),
        }
    }
}

impl FromWhole for u8 {
    fn zero() -> u8 {
        0
    }

    fn from_whole(whole: Whole) -> Option<u8> {
        match whole {
            Whole::Signed(number) => u8::try_from(number).ok(),
            Whole::Unsigned(number) => u8::try_from(number).ok(),
        }
    }
}

impl FromWhole for u16 {
    fn zero() -> u16 {
        0
    }

    fn from_whole(whole: Whole) -> Option<u16> {
        match whole {
            Whole::Signed(number) => u16::try_from(number).ok(),
            Whole::Unsigned(number) => u16::try_from(number).ok(),
        }
    }
}

impl FromWhole for u32 {
    fn zero() -> u32 {
        0
    }

    fn from_whole(whole: Whole) -> Option<u32> {
        match whole {
            Whole::Signed(number) => u32::try_from(number).ok(),
            Whole::Unsigned(number) => u32::try_from(number).ok(),
        }
    }
}

impl FromWhole for u64 {
    fn zero() -> u64 {
        0
    }

    fn from_whole(whole: Whole) -> Option<u64> {
        match whole {
            Whole::Signed(number) => u64::try_from(number).ok(),
            Whole::Unsigned(number) => u64::try_from(number).ok(),
        }
    }
}

impl FromWhole for u128 {
    fn zero() -> u128 {
        0
    }

    fn from_whole(whole: Whole) -> Option<u128> {
        match whole {
            Whole::Signed(number) => u128::try_from(number).ok(),
            Whole::Unsigned(number) => u128::try_from(number).ok(),
        }
    }
}
