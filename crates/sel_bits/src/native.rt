//! The integer types of columns.

ghost use Rattle.std.specs.Prelude.{◌≡◌, ℕ, ℤ, pos, negsuc, ◌≤ℤ◌, ◌<ℤ◌, ◌^◌, ◌-◌, Some, MatchOption, IfSome};
ghost use Rattle.sel_bits.specs.Ranges.{IsWithin, IsOutside};
ghost use Rattle.sel_bits.specs.Signs.{is_negative, is_below};

/// An integer type of columns, of 8 to 128 bits.
pub trait NativeType: Copy {
    /// The mathematical integer of a value.
    ghost number: { Self → ℤ };

    ghost LEAST: { Self };

    ghost GREATEST: { Self };

    /// The least value of the type.
    const LEAST: Self;

    /// The greatest value of the type.
    const GREATEST: Self;

    /// Returns the value as a `usize`, or `None` if it does not fit.
    fn try_usize(self) -> Option<usize>
        ensures { MatchOption result (IsOutside (pos 0) (pos 18446744073709551615) (number self))
            (λ n. pos n ≡ number self) };

    /// Returns the value as a `usize`.
    ///
    /// # Requires
    /// The value is not negative and fits in a `usize`.
    fn to_usize(self) -> usize
        requires { IsWithin (pos 0) (pos 18446744073709551615) (number self) }
        ensures { pos result ≡ number self }
    {
        match self.try_usize() {
            Some(n) => n,
            None => unreachable!(),
        }
    }

    /// Returns the value of this type that equals `n`, or `None` if there is none.
    ///
    /// It is the inverse of the conversion to `usize` for each value that fits.
    fn from_usize(n: usize) -> Option<Self>
        ensures value { MatchOption result (number GREATEST <ℤ pos n)
            (λ value. number value ≡ pos n) }
        ensures fits { IfSome result (λ _. pos n ≤ℤ number GREATEST) }
        ensures back { (x : Self) → number x ≤ℤ number GREATEST →
            number x ≡ pos n → result ≡ Some x };

    /// Values with the same integer are equal.
    ghost shown: { (x y : Self) → number x ≡ number y → x ≡ y };
}

/// An integer type of offsets, each value of which is at most the greatest `usize`.
pub trait Offset: NativeType {
    /// Returns whether the value is negative.
    fn is_negative(self) -> bool
        ensures { result ≡ is_negative (Self.number self) };

    /// Returns whether the value is less than `other`.
    fn is_below(self, other: Self) -> bool
        ensures { result ≡ is_below (Self.number self) (Self.number other) };

    /// Returns the value as a `usize`.
    ///
    /// # Requires
    /// The value is not negative.
    fn to_position(self) -> usize
        requires { pos 0 ≤ℤ Self.number self }
        ensures { pos result ≡ Self.number self };

    /// The greatest value of the type fits in a `usize`.
    ghost room: { IsWithin (pos 0) (pos 18446744073709551615) (Self.number Self.GREATEST) };
}

impl Offset for i32 {
    ghost use Rattle.std.proofs.Common.{rules};

    ghost room = { Prim.search rules };

    fn is_negative(self) -> bool {
        i64::from(self).is_negative()
    }

    fn is_below(self, other: i32) -> bool {
        self < other
    }

    fn to_position(self) -> usize {
        i64::from(self).to_position()
    }
}

impl Offset for i64 {
    ghost use Rattle.std.proofs.Common.{rules};

    ghost room = { Prim.search rules };

    fn is_negative(self) -> bool {
        self < 0
    }

    fn is_below(self, other: i64) -> bool {
        self < other
    }

    fn to_position(self) -> usize {
        self as usize
    }
}

/// An integer type of indices, of 8 to 64 bits.
pub trait Index: NativeType {}

impl Index for i8 {}

impl Index for i16 {}

impl Index for i32 {}

impl Index for i64 {}

impl Index for u8 {}

impl Index for u16 {}

impl Index for u32 {}

impl Index for u64 {}

impl NativeType for i8 {
    ghost number = { λ x. x };

    ghost LEAST = { negsuc 127 };

    ghost GREATEST = { pos 127 };

    ghost shown = { λ x y h. h };

    const LEAST: i8 = i8::MIN;

    const GREATEST: i8 = i8::MAX;

    fn try_usize(self) -> Option<usize> {
        usize::try_from(self).ok()
    }

    fn from_usize(n: usize) -> Option<i8> {
        i8::try_from(n).ok()
    }
}

impl NativeType for i16 {
    ghost number = { λ x. x };

    ghost LEAST = { negsuc 32767 };

    ghost GREATEST = { pos 32767 };

    ghost shown = { λ x y h. h };

    const LEAST: i16 = i16::MIN;

    const GREATEST: i16 = i16::MAX;

    fn try_usize(self) -> Option<usize> {
        usize::try_from(self).ok()
    }

    fn from_usize(n: usize) -> Option<i16> {
        i16::try_from(n).ok()
    }
}

impl NativeType for i32 {
    ghost number = { λ x. x };

    ghost LEAST = { negsuc 2147483647 };

    ghost GREATEST = { pos 2147483647 };

    ghost shown = { λ x y h. h };

    const LEAST: i32 = i32::MIN;

    const GREATEST: i32 = i32::MAX;

    fn try_usize(self) -> Option<usize> {
        usize::try_from(self).ok()
    }

    fn from_usize(n: usize) -> Option<i32> {
        i32::try_from(n).ok()
    }
}

impl NativeType for i64 {
    ghost number = { λ x. x };

    ghost LEAST = { negsuc 9223372036854775807 };

    ghost GREATEST = { pos 9223372036854775807 };

    ghost shown = { λ x y h. h };

    const LEAST: i64 = i64::MIN;

    const GREATEST: i64 = i64::MAX;

    fn try_usize(self) -> Option<usize> {
        usize::try_from(self).ok()
    }

    fn from_usize(n: usize) -> Option<i64> {
        i64::try_from(n).ok()
    }
}

impl NativeType for i128 {
    ghost number = { λ x. x };

    ghost LEAST = { negsuc 170141183460469231731687303715884105727 };

    ghost GREATEST = { pos 170141183460469231731687303715884105727 };

    ghost shown = { λ x y h. h };

    const LEAST: i128 = i128::MIN;

    const GREATEST: i128 = i128::MAX;

    fn try_usize(self) -> Option<usize> {
        usize::try_from(self).ok()
    }

    fn from_usize(n: usize) -> Option<i128> {
        Some(n as i128)
    }
}

impl NativeType for u8 {
    ghost number = { pos };

    ghost LEAST = { 0 };

    ghost GREATEST = { 255 };

    ghost shown = { λ x y h. Prim.cc };

    const LEAST: u8 = u8::MIN;

    const GREATEST: u8 = u8::MAX;

    fn try_usize(self) -> Option<usize> {
        usize::try_from(self).ok()
    }

    fn from_usize(n: usize) -> Option<u8> {
        u8::try_from(n).ok()
    }
}

impl NativeType for u16 {
    ghost number = { pos };

    ghost LEAST = { 0 };

    ghost GREATEST = { 65535 };

    ghost shown = { λ x y h. Prim.cc };

    const LEAST: u16 = u16::MIN;

    const GREATEST: u16 = u16::MAX;

    fn try_usize(self) -> Option<usize> {
        usize::try_from(self).ok()
    }

    fn from_usize(n: usize) -> Option<u16> {
        u16::try_from(n).ok()
    }
}

impl NativeType for u32 {
    ghost number = { pos };

    ghost LEAST = { 0 };

    ghost GREATEST = { 4294967295 };

    ghost shown = { λ x y h. Prim.cc };

    const LEAST: u32 = u32::MIN;

    const GREATEST: u32 = u32::MAX;

    fn try_usize(self) -> Option<usize> {
        usize::try_from(self).ok()
    }

    fn from_usize(n: usize) -> Option<u32> {
        u32::try_from(n).ok()
    }
}

impl NativeType for u64 {
    ghost number = { pos };

    ghost LEAST = { 0 };

    ghost GREATEST = { 18446744073709551615 };

    ghost shown = { λ x y h. Prim.cc };

    const LEAST: u64 = u64::MIN;

    const GREATEST: u64 = u64::MAX;

    fn try_usize(self) -> Option<usize> {
        Some(self as usize)
    }

    fn from_usize(n: usize) -> Option<u64> {
        Some(n as u64)
    }
}

impl NativeType for u128 {
    ghost number = { pos };

    ghost LEAST = { 0 };

    ghost GREATEST = { 340282366920938463463374607431768211455 };

    ghost shown = { λ x y h. Prim.cc };

    const LEAST: u128 = u128::MIN;

    const GREATEST: u128 = u128::MAX;

    fn try_usize(self) -> Option<usize> {
        usize::try_from(self).ok()
    }

    fn from_usize(n: usize) -> Option<u128> {
        Some(n as u128)
    }
}
