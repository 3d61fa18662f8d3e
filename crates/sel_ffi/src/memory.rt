//! Lent memory as C passes it.

ghost use Rattle.std.specs.Prelude.{◌≡◌, ◌^◌, ◌<◌, ◌≤◌, ℕ, ℤ, List, length};
ghost use Rattle.std_alloc.specs.Vec.Ownership.{lodged};
ghost use denote.Builtin.{i8, i16, i32, i64, u8, u16, u32, u64};
ghost use Rattle.sel_arrow.specs.declared.view.View.{View};
ghost use Rattle.sel_arrow.specs.contracts.view.View as view;

use crate::lendable::Lendable;
use sel_arrow::view::View;
use sel_bits::lent::Lent;
use std::marker::Model;

/// A struct with the fields of [`Lent`]. There is one for each element type, since a struct that
/// crosses to C has no type parameters.
pub trait Memory: Drop {
    /// The element type.
    type Value: Lendable;

    /// The values.
    ghost values: { Self → List Self.Value };

    /// Returns the memory.
    fn into_lent(self) -> Lent<Self::Value>
        ensures { result.items ≡ values self };

    /// Returns the memory as C has it.
    fn of_lent(lent: Lent<Self::Value>) -> Self
        ensures { values result ≡ lent.items };
}

/// The `len` 8-bit integers at `at`, in memory with room for `room` of them.
#[repr(C)]
#[derive(Drop)]
pub struct Int8Memory {
    at: *mut i8,
    len: usize,
    room: usize,
    pub ghost items: { List ℤ },
    ghost counted: { (len ≡ length items) × (len ≤ room) },
    ghost small: { room < 2 ^ 63 },
}

impl Model for Int8Memory {
    ghost also_owns = { λ m. lodged i8 m.at m.len m.room m.items };
}

impl Memory for Int8Memory {
    type Value = i8;

    ghost values = { λ m. m.items };

    fn into_lent(self) -> Lent<i8> {
        let Int8Memory { at, len, room } = self;
        Lent { at, len, room }
    }

    fn of_lent(lent: Lent<i8>) -> Int8Memory
        ensures { result.items ≡ lent.items }
    {
        let Lent { at, len, room } = lent;
        Int8Memory { at, len, room }
    }
}

/// The `len` 16-bit integers at `at`, in memory with room for `room` of them.
#[repr(C)]
#[derive(Drop)]
pub struct Int16Memory {
    at: *mut i16,
    len: usize,
    room: usize,
    pub ghost items: { List ℤ },
    ghost counted: { (len ≡ length items) × (len ≤ room) },
    ghost small: { room < 2 ^ 63 },
}

impl Model for Int16Memory {
    ghost also_owns = { λ m. lodged i16 m.at m.len m.room m.items };
}

impl Memory for Int16Memory {
    type Value = i16;

    ghost values = { λ m. m.items };

    fn into_lent(self) -> Lent<i16> {
        let Int16Memory { at, len, room } = self;
        Lent { at, len, room }
    }

    fn of_lent(lent: Lent<i16>) -> Int16Memory
        ensures { result.items ≡ lent.items }
    {
        let Lent { at, len, room } = lent;
        Int16Memory { at, len, room }
    }
}

/// The `len` 32-bit integers at `at`, in memory with room for `room` of them.
#[repr(C)]
#[derive(Drop)]
pub struct Int32Memory {
    at: *mut i32,
    len: usize,
    room: usize,
    pub ghost items: { List ℤ },
    ghost counted: { (len ≡ length items) × (len ≤ room) },
    ghost small: { room < 2 ^ 63 },
}

impl Model for Int32Memory {
    ghost also_owns = { λ m. lodged i32 m.at m.len m.room m.items };
}

impl Memory for Int32Memory {
    type Value = i32;

    ghost values = { λ m. m.items };

    fn into_lent(self) -> Lent<i32> {
        let Int32Memory { at, len, room } = self;
        Lent { at, len, room }
    }

    fn of_lent(lent: Lent<i32>) -> Int32Memory
        ensures { result.items ≡ lent.items }
    {
        let Lent { at, len, room } = lent;
        Int32Memory { at, len, room }
    }
}

/// The `len` 64-bit integers at `at`, in memory with room for `room` of them.
#[repr(C)]
#[derive(Drop)]
pub struct Int64Memory {
    at: *mut i64,
    len: usize,
    room: usize,
    pub ghost items: { List ℤ },
    ghost counted: { (len ≡ length items) × (len ≤ room) },
    ghost small: { room < 2 ^ 63 },
}

impl Model for Int64Memory {
    ghost also_owns = { λ m. lodged i64 m.at m.len m.room m.items };
}

impl Memory for Int64Memory {
    type Value = i64;

    ghost values = { λ m. m.items };

    fn into_lent(self) -> Lent<i64> {
        let Int64Memory { at, len, room } = self;
        Lent { at, len, room }
    }

    fn of_lent(lent: Lent<i64>) -> Int64Memory
        ensures { result.items ≡ lent.items }
    {
        let Lent { at, len, room } = lent;
        Int64Memory { at, len, room }
    }
}

/// The `len` unsigned 8-bit integers at `at`, in memory with room for `room` of them.
#[repr(C)]
#[derive(Drop)]
pub struct UInt8Memory {
    at: *mut u8,
    len: usize,
    room: usize,
    pub ghost items: { List ℕ },
    ghost counted: { (len ≡ length items) × (len ≤ room) },
    ghost small: { room < 2 ^ 63 },
}

impl Model for UInt8Memory {
    ghost also_owns = { λ m. lodged u8 m.at m.len m.room m.items };
}

impl Memory for UInt8Memory {
    type Value = u8;

    ghost values = { λ m. m.items };

    fn into_lent(self) -> Lent<u8> {
        let UInt8Memory { at, len, room } = self;
        Lent { at, len, room }
    }

    fn of_lent(lent: Lent<u8>) -> UInt8Memory
        ensures { result.items ≡ lent.items }
    {
        let Lent { at, len, room } = lent;
        UInt8Memory { at, len, room }
    }
}

/// The `len` unsigned 16-bit integers at `at`, in memory with room for `room` of them.
#[repr(C)]
#[derive(Drop)]
pub struct UInt16Memory {
    at: *mut u16,
    len: usize,
    room: usize,
    pub ghost items: { List ℕ },
    ghost counted: { (len ≡ length items) × (len ≤ room) },
    ghost small: { room < 2 ^ 63 },
}

impl Model for UInt16Memory {
    ghost also_owns = { λ m. lodged u16 m.at m.len m.room m.items };
}

impl Memory for UInt16Memory {
    type Value = u16;

    ghost values = { λ m. m.items };

    fn into_lent(self) -> Lent<u16> {
        let UInt16Memory { at, len, room } = self;
        Lent { at, len, room }
    }

    fn of_lent(lent: Lent<u16>) -> UInt16Memory
        ensures { result.items ≡ lent.items }
    {
        let Lent { at, len, room } = lent;
        UInt16Memory { at, len, room }
    }
}

/// The `len` unsigned 32-bit integers at `at`, in memory with room for `room` of them.
#[repr(C)]
#[derive(Drop)]
pub struct UInt32Memory {
    at: *mut u32,
    len: usize,
    room: usize,
    pub ghost items: { List ℕ },
    ghost counted: { (len ≡ length items) × (len ≤ room) },
    ghost small: { room < 2 ^ 63 },
}

impl Model for UInt32Memory {
    ghost also_owns = { λ m. lodged u32 m.at m.len m.room m.items };
}

impl Memory for UInt32Memory {
    type Value = u32;

    ghost values = { λ m. m.items };

    fn into_lent(self) -> Lent<u32> {
        let UInt32Memory { at, len, room } = self;
        Lent { at, len, room }
    }

    fn of_lent(lent: Lent<u32>) -> UInt32Memory
        ensures { result.items ≡ lent.items }
    {
        let Lent { at, len, room } = lent;
        UInt32Memory { at, len, room }
    }
}

/// The `len` unsigned 64-bit integers at `at`, in memory with room for `room` of them.
#[repr(C)]
#[derive(Drop)]
pub struct UInt64Memory {
    at: *mut u64,
    len: usize,
    room: usize,
    pub ghost items: { List ℕ },
    ghost counted: { (len ≡ length items) × (len ≤ room) },
    ghost small: { room < 2 ^ 63 },
}

impl Model for UInt64Memory {
    ghost also_owns = { λ m. lodged u64 m.at m.len m.room m.items };
}

impl Memory for UInt64Memory {
    type Value = u64;

    ghost values = { λ m. m.items };

    fn into_lent(self) -> Lent<u64> {
        let UInt64Memory { at, len, room } = self;
        Lent { at, len, room }
    }

    fn of_lent(lent: Lent<u64>) -> UInt64Memory
        ensures { result.items ≡ lent.items }
    {
        let Lent { at, len, room } = lent;
        UInt64Memory { at, len, room }
    }
}

/// The `len` views at `at`, in memory with room for `room` of them.
#[repr(C)]
#[derive(Drop)]
pub struct ViewMemory {
    at: *mut View,
    len: usize,
    room: usize,
    pub ghost items: { List View },
    ghost counted: { (len ≡ length items) × (len ≤ room) },
    ghost small: { room < 2 ^ 63 },
}

impl Model for ViewMemory {
    ghost also_owns = { λ m. lodged view.the_row m.at m.len m.room m.items };
}

impl Memory for ViewMemory {
    type Value = View;

    ghost values = { λ m. m.items };

    fn into_lent(self) -> Lent<View> {
        let ViewMemory { at, len, room } = self;
        Lent { at, len, room }
    }

    fn of_lent(lent: Lent<View>) -> ViewMemory
        ensures { result.items ≡ lent.items }
    {
        let Lent { at, len, room } = lent;
        ViewMemory { at, len, room }
    }
}
