//! Buffers over lent memory. Internal to the C library: its Arrow interface calls these functions,
//! and no header for programs declares them.

ghost use Rattle.std.specs.Prelude.{◌≡◌, ◌≢◌, ◌≤◌, ◌+◌, ◌/◌, ◌∷◌, [], length, None, Some};
ghost use Rattle.sel_bits.specs.Bits.{bits_from, unsliced};
ghost use Rattle.sel_ffi.specs.Status.{ok, length_mismatch, IsOneOf, ReturnsFirst};
ghost use Rattle.sel_c.specs.Numbers.{in_use, GivesBack, Lends};
ghost use Rattle.sel_ffi.specs.Buffers.{IsBitsOf};
ghost use Rattle.sel_ffi.specs.declared.shared_buffer.SharedBuffer.TheVariants.{Bits, Int8, Int16, Int32, Int64, UInt8, UInt16, UInt32, UInt64, Views};

use sel_bits::lent::Lent;
use sel_ffi::buffer_handle::BufferHandle;
use sel_ffi::lending::{give_back, give_back_bits, lend, lend_bits};
use sel_ffi::memory::{
    Int8Memory, Int16Memory, Int32Memory, Int64Memory, Memory, UInt8Memory, UInt16Memory,
    UInt32Memory, UInt64Memory, ViewMemory,
};
use sel_ffi::status::{LENGTH_MISMATCH, OK, OUT_OF_MEMORY};
use std::alloc::Global;
use std::mem::replace;

/// The buffer is in use, or not over lent memory of this type.
const IN_USE: u32 = 127;

/// Returns in `out` a buffer of the values, without a copy. On error `from` keeps them.
fn lend_memory<M: Memory>(alloc: Global, from: &mut M, out: &mut BufferHandle) -> u32
    ensures { Lends result M.Value.shared (M.values from.old) (M.values from.new)
        out.old.buffer out.new.buffer }
{
    let memory = replace(from, M::of_lent(Lent::none()));
    match lend(alloc, memory.into_lent(), out) {
        None => OK,
        Some(lent) => {
            *from = M::of_lent(lent);
            OUT_OF_MEMORY
        }
    }
}

/// Returns in `out` the lent memory of the buffer, of which `of` must be the last owner. `of` is
/// empty afterwards. On error `of` is unchanged.
fn give_memory_back<M: Memory>(alloc: Global, of: &mut BufferHandle, out: &mut M) -> u32
    ensures { GivesBack result M.Value.shared of.old.buffer of.new.buffer (M.values out.new) }
{
    match give_back(alloc, of) {
        None => IN_USE,
        Some(lent) => {
            *out = M::of_lent(lent);
            OK
        }
    }
}

/// Empties the handle, and frees one owner of its buffer.
#[unsafe(no_mangle)]
pub extern "C" fn sel_buffer_free(alloc: Global, of: &mut BufferHandle)
    ensures { of.new.buffer ≡ None }
{
    *of = BufferHandle::empty(alloc);
}

/// Returns in `out` a buffer of the values, without a copy. On error `from` keeps them.
#[unsafe(no_mangle)]
pub extern "C" fn sel_int8_lend(alloc: Global, from: &mut Int8Memory, out: &mut BufferHandle) -> u32
    ensures { Lends result (λ values. Int8 values) from.old.items from.new.items
        out.old.buffer out.new.buffer }
{
    lend_memory::<Int8Memory>(alloc, from, out)
}

/// Returns in `out` the lent memory of the buffer, of which `of` must be the last owner. `of` is
/// empty afterwards. On error `of` is unchanged.
#[unsafe(no_mangle)]
pub extern "C" fn sel_int8_back(alloc: Global, of: &mut BufferHandle, out: &mut Int8Memory) -> u32
    ensures { GivesBack result (λ values. Int8 values) of.old.buffer of.new.buffer
        out.new.items }
{
    give_memory_back::<Int8Memory>(alloc, of, out)
}

/// Returns in `out` a buffer of the values, without a copy. On error `from` keeps them.
#[unsafe(no_mangle)]
pub extern "C" fn sel_int16_lend(
    alloc: Global,
    from: &mut Int16Memory,
    out: &mut BufferHandle,
) -> u32
    ensures { Lends result (λ values. Int16 values) from.old.items from.new.items
        out.old.buffer out.new.buffer }
{
    lend_memory::<Int16Memory>(alloc, from, out)
}

/// Returns in `out` the lent memory of the buffer, of which `of` must be the last owner. `of` is
/// empty afterwards. On error `of` is unchanged.
#[unsafe(no_mangle)]
pub extern "C" fn sel_int16_back(alloc: Global, of: &mut BufferHandle, out: &mut Int16Memory) -> u32
    ensures { GivesBack result (λ values. Int16 values) of.old.buffer of.new.buffer
        out.new.items }
{
    give_memory_back::<Int16Memory>(alloc, of, out)
}

/// Returns in `out` a buffer of the values, without a copy. On error `from` keeps them.
#[unsafe(no_mangle)]
pub extern "C" fn sel_int32_lend(
    alloc: Global,
    from: &mut Int32Memory,
    out: &mut BufferHandle,
) -> u32
    ensures { Lends result (λ values. Int32 values) from.old.items from.new.items
        out.old.buffer out.new.buffer }
{
    lend_memory::<Int32Memory>(alloc, from, out)
}

/// Returns in `out` the lent memory of the buffer, of which `of` must be the last owner. `of` is
/// empty afterwards. On error `of` is unchanged.
#[unsafe(no_mangle)]
pub extern "C" fn sel_int32_back(alloc: Global, of: &mut BufferHandle, out: &mut Int32Memory) -> u32
    ensures { GivesBack result (λ values. Int32 values) of.old.buffer of.new.buffer
        out.new.items }
{
    give_memory_back::<Int32Memory>(alloc, of, out)
}

/// Returns in `out` a buffer of the values, without a copy. On error `from` keeps them.
#[unsafe(no_mangle)]
pub extern "C" fn sel_int64_lend(
    alloc: Global,
    from: &mut Int64Memory,
    out: &mut BufferHandle,
) -> u32
    ensures { Lends result (λ values. Int64 values) from.old.items from.new.items
        out.old.buffer out.new.buffer }
{
    lend_memory::<Int64Memory>(alloc, from, out)
}

/// Returns in `out` the lent memory of the buffer, of which `of` must be the last owner. `of` is
/// empty afterwards. On error `of` is unchanged.
#[unsafe(no_mangle)]
pub extern "C" fn sel_int64_back(alloc: Global, of: &mut BufferHandle, out: &mut Int64Memory) -> u32
    ensures { GivesBack result (λ values. Int64 values) of.old.buffer of.new.buffer
        out.new.items }
{
    give_memory_back::<Int64Memory>(alloc, of, out)
}

/// Returns in `out` a buffer of the values, without a copy. On error `from` keeps them.
#[unsafe(no_mangle)]
pub extern "C" fn sel_uint8_lend(
    alloc: Global,
    from: &mut UInt8Memory,
    out: &mut BufferHandle,
) -> u32
    ensures { Lends result (λ values. UInt8 values) from.old.items from.new.items
        out.old.buffer out.new.buffer }
{
    lend_memory::<UInt8Memory>(alloc, from, out)
}

/// Returns in `out` the lent memory of the buffer, of which `of` must be the last owner. `of` is
/// empty afterwards. On error `of` is unchanged.
#[unsafe(no_mangle)]
pub extern "C" fn sel_uint8_back(alloc: Global, of: &mut BufferHandle, out: &mut UInt8Memory) -> u32
    ensures { GivesBack result (λ values. UInt8 values) of.old.buffer of.new.buffer
        out.new.items }
{
    give_memory_back::<UInt8Memory>(alloc, of, out)
}

/// Returns in `out` a buffer of the values, without a copy. On error `from` keeps them.
#[unsafe(no_mangle)]
pub extern "C" fn sel_uint16_lend(
    alloc: Global,
    from: &mut UInt16Memory,
    out: &mut BufferHandle,
) -> u32
    ensures { Lends result (λ values. UInt16 values) from.old.items from.new.items
        out.old.buffer out.new.buffer }
{
    lend_memory::<UInt16Memory>(alloc, from, out)
}

/// Returns in `out` the lent memory of the buffer, of which `of` must be the last owner. `of` is
/// empty afterwards. On error `of` is unchanged.
#[unsafe(no_mangle)]
pub extern "C" fn sel_uint16_back(
    alloc: Global,
    of: &mut BufferHandle,
    out: &mut UInt16Memory,
) -> u32
    ensures { GivesBack result (λ values. UInt16 values) of.old.buffer of.new.buffer
        out.new.items }
{
    give_memory_back::<UInt16Memory>(alloc, of, out)
}

/// Returns in `out` a buffer of the values, without a copy. On error `from` keeps them.
#[unsafe(no_mangle)]
pub extern "C" fn sel_uint32_lend(
    alloc: Global,
    from: &mut UInt32Memory,
    out: &mut BufferHandle,
) -> u32
    ensures { Lends result (λ values. UInt32 values) from.old.items from.new.items
        out.old.buffer out.new.buffer }
{
    lend_memory::<UInt32Memory>(alloc, from, out)
}

/// Returns in `out` the lent memory of the buffer, of which `of` must be the last owner. `of` is
/// empty afterwards. On error `of` is unchanged.
#[unsafe(no_mangle)]
pub extern "C" fn sel_uint32_back(
    alloc: Global,
    of: &mut BufferHandle,
    out: &mut UInt32Memory,
) -> u32
    ensures { GivesBack result (λ values. UInt32 values) of.old.buffer of.new.buffer
        out.new.items }
{
    give_memory_back::<UInt32Memory>(alloc, of, out)
}

/// Returns in `out` a buffer of the values, without a copy. On error `from` keeps them.
#[unsafe(no_mangle)]
pub extern "C" fn sel_uint64_lend(
    alloc: Global,
    from: &mut UInt64Memory,
    out: &mut BufferHandle,
) -> u32
    ensures { Lends result (λ values. UInt64 values) from.old.items from.new.items
        out.old.buffer out.new.buffer }
{
    lend_memory::<UInt64Memory>(alloc, from, out)
}

/// Returns in `out` the lent memory of the buffer, of which `of` must be the last owner. `of` is
/// empty afterwards. On error `of` is unchanged.
#[unsafe(no_mangle)]
pub extern "C" fn sel_uint64_back(
    alloc: Global,
    of: &mut BufferHandle,
    out: &mut UInt64Memory,
) -> u32
    ensures { GivesBack result (λ values. UInt64 values) of.old.buffer of.new.buffer
        out.new.items }
{
    give_memory_back::<UInt64Memory>(alloc, of, out)
}

/// Returns in `out` a buffer of the values, without a copy. On error `from` keeps them.
#[unsafe(no_mangle)]
pub extern "C" fn sel_views_lend(
    alloc: Global,
    from: &mut ViewMemory,
    out: &mut BufferHandle,
) -> u32
    ensures { Lends result (λ values. Views values) from.old.items from.new.items
        out.old.buffer out.new.buffer }
{
    lend_memory::<ViewMemory>(alloc, from, out)
}

/// Returns in `out` the lent memory of the buffer, of which `of` must be the last owner. `of` is
/// empty afterwards. On error `of` is unchanged.
#[unsafe(no_mangle)]
pub extern "C" fn sel_views_back(alloc: Global, of: &mut BufferHandle, out: &mut ViewMemory) -> u32
    ensures { GivesBack result (λ values. Views values) of.old.buffer of.new.buffer
        out.new.items }
{
    give_memory_back::<ViewMemory>(alloc, of, out)
}

/// Returns in `out` a bitmap of the first `len` bits of the bytes, without a copy. On error `from`
/// keeps them.
#[unsafe(no_mangle)]
pub extern "C" fn sel_bits_lend(
    alloc: Global,
    from: &mut UInt8Memory,
    len: usize,
    out: &mut BufferHandle,
) -> u32
    ensures buffer { result ≡ ok →
        out.new.buffer ≡ Some (Bits (unsliced (bits_from from.old.items 0 len))) }
    ensures kept { result ≢ ok → from.new.items ≡ from.old.items }
    ensures unchanged { result ≢ ok → out.new.buffer ≡ out.old.buffer }
    ensures checks { ReturnsFirst result
        ((length_mismatch, (len + 7) / 8 ≤ length from.old.items) ∷ []) (result ≡ ok) }
{
    let memory = replace(from, UInt8Memory::of_lent(Lent::none()));
    let (count, bytes) = memory.into_lent().counted();
    if count < len.div_ceil(8) {
        *from = UInt8Memory::of_lent(bytes);
        return LENGTH_MISMATCH;
    }
    match lend_bits(alloc, bytes, len, out) {
        None => OK,
        Some(lent) => {
            *from = UInt8Memory::of_lent(lent);
            OUT_OF_MEMORY
        }
    }
}

/// Returns in `out` the lent memory of the bitmap, of which `of` must be the last owner. `of` is
/// empty afterwards. On error `of` is unchanged.
#[unsafe(no_mangle)]
pub extern "C" fn sel_bits_back(alloc: Global, of: &mut BufferHandle, out: &mut UInt8Memory) -> u32
    ensures given { result ≡ ok → IsBitsOf of.old.buffer out.new.items }
    ensures taken { result ≡ ok → of.new.buffer ≡ None }
    ensures unchanged { result ≢ ok → of.new.buffer ≡ of.old.buffer }
    ensures status { IsOneOf result (ok ∷ in_use ∷ []) }
{
    match give_back_bits(alloc, of) {
        None => IN_USE,
        Some(lent) => {
            *out = UInt8Memory::of_lent(lent);
            OK
        }
    }
}
