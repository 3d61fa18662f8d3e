//! Buffers of any element type, as handles own them.

use sel_arrow::view::View;
use sel_bits::bitmap::Bitmap;
use sel_bits::buffer::Buffer;

/// A buffer of integers or views, a bitmap, or nothing.
#[derive(Drop)]
pub enum SharedBuffer {
    Empty,
    Bits(Bitmap),
    Int8(Buffer<i8>),
    Int16(Buffer<i16>),
    Int32(Buffer<i32>),
    Int64(Buffer<i64>),
    UInt8(Buffer<u8>),
    UInt16(Buffer<u16>),
    UInt32(Buffer<u32>),
    UInt64(Buffer<u64>),
    Views(Buffer<View>),
}
