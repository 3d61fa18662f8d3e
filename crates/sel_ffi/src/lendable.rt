//! The element types of lent memory.

ghost use Rattle.std.specs.Prelude.{◌≡◌, List, IfOk, IfErr};
ghost use Rattle.sel_ffi.specs.declared.shared_buffer.SharedBuffer.{SharedBuffer};
ghost use Rattle.sel_ffi.specs.declared.shared_buffer.SharedBuffer.TheVariants.{Int8, Int16, Int32, Int64, UInt8, UInt16, UInt32, UInt64, Views};

use crate::shared_buffer::SharedBuffer;
use sel_arrow::view::View;
use sel_bits::buffer::Buffer;

/// An element type of lent memory.
pub trait Lendable: Copy {
    /// The buffer of these values.
    ghost shared: { List Self → SharedBuffer };

    /// Returns the buffer as a buffer of any element type.
    fn share(buffer: Buffer<Self>) -> SharedBuffer
        ensures { result ≡ shared buffer };

    /// Returns the buffer of this element type, or the buffer as it was if it has another.
    fn unshare(buffer: SharedBuffer) -> Result<Buffer<Self>, SharedBuffer>
        ensures value { IfOk result (λ own. shared own ≡ buffer) }
        ensures refusal { IfErr result (λ other. other ≡ buffer) };
}

/// Returns the values of a variant, or the buffer as it was if it is another.
macro_rules! unshare_as {
    ($variant:ident, $buffer:ident) => {
        match $buffer {
            SharedBuffer::$variant(own) => Ok(own),
            other => Err(other),
        }
    };
}

impl Lendable for i8 {
    ghost shared = { λ values. Int8 values };

    fn share(buffer: Buffer<i8>) -> SharedBuffer
        ensures { result ≡ Int8 buffer }
    {
        SharedBuffer::Int8(buffer)
    }

    fn unshare(buffer: SharedBuffer) -> Result<Buffer<i8>, SharedBuffer> {
        unshare_as!(Int8, buffer)
    }
}

impl Lendable for i16 {
    ghost shared = { λ values. Int16 values };

    fn share(buffer: Buffer<i16>) -> SharedBuffer
        ensures { result ≡ Int16 buffer }
    {
        SharedBuffer::Int16(buffer)
    }

    fn unshare(buffer: SharedBuffer) -> Result<Buffer<i16>, SharedBuffer> {
        unshare_as!(Int16, buffer)
    }
}

impl Lendable for i32 {
    ghost shared = { λ values. Int32 values };

    fn share(buffer: Buffer<i32>) -> SharedBuffer
        ensures { result ≡ Int32 buffer }
    {
        SharedBuffer::Int32(buffer)
    }

    fn unshare(buffer: SharedBuffer) -> Result<Buffer<i32>, SharedBuffer> {
        unshare_as!(Int32, buffer)
    }
}

impl Lendable for i64 {
    ghost shared = { λ values. Int64 values };

    fn share(buffer: Buffer<i64>) -> SharedBuffer
        ensures { result ≡ Int64 buffer }
    {
        SharedBuffer::Int64(buffer)
    }

    fn unshare(buffer: SharedBuffer) -> Result<Buffer<i64>, SharedBuffer> {
        unshare_as!(Int64, buffer)
    }
}

impl Lendable for u8 {
    ghost shared = { λ values. UInt8 values };

    fn share(buffer: Buffer<u8>) -> SharedBuffer
        ensures { result ≡ UInt8 buffer }
    {
        SharedBuffer::UInt8(buffer)
    }

    fn unshare(buffer: SharedBuffer) -> Result<Buffer<u8>, SharedBuffer> {
        unshare_as!(UInt8, buffer)
    }
}

impl Lendable for u16 {
    ghost shared = { λ values. UInt16 values };

    fn share(buffer: Buffer<u16>) -> SharedBuffer
        ensures { result ≡ UInt16 buffer }
    {
        SharedBuffer::UInt16(buffer)
    }

    fn unshare(buffer: SharedBuffer) -> Result<Buffer<u16>, SharedBuffer> {
        unshare_as!(UInt16, buffer)
    }
}

impl Lendable for u32 {
    ghost shared = { λ values. UInt32 values };

    fn share(buffer: Buffer<u32>) -> SharedBuffer
        ensures { result ≡ UInt32 buffer }
    {
        SharedBuffer::UInt32(buffer)
    }

    fn unshare(buffer: SharedBuffer) -> Result<Buffer<u32>, SharedBuffer> {
        unshare_as!(UInt32, buffer)
    }
}

impl Lendable for u64 {
    ghost shared = { λ values. UInt64 values };

    fn share(buffer: Buffer<u64>) -> SharedBuffer
        ensures { result ≡ UInt64 buffer }
    {
        SharedBuffer::UInt64(buffer)
    }

    fn unshare(buffer: SharedBuffer) -> Result<Buffer<u64>, SharedBuffer> {
        unshare_as!(UInt64, buffer)
    }
}

impl Lendable for View {
    ghost shared = { λ values. Views values };

    fn share(buffer: Buffer<View>) -> SharedBuffer
        ensures { result ≡ Views buffer }
    {
        SharedBuffer::Views(buffer)
    }

    fn unshare(buffer: SharedBuffer) -> Result<Buffer<View>, SharedBuffer> {
        unshare_as!(Views, buffer)
    }
}
