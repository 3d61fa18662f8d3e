//! Views of byte strings, inline or in a data buffer.

ghost use Rattle.std.specs.Prelude.{◌≡◌, ◌≤◌, ◌<◌, ◌+◌, length, slice_index};
ghost use Rattle.sel_bits.specs.Limits.{max_buffer_bytes};
ghost use Rattle.sel_arrow.specs.Views.{inline_bytes, inline_space, view_of, word_at};

/// The maximum length of an inline view.
pub const INLINE_BYTES: u32 = 12;

/// A view of a byte string. Up to 12 bytes are inline, in the little-endian bytes of `prefix`,
/// `buffer_idx` and `offset`, in this order. A longer byte string is in a data buffer, and `prefix`
/// is its first four bytes. (Arrow columnar format: variable-size binary view layout.)
#[repr(C)]
#[derive(Debug, Clone, Copy, PartialEq, Eq)]
pub struct View {
    /// The length in bytes.
    pub length: u32,
    /// The first four bytes, little-endian.
    pub prefix: u32,
    /// The index of the data buffer.
    pub buffer_idx: u32,
    /// The start offset in the data buffer.
    pub offset: u32,
}

impl View {
    /// Builds a view of `bytes`: inline, padded with zeros, if there are at most 12; otherwise a
    /// reference to offset `offset` of data buffer `buffer_idx`.
    ///
    /// # Requires
    /// There are at most 4,294,967,295 bytes.
    pub fn new_from_bytes(bytes: &[u8], buffer_idx: u32, offset: u32) -> View
        requires { length bytes.now ≤ max_buffer_bytes }
        ensures view { result ≡ view_of bytes.now buffer_idx offset }
        ensures inline { length bytes.now ≤ 12 → inline_bytes result ≡ bytes.now }
    {
        let length = bytes.len() as u32;
        let prefix = read_word(bytes, 0);
        if length <= INLINE_BYTES {
            View {
                length,
                prefix,
                buffer_idx: read_word(bytes, 4),
                offset: read_word(bytes, 8),
            }
        } else {
            View {
                length,
                prefix,
                buffer_idx,
                offset,
            }
        }
    }

    /// Returns the little-endian bytes of `prefix`, `buffer_idx` and `offset`.
    pub fn inline_space(self) -> [u8; 12]
        ensures { result ≡ inline_space self }
    {
        let [a, b, c, d] = self.prefix.to_le_bytes();
        let [e, f, g, h] = self.buffer_idx.to_le_bytes();
        let [i, j, k, l] = self.offset.to_le_bytes();
        [a, b, c, d, e, f, g, h, i, j, k, l]
    }
}

/// Reads four bytes from `at` on as a little-endian integer, with zeros past the end.
pub(crate) fn read_word(bytes: &[u8], at: usize) -> u32
    requires { at < 4294967296 }
    ensures { result ≡ word_at bytes.now at }
{
    u32::from_le_bytes([
        byte_at(bytes, at),
        byte_at(bytes, at + 1),
        byte_at(bytes, at + 2),
        byte_at(bytes, at + 3),
    ])
}

/// Returns the byte at `at`, or 0 past the end.
fn byte_at(bytes: &[u8], at: usize) -> u8
    ensures { result ≡ slice_index bytes.now at }
{
    if at < bytes.len() { bytes[at] } else { 0 }
}
