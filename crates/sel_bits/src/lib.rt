//! Error types, shared bitmaps and buffers, and the integer types of columns.
#![tactic(auto)]

pub mod aligned_words;
pub mod bit_sink;
pub mod bitmap;
pub mod bits_behind;
pub mod block_copy;
pub mod blocks;
pub mod buffer;
pub mod counted_bits;
pub mod faults;
pub mod lent;
pub mod moving_word;
pub mod native;
pub mod number;
pub mod offsets;
pub mod operations;
pub mod packer;
pub mod shared_bytes;
pub mod storage;
pub mod two_lists;
pub mod words;
