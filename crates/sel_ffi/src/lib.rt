//! Column handles for C callers, status codes, the exchange of columns with slices, and buffers over
//! memory that a C caller lends, with the columns that share them.
#![tactic(auto)]

pub mod buffer_handle;
pub mod buffer_parts;
pub mod buffer_ref;
pub mod column_ref;
pub mod columns;
pub mod depth;
pub mod handle;
pub mod inputs;
pub mod kinds;
pub mod lendable;
pub mod lending;
pub mod loose;
pub mod memory;
pub mod nested;
pub mod nested_into;
pub mod numbers;
pub mod outputs;
pub mod parts;
pub mod several;
pub mod shared_buffer;
pub mod shared_column;
pub mod showing;
pub mod status;
pub mod view_columns;
pub mod view_parts;
pub mod views;
