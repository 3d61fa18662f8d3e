//! Columns over shared bitmaps and buffers, in the layouts of the Arrow columnar format.
#![tactic(auto)]

pub mod array;
pub mod array_ref;
pub mod binary;
pub mod binview;
pub mod boolean;
pub mod column;
pub mod datatype;
pub mod empty;
pub mod fixed_size_list;
pub mod from_column;
pub mod list;
pub mod native_columns;
pub mod null;
mod options;
pub mod primitive;
pub mod rules;
pub mod structure;
pub mod utf8view;
pub mod validity;
pub mod view;
