//! What a gather of numbers reads of a source.

ghost use Rattle.std.specs.Prelude.{length};
ghost use Rattle.std.specs.Option.{option_copied};
ghost use Rattle.sel_bits.specs.Validity.{Covers};

use sel_bits::bitmap::Bitmap;

/// The values and the validity of a source.
#[derive(Drop)]
pub struct Part<'a, T: Copy> {
    pub values: &'a [T],
    pub validity: Option<&'a Bitmap>,
    pub ghost covers: { Covers (option_copied validity) (length values.now) },
}
