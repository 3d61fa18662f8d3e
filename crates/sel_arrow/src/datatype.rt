//! Data types of columns.

ghost use Rattle.std.specs.Prelude.{◌≡◌, ◌↔◌, IsTrue};
ghost use Rattle.std.specs.List.{list_all};
ghost use Rattle.sel_arrow.specs.DataType.{shape_of, widths_fit, ScalarFits};

use crate::array::Array;
use crate::array_ref::ArrayRef;
use crate::validity::MOST_ROWS;

/// The data type of a column. A list type includes the type of its child, a fixed-size list type
/// also the list size, and a struct type the types of its fields, in order.
#[derive(Drop)]
pub enum ArrowDataType {
    Null,
    Boolean,
    Int8,
    Int16,
    Int32,
    Int64,
    Int128,
    UInt8,
    UInt16,
    UInt32,
    UInt64,
    UInt128,
    LargeBinary,
    BinaryView,
    Utf8View,
    LargeList(Box<ArrowDataType>),
    FixedSizeList(Box<ArrowDataType>, usize),
    Struct(Vec<ArrowDataType>),
}

impl ArrowDataType {
    /// Returns whether the list size of every fixed-size list, at every depth, is at most
    /// 4,294,967,295.
    #[tactic(auto, using(crate::proofs::Types::widths_fit_struct))]
    #[cycle(widths_fit)]
    pub fn widths_fit(&self) -> bool
        ensures { result ≡ widths_fit self.now }
    {
        match self {
            ArrowDataType::LargeList(child) => child.widths_fit(),
            ArrowDataType::FixedSizeList(child, width) => {
                *width <= MOST_ROWS && child.widths_fit()
            }
            ArrowDataType::Struct(fields) => all_widths_fit(fields),
            _ => true,
        }
    }

    /// Returns whether the rows of `scalar` can be one list of this type: they have the type of its
    /// child, and for a fixed-size list their count is the list size. Returns false if this is not
    /// a list type.
    pub fn scalar_fits(&self, scalar: &ArrayRef) -> bool
        ensures { IsTrue result ↔ ScalarFits (shape_of self.now) scalar.now.column }
    {
        match self {
            ArrowDataType::LargeList(child) => scalar.has_dtype(child),
            ArrowDataType::FixedSizeList(child, width) => {
                scalar.has_dtype(child) && scalar.len() == *width
            }
            _ => false,
        }
    }
}

/// Returns whether `widths_fit` holds for every type.
#[cycle(widths_fit)]
#[tactic(auto, using(crate::proofs::Lists::all_lists))]
fn all_widths_fit(dtypes: &[ArrowDataType]) -> bool
    ensures { result ≡ list_all widths_fit dtypes.now }
{
    for dtype in dtypes {
        if !dtype.widths_fit() {
            return false;
        }
    }
    true
}
