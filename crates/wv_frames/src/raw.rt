//! Stack map frames as they are spelled, with pool numbers, and each by the one before.
use wv_base::Items;

/// A verification type as a frame spells it (JVM Specification 4.7.4): `Object` has the pool's
/// number of a class, and `Uninitialized` the offset of the `new` that made the object.
#[derive(Clone, Copy, Debug, PartialEq, Eq)]
pub enum RawType {
    Top,
    Int,
    Float,
    Double,
    Long,
    Null,
    UninitializedThis,
    Object(u16),
    Uninitialized(u16),
}

/// The types of a list.
pub type RawTypes = Items<RawType>;

/// A frame as it is spelled (JVM Specification 4.7.4). `delta` is its offset, less the offset of the
/// frame before and one more; the first frame's is its offset.
#[derive(Debug, Drop)]
pub enum RawFrame {
    /// The locals of the frame before, and no stack. The delta is below 64.
    Same {
        delta: u8,
    },
    /// The locals of the frame before, and one item on the stack. The delta is below 64.
    SameWithOne {
        delta: u8,
        stack: RawType,
    },
    /// The same, with any delta.
    SameWithOneExtended {
        delta: u16,
        stack: RawType,
    },
    /// The locals of the frame before but the last one, two or three, and no stack.
    Chop {
        count: u8,
        delta: u16,
    },
    /// The locals of the frame before, and no stack, with any delta.
    SameExtended {
        delta: u16,
    },
    /// The locals of the frame before and one, two or three more, and no stack.
    Append {
        delta: u16,
        locals: RawTypes,
    },
    /// All locals, and the stack.
    Full {
        delta: u16,
        locals: RawTypes,
        stack: RawTypes,
    },
}
