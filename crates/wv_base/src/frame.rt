//! Verification types, and stack map frames.
ghost use Rattle.std.specs.Prelude.{◌≡◌, IfOk};

use crate::memory::Memory;
use crate::name::Name;
use sqlite_items::Items;

/// A verification type (JVM Specification 4.10.1.2). `Uninitialized` has the place of the `new`
/// that made the object. An array is a class by its descriptor.
#[derive(Debug, Drop)]
pub enum VType {
    Top,
    Int,
    Float,
    Long,
    Double,
    Null,
    UninitializedThis,
    Uninitialized(u32),
    Class(Name),
}

impl VType {
    pub fn copy(&self) -> Result<VType, Memory>
        ensures { IfOk result (λ kind. kind ≡ self.now) }
    {
        Ok(match self {
            VType::Top => VType::Top,
            VType::Int => VType::Int,
            VType::Float => VType::Float,
            VType::Long => VType::Long,
            VType::Double => VType::Double,
            VType::Null => VType::Null,
            VType::UninitializedThis => VType::UninitializedThis,
            VType::Uninitialized(place) => VType::Uninitialized(*place),
            VType::Class(name) => VType::Class(name.copy()?),
        })
    }
}

/// A whole frame: the types of the local variables and of the operand stack, a long or a double
/// being one item, and whether `this` isn't initialized yet (flagThisUninit, JVM Specification
/// 4.10.1.4).
#[derive(Debug, Drop)]
pub struct Frame {
    pub locals: Items<VType>,
    pub stack: Items<VType>,
    pub this_uninitialized: bool,
}

/// A frame, and where it stands: a byte offset as a StackMapTable spells it, or the index of an
/// instruction.
#[derive(Debug, Drop)]
pub struct FrameAt {
    pub at: u32,
    pub frame: Frame,
}

/// The frames of a method, in order of their places (JVM Specification 4.7.4).
pub type FrameList = Items<FrameAt>;
