//! The parts of a table of annotations.
ghost use Rattle.std.specs.Prelude.{◌≡◌, length};
ghost use Rattle.wv_attr.specs.Marks.{mark_bytes};
ghost use Rattle.wv_attr.specs.Groups.{kind_of, behind, IsShallow};

use crate::group::Group;
use wv_room::ElementKind;

/// A part of a table of annotations, with the numbers of the pool entries that it names (JVM
/// Specification 4.7.16 and 4.7.16.1). What a part counts or opens follows it.
#[derive(Clone, Copy, Debug, PartialEq, Eq)]
pub enum Mark {
    /// How many annotations a class, a member or a parameter has.
    List { count: u16 },
    /// An annotation's type, and how many elements it has.
    Annotation { class: u16, count: u16 },
    /// The name of an annotation's element.
    Name { name: u16 },
    /// A constant of the kind `B`, `C`, `D`, `F`, `I`, `J`, `S`, `Z` or `s`, which `tag` gives.
    Constant { tag: u8, value: u16 },
    Enum { descriptor: u16, name: u16 },
    Class { descriptor: u16 },
    /// An annotation as a value.
    Nested,
    Array { count: u16 },
}

impl Mark {
    /// How many bytes the part has.
    pub fn len(&self) -> usize
        ensures { result ≡ length (mark_bytes self.now) }
    {
        match self {
            Mark::Nested => 1,
            Mark::List { .. } | Mark::Name { .. } => 2,
            Mark::Constant { .. } | Mark::Class { .. } | Mark::Array { .. } => 3,
            Mark::Annotation { .. } => 4,
            Mark::Enum { .. } => 5,
        }
    }

    /// The items that follow the part, which stands at this depth.
    pub(crate) fn behind(&self, depth: u16) -> Group
        requires { IsShallow (kind_of self.now) depth }
        ensures { result ≡ behind depth self.now }
    {
        let (kind, depth, count) = match self {
            Mark::List { count } => (ElementKind::Annotation, depth, *count),
            Mark::Annotation { count, .. } => (ElementKind::Pair, depth, *count),
            Mark::Name { .. } => (ElementKind::Value, depth, 1),
            Mark::Constant { .. } | Mark::Enum { .. } | Mark::Class { .. } => {
                (ElementKind::Value, depth, 0)
            }
            Mark::Nested => (ElementKind::Annotation, depth + 1, 1),
            Mark::Array { count } => (ElementKind::Value, depth + 1, *count),
        };
        Group { kind, depth, count }
    }
}
