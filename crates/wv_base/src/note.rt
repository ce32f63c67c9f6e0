//! Annotations.

use crate::constant::Const;
use crate::name::Name;
use sqlite_items::Items;

/// The value of an annotation's element, by its kind (JVM Specification 4.7.16.1).
#[cycle(note)]
#[derive(Debug, Drop)]
pub enum Element {
    /// A constant of the kind `B`, `C`, `D`, `F`, `I`, `J`, `S`, `Z` or `s`, which `tag` gives.
    Constant { tag: u8, value: Const },
    /// A constant of an enum: the descriptor of its type, and its name.
    Enum { descriptor: Name, name: Name },
    /// A class, by its descriptor or `V`.
    Class(Name),
    Annotation(Annotation),
    Array(Items<Element>),
}

/// An element of an annotation, by its name.
#[cycle(note)]
#[derive(Debug, Drop)]
pub struct NamedElement {
    pub name: Name,
    pub value: Element,
}

/// An annotation: its class and its elements, in order (JVM Specification 4.7.16).
#[cycle(note)]
#[derive(Debug, Drop)]
pub struct Annotation {
    pub class: Name,
    pub elements: Items<NamedElement>,
}

/// An annotation on a class, a member or a parameter: whether its table is the visible one, and
/// for one on a parameter the parameter's place, from 0 (JVM Specification 4.7.16 to 4.7.19).
#[derive(Debug, Drop)]
pub struct Note {
    pub visible: bool,
    pub parameter: Option<u8>,
    pub annotation: Annotation,
}
