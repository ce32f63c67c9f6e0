//! The types that every crate of the loader speaks of, and the grammars of JVM names.
#![tactic(auto)]

mod access;
mod action;
mod broken;
mod bytes;
mod class_file;
mod constant;
mod descriptor;
mod fault;
mod folder;
mod form;
mod frame;
mod grammar;
mod insn;
mod line;
mod memory;
mod modified;
mod name;
mod note;
mod print;
mod rule;
mod side;
mod text;

pub use access::AccessFlags;
pub use action::{Action, ActionKind, HookList, Hooks, Spot};
pub use broken::{Broken, Place};
pub use bytes::Bytes;
pub use class_file::{Attribute, Body, ClassFile, ClassVersion, ExceptionRange, Member, PoolEntry};
pub use constant::{Const, MemberReference};
pub use descriptor::{
    ElementType, FieldType, MethodType, Primitive, is_class_constant, is_field_descriptor,
    is_method_descriptor, one_descriptor, parameter_words,
};
pub use fault::{ClassFault, LimitFault};
pub use folder::Folder;
pub use form::Form;
pub use frame::{Frame, FrameAt, FrameList, VType};
pub use grammar::{is_class, is_class_name, is_field_name, is_method_name};
pub use insn::{Case, Cases, Insn, Targets};
pub use line::{LINE, write_broken};
pub use memory::Memory;
pub use modified::{TextFault, from_modified, one_reading, one_spelling, to_modified};
pub use name::Name;
pub use note::{Annotation, Element, NamedElement, Note};
pub use print::shown;
pub use rule::Rule;
pub use side::Side;
pub use sqlite_items::{Boxed, Items};
pub use text::Text;

#[cfg(test)]
mod tests;
