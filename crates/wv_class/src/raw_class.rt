//! A class file as its bytes have it: with pool numbers, and code with byte offsets.

use wv_attr::Mark;
use wv_base::{Bytes, ClassVersion, Items, PoolEntry};
use wv_code::RawBody;

/// Where an attribute stands (JVM Specification 4.7): a name is known only at its place.
#[derive(Clone, Copy, Debug, PartialEq, Eq)]
pub(crate) enum Place {
    Class,
    Field,
    Method,
}

/// What an attribute is, by its name and its place (JVM Specification 4.7).
#[derive(Clone, Copy, Debug, PartialEq, Eq)]
pub(crate) enum Kind {
    Code,
    ConstantValue,
    Exceptions,
    Annotations { visible: bool },
    ParameterAnnotations { visible: bool },
    /// An attribute that is kept as bytes.
    Other,
}

/// The content of an attribute (JVM Specification 4.7.2, 4.7.3, 4.7.5 and 4.7.16 to 4.7.19).
#[derive(Debug, Drop)]
pub(crate) enum Content {
    Code(RawBody),
    /// The number of the value of a field.
    ConstantValue(u16),
    /// The numbers of the classes that a method declares to throw.
    Exceptions(Items<u16>),
    Annotations { visible: bool, parts: Items<Mark> },
    ParameterAnnotations { visible: bool, parts: Items<Mark> },
    Other(Bytes),
}

/// An attribute: the number of its name, and its content (JVM Specification 4.7).
#[derive(Debug, Drop)]
pub(crate) struct RawAttribute {
    pub name: u16,
    pub content: Content,
}

/// A field or a method (JVM Specification 4.5 and 4.6).
#[derive(Debug, Drop)]
pub(crate) struct RawMember {
    pub flags: u16,
    pub name: u16,
    pub descriptor: u16,
    pub attributes: Items<RawAttribute>,
}

/// What stands behind the constant pool (JVM Specification 4.1).
#[derive(Debug, Drop)]
pub(crate) struct RawRest {
    pub flags: u16,
    pub class: u16,
    pub superclass: u16,
    pub interfaces: Items<u16>,
    pub fields: Items<RawMember>,
    pub methods: Items<RawMember>,
    pub attributes: Items<RawAttribute>,
}

/// A class file (JVM Specification 4.1).
#[derive(Debug, Drop)]
pub(crate) struct RawClass {
    pub version: ClassVersion,
    pub pool: Items<PoolEntry>,
    pub rest: RawRest,
}
