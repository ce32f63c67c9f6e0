//! A class file as it is seen: names in place of pool numbers, and indices in place of offsets.

use crate::access::AccessFlags;
use crate::bytes::Bytes;
use crate::constant::Const;
use crate::frame::FrameList;
use crate::insn::Insn;
use crate::name::Name;
use crate::note::Note;
use sqlite_items::Items;

/// The version of a class file (JVM Specification 4.1).
#[derive(Clone, Copy, Debug, PartialEq, Eq)]
pub struct ClassVersion {
    pub major: u16,
    pub minor: u16,
}

/// An attribute that is kept as it was read: the number of its name in the pool as read, which
/// needn't be that of a text, and its content (JVM Specification 4.7).
#[derive(Debug, Drop)]
pub struct Attribute {
    pub name: u16,
    pub content: Bytes,
}

/// An entry of the constant pool as it was read, with numbers (JVM Specification 4.4). The entry
/// with number n stands at place n - 1, and the second number of a long or a double is `Unusable`.
#[derive(Debug, Drop)]
pub enum PoolEntry {
    Utf8(Name),
    Integer(i32),
    Float(u32),
    Long(i64),
    Double(u64),
    Class { name: u16 },
    String { text: u16 },
    Field { class: u16, name_and_type: u16 },
    Method { class: u16, name_and_type: u16 },
    InterfaceMethod { class: u16, name_and_type: u16 },
    NameAndType { name: u16, descriptor: u16 },
    MethodHandle { kind: u8, reference: u16 },
    MethodType { descriptor: u16 },
    InvokeDynamic { bootstrap: u16, name_and_type: u16 },
    Unusable,
}

/// A range of an exception table: the instructions from `start` up to but without `end`, by index,
/// the handler's index, and the class that is caught, or none for every class (JVM Specification
/// 4.7.3).
#[derive(Debug, Drop)]
pub struct ExceptionRange {
    pub start: u32,
    pub end: u32,
    pub handler: u32,
    pub catch: Option<Name>,
}

/// A method's code (JVM Specification 4.7.3). `kept` has the attributes other than StackMapTable,
/// whose numbers and offsets stay true while the code stays as it was read.
#[derive(Debug, Drop)]
pub struct Body {
    pub max_stack: u16,
    pub max_locals: u16,
    pub insns: Items<Insn>,
    pub ranges: Items<ExceptionRange>,
    pub frames: FrameList,
    pub kept: Items<Attribute>,
}

/// A field or a method (JVM Specification 4.5 and 4.6). `value` is a field's ConstantValue, `throws`
/// a method's Exceptions, and `kept` has the attributes that no other field speaks of.
#[derive(Debug, Drop)]
pub struct Member {
    pub flags: AccessFlags,
    pub name: Name,
    pub descriptor: Name,
    pub body: Option<Body>,
    pub value: Option<Const>,
    pub throws: Items<Name>,
    pub notes: Items<Note>,
    pub kept: Items<Attribute>,
}

/// A class or an interface (JVM Specification 4.1). `pool` is the constant pool as it was read, and
/// `kept` has the attributes that no other field speaks of.
#[derive(Debug, Drop)]
pub struct ClassFile {
    pub version: ClassVersion,
    pub flags: AccessFlags,
    pub name: Name,
    pub superclass: Name,
    pub interfaces: Items<Name>,
    pub fields: Items<Member>,
    pub methods: Items<Member>,
    pub notes: Items<Note>,
    pub pool: Items<PoolEntry>,
    pub kept: Items<Attribute>,
}
