//! The constants of a class file.
ghost use Rattle.std.specs.Prelude.{◌≡◌, IfOk};

use crate::memory::Memory;
use crate::name::Name;

/// The class, name and descriptor by which a constant or an instruction names a field or a method
/// (JVM Specification 4.4.2).
#[derive(Debug, Drop)]
pub struct MemberReference {
    pub owner: Name,
    pub name: Name,
    pub descriptor: Name,
}

impl MemberReference {
    pub fn copy(&self) -> Result<MemberReference, Memory>
        ensures { IfOk result (λ reference. reference ≡ self.now) }
    {
        Ok(MemberReference {
            owner: self.owner.copy()?,
            name: self.name.copy()?,
            descriptor: self.descriptor.copy()?,
        })
    }
}

/// One constant of the pool, with names in place of pool numbers (JVM Specification 4.4). Floating
/// point numbers are kept by their bits.
#[derive(Debug, Drop)]
pub enum Const {
    Utf8(Name),
    Integer(i32),
    Float(u32),
    Long(i64),
    Double(u64),
    Class(Name),
    String(Name),
    Field(MemberReference),
    Method {
        reference: MemberReference,
        interface: bool,
    },
    NameAndType {
        name: Name,
        descriptor: Name,
    },
    MethodHandle {
        kind: u8,
        reference: MemberReference,
        interface: bool,
    },
    MethodType(Name),
    InvokeDynamic {
        bootstrap: u16,
        name: Name,
        descriptor: Name,
    },
}

impl Const {
    pub fn copy(&self) -> Result<Const, Memory>
        ensures { IfOk result (λ constant. constant ≡ self.now) }
    {
        Ok(match self {
            Const::Utf8(name) => Const::Utf8(name.copy()?),
            Const::Integer(value) => Const::Integer(*value),
            Const::Float(bits) => Const::Float(*bits),
            Const::Long(value) => Const::Long(*value),
            Const::Double(bits) => Const::Double(*bits),
            Const::Class(name) => Const::Class(name.copy()?),
            Const::String(name) => Const::String(name.copy()?),
            Const::Field(reference) => Const::Field(reference.copy()?),
            Const::Method {
                reference,
                interface,
            } => Const::Method {
                reference: reference.copy()?,
                interface: *interface,
            },
            Const::NameAndType { name, descriptor } => Const::NameAndType {
                name: name.copy()?,
                descriptor: descriptor.copy()?,
            },
            Const::MethodHandle {
                kind,
                reference,
                interface,
            } => Const::MethodHandle {
                kind: *kind,
                reference: reference.copy()?,
                interface: *interface,
            },
            Const::MethodType(name) => Const::MethodType(name.copy()?),
            Const::InvokeDynamic {
                bootstrap,
                name,
                descriptor,
            } => Const::InvokeDynamic {
                bootstrap: *bootstrap,
                name: name.copy()?,
                descriptor: descriptor.copy()?,
            },
        })
    }
}
