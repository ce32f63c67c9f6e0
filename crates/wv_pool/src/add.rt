//! Adding constants to a pool.
ghost use Rattle.std.specs.Prelude.{◌≡◌, [], ◌∷◌, ◌++◌, ℕ, Some, IfOk, IfErr, IsOk, ◌⊎◌};
ghost use Rattle.wv_base.specs.declared.constant.Const.{Const};
ghost use Rattle.wv_base.specs.declared.constant.Const.TheVariants as constants;
ghost use Rattle.wv_base.specs.Modified.{IsName};
ghost use Rattle.wv_pool.specs.declared.add.PoolFault.TheVariants as faults;
ghost use Rattle.wv_pool.specs.Constants.{constant_of};
ghost use Rattle.wv_pool.specs.Numbers.{IsLeast, Named};
ghost use Rattle.wv_pool.specs.Adding.{class_needs, pair_needs, member_needs, handled, needs, AreTooMany, Keeps, Grows, Adds};
ghost use Rattle.wv_pool.specs.Allowed.{IsShort, IsClassText, IsPairText, IsFieldReference, IsMethodReference, IsHandle, IsAllowed};
ghost use Rattle.wv_base.specs.Descriptor.{IsFieldDescriptor, IsMethodDescriptor};

use crate::pool::Pool;
use std::alloc::{AllocError, AllocFailed};
use thiserror::Error;
use wv_base::{Const, MemberReference, Memory, Name, PoolEntry};

/// Why a constant isn't added to a pool.
#[derive(Debug, Drop, Error)]
pub enum PoolFault {
    /// The pool's count would pass 65,535 (JVM Specification 4.11).
    #[error("the constant pool passes 65535 entries")]
    Full,
    #[error("out of memory")]
    Memory,
}

impl From<Memory> for PoolFault {
    ghost use Rattle.wv_pool.specs.declared.add.PoolFault.TheVariants as faults;

    ghost from_gives = { λ _ e. e ≡ faults.Memory };

    fn from(_error: Memory) -> PoolFault {
        PoolFault::Memory
    }
}

impl From<AllocError> for PoolFault {
    ghost use Rattle.wv_pool.specs.declared.add.PoolFault.TheVariants as faults;

    ghost from_gives = { λ _ e. e ≡ faults.Memory };

    fn from(_error: AllocError) -> PoolFault {
        PoolFault::Memory
    }
}

impl<T: Drop> From<AllocFailed<T>> for PoolFault {
    ghost use Rattle.wv_pool.specs.declared.add.PoolFault.TheVariants as faults;

    ghost from_gives = { λ _ e. e ≡ faults.Memory };

    fn from(_error: AllocFailed<T>) -> PoolFault {
        PoolFault::Memory
    }
}

/// Units have 16 bits each.
fn are_units(units: &[u16])
    ensures { IsName units.now }
{}

impl Pool {
    fn add_text(&mut self, name: &Name) -> Result<u16, PoolFault>
        requires { IsShort name.now }
        ensures { Adds self.old self.new (constants.Utf8 name.now ∷ []) (constants.Utf8 name.now) result }
    {
        are_units(name.units());
        let constant = Const::Utf8(name.copy()?);
        self.put(&constant, PoolEntry::Utf8(name.copy()?))
    }

    fn add_class(&mut self, name: &Name) -> Result<u16, PoolFault>
        requires { IsClassText name.now }
        ensures { Adds self.old self.new (class_needs name.now) (constants.Class name.now) result }
    {
        let text = self.add_text(name)?;
        self.put(&Const::Class(name.copy()?), PoolEntry::Class { name: text })
    }

    fn add_pair(&mut self, name: &Name, descriptor: &Name) -> Result<u16, PoolFault>
        requires text { IsPairText name.now descriptor.now }
        requires descriptor { IsFieldDescriptor descriptor.now ⊎ IsMethodDescriptor descriptor.now }
        ensures { Adds self.old self.new (pair_needs name.now descriptor.now) (constants.NameAndType name.now descriptor.now) result }
    {
        let entry = PoolEntry::NameAndType {
            name: self.add_text(name)?,
            descriptor: self.add_text(descriptor)?,
        };
        let constant = Const::NameAndType {
            name: name.copy()?,
            descriptor: descriptor.copy()?,
        };
        self.put(&constant, entry)
    }

    fn add_field(&mut self, member: &MemberReference) -> Result<u16, PoolFault>
        requires { IsFieldReference member.now }
        ensures { Adds self.old self.new (constants.Field member.now ∷ member_needs member.now) (constants.Field member.now) result }
    {
        let class = self.add_class(&member.owner)?;
        let name_and_type = self.add_pair(&member.name, &member.descriptor)?;
        let constant = Const::Field(member.copy()?);
        self.put(
            &constant,
            PoolEntry::Field {
                class,
                name_and_type,
            },
        )
    }

    fn add_method(&mut self, member: &MemberReference, interface: bool) -> Result<u16, PoolFault>
        requires { IsMethodReference member.now }
        ensures { Adds self.old self.new (constants.Method member.now interface ∷ member_needs member.now) (constants.Method member.now interface) result }
    {
        let class = self.add_class(&member.owner)?;
        let name_and_type = self.add_pair(&member.name, &member.descriptor)?;
        let reference = member.copy()?;
        let constant = Const::Method {
            reference,
            interface,
        };
        if interface {
            self.put(
                &constant,
                PoolEntry::InterfaceMethod {
                    class,
                    name_and_type,
                },
            )
        } else {
            self.put(
                &constant,
                PoolEntry::Method {
                    class,
                    name_and_type,
                },
            )
        }
    }

    /// What a handle of the kind names.
    fn add_handled(
        &mut self,
        kind: u8,
        member: &MemberReference,
        interface: bool,
    ) -> Result<u16, PoolFault>
        requires { IsHandle kind member.now interface }
        ensures { Adds self.old self.new (handled kind member.now interface ∷ member_needs member.now) (handled kind member.now interface) result }
    {
        if kind <= 4 {
            self.add_field(member)
        } else {
            self.add_method(member, interface)
        }
    }

    /// A constant, and those behind it that no number names.
    fn add_parts(&mut self, constant: &Const) -> Result<u16, PoolFault>
        requires { IsAllowed constant.now }
        ensures { Adds self.old self.new (needs constant.now) constant.now result }
    {
        match constant {
            Const::Utf8(name) => self.add_text(name),
            Const::Integer(value) => self.put(constant, PoolEntry::Integer(*value)),
            Const::Float(bits) => self.put(constant, PoolEntry::Float(*bits)),
            Const::Long(value) => self.put(constant, PoolEntry::Long(*value)),
            Const::Double(bits) => self.put(constant, PoolEntry::Double(*bits)),
            Const::Class(name) => self.add_class(name),
            Const::String(text) => {
                let text = self.add_text(text)?;
                self.put(constant, PoolEntry::String { text })
            }
            Const::Field(member) => self.add_field(member),
            Const::Method {
                reference,
                interface,
            } => self.add_method(reference, *interface),
            Const::NameAndType { name, descriptor } => self.add_pair(name, descriptor),
            Const::MethodHandle {
                kind,
                reference,
                interface,
            } => {
                let reference = self.add_handled(*kind, reference, *interface)?;
                self.put(
                    constant,
                    PoolEntry::MethodHandle {
                        kind: *kind,
                        reference,
                    },
                )
            }
            Const::MethodType(descriptor) => {
                let descriptor = self.add_text(descriptor)?;
                self.put(constant, PoolEntry::MethodType { descriptor })
            }
            Const::InvokeDynamic {
                bootstrap,
                name,
                descriptor,
            } => {
                let name_and_type = self.add_pair(name, descriptor)?;
                self.put(
                    constant,
                    PoolEntry::InvokeDynamic {
                        bootstrap: *bootstrap,
                        name_and_type,
                    },
                )
            }
        }
    }

    /// The least number that names the constant, which is added, with the constants behind it, where no
    /// number names it yet. Older numbers name what they named. Where a constant behind it has no room,
    /// those before it stay.
    pub fn add(&mut self, constant: &Const) -> Result<u16, PoolFault>
        requires { IsAllowed constant.now }
        ensures least { IfOk result (IsLeast self.new constant.now) }
        ensures kept { Keeps self.old self.new }
        ensures older { (n : ℕ) (c : Const) → constant_of self.old n ≡ Some c → constant_of self.new n ≡ Some c }
        // A constant that a number names leaves the pool as it was.
        ensures same { Named self.old constant.now → (self.new ≡ self.old) × IsOk result }
        // Each other makes it longer by the constants that it lacks, each once.
        ensures grows { IfOk result (λ _. Named self.old constant.now ⊎ Grows self.old (needs constant.now) self.new) }
        // Those that it lacks would make the pool's count pass 65,535.
        ensures full { IfErr result (λ e. e ≡ faults.Full → AreTooMany self.old (needs constant.now)) }
    {
        if let Some(number) = self.number_of(constant) {
            return Ok(number);
        }
        self.add_parts(constant)
    }
}
