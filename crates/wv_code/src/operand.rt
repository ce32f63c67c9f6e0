//! What instructions name by numbers of the pool.
ghost use Rattle.std.specs.Prelude.{◌≡◌, ℕ, List, true, Some, IfOk};
ghost use Rattle.wv_base.specs.declared.insn.Insn.TheVariants as insns;
ghost use Rattle.wv_base.specs.Descriptor.{IsMethodDescriptor};
ghost use Rattle.wv_insn.specs.declared.raw.Raw.TheVariants as raws;
ghost use Rattle.wv_pool.specs.Constants.{constant_of};
ghost use Rattle.wv_code.specs.Breaks.{Loads, Takes, TakesInterface, TakesSite, NamesClass};
ghost use Rattle.wv_code.specs.Meaning.{Means};

use crate::pool_constant::{class_at, constant_at};
use wv_base::{Const, Insn, MemberReference, Memory, Name};
use wv_pool::Pool;

/// The constant with the number, which the opcode loads.
pub(crate) fn loaded(pool: &Pool, op: u8, number: u16) -> Result<Const, Memory>
    requires { (Loads pool.now op number → ⊥) → ⊥ }
    ensures { IfOk result (λ c. constant_of pool.now number ≡ Some c) }
{
    match constant_at(pool, number)? {
        Some(constant) => Ok(constant),
        None => unreachable!(),
    }
}

/// The name of the class with the number.
pub(crate) fn class_named(pool: &Pool, number: u16) -> Result<Name, Memory>
    requires { (NamesClass pool.now number → ⊥) → ⊥ }
    ensures { IfOk result (λ name. constant_of pool.now number ≡ Some (Const.Class name)) }
{
    match class_at(pool, number)? {
        Some(name) => Ok(name),
        None => unreachable!(),
    }
}

/// The instruction that names the member.
pub(crate) fn reference(op: u8, member: MemberReference, interface: bool) -> Insn
    ensures { result ≡ insns.Reference op member.owner member.name member.descriptor interface }
{
    let MemberReference {
        owner,
        name,
        descriptor,
    } = member;
    Insn::Reference {
        op,
        owner,
        name,
        descriptor,
        interface,
    }
}

/// The instruction whose opcode takes the member with the number.
pub(crate) fn member_insn(pool: &Pool, op: u8, number: u16) -> Result<Insn, Memory>
    requires { (Takes pool.now op number → ⊥) → ⊥ }
    ensures { IfOk result (λ i. (offsets : List ℕ) (at : ℕ) → Means pool.now offsets at (raws.Reference op number) i) }
{
    match constant_at(pool, number)? {
        Some(Const::Field(member)) => Ok(reference(op, member, false)),
        Some(
            Const::Method {
                reference: member,
                interface,
            },
        ) => Ok(reference(op, member, interface)),
        _ => unreachable!(),
    }
}

/// The method of an interface with the number.
pub(crate) fn interface_method(pool: &Pool, number: u16) -> Result<MemberReference, Memory>
    requires { ((descriptor : List ℕ) → TakesInterface pool.now number descriptor → ⊥) → ⊥ }
    ensures named { IfOk result (λ m. constant_of pool.now number ≡ Some (Const.Method m true)) }
    ensures method { IfOk result (λ m. IsMethodDescriptor m.descriptor) }
{
    // The entries: each number names what its place needs.
    let _entries = pool.entries();
    match constant_at(pool, number)? {
        Some(
            Const::Method {
                reference,
                interface: true,
            },
        ) => Ok(reference),
        _ => unreachable!(),
    }
}

/// The call site with the number.
pub(crate) fn site_insn(pool: &Pool, number: u16) -> Result<Insn, Memory>
    requires { (TakesSite pool.now number → ⊥) → ⊥ }
    ensures { IfOk result (λ i. (offsets : List ℕ) (at : ℕ) → Means pool.now offsets at (raws.Dynamic number) i) }
{
    match constant_at(pool, number)? {
        Some(
            Const::InvokeDynamic {
                bootstrap,
                name,
                descriptor,
            },
        ) => Ok(Insn::Site {
            bootstrap,
            name,
            descriptor,
        }),
        _ => unreachable!(),
    }
}
