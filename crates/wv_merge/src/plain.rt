//! Plain methods: fourteen instructions, of which `return` ends the code (JVM Specification 4.6 and chapter 6).
ghost use Rattle.std.specs.Prelude.{◌↔◌, IsTrue, IfOk};
ghost use Rattle.std.specs.List.{AllByRecursion};
ghost use Rattle.wv_model.specs.PlainCode.{EndsWithReturn, IsMethodOf, IsOrdinary, IsPlainOpcode, IsReferenceCalling};
ghost use Rattle.wv_model.specs.PlainMethod.{IsPlainDescriptor};
ghost use Rattle.wv_merge.specs.Plain.{HasRoom, IsPlain, IsPlainBody, IsPlainMethod, IsReference, IsReturn, reference_of};
ghost use Rattle.wv_merge.specs.Role.{role_of};
ghost use Rattle.wv_merge.specs.ThinClass.{IsNoArray};

use crate::note::begins_with;
use crate::opcode::{
    BIPUSH, GETSTATIC, IADD, ICONST_0, ICONST_5, IMUL, INVOKESTATIC, INVOKEVIRTUAL, POP, RETURN,
};
use crate::role::Role;
use crate::typing::has_typing;
use bitflags::Flags;
use std::alloc::Global;
use wv_base::{Body, Insn, Member, Memory, Name, is_method_name};

/// public and static (JVM Specification 4.6).
const METHOD_FLAGS: u16 = 0x0009;

/// The descriptor of a method that the platform starts.
const MAIN_DESCRIPTOR: &str = "([Ljava/lang/String;)V";

/// The names by which a field or a method is referred to.
#[derive(Drop)]
struct Referred<'a> {
    owner: &'a Name,
    name: &'a Name,
    descriptor: &'a Name,
}

fn is_plain_opcode(op: u8) -> bool
    ensures { IsTrue result ↔ IsPlainOpcode op }
{
    ICONST_0 <= op && op <= ICONST_5 || op == IADD || op == IMUL || op == POP || op == RETURN
}

fn is_reference(member: &Referred<'_>, owner: &str, name: &str, descriptor: &str) -> bool
    ensures { IsTrue result ↔ IsReference member.entry.now owner.now name.now descriptor.now }
{
    member.owner.is_ascii(owner)
        && member.name.is_ascii(name)
        && member.descriptor.is_ascii(descriptor)
}

/// Whether plain code calls methods of this class: of any that is no array.
fn is_no_array(owner: &Name) -> bool
    ensures { IsTrue result ↔ IsNoArray owner.now }
{
    !begins_with(owner, "[")
}

/// Whether a method's name is that of no special method.
fn is_ordinary(name: &Name) -> bool
    ensures { IsTrue result ↔ IsOrdinary name.now }
{
    !name.is_ascii("<init>") && !name.is_ascii("<clinit>")
}

fn is_called(method: &Referred<'_>) -> bool
    ensures { IsTrue result ↔ IsMethodOf IsNoArray (reference_of method.entry.now) }
{
    is_no_array(method.owner) && is_ordinary(method.name) && method.descriptor.is_ascii("()V")
}

/// Whether an instruction with this opcode may refer to the member in plain code.
fn is_plain_reference(op: u8, member: &Referred<'_>) -> bool
    ensures { IsTrue result ↔ IsReferenceCalling IsNoArray op (reference_of member.entry.now) }
{
    match op {
        GETSTATIC => is_reference(member, "java/lang/System", "out", "Ljava/io/PrintStream;"),
        INVOKEVIRTUAL => is_reference(member, "java/io/PrintStream", "println", "(I)V"),
        INVOKESTATIC => is_called(member),
        _ => false,
    }
}

fn is_plain_insn(insn: &Insn) -> bool
    ensures { IsTrue result ↔ IsPlain insn.now }
{
    match insn {
        Insn::Plain { op } => is_plain_opcode(*op),
        Insn::Push { op, value } => *op == BIPUSH && -128 <= *value && *value <= 127,
        Insn::Reference {
            op,
            owner,
            name,
            descriptor,
            interface,
        } => {
            let member = Referred {
                owner,
                name,
                descriptor,
            };
            !*interface && is_plain_reference(*op, &member)
        }
        _ => false,
    }
}

fn are_plain(insns: &[Insn]) -> bool
    ensures { IsTrue result ↔ AllByRecursion IsPlain insns.now }
{
    for insn in insns {
        if !is_plain_insn(insn) {
            return false;
        }
    }
    true
}

fn is_return(insn: &Insn) -> bool
    ensures { IsTrue result ↔ IsReturn insn.now }
{
    matches!(insn, Insn::Plain { op: RETURN })
}

/// Whether `return` ends the code, and stands nowhere else in it.
fn ends_with_return(insns: &[Insn]) -> bool
    ensures { IsTrue result ↔ EndsWithReturn insns.now }
{
    for (place, insn) in insns.iter().enumerate() {
        if is_return(insn) {
            return place + 1 == insns.len();
        }
    }
    false
}

fn is_descriptor(role: Role, descriptor: &Name) -> bool
    ensures { IsTrue result ↔ IsPlainDescriptor (role_of role) descriptor.now }
{
    match role {
        Role::Game => descriptor.is_ascii("()V") || descriptor.is_ascii(MAIN_DESCRIPTOR),
        Role::Mixin => descriptor.is_ascii("()V"),
    }
}

/// Whether the words of the parameters are within the locals.
fn has_room(role: Role, descriptor: &Name, max_locals: u16) -> bool
    requires { IsPlainDescriptor (role_of role) descriptor.now }
    ensures { IsTrue result ↔ HasRoom descriptor.now max_locals }
{
    descriptor.is_ascii("()V") || 1 <= max_locals
}

/// Whether code is plain and verifies, for a method with this descriptor.
fn is_plain_body(alloc: Global, role: Role, descriptor: &Name, body: &Body) -> Result<bool, Memory>
    requires { IsPlainDescriptor (role_of role) descriptor.now }
    ensures { IfOk result (λ plain. IsTrue plain ↔ IsPlainBody descriptor.now body.now) }
{
    let insns = body.insns.as_slice();
    if !(are_plain(insns)
        && ends_with_return(insns)
        && body.ranges.is_empty()
        && body.frames.is_empty()
        && has_room(role, descriptor, body.max_locals))
    {
        return Ok(false);
    }
    has_typing(alloc, body.max_stack, insns)
}

/// Whether a method is plain.
pub(crate) fn is_plain_method(alloc: Global, role: Role, method: &Member) -> Result<bool, Memory>
    ensures { IfOk result (λ plain. IsTrue plain ↔ IsPlainMethod (role_of role) method.now) }
{
    let Some(body) = &method.body else {
        return Ok(false);
    };
    if method.flags.bits() != METHOD_FLAGS
        || !is_method_name(&method.name)
        || !is_ordinary(&method.name)
        || !is_descriptor(role, &method.descriptor)
    {
        return Ok(false);
    }
    is_plain_body(alloc, role, &method.descriptor, body)
}
