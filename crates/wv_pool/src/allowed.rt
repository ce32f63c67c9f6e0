//! The constants that a pool may hold.
ghost use Rattle.std.specs.Prelude.{◌↔◌, IsTrue};
ghost use Rattle.wv_pool.specs.References.{HasAngle, IsInit, IsSpecial};
ghost use Rattle.wv_pool.specs.Allowed.{IsShort, IsClassText, IsPairText, IsMethodText, IsFieldReference, IsMethodReference, IsCalled, IsHandle, IsAllowed};

use crate::length::text_len;
use wv_base::{
    Const, MemberReference, Name, is_class_constant, is_field_descriptor, is_field_name,
    is_method_descriptor, is_method_name,
};

fn is_short(text: &Name) -> bool
    ensures { IsTrue result ↔ IsShort text.now }
{
    text_len(text).is_some()
}

fn is_class_text(name: &Name) -> bool
    ensures { IsTrue result ↔ IsClassText name.now }
{
    is_short(name) && is_class_constant(name)
}

fn is_pair_text(name: &Name, descriptor: &Name) -> bool
    ensures { IsTrue result ↔ IsPairText name.now descriptor.now }
{
    is_short(name) && is_short(descriptor) && is_field_name(name)
}

fn has_angle(name: &Name) -> bool
    ensures { IsTrue result ↔ HasAngle name.now }
{
    is_field_name(name) && !is_method_name(name)
}

fn is_method_text(name: &Name, descriptor: &Name) -> bool
    ensures { IsTrue result ↔ IsMethodText name.now descriptor.now }
{
    is_pair_text(name, descriptor) && !has_angle(name) && is_method_descriptor(descriptor)
}

fn is_field(member: &MemberReference) -> bool
    ensures { IsTrue result ↔ IsFieldReference member.now }
{
    is_class_text(&member.owner)
        && is_pair_text(&member.name, &member.descriptor)
        && is_field_descriptor(&member.descriptor)
}

fn is_method(member: &MemberReference) -> bool
    ensures { IsTrue result ↔ IsMethodReference member.now }
{
    is_class_text(&member.owner) && is_method_text(&member.name, &member.descriptor)
}

fn is_special(name: &Name) -> bool
    ensures { IsTrue result ↔ IsSpecial name.now }
{
    name.is_ascii("<init>") || name.is_ascii("<clinit>")
}

/// Whether the name fits a handle that calls a class's method.
fn is_called(kind: u8, name: &Name) -> bool
    ensures { IsTrue result ↔ IsCalled kind name.now }
{
    if kind == 8 {
        name.is_ascii("<init>")
    } else {
        !is_special(name)
    }
}

fn is_handle(kind: u8, member: &MemberReference, interface: bool) -> bool
    ensures { IsTrue result ↔ IsHandle kind member.now interface }
{
    if interface {
        is_method(member) && 6 <= kind && kind <= 9 && kind != 8 && !is_special(&member.name)
    } else if kind <= 4 {
        is_field(member) && 1 <= kind
    } else {
        is_method(member) && kind <= 8 && is_called(kind, &member.name)
    }
}

/// Whether a pool may hold the constant: its texts have room and its names and descriptors meet the
/// grammars that its place asks for (JVM Specification 4.4).
pub fn is_allowed(constant: &Const) -> bool
    ensures { IsTrue result ↔ IsAllowed constant.now }
{
    match constant {
        Const::Utf8(text) | Const::String(text) => is_short(text),
        Const::Class(name) => is_class_text(name),
        Const::Field(member) => is_field(member),
        Const::Method { reference, .. } => is_method(reference),
        Const::NameAndType { name, descriptor } => {
            is_pair_text(name, descriptor)
                && (is_field_descriptor(descriptor) || is_method_descriptor(descriptor))
        }
        Const::MethodHandle {
            kind,
            reference,
            interface,
        } => is_handle(*kind, reference, *interface),
        Const::MethodType(descriptor) => is_short(descriptor) && is_method_descriptor(descriptor),
        Const::InvokeDynamic {
            name,
            descriptor,
            ..
        } => is_method_text(name, descriptor),
        Const::Integer(_) | Const::Float(_) | Const::Long(_) | Const::Double(_) => true,
    }
}
