//! Thin classes: classes of the game and mixins of the form that is built.
ghost use Rattle.std.specs.Prelude.{◌↔◌, ◌≤◌, ℕ, List, length, IsTrue, IfOk, MatchOption};
ghost use Rattle.std.specs.List.{AllByRecursion};
ghost use Rattle.wv_merge.specs.Role.{role_of};
ghost use Rattle.wv_merge.specs.ThinClass.{AreClassNotes, AreMethodNotes, HasOneNote, IsMixinNoteOn, IsOwnName, IsThin, IsThinForm, IsThinMethod, MeetsRole, most_bytes};

use crate::note::{are_other, has_mixin, has_overwrite, one_target};
use crate::plain::is_plain_method;
use crate::role::Role;
use bitflags::Flags;
use std::alloc::Global;
use wv_base::{ClassFile, Member, Memory, Name, Note};

/// public and super (JVM Specification 4.1).
const CLASS_FLAGS: u16 = 0x0021;

/// How many bytes a thin class has at most.
const MOST_BYTES: usize = 4096;

fn are_method_notes(role: Role, notes: &[Note]) -> bool
    ensures { IsTrue result ↔ AreMethodNotes (role_of role) notes.now }
{
    match role {
        Role::Game => are_other(notes),
        Role::Mixin => has_overwrite(notes),
    }
}

fn are_class_notes(role: Role, notes: &[Note]) -> bool
    ensures { IsTrue result ↔ AreClassNotes (role_of role) notes.now }
{
    match role {
        Role::Game => are_other(notes),
        Role::Mixin => has_mixin(notes),
    }
}

fn is_thin_method(alloc: Global, role: Role, method: &Member) -> Result<bool, Memory>
    ensures { IfOk result (λ thin. IsTrue thin ↔ IsThinMethod (role_of role) method.now) }
{
    if method.value.is_some()
        || !method.throws.is_empty()
        || !are_method_notes(role, method.notes.as_slice())
    {
        return Ok(false);
    }
    is_plain_method(alloc, role, method)
}

fn are_thin_methods(alloc: Global, role: Role, methods: &[Member]) -> Result<bool, Memory>
    ensures { IfOk result (λ thin. IsTrue thin ↔ AllByRecursion (IsThinMethod (role_of role)) methods.now) }
{
    for method in methods {
        if !is_thin_method(alloc, role, method)? {
            return Ok(false);
        }
    }
    Ok(true)
}

/// Whether a mixin may have this name: its code means the target by it.
fn is_own_name(name: &Name) -> bool
    ensures { IsTrue result ↔ IsOwnName name.now }
{
    !name.is_ascii("java/lang/System") && !name.is_ascii("java/io/PrintStream")
}

fn meets_role(role: Role, class: &ClassFile) -> bool
    ensures { IsTrue result ↔ MeetsRole (role_of role) class.now }
{
    match role {
        Role::Game => true,
        Role::Mixin => class.methods.len() == 1 && is_own_name(&class.name),
    }
}

/// Whether a class is thin, of any size.
fn is_thin_form(alloc: Global, role: Role, class: &ClassFile) -> Result<bool, Memory>
    ensures { IfOk result (λ thin. IsTrue thin ↔ IsThinForm (role_of role) class.now) }
{
    if class.flags.bits() != CLASS_FLAGS
        || !class.superclass.is_ascii("java/lang/Object")
        || !class.interfaces.is_empty()
        || !class.fields.is_empty()
        || !are_class_notes(role, class.notes.as_slice())
        || !meets_role(role, class)
    {
        return Ok(false);
    }
    are_thin_methods(alloc, role, class.methods.as_slice())
}

#[tactic(auto, unfolding(crate::specs::ThinClass::most_bytes))]
fn is_short(bytes: &[u8]) -> bool
    ensures { IsTrue result ↔ (length bytes.now ≤ most_bytes) }
{
    bytes.len() <= MOST_BYTES
}

/// Whether a class that these bytes spell is thin in this role: a public class below
/// `java/lang/Object` of at most 4,096 bytes, with plain methods alone. A mixin has one method with
/// `@Overwrite`, and `@Mixin` on one class (our own).
///
/// It takes time linear in the bytes and in what they spell.
pub fn is_thin(alloc: Global, role: Role, bytes: &[u8], class: &ClassFile) -> Result<bool, Memory>
    ensures { IfOk result (λ thin. IsTrue thin ↔ IsThin (role_of role) bytes.now class.now) }
{
    if !is_short(bytes) {
        return Ok(false);
    }
    is_thin_form(alloc, role, class)
}

/// The descriptor of the class that a mixin's one `@Mixin` names. A class with none as the form has
/// it, or with another annotation of Mixin's packages or of MixinExtras', has no target (Mixin 0.8.5).
pub fn target_of(class: &ClassFile) -> Option<&Name>
    ensures { MatchOption result ((descriptor : List ℕ) → HasOneNote (IsMixinNoteOn descriptor) class.now.notes → ⊥)
        (λ descriptor. HasOneNote (IsMixinNoteOn descriptor.now) class.now.notes) }
{
    one_target(class.notes.as_slice())
}
