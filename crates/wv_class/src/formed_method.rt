//! Whether a class file can have a method.
ghost use Rattle.std.specs.Prelude.{◌≡◌, ◌+◌, ◌↔◌, if◌then◌else◌, IsTrue, IfOk};
ghost use Rattle.std.specs.List.{AllByRecursion};
ghost use Rattle.wv_base.specs.Names.{is_method_name};
ghost use Rattle.wv_base.specs.Descriptor.{IsMethodDescriptor};
ghost use Rattle.wv_pool.specs.Allowed.{IsShort, IsClassText};
ghost use Rattle.wv_class.specs.Flags.{is_static, is_bodiless};
ghost use Rattle.wv_class.specs.FormedMethod.{HasFormedName, HasFormedHead, HasFormedAttributes};
ghost use Rattle.wv_class.specs.Formed.{IsFormedWidth, IsFormedInitializer, HasFormedBody, IsFormedMethod};

use crate::flags::{is_bodiless, is_static};
use crate::formed_names::{are_class_texts, is_short};
use crate::formed_notes::{are_formed_kept, are_formed_notes};
use crate::raw_class::Place;
use bitflags::Flags;
use std::alloc::Global;
use wv_base::{AccessFlags, Member, Memory, is_method_descriptor, is_method_name, parameter_words};
use wv_code::is_formed;
use wv_pool::Pool;

/// Whether the method has a name and a descriptor.
fn is_named(method: &Member) -> Result<bool, Memory>
    ensures { IfOk result (λ is. IsTrue is ↔ HasFormedName method.now) }
{
    Ok(
        is_method_name(&method.name)
            && is_short(&method.name)?
            && is_method_descriptor(&method.descriptor)
            && is_short(&method.descriptor)?,
    )
}

/// How many words parameters can take behind `this`, which a static method doesn't have.
fn most_words(flags: AccessFlags) -> usize
    ensures { result + (if is_static flags.0 then 0 else 1) ≡ 255 }
{
    if is_static(flags.bits()) { 255 } else { 254 }
}

/// Whether the parameters, with `this`, take at most 255 words.
fn is_narrow(method: &Member) -> bool
    ensures { IsTrue result ↔ IsFormedWidth method.now }
{
    match parameter_words(&method.descriptor) {
        Some(words) => words <= most_words(method.flags),
        None => true,
    }
}

/// Whether a class initializer is such as one must be.
fn is_formed_initializer(method: &Member) -> bool
    ensures { IsTrue result ↔ IsFormedInitializer method.now }
{
    if !method.name.is_ascii("<clinit>") {
        return true;
    }
    is_static(method.flags.bits())
        && method.descriptor.is_ascii("()V")
        && !is_bodiless(method.flags.bits())
}

/// Whether the method has a body exactly where it is neither native nor abstract.
fn has_formed_body(pool: &Pool, method: &Member) -> Result<bool, Memory>
    ensures { IfOk result (λ has. IsTrue has ↔ HasFormedBody pool.now (is_bodiless method.now.flags.0) method.now.body) }
{
    let bodiless = is_bodiless(method.flags.bits());
    match &method.body {
        Some(body) => Ok(!bodiless && is_formed(body, pool)?),
        None => Ok(bodiless),
    }
}

/// Whether the method has a name, a descriptor and flags that fit each other, and no value.
fn has_formed_head(method: &Member) -> Result<bool, Memory>
    ensures { IfOk result (λ has. IsTrue has ↔ HasFormedHead method.now) }
{
    if method.value.is_some() || !is_narrow(method) || !is_formed_initializer(method) {
        return Ok(false);
    }
    is_named(method)
}

/// Whether its attributes are such as a method can have.
fn has_formed_attributes(alloc: Global, pool: &Pool, method: &Member) -> Result<bool, Memory>
    ensures { IfOk result (λ has. IsTrue has ↔ HasFormedAttributes pool.now method.now) }
{
    Ok(
        has_formed_body(pool, method)?
            && are_class_texts(method.throws.as_slice())?
            && are_formed_notes(alloc, Place::Method, method.notes.as_slice())?
            && are_formed_kept(pool.entries(), Place::Method, method.kept.as_slice()),
    )
}

fn is_formed_method(alloc: Global, pool: &Pool, method: &Member) -> Result<bool, Memory>
    ensures { IfOk result (λ is. IsTrue is ↔ IsFormedMethod pool.now method.now) }
{
    Ok(has_formed_head(method)? && has_formed_attributes(alloc, pool, method)?)
}

pub(crate) fn are_formed_methods(
    alloc: Global,
    pool: &Pool,
    methods: &[Member],
) -> Result<bool, Memory>
    ensures { IfOk result (λ are. IsTrue are ↔ AllByRecursion (IsFormedMethod pool.now) methods.now) }
{
    for method in methods {
        if !is_formed_method(alloc, pool, method)? {
            return Ok(false);
        }
    }
    Ok(true)
}
