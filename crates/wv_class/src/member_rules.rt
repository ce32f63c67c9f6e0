//! What fields and methods must meet (JVM Specification 4.5 and 4.6).
ghost use Rattle.std.specs.Prelude.{◌≡◌, ◌↔◌, ◌+◌, ◌≤◌, IsTrue, Some, if◌then◌else◌};
ghost use Rattle.wv_base.specs.Names.{is_unqualified, is_method_name};
ghost use Rattle.wv_base.specs.Descriptor.{IsFieldDescriptor, IsMethodDescriptor};
ghost use Rattle.wv_pool.specs.References.{text_of, IsText};
ghost use Rattle.wv_class.specs.Flags.{is_static};
ghost use Rattle.wv_class.specs.Breaks.{is_code, is_value, IsInitializer, HasItsCode, IsNarrow};

use crate::flags::{is_abstract, is_bodiless, is_native, is_static};
use crate::raw_class::{Content, RawMember};
use wv_base::{
    is_field_descriptor, is_field_name, is_method_descriptor, is_method_name, parameter_words,
};
use wv_pool::Pool;

/// How many words the parameters of a method take at most, with `this` (JVM Specification 4.3.3).
const MOST_WORDS: usize = 255;

pub(crate) fn has_field_name(pool: &Pool, field: &RawMember) -> bool
    ensures { IsTrue result ↔ IsText pool.now field.now.name (λ text. IsTrue (is_unqualified text)) }
{
    match pool.text(field.name) {
        Some(name) => is_field_name(name),
        None => false,
    }
}

pub(crate) fn has_field_descriptor(pool: &Pool, field: &RawMember) -> bool
    ensures { IsTrue result ↔ IsText pool.now field.now.descriptor IsFieldDescriptor }
{
    match pool.text(field.descriptor) {
        Some(descriptor) => is_field_descriptor(descriptor),
        None => false,
    }
}

pub(crate) fn has_method_name(pool: &Pool, method: &RawMember) -> bool
    ensures { IsTrue result ↔ IsText pool.now method.now.name (λ text. IsTrue (is_method_name text)) }
{
    match pool.text(method.name) {
        Some(name) => is_method_name(name),
        None => false,
    }
}

pub(crate) fn has_method_descriptor(pool: &Pool, method: &RawMember) -> bool
    ensures { IsTrue result ↔ IsText pool.now method.now.descriptor IsMethodDescriptor }
{
    match pool.text(method.descriptor) {
        Some(descriptor) => is_method_descriptor(descriptor),
        None => false,
    }
}

/// Whether the number names this text.
fn names_text(pool: &Pool, number: u16, text: &str) -> bool
    ensures { IsTrue result ↔ (text_of pool.now number ≡ Some text.now) }
{
    match pool.text(number) {
        Some(name) => name.is_ascii(text),
        None => false,
    }
}

/// Whether a method is static, without parameters and result, and has code, if it is a class
/// initializer by its name (JVM Specification 2.9).
pub(crate) fn is_initializer(pool: &Pool, method: &RawMember) -> bool
    ensures { IsTrue result ↔ IsInitializer pool.now method.now }
{
    !names_text(pool, method.name, "<clinit>")
        || (is_static(method.flags)
            && names_text(pool, method.descriptor, "()V")
            && !is_native(method.flags)
            && !is_abstract(method.flags))
}

pub(crate) fn is_code(content: &Content) -> bool
    ensures { result ≡ is_code content.now }
{
    matches!(content, Content::Code(_))
}

pub(crate) fn is_value(content: &Content) -> bool
    ensures { result ≡ is_value content.now }
{
    matches!(content, Content::ConstantValue(_))
}

/// Whether a method has one Code attribute, or none where it is native or abstract (JVM
/// Specification 4.7.3).
pub(crate) fn has_its_code(method: &RawMember) -> bool
    ensures { IsTrue result ↔ HasItsCode method.now }
{
    let codes = method
        .attributes
        .as_slice()
        .iter()
        .filter(|attribute| is_code(&attribute.content))
        .count();
    codes == if is_bodiless(method.flags) { 0 } else { 1 }
}

/// Whether a method's parameters may take so many words beside `this`, which a static method doesn't
/// have (JVM Specification 4.3.3).
fn are_few(words: usize, flags: u16) -> bool
    ensures { IsTrue result ↔ (words + (if is_static flags then 0 else 1) ≤ 255) }
{
    if is_static(flags) {
        words <= MOST_WORDS
    } else {
        words < MOST_WORDS
    }
}

/// Whether the parameters of a method, with `this`, take no more words than they may.
pub(crate) fn is_narrow(pool: &Pool, method: &RawMember) -> bool
    ensures { IsTrue result ↔ IsNarrow pool.now method.now }
{
    match pool.text(method.descriptor) {
        Some(descriptor) => match parameter_words(descriptor) {
            Some(words) => are_few(words, method.flags),
            None => true,
        },
        None => true,
    }
}
