//! Descriptors of fields and methods (JVM Specification 4.3).
ghost use Rattle.std.specs.Prelude.{◌≡◌, ◌≤◌, ◌==◌, ◌↔◌, ◌++◌, ℕ, length, List, [], ◌∷◌, IsTrue, IfSome, IfNone, Option};
ghost use Rattle.std.specs.Option.{option_map};
ghost use Rattle.std.specs.List.{prefix_len, position, sum_by};
ghost use Rattle.wv_base.specs.Descriptor.{element_words, field_words, descriptor_of, result_descriptor, method_descriptor_of, IsFieldType, IsResult, IsMethodType, IsFieldDescriptor, IsMethodDescriptor, IsClassConstant, HasWords};
ghost use Rattle.wv_base.specs.DescriptorReading.{class_at, element_at, field_at, IsParametersFront};

use crate::grammar::{BRACKET, SEMICOLON, is_class};
use crate::name::Name;
use sqlite_items::Items;

const OPEN: u16 = b'(' as u16;

const CLOSE: u16 = b')' as u16;

const CLASS: u16 = b'L' as u16;

const VOID: [u16; 1] = [b'V' as u16];

/// How many dimensions an array has at most (JVM Specification 4.3.2).
const MAX_DIMENSIONS: usize = 255;

/// A primitive type (JVM Specification, table 4.3-A).
#[derive(Clone, Copy, Debug, PartialEq, Eq)]
pub enum Primitive {
    Boolean,
    Byte,
    Char,
    Short,
    Int,
    Long,
    Float,
    Double,
}

impl Primitive {
    ghost use Rattle.wv_base.specs.Descriptor.{letters};
    ghost use Rattle.wv_base.specs.DescriptorReading.{primitive_of};

    /// The primitive type of this letter, if there is one.
    pub fn of_letter(letter: u16) -> Option<Primitive>
        ensures found { IfSome result (λ primitive. letters primitive ≡ letter ∷ []) }
        ensures none { IfNone result ((primitive : Primitive) → letters primitive ≡ letter ∷ [] → ⊥) }
        ensures exact { result ≡ primitive_of letter }
    {
        match u8::try_from(letter).ok()? {
            b'Z' => Some(Primitive::Boolean),
            b'B' => Some(Primitive::Byte),
            b'C' => Some(Primitive::Char),
            b'S' => Some(Primitive::Short),
            b'I' => Some(Primitive::Int),
            b'J' => Some(Primitive::Long),
            b'F' => Some(Primitive::Float),
            b'D' => Some(Primitive::Double),
            _ => None,
        }
    }
}

/// What an array is of below all its dimensions, or a type that is no array.
#[derive(Debug, Drop)]
pub enum ElementType {
    Primitive(Primitive),
    /// A class or an interface, by its name in internal form.
    Class(Name),
}

/// What a field descriptor says: an array of so many dimensions, or no array, with 0 of them.
#[derive(Debug, Drop)]
pub struct FieldType {
    pub element: ElementType,
    pub dimensions: u8,
}

/// What a method descriptor says. A method without a `result` is void.
#[derive(Debug, Drop)]
pub struct MethodType {
    pub parameters: Items<FieldType>,
    pub result: Option<FieldType>,
}

/// How many brackets stand at the front.
fn bracket_count(units: &[u16]) -> usize
    ensures count { result ≡ prefix_len (λ unit. unit == BRACKET) units.now }
    ensures within { result ≤ length units.now }
{
    units.iter().take_while(|unit| **unit == BRACKET).count()
}

fn semicolon_in(units: &[u16]) -> Option<usize>
    ensures { result ≡ position (λ unit. unit == SEMICOLON) units.now }
{
    units.iter().position(|unit| *unit == SEMICOLON)
}

/// What stands behind a class name and its semicolon.
#[tactic(auto, unfolding(crate::specs::DescriptorReading::class_at))]
fn after_class(units: &[u16]) -> Option<&[u16]>
    ensures { option_map (λ x. x.now) result ≡ option_map (λ x. x.1) (class_at units.now) }
{
    let end = semicolon_in(units)?;
    if is_class(&units[..end]) {
        Some(&units[end + 1..])
    } else {
        None
    }
}

/// How many words the type at the front takes, which is no array, and what stands behind it.
#[tactic(auto, unfolding(crate::specs::DescriptorReading::element_at))]
fn after_element(units: &[u16]) -> Option<(usize, &[u16])>
    ensures { option_map {U = ℕ × List ℕ} (λ x. (x.0, x.1.now)) result ≡ option_map (λ x. (element_words x.0, x.1)) (element_at units.now) }
{
    match units {
        [] => None,
        [CLASS, rest @ ..] => Some((1, after_class(rest)?)),
        [letter, rest @ ..] => match Primitive::of_letter(*letter)? {
            Primitive::Long | Primitive::Double => Some((2, rest)),
            _ => Some((1, rest)),
        },
    }
}

/// How many words the type at the front takes, and what stands behind it.
#[tactic(auto, unfolding(crate::specs::DescriptorReading::field_at))]
fn after_field(units: &[u16]) -> Option<(usize, &[u16])>
    ensures { option_map {U = ℕ × List ℕ} (λ x. (x.0, x.1.now)) result ≡ option_map (λ x. (field_words x.0, x.1)) (field_at units.now) }
{
    let dimensions = bracket_count(units);
    if dimensions > MAX_DIMENSIONS {
        return None;
    }
    let (words, rest) = after_element(&units[dimensions..])?;
    if dimensions > 0 {
        Some((1, rest))
    } else {
        Some((words, rest))
    }
}

fn is_field(units: &[u16]) -> bool
    ensures { IsTrue result ↔ IsFieldDescriptor units.now }
{
    match after_field(units) {
        Some((_, rest)) => rest.is_empty(),
        None => false,
    }
}

fn is_result(units: &[u16]) -> bool
    ensures { IsTrue result ↔ ((of : Option FieldType) × IsResult of × (units.now ≡ result_descriptor of)) }
{
    units == VOID.as_slice() || is_field(units)
}

/// What stands behind this unit at the front.
fn behind(units: &[u16], first: u16) -> Option<&[u16]>
    ensures found { IfSome result (λ rest. units.now ≡ first ∷ rest.now) }
    ensures none { IfNone result ((rest : List ℕ) → units.now ≡ first ∷ rest → ⊥) }
{
    match units {
        [unit, rest @ ..] if *unit == first => Some(rest),
        _ => None,
    }
}

/// How many words the parameters at the front take, and what stands behind their parenthesis.
fn after_parameters(units: &[u16]) -> Option<(usize, &[u16])>
    ensures found { IfSome result (λ x. (fields : List FieldType) × IsParametersFront units.now fields x.1.now × (x.0 ≡ sum_by field_words fields)) }
    ensures none { IfNone result ((fields : List FieldType) (rest : List ℕ) → IsParametersFront units.now fields rest → ⊥) }
{
    let mut words = 0;
    let mut rest = units;
    loop {
        if let Some(after) = behind(rest, CLOSE) {
            return Some((words, after));
        }
        let (more, after) = after_field(rest)?;
        words += more;
        rest = after;
    }
}

fn method_words(units: &[u16]) -> Option<usize>
    ensures found { IfSome result (HasWords units.now) }
    ensures none { IfNone result (IsMethodDescriptor units.now → ⊥) }
{
    let (words, after) = after_parameters(behind(units, OPEN)?)?;
    if is_result(after) { Some(words) } else { None }
}

/// Whether this is a field descriptor (JVM Specification 4.3.2).
pub fn is_field_descriptor(name: &Name) -> bool
    ensures { IsTrue result ↔ IsFieldDescriptor name.now }
{
    is_field(name.units())
}

/// Whether this is a method descriptor (JVM Specification 4.3.3), of however many words.
pub fn is_method_descriptor(name: &Name) -> bool
    ensures { IsTrue result ↔ IsMethodDescriptor name.now }
{
    parameter_words(name).is_some()
}

/// How many words the arguments of a method descriptor take, without `this`: two for each long and
/// double, one for each other. None for a name that is no method descriptor.
pub fn parameter_words(descriptor: &Name) -> Option<usize>
    ensures found { IfSome result (HasWords descriptor.now) }
    ensures none { IfNone result (IsMethodDescriptor descriptor.now → ⊥) }
{
    method_words(descriptor.units())
}

/// Whether a Class constant may have this name (JVM Specification 4.4.1): a class's name, or an
/// array's descriptor.
pub fn is_class_constant(name: &Name) -> bool
    ensures { IsTrue result ↔ IsClassConstant name.now }
{
    match name.units() {
        [BRACKET, ..] => is_field(name.units()),
        units => is_class(units),
    }
}

/// No two types have one descriptor, not even with other units behind it: reading from the front
/// gives the one type whose descriptor stands there.
pub fn one_descriptor()
    ensures front { (units rest : List ℕ) (field : FieldType) → (field_at units ≡ Some (field, rest)) ↔ (IsFieldType field × (units ≡ descriptor_of field ++ rest)) }
    ensures field { (a b : FieldType) → IsFieldType a → IsFieldType b → descriptor_of a ≡ descriptor_of b → a ≡ b }
    ensures method { (a b : MethodType) → IsMethodType a → IsMethodType b → method_descriptor_of a ≡ method_descriptor_of b → a ≡ b }
{}

#[cfg(test)]
mod tests {
    use super::*;
    use std::test::Fail;

    #[test]
    fn fields(rt: HostRuntime) -> Result<(), Fail> {
        for (text, is) in [
            ("I", true),
            ("Z", true),
            ("Ljava/lang/Object;", true),
            ("[[D", true),
            ("[La;", true),
            ("", false),
            ("V", false),
            ("[", false),
            ("[V", false),
            ("II", false),
            ("La", false),
            ("L;", false),
            ("La//b;", false),
            ("La.b;", false),
            ("La;;", false),
        ] {
            let name = Name::from_ascii(rt.alloc(), text)?;
            assert_eq!(rt; is_field_descriptor(&name), is, "{text}");
        }
        Ok(())
    }

    #[test]
    fn dimensions(rt: HostRuntime) -> Result<(), Fail> {
        for (dimensions, is) in [(0, true), (1, true), (255, true), (256, false)] {
            let mut units = vec![in rt.alloc(); BRACKET; dimensions]?;
            units.push(b'I' as u16)?;
            let name = Name::from_vec(rt.alloc(), units)?;
            assert_eq!(rt; is_field_descriptor(&name), is, "{dimensions}");
            // With no dimension, this is a class of the name I.
            assert_eq!(rt; is_class_constant(&name), is, "{dimensions}");
        }
        Ok(())
    }

    #[test]
    fn methods(rt: HostRuntime) -> Result<(), Fail> {
        for (text, words) in [
            ("()V", Some(0)),
            ("(IDLjava/lang/Thread;)Ljava/lang/Object;", Some(4)),
            ("([J[[DJZ)[I", Some(5)),
            ("", None),
            ("()", None),
            ("V", None),
            ("(V)V", None),
            ("(I)", None),
            ("(I", None),
            ("()VV", None),
            ("(La/b)V", None),
            ("I()V", None),
        ] {
            let name = Name::from_ascii(rt.alloc(), text)?;
            assert_eq!(rt; parameter_words(&name), words, "{text}");
            assert_eq!(rt; is_method_descriptor(&name), words.is_some(), "{text}");
        }
        Ok(())
    }
}
