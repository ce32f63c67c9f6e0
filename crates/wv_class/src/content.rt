//! Reading the contents of attributes, each of a length that its kind allows.
ghost use Rattle.std.specs.Prelude.{◌≡◌, ◌-◌, List, length, take, drop};
ghost use Rattle.wv_base.specs.declared.class_file.PoolEntry.{PoolEntry};
ghost use Rattle.wv_class.specs.declared.raw_class.Kind.TheVariants as kinds;
ghost use Rattle.wv_class.specs.Lengths.{AllowsLength};
ghost use Rattle.wv_class.specs.Contents.{SpellsSized};
ghost use Rattle.wv_class.specs.Reading.{Reads};

use crate::number::{exactly_at, short_at, shorts_in};
use crate::raw_class::{Content, Kind};
use crate::stop::Stop;
use std::alloc::Global;
use wv_attr::{read_layout as read_annotations, read_parameter_layout};
use wv_base::{Bytes, ClassFault, Items, PoolEntry};
use wv_code::read_layout as read_code;

/// The bytes of a content of so many that are there, those behind them, and how many are missing.
fn cut(len: u32, bytes: &[u8]) -> (&[u8], &[u8], u32)
    ensures front { result.0.now ≡ take len bytes.now }
    ensures rest { result.1.now ≡ drop len bytes.now }
    ensures missing { result.2 ≡ len - length bytes.now }
{
    let there = bytes.len().min(len as usize);
    let (front, rest) = bytes.split_at(there);
    (front, rest, len - there as u32)
}

/// The content of a Code attribute (JVM Specification 4.7.3).
fn code_in<'a>(
    alloc: Global,
    pool: &[PoolEntry],
    len: u32,
    bytes: &'a [u8],
) -> Result<(Content, &'a [u8]), Stop>
    requires { AllowsLength kinds.Code len }
    ensures { Reads (λ x. (x.0, x.1.now)) (SpellsSized pool.now kinds.Code len) bytes.now result }
{
    let (front, rest, missing) = cut(len, bytes);
    match read_code(alloc, front, pool, missing) {
        Ok(raw) => Ok((Content::Code(raw), rest)),
        Err(ClassFault::Layout { at }) => Err(Stop::Left(bytes.len() - at)),
        Err(ClassFault::Reference { .. }) => unreachable!(),
        Err(ClassFault::Memory) => Err(Stop::Memory),
    }
}

/// The number of a field's value (JVM Specification 4.7.2).
fn constant_in(bytes: &[u8]) -> Result<(Content, &[u8]), Stop>
    ensures { (pool : List PoolEntry) → Reads (λ x. (x.0, x.1.now)) (SpellsSized pool kinds.ConstantValue 2) bytes.now result }
{
    let (number, rest) = short_at(bytes)?;
    Ok((Content::ConstantValue(number), rest))
}

/// The numbers of classes that are thrown, whose count the length tells (JVM Specification 4.7.5).
fn exceptions_in(alloc: Global, len: u32, bytes: &[u8]) -> Result<(Content, &[u8]), Stop>
    requires { AllowsLength kinds.Exceptions len }
    ensures { (pool : List PoolEntry) → Reads (λ x. (x.0, x.1.now)) (SpellsSized pool kinds.Exceptions len) bytes.now result }
{
    let (count, rest) = exactly_at(2, (len - 2) / 2, bytes)?;
    let (numbers, rest) = shorts_in(alloc, count as u16, rest)?;
    Ok((Content::Exceptions(numbers), rest))
}

/// A list of annotations (JVM Specification 4.7.16 and 4.7.17).
fn annotations_in(
    alloc: Global,
    visible: bool,
    len: u32,
    bytes: &[u8],
) -> Result<(Content, &[u8]), Stop>
    requires { AllowsLength (kinds.Annotations visible) len }
    ensures { (pool : List PoolEntry) → Reads (λ x. (x.0, x.1.now)) (SpellsSized pool (kinds.Annotations visible) len) bytes.now result }
{
    let (front, rest, missing) = cut(len, bytes);
    match read_annotations(alloc, front, missing) {
        Ok(parts) => {
            let parts = Items::from_vec(parts);
            Ok((Content::Annotations { visible, parts }, rest))
        }
        Err(ClassFault::Layout { at }) => Err(Stop::Left(bytes.len() - at)),
        Err(ClassFault::Reference { .. }) => unreachable!(),
        Err(ClassFault::Memory) => Err(Stop::Memory),
    }
}

/// The lists of annotations of parameters (JVM Specification 4.7.18 and 4.7.19).
fn parameters_in(
    alloc: Global,
    visible: bool,
    len: u32,
    bytes: &[u8],
) -> Result<(Content, &[u8]), Stop>
    requires { AllowsLength (kinds.ParameterAnnotations visible) len }
    ensures { (pool : List PoolEntry) → Reads (λ x. (x.0, x.1.now)) (SpellsSized pool (kinds.ParameterAnnotations visible) len) bytes.now result }
{
    let (front, rest, missing) = cut(len, bytes);
    match read_parameter_layout(alloc, front, missing) {
        Ok(parts) => {
            let parts = Items::from_vec(parts);
            Ok((Content::ParameterAnnotations { visible, parts }, rest))
        }
        Err(ClassFault::Layout { at }) => Err(Stop::Left(bytes.len() - at)),
        Err(ClassFault::Reference { .. }) => unreachable!(),
        Err(ClassFault::Memory) => Err(Stop::Memory),
    }
}

/// Bytes that are kept.
fn other_in(alloc: Global, len: u32, bytes: &[u8]) -> Result<(Content, &[u8]), Stop>
    ensures { (pool : List PoolEntry) → Reads (λ x. (x.0, x.1.now)) (SpellsSized pool kinds.Other len) bytes.now result }
{
    let (front, rest, missing) = cut(len, bytes);
    if missing > 0 {
        return Err(Stop::Left(0));
    }
    Ok((Content::Other(Bytes::from_slice(alloc, front)?), rest))
}

/// The content of an attribute of this kind, and the bytes behind it. It fills the length.
pub(crate) fn content_at<'a>(
    alloc: Global,
    pool: &[PoolEntry],
    kind: Kind,
    len: u32,
    bytes: &'a [u8],
) -> Result<(Content, &'a [u8]), Stop>
    requires { AllowsLength kind len }
    ensures { Reads (λ x. (x.0, x.1.now)) (SpellsSized pool.now kind len) bytes.now result }
{
    match kind {
        Kind::Code => code_in(alloc, pool, len, bytes),
        Kind::ConstantValue => constant_in(bytes),
        Kind::Exceptions => exceptions_in(alloc, len, bytes),
        Kind::Annotations { visible } => annotations_in(alloc, visible, len, bytes),
        Kind::ParameterAnnotations { visible } => parameters_in(alloc, visible, len, bytes),
        Kind::Other => other_in(alloc, len, bytes),
    }
}
