//! Reading the bytes of a class file.
ghost use Rattle.std.specs.Prelude.{◌≡◌, ◌+◌, length, IfOk, IfErr};
ghost use Rattle.wv_pool.specs.Entries.{pool_bytes};
ghost use Rattle.wv_class.specs.declared.raw_class.RawClass.{RawClass};
ghost use Rattle.wv_class.specs.Layout.{IsClass, GivesRaw, LayoutBreaks, SpellsClass, SpellsRest};
ghost use Rattle.wv_class.specs.Reading.{Reads};
ghost use Rattle.wv_class.specs.Heads.{SpellsHead, SpellsPool};

use crate::attribute::attributes_at;
use crate::member::members_at;
use crate::number::{exactly_at, short_at, shorts_at, three_at};
use crate::raw_class::{Place, RawClass, RawRest};
use crate::stop::Stop;
use std::alloc::Global;
use wv_base::{ClassFault, ClassVersion, Items, PoolEntry};

const MAGIC: u32 = 0xCAFE_BABE;

/// The version behind the magic number, and the bytes behind it.
fn head_at(bytes: &[u8]) -> Result<(ClassVersion, &[u8]), Stop>
    ensures { Reads (λ x. (x.0, x.1.now)) SpellsHead bytes.now result }
{
    let (_magic, rest) = exactly_at(4, MAGIC, bytes)?;
    let (minor, rest) = short_at(rest)?;
    let (major, rest) = short_at(rest)?;
    Ok((ClassVersion { major, minor }, rest))
}

/// The entries of the pool, and the bytes behind it.
fn pool_at(alloc: Global, bytes: &[u8]) -> Result<(Items<PoolEntry>, &[u8]), Stop>
    ensures { Reads (λ x. (x.0, x.1.now)) SpellsPool bytes.now result }
{
    match wv_pool::read_layout(alloc, bytes) {
        Ok((entries, len)) => {
            let (_, rest) = bytes.split_at(len.min(bytes.len()));
            Ok((Items::from_vec(entries), rest))
        }
        Err(ClassFault::Layout { at }) => Err(Stop::Left(bytes.len() - at)),
        Err(ClassFault::Reference { .. }) => unreachable!(),
        Err(ClassFault::Memory) => Err(Stop::Memory),
    }
}

/// What stands behind the pool, and the bytes behind it.
fn rest_at<'a>(
    alloc: Global,
    pool: &[PoolEntry],
    bytes: &'a [u8],
) -> Result<(RawRest, &'a [u8]), Stop>
    ensures { Reads (λ x. (x.0, x.1.now)) (SpellsRest pool.now) bytes.now result }
{
    let (head, rest) = three_at(bytes)?;
    let (interfaces, rest) = shorts_at(alloc, rest)?;
    let (fields, rest) = members_at(alloc, pool, Place::Field, rest)?;
    let (methods, rest) = members_at(alloc, pool, Place::Method, rest)?;
    let (attributes, rest) = attributes_at(alloc, pool, Place::Class, rest)?;
    let class = RawRest {
        flags: head.first,
        class: head.second,
        superclass: head.third,
        interfaces,
        fields,
        methods,
        attributes,
    };
    Ok((class, rest))
}

/// A class file and the place behind its pool, and the bytes behind the class file.
fn class_at(alloc: Global, bytes: &[u8]) -> Result<((RawClass, usize), &[u8]), Stop>
    ensures reads { Reads (λ x. (x.0.0, x.1.now)) SpellsClass bytes.now result }
    ensures behind { IfOk result (λ x. x.0.1 ≡ 8 + length (pool_bytes x.0.0.pool)) }
{
    let (version, after) = head_at(bytes)?;
    let (pool, after) = pool_at(alloc, after)?;
    let behind_pool = bytes.len() - after.len();
    let (rest, after) = rest_at(alloc, pool.as_slice(), after)?;
    let class = RawClass {
        version,
        pool,
        rest,
    };
    Ok(((class, behind_pool), after))
}

/// The class file that the bytes are, whatever its numbers name (JVM Specification 4.1), and the place
/// behind its pool. The place of a fault is the first byte with which no class file goes on, or the end
/// of the bytes.
pub(crate) fn read_layout(alloc: Global, bytes: &[u8]) -> Result<(RawClass, usize), ClassFault>
    // What is read was spelled so.
    ensures found { IfOk result (λ x. IsClass x.0 bytes.now) }
    ensures behind { IfOk result (λ x. x.1 ≡ 8 + length (pool_bytes x.0.pool)) }
    // What is spelled so is read, unless memory runs out.
    ensures only { (c : RawClass) → IsClass c bytes.now → GivesRaw result c }
    ensures fault { IfErr result (LayoutBreaks bytes.now) }
{
    match class_at(alloc, bytes) {
        Ok((class, rest)) if rest.is_empty() => Ok(class),
        Ok((_class, rest)) => Err(ClassFault::Layout {
            at: bytes.len() - rest.len(),
        }),
        Err(Stop::Left(left)) => Err(ClassFault::Layout {
            at: bytes.len() - left,
        }),
        Err(Stop::Memory) => Err(ClassFault::Memory),
    }
}
