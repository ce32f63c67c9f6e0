//! Whether the numbers of a table's parts name what their places need.
ghost use Rattle.std.specs.Prelude.{◌≡◌, ◌↔◌, ◌+◌, ◌<◌, ◌≤◌, ◌^◌, length, IsTrue, IfSome, IfNone, codes};
ghost use Rattle.std.specs.List.{AllByRecursion};
ghost use Rattle.wv_base.specs.Descriptor.{IsFieldDescriptor};
ghost use Rattle.wv_pool.specs.References.{IsText};
ghost use Rattle.wv_attr.specs.Marks.{table_bytes};
ghost use Rattle.wv_attr.specs.Types.{AreTypes};
ghost use Rattle.wv_attr.specs.References.{IsClassDescriptor, IsClassValue, has_tag, FirstHolds, SecondHolds, IsSound, BreaksAt, FirstBreaks};

use crate::mark::Mark;
use crate::types::Types;
use wv_base::PoolEntry;
use wv_pool::Pool;

fn has_tag(entry: &PoolEntry, tag: u8) -> bool
    ensures { result ≡ has_tag entry.now tag }
{
    match entry {
        PoolEntry::Integer(_) => matches!(tag, b'B' | b'C' | b'I' | b'S' | b'Z'),
        PoolEntry::Float(_) => tag == b'F',
        PoolEntry::Long(_) => tag == b'J',
        PoolEntry::Double(_) => tag == b'D',
        PoolEntry::Utf8(_) => tag == b's',
        _ => false,
    }
}

fn is_text(pool: &Pool, number: u16) -> bool
    ensures { IsTrue result ↔ IsText pool.now number (λ _. Unit {0}) }
{
    pool.text(number).is_some()
}

fn is_class(pool: &Pool, types: &Types, number: u16) -> bool
    requires { AreTypes pool.now types.now }
    ensures { IsTrue result ↔ IsText pool.now number IsClassDescriptor }
{
    types.class(number).is_some()
}

fn is_field(pool: &Pool, types: &Types, number: u16) -> bool
    requires { AreTypes pool.now types.now }
    ensures { IsTrue result ↔ IsText pool.now number IsFieldDescriptor }
{
    types.get(number).is_some()
}

fn is_void(pool: &Pool, number: u16) -> bool
    ensures { IsTrue result ↔ IsText pool.now number (λ text. text ≡ codes "V") }
{
    match pool.text(number) {
        Some(text) => text.is_ascii("V"),
        None => false,
    }
}

fn first_holds(pool: &Pool, types: &Types, mark: &Mark) -> bool
    requires { AreTypes pool.now types.now }
    ensures { IsTrue result ↔ FirstHolds pool.now mark.now }
{
    match mark {
        Mark::Annotation { class, .. } => is_class(pool, types, *class),
        Mark::Name { name } => is_text(pool, *name),
        Mark::Constant { tag, value } => match pool.entry(*value) {
            Some(entry) => has_tag(entry, *tag),
            None => false,
        },
        Mark::Enum { descriptor, .. } => is_field(pool, types, *descriptor),
        Mark::Class { descriptor } => {
            is_field(pool, types, *descriptor) || is_void(pool, *descriptor)
        }
        _ => true,
    }
}

fn second_holds(pool: &Pool, mark: &Mark) -> bool
    ensures { IsTrue result ↔ SecondHolds pool.now mark.now }
{
    match mark {
        Mark::Enum { name, .. } => is_text(pool, *name),
        _ => true,
    }
}

/// The place in the part of the first number that breaks what it must meet.
fn break_in(pool: &Pool, types: &Types, mark: &Mark) -> Option<usize>
    requires { AreTypes pool.now types.now }
    ensures found { IfSome result (BreaksAt pool.now mark.now) }
    ensures none { IfNone result (IsSound pool.now mark.now) }
    ensures near { IfSome result (λ place. place ≤ 3) }
{
    if !first_holds(pool, types, mark) {
        return match mark {
            Mark::Annotation { .. } | Mark::Name { .. } => Some(0),
            _ => Some(1),
        };
    }
    if !second_holds(pool, mark) {
        return Some(3);
    }
    None
}

/// The place of the first number that doesn't name what it must (JVM Specification 4.7.16 and
/// 4.7.16.1), counted from the first part on. None where each number names what its place needs. A
/// table of parameters has one byte before its first part.
pub fn first_break(pool: &Pool, types: &Types, parts: &[Mark]) -> Option<usize>
    requires types { AreTypes pool.now types.now }
    requires small { length (table_bytes parts.now) < 2 ^ 32 }
    ensures found { IfSome result (FirstBreaks pool.now parts.now) }
    ensures none { IfNone result (AllByRecursion (IsSound pool.now) parts.now) }
{
    let mut at = 0;
    for mark in parts {
        if let Some(field) = break_in(pool, types, mark) {
            return Some(at + field);
        }
        at += mark.len();
    }
    None
}
