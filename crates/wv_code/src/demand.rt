//! Whether the operands of instructions are what the instructions need.
ghost use Rattle.std.specs.Prelude.{◌≡◌, ◌↔◌, ℕ, List, IsTrue, IfSome, IfNone};
ghost use Rattle.std.specs.List.Sorted.{IsStrictlyIncreasing};
ghost use Rattle.wv_base.specs.declared.class_file.PoolEntry.TheVariants as entries;
ghost use Rattle.wv_pool.specs.References.{IsPool};
ghost use Rattle.wv_code.specs.Breaks.{Starts, Lands, Loads, Takes, TakesInterface, TakesSite, NamesClass};
ghost use Rattle.wv_code.specs.Operands.{entry_words, EntryTaken, IsSite, IsCountOf, HasDimensions};

use crate::formed::{dimensions_of, loads};
use crate::index::index_at;
use crate::opcode::{INVOKESTATIC, INVOKEVIRTUAL, PUTFIELD};
use wv_base::{Name, PoolEntry, parameter_words};
use wv_pool::Pool;

/// Whether an instruction starts at the offset.
pub(crate) fn starts(offsets: &[u32], at: u32) -> bool
    requires { IsStrictlyIncreasing offsets.now }
    ensures { IsTrue result ↔ Starts offsets.now at }
{
    index_at(offsets, at).is_some()
}

/// Whether the distance from the instruction at the offset leads to the start of one.
pub(crate) fn lands(offsets: &[u32], at: u32, distance: i32) -> bool
    requires { IsStrictlyIncreasing offsets.now }
    ensures { IsTrue result ↔ Lands offsets.now at distance }
{
    match at.checked_add_signed(distance) {
        Some(to) => starts(offsets, to),
        None => false,
    }
}

/// How many words the constant of the entry takes where it is loaded; 0 where none can be.
fn entry_words(entry: &PoolEntry) -> u8
    ensures { result ≡ entry_words entry.now }
{
    match entry {
        PoolEntry::Long(_) | PoolEntry::Double(_) => 2,
        PoolEntry::Integer(_)
        | PoolEntry::Float(_)
        | PoolEntry::Class { .. }
        | PoolEntry::String { .. }
        | PoolEntry::MethodHandle { .. }
        | PoolEntry::MethodType { .. } => 1,
        _ => 0,
    }
}

/// Whether the number names a constant that the opcode loads.
pub(crate) fn names_loaded(pool: &Pool, op: u8, number: u16) -> bool
    requires { IsPool pool.now }
    ensures { IsTrue result ↔ Loads pool.now op number }
{
    match pool.entry(number) {
        Some(entry) => loads(op, entry_words(entry)),
        None => false,
    }
}

/// Whether the opcode takes the member of the entry.
fn is_entry_taken(op: u8, entry: &PoolEntry) -> bool
    ensures { IsTrue result ↔ EntryTaken op entry.now }
{
    match entry {
        PoolEntry::Field { .. } => op <= PUTFIELD,
        PoolEntry::Method { .. } => PUTFIELD < op,
        PoolEntry::InterfaceMethod { .. } => INVOKEVIRTUAL < op && op <= INVOKESTATIC,
        _ => false,
    }
}

/// Whether the number names a member that the opcode takes.
pub(crate) fn names_taken(pool: &Pool, op: u8, number: u16) -> bool
    requires { IsPool pool.now }
    ensures { IsTrue result ↔ Takes pool.now op number }
{
    match pool.entry(number) {
        Some(entry) => is_entry_taken(op, entry),
        None => false,
    }
}

/// The number of the name and the descriptor of an interface's method.
fn interface_pair(entry: &PoolEntry) -> Option<u16>
    ensures found { IfSome result (λ pair. (class : ℕ) × (entry.now ≡ entries.InterfaceMethod class pair)) }
    ensures none { IfNone result ((class pair : ℕ) → entry.now ≡ entries.InterfaceMethod class pair → ⊥) }
{
    match entry {
        PoolEntry::InterfaceMethod { name_and_type, .. } => Some(*name_and_type),
        _ => None,
    }
}

/// The descriptor of the interface's method that the number names.
pub(crate) fn interface_descriptor(pool: &Pool, number: u16) -> Option<&Name>
    requires { IsPool pool.now }
    ensures found { IfSome result (λ descriptor. TakesInterface pool.now number descriptor.now) }
    ensures none { IfNone result ((descriptor : List ℕ) → TakesInterface pool.now number descriptor → ⊥) }
{
    let entry = pool.entry(number)?;
    let pair = interface_pair(entry)?;
    let (_, descriptor) = pool.name_and_type(pair)?;
    Some(descriptor)
}

/// Whether the count is the words of the descriptor's arguments and one for the object.
pub(crate) fn is_count_of(descriptor: &Name, count: u8) -> bool
    ensures { IsTrue result ↔ IsCountOf descriptor.now count }
{
    match parameter_words(descriptor) {
        Some(words) => words < 255 && usize::from(count) == words + 1,
        None => false,
    }
}

fn is_site(entry: &PoolEntry) -> bool
    ensures { IsTrue result ↔ IsSite entry.now }
{
    matches!(entry, PoolEntry::InvokeDynamic { .. })
}

/// Whether the number names a dynamic call site.
pub(crate) fn names_site(pool: &Pool, number: u16) -> bool
    requires { IsPool pool.now }
    ensures { IsTrue result ↔ TakesSite pool.now number }
{
    match pool.entry(number) {
        Some(entry) => is_site(entry),
        None => false,
    }
}

/// Whether the number names a class.
pub(crate) fn names_class(pool: &Pool, number: u16) -> bool
    ensures { IsTrue result ↔ NamesClass pool.now number }
{
    match pool.class_name(number) {
        Some(_) => true,
        None => false,
    }
}

/// Whether an array of the class can be made with so many lengths.
pub(crate) fn has_dimensions(name: &Name, dimensions: u8) -> bool
    ensures { IsTrue result ↔ HasDimensions name.now dimensions }
{
    1 <= dimensions && usize::from(dimensions) <= dimensions_of(name.units())
}
