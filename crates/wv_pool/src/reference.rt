//! Whether the numbers of a pool's entries name what their places need.
ghost use Rattle.std.specs.Prelude.{◌≡◌, ◌↔◌, IsTrue, IfSome, IfNone, IsSomeAnd};
ghost use Rattle.std.specs.Option.{option_copied};
ghost use Rattle.wv_pool.specs.References.{entry_of, text_of, class_of, pair_of, pair_name, IsClass, IsText, IsFieldPair, IsMethodPair, KindFits, IsMember, FirstHolds, SecondHolds};
ghost use Rattle.wv_pool.specs.Facts.{Meets, AreAllFacts, slot_of, facts_of};

use crate::facts::{Facts, Grammar};
use wv_base::PoolEntry;

/// The entry with the number.
pub(crate) fn entry_of(pool: &[PoolEntry], number: u16) -> Option<&PoolEntry>
    ensures { option_copied result ≡ entry_of pool.now number }
{
    pool.get((number as usize).checked_sub(1)?)
}

fn slot_of(facts: &[Option<Facts>], number: u16) -> Option<&Option<Facts>>
    ensures { option_copied result ≡ slot_of facts.now number }
{
    facts.get((number as usize).checked_sub(1)?)
}

fn facts_of(facts: &[Option<Facts>], number: u16) -> Option<Facts>
    ensures { result ≡ facts_of facts.now number }
{
    match slot_of(facts, number) {
        Some(facts) => *facts,
        None => None,
    }
}

/// Whether the number names a text that meets the grammar.
fn is_text(pool: &[PoolEntry], facts: &[Option<Facts>], number: u16, grammar: Grammar) -> bool
    requires { AreAllFacts pool.now facts.now }
    ensures { IsTrue result ↔ IsText pool.now number (Meets grammar) }
{
    match facts_of(facts, number) {
        Some(facts) => facts.meet(grammar),
        None => false,
    }
}

fn is_class(pool: &[PoolEntry], number: u16) -> bool
    ensures { IsTrue result ↔ IsClass pool.now number }
{
    matches!(entry_of(pool, number), Some(PoolEntry::Class { .. }))
}

/// The numbers of the name and of the descriptor of the NameAndType with the number.
fn pair_of(pool: &[PoolEntry], number: u16) -> Option<(u16, u16)>
    ensures { result ≡ pair_of pool.now number }
{
    match entry_of(pool, number) {
        Some(PoolEntry::NameAndType { name, descriptor }) => Some((*name, *descriptor)),
        _ => None,
    }
}

fn is_field_pair(pool: &[PoolEntry], facts: &[Option<Facts>], number: u16) -> bool
    requires { AreAllFacts pool.now facts.now }
    ensures { IsTrue result ↔ IsFieldPair pool.now number }
{
    match pair_of(pool, number) {
        Some((_, descriptor)) => !is_text(pool, facts, descriptor, Grammar::Method),
        None => false,
    }
}

fn is_method_pair(pool: &[PoolEntry], facts: &[Option<Facts>], number: u16) -> bool
    requires { AreAllFacts pool.now facts.now }
    ensures { IsTrue result ↔ IsMethodPair pool.now number }
{
    match pair_of(pool, number) {
        Some((name, descriptor)) => {
            !is_text(pool, facts, descriptor, Grammar::Field)
                && !is_text(pool, facts, name, Grammar::Angle)
        }
        None => false,
    }
}

/// Whether the name of a NameAndType, where there is one, meets the grammar.
fn is_named(pool: &[PoolEntry], facts: &[Option<Facts>], pair: u16, grammar: Grammar) -> bool
    requires { AreAllFacts pool.now facts.now }
    ensures { IsTrue result ↔ IfSome (pair_name pool.now (pair_of pool.now pair)) (Meets grammar) }
{
    match pair_of(pool, pair) {
        Some((name, _)) => match facts_of(facts, name) {
            Some(facts) => facts.meet(grammar),
            None => true,
        },
        None => true,
    }
}

fn kind_fits(pool: &[PoolEntry], facts: &[Option<Facts>], kind: u8, reference: u16) -> bool
    requires { AreAllFacts pool.now facts.now }
    ensures { IsTrue result ↔ KindFits pool.now kind (entry_of pool.now reference) }
{
    match entry_of(pool, reference) {
        Some(PoolEntry::Field { .. }) => kind <= 4,
        Some(PoolEntry::Method { name_and_type, .. }) => match kind {
            5..=7 => is_named(pool, facts, *name_and_type, Grammar::Ordinary),
            8 => is_named(pool, facts, *name_and_type, Grammar::Init),
            _ => false,
        },
        Some(PoolEntry::InterfaceMethod { name_and_type, .. }) => {
            6 <= kind && kind != 8 && is_named(pool, facts, *name_and_type, Grammar::Ordinary)
        }
        _ => true,
    }
}

fn is_member(pool: &[PoolEntry], number: u16) -> bool
    ensures { IsTrue result ↔ IsMember (entry_of pool.now number) }
{
    matches!(
        entry_of(pool, number),
        Some(PoolEntry::Field { .. } | PoolEntry::Method { .. } | PoolEntry::InterfaceMethod { .. })
    )
}

/// Whether the first field behind the tag names what it must.
pub(crate) fn first_holds(pool: &[PoolEntry], facts: &[Option<Facts>], entry: &PoolEntry) -> bool
    requires { AreAllFacts pool.now facts.now }
    ensures { IsTrue result ↔ FirstHolds pool.now entry.now }
{
    match entry {
        PoolEntry::Class { name } => is_text(pool, facts, *name, Grammar::Class),
        PoolEntry::String { text } => is_text(pool, facts, *text, Grammar::Any),
        PoolEntry::Field { class, .. }
        | PoolEntry::Method { class, .. }
        | PoolEntry::InterfaceMethod { class, .. } => is_class(pool, *class),
        PoolEntry::NameAndType { name, .. } => is_text(pool, facts, *name, Grammar::Unqualified),
        PoolEntry::MethodHandle { kind, reference } => {
            1 <= *kind && *kind <= 9 && kind_fits(pool, facts, *kind, *reference)
        }
        PoolEntry::MethodType { descriptor } => is_text(pool, facts, *descriptor, Grammar::Method),
        _ => true,
    }
}

/// Whether the second field names what it must.
pub(crate) fn second_holds(pool: &[PoolEntry], facts: &[Option<Facts>], entry: &PoolEntry) -> bool
    requires { AreAllFacts pool.now facts.now }
    ensures { IsTrue result ↔ SecondHolds pool.now entry.now }
{
    match entry {
        PoolEntry::Field { name_and_type, .. } => is_field_pair(pool, facts, *name_and_type),
        PoolEntry::Method { name_and_type, .. }
        | PoolEntry::InterfaceMethod { name_and_type, .. }
        | PoolEntry::InvokeDynamic { name_and_type, .. } => {
            is_method_pair(pool, facts, *name_and_type)
        }
        PoolEntry::NameAndType { descriptor, .. } => {
            is_text(pool, facts, *descriptor, Grammar::Descriptor)
        }
        PoolEntry::MethodHandle { reference, .. } => is_member(pool, *reference),
        _ => true,
    }
}
