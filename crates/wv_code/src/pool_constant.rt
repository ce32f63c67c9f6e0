//! The constants that numbers of a pool name.
ghost use Rattle.std.specs.Prelude.{◌≡◌, IfOk};
ghost use Rattle.std.specs.Option.{option_map};
ghost use Rattle.wv_pool.specs.References.{entry_of, text_of};
ghost use Rattle.wv_pool.specs.Constants.{class_name, both, named_pair, member, handle, constant_in, constant_of};

use wv_base::{Const, MemberReference, Memory, Name, PoolEntry};
use wv_pool::Pool;

/// The text with the number.
fn text_at(pool: &Pool, number: u16) -> Result<Option<Name>, Memory>
    ensures { IfOk result (λ text. text ≡ text_of pool.now number) }
{
    match pool.text(number) {
        Some(text) => Ok(Some(text.copy()?)),
        None => Ok(None),
    }
}

/// The name of the class with the number; an array's is its descriptor.
pub(crate) fn class_at(pool: &Pool, number: u16) -> Result<Option<Name>, Memory>
    ensures { IfOk result (λ name. name ≡ class_name pool.now number) }
{
    match pool.class_name(number) {
        Some(name) => Ok(Some(name.copy()?)),
        None => Ok(None),
    }
}

/// The texts with the numbers, where both are there.
fn both_at(pool: &Pool, first: u16, second: u16) -> Result<Option<(Name, Name)>, Memory>
    ensures { IfOk result (λ texts. texts ≡ both (text_of pool.now first) (text_of pool.now second)) }
{
    match (text_at(pool, first)?, text_at(pool, second)?) {
        (Some(first), Some(second)) => Ok(Some((first, second))),
        _ => Ok(None),
    }
}

/// The name and the descriptor of the NameAndType with the number.
fn pair_at(pool: &Pool, number: u16) -> Result<Option<(Name, Name)>, Memory>
    ensures { IfOk result (λ pair. pair ≡ named_pair pool.now number) }
{
    match pool.entry(number) {
        Some(PoolEntry::NameAndType { name, descriptor }) => both_at(pool, *name, *descriptor),
        _ => Ok(None),
    }
}

/// The member that a class's number and a NameAndType's number name.
fn member_at(pool: &Pool, class: u16, pair: u16) -> Result<Option<MemberReference>, Memory>
    ensures { IfOk result (λ found. found ≡ member pool.now class pair) }
{
    match (class_at(pool, class)?, pair_at(pool, pair)?) {
        (Some(owner), Some((name, descriptor))) => Ok(Some(MemberReference {
            owner,
            name,
            descriptor,
        })),
        _ => Ok(None),
    }
}

/// A handle of the member that a class's number and a NameAndType's number name.
fn handle_of(
    pool: &Pool,
    kind: u8,
    class: u16,
    pair: u16,
    interface: bool,
) -> Result<Option<Const>, Memory>
    ensures { IfOk result (λ found. found ≡ option_map (λ m. Const.MethodHandle kind m interface) (member pool.now class pair)) }
{
    Ok(member_at(pool, class, pair)?.map(|reference| Const::MethodHandle {
        kind,
        reference,
        interface,
    }))
}

/// A handle of the member with the number.
fn handle_at(pool: &Pool, kind: u8, number: u16) -> Result<Option<Const>, Memory>
    ensures { IfOk result (λ found. found ≡ handle pool.now kind (entry_of pool.now number)) }
{
    match pool.entry(number) {
        Some(
            PoolEntry::Field {
                class,
                name_and_type,
            },
        ) => { handle_of(pool, kind, *class, *name_and_type, false) }
        Some(
            PoolEntry::Method {
                class,
                name_and_type,
            },
        ) => { handle_of(pool, kind, *class, *name_and_type, false) }
        Some(
            PoolEntry::InterfaceMethod {
                class,
                name_and_type,
            },
        ) => { handle_of(pool, kind, *class, *name_and_type, true) }
        _ => Ok(None),
    }
}

/// The constant of an entry that names a member.
fn member_constant(
    pool: &Pool,
    class: u16,
    pair: u16,
    interface: bool,
) -> Result<Option<Const>, Memory>
    ensures { IfOk result (λ found. found ≡ option_map (λ m. Const.Method m interface) (member pool.now class pair)) }
{
    Ok(member_at(pool, class, pair)?.map(|reference| Const::Method {
        reference,
        interface,
    }))
}

fn pair_constant(pool: &Pool, name: u16, descriptor: u16) -> Result<Option<Const>, Memory>
    ensures { IfOk result (λ found. found ≡ option_map (λ p. Const.NameAndType p.0 p.1) (both (text_of pool.now name) (text_of pool.now descriptor))) }
{
    let pair = both_at(pool, name, descriptor)?;
    Ok(pair.map(|(name, descriptor)| Const::NameAndType { name, descriptor }))
}

fn site_constant(pool: &Pool, bootstrap: u16, pair: u16) -> Result<Option<Const>, Memory>
    ensures { IfOk result (λ found. found ≡ option_map (λ p. Const.InvokeDynamic bootstrap p.0 p.1) (named_pair pool.now pair)) }
{
    let pair = pair_at(pool, pair)?;
    Ok(pair.map(|(name, descriptor)| Const::InvokeDynamic {
        bootstrap,
        name,
        descriptor,
    }))
}

/// The constant of the entry.
fn constant_in(pool: &Pool, entry: &PoolEntry) -> Result<Option<Const>, Memory>
    ensures { IfOk result (λ found. found ≡ constant_in pool.now entry.now) }
{
    match entry {
        PoolEntry::Utf8(text) => Ok(Some(Const::Utf8(text.copy()?))),
        PoolEntry::Integer(value) => Ok(Some(Const::Integer(*value))),
        PoolEntry::Float(bits) => Ok(Some(Const::Float(*bits))),
        PoolEntry::Long(value) => Ok(Some(Const::Long(*value))),
        PoolEntry::Double(bits) => Ok(Some(Const::Double(*bits))),
        PoolEntry::Class { name } => Ok(text_at(pool, *name)?.map(Const::Class)),
        PoolEntry::String { text } => Ok(text_at(pool, *text)?.map(Const::String)),
        PoolEntry::Field {
            class,
            name_and_type,
        } => { Ok(member_at(pool, *class, *name_and_type)?.map(Const::Field)) }
        PoolEntry::Method {
            class,
            name_and_type,
        } => { member_constant(pool, *class, *name_and_type, false) }
        PoolEntry::InterfaceMethod {
            class,
            name_and_type,
        } => { member_constant(pool, *class, *name_and_type, true) }
        PoolEntry::NameAndType { name, descriptor } => pair_constant(pool, *name, *descriptor),
        PoolEntry::MethodHandle { kind, reference } => handle_at(pool, *kind, *reference),
        PoolEntry::MethodType { descriptor } => {
            Ok(text_at(pool, *descriptor)?.map(Const::MethodType))
        }
        PoolEntry::InvokeDynamic {
            bootstrap,
            name_and_type,
        } => { site_constant(pool, *bootstrap, *name_and_type) }
        PoolEntry::Unusable => Ok(None),
    }
}

/// The constant with the number, if it names one. Its texts are shared with the pool.
pub fn constant_at(pool: &Pool, number: u16) -> Result<Option<Const>, Memory>
    ensures { IfOk result (λ found. found ≡ constant_of pool.now number) }
{
    match pool.entry(number) {
        Some(entry) => constant_in(pool, entry),
        None => Ok(None),
    }
}
