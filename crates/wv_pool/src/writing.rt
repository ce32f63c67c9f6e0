//! Writing the entries of a pool.
ghost use Rattle.std.specs.Prelude.{◌≡◌, ◌∷◌, ◌++◌, ◌≤◌, length, OnOk, IfOk};
ghost use Rattle.wv_base.specs.Modified.{spelling};
ghost use Rattle.wv_pool.specs.Entries.{number_bytes, entry_bytes, pool_bytes, IsLayout};

use std::alloc::Global;
use wv_base::{Memory, Name, PoolEntry, to_modified};

fn put_numbers(out: &mut Vec<u8>, tag: u8, first: u16, second: u16) -> Result<(), Memory>
    ensures { OnOk result (out.new.items ≡ out.old.items ++ tag ∷ (number_bytes first ++ number_bytes second)) }
{
    out.push(tag)?;
    out.extend_from_slice(&first.to_be_bytes())?;
    out.extend_from_slice(&second.to_be_bytes())?;
    Ok(())
}

/// Writes a byte and more bytes at the end.
fn put_bytes(out: &mut Vec<u8>, tag: u8, bytes: &[u8]) -> Result<(), Memory>
    ensures { OnOk result (out.new.items ≡ out.old.items ++ tag ∷ bytes.now) }
{
    out.push(tag)?;
    out.extend_from_slice(bytes)?;
    Ok(())
}

fn put_text(alloc: Global, out: &mut Vec<u8>, name: &Name) -> Result<(), Memory>
    requires { length (spelling name.now) ≤ 65535 }
    ensures { OnOk result (out.new.items ≡ out.old.items ++ 1 ∷ (number_bytes (length (spelling name.now)) ++ spelling name.now)) }
{
    let text = to_modified(alloc, name)?;
    out.push(1)?;
    out.extend_from_slice(&(text.len() as u16).to_be_bytes())?;
    out.extend_from_slice(text.as_slice())?;
    Ok(())
}

/// Writes an entry's bytes at the end.
fn put_entry(alloc: Global, out: &mut Vec<u8>, entry: &PoolEntry) -> Result<(), Memory>
    requires { length (entry_bytes entry.now) ≤ 65538 }
    ensures { OnOk result (out.new.items ≡ out.old.items ++ entry_bytes entry.now) }
{
    match entry {
        PoolEntry::Utf8(name) => put_text(alloc, out, name),
        PoolEntry::Integer(value) => put_bytes(out, 3, &value.to_be_bytes()),
        PoolEntry::Float(bits) => put_bytes(out, 4, &bits.to_be_bytes()),
        PoolEntry::Long(value) => put_bytes(out, 5, &value.to_be_bytes()),
        PoolEntry::Double(bits) => put_bytes(out, 6, &bits.to_be_bytes()),
        PoolEntry::Class { name } => put_bytes(out, 7, &name.to_be_bytes()),
        PoolEntry::String { text } => put_bytes(out, 8, &text.to_be_bytes()),
        PoolEntry::Field {
            class,
            name_and_type,
        } => put_numbers(out, 9, *class, *name_and_type),
        PoolEntry::Method {
            class,
            name_and_type,
        } => put_numbers(out, 10, *class, *name_and_type),
        PoolEntry::InterfaceMethod {
            class,
            name_and_type,
        } => { put_numbers(out, 11, *class, *name_and_type) }
        PoolEntry::NameAndType { name, descriptor } => put_numbers(out, 12, *name, *descriptor),
        PoolEntry::MethodHandle { kind, reference } => {
            out.push(15)?;
            put_bytes(out, *kind, &reference.to_be_bytes())
        }
        PoolEntry::MethodType { descriptor } => put_bytes(out, 16, &descriptor.to_be_bytes()),
        PoolEntry::InvokeDynamic {
            bootstrap,
            name_and_type,
        } => { put_numbers(out, 18, *bootstrap, *name_and_type) }
        PoolEntry::Unusable => Ok(()),
    }
}

/// The count and the entries, as a class file has them.
pub(crate) fn pool_to_bytes(alloc: Global, pool: &[PoolEntry]) -> Result<Vec<u8>, Memory>
    requires { IsLayout pool.now }
    ensures { IfOk result (λ bytes. bytes.items ≡ pool_bytes pool.now) }
{
    let mut out = Vec::new(alloc);
    out.extend_from_slice(&(pool.len() as u16 + 1).to_be_bytes())?;
    for entry in pool {
        put_entry(alloc, &mut out, entry)?;
    }
    Ok(out)
}
