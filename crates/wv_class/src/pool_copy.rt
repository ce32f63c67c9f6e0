//! Copies of the entries of a pool.
ghost use Rattle.std.specs.Prelude.{◌≡◌, IfOk};

use std::alloc::Global;
use wv_base::{Memory, PoolEntry};

/// A copy of the entry. Its text is shared.
fn copied(entry: &PoolEntry) -> Result<PoolEntry, Memory>
    ensures { IfOk result (λ copy. copy ≡ entry.now) }
{
    Ok(match entry {
        PoolEntry::Utf8(text) => PoolEntry::Utf8(text.copy()?),
        PoolEntry::Integer(value) => PoolEntry::Integer(*value),
        PoolEntry::Float(bits) => PoolEntry::Float(*bits),
        PoolEntry::Long(value) => PoolEntry::Long(*value),
        PoolEntry::Double(bits) => PoolEntry::Double(*bits),
        PoolEntry::Class { name } => PoolEntry::Class { name: *name },
        PoolEntry::String { text } => PoolEntry::String { text: *text },
        PoolEntry::Field {
            class,
            name_and_type,
        } => PoolEntry::Field {
            class: *class,
            name_and_type: *name_and_type,
        },
        PoolEntry::Method {
            class,
            name_and_type,
        } => PoolEntry::Method {
            class: *class,
            name_and_type: *name_and_type,
        },
        PoolEntry::InterfaceMethod {
            class,
            name_and_type,
        } => PoolEntry::InterfaceMethod {
            class: *class,
            name_and_type: *name_and_type,
        },
        PoolEntry::NameAndType { name, descriptor } => PoolEntry::NameAndType {
            name: *name,
            descriptor: *descriptor,
        },
        PoolEntry::MethodHandle { kind, reference } => PoolEntry::MethodHandle {
            kind: *kind,
            reference: *reference,
        },
        PoolEntry::MethodType { descriptor } => PoolEntry::MethodType {
            descriptor: *descriptor,
        },
        PoolEntry::InvokeDynamic {
            bootstrap,
            name_and_type,
        } => PoolEntry::InvokeDynamic {
            bootstrap: *bootstrap,
            name_and_type: *name_and_type,
        },
        PoolEntry::Unusable => PoolEntry::Unusable,
    })
}

/// Copies of the entries. Their texts are shared.
pub(crate) fn copied_entries(alloc: Global, entries: &[PoolEntry]) -> Result<Vec<PoolEntry>, Memory>
    ensures { IfOk result (λ copies. copies.items ≡ entries.now) }
{
    let mut copies = Vec::with_capacity(alloc, entries.len())?;
    for entry in entries {
        copies.push(copied(entry)?)?;
    }
    Ok(copies)
}
