//! How many bytes texts and entries take.
ghost use Rattle.std.specs.Prelude.{◌≡◌, ◌^◌, ◌≤◌, length, IfSome, IfNone};
ghost use Rattle.wv_base.specs.Modified.{unit_spelling, spelling};
ghost use Rattle.wv_pool.specs.Entries.{entry_bytes};

use wv_base::{Name, PoolEntry};

fn unit_len(unit: u16) -> u32
    ensures len { result ≡ length (unit_spelling unit) }
    ensures small { result ≤ 3 }
{
    match unit {
        0x01..=0x7F => 1,
        0 | 0x80..=0x7FF => 2,
        0x800.. => 3,
    }
}

/// How many bytes of modified UTF-8 the name takes (JVM Specification 4.4.7), if a pool has room for
/// them in one entry.
pub(crate) fn text_len(name: &Name) -> Option<u16>
    ensures found { IfSome result (λ len. len ≡ length (spelling name.now)) }
    ensures long { IfNone result (2 ^ 16 ≤ length (spelling name.now)) }
{
    let mut len: u32 = 0;
    for unit in name.units() {
        len += unit_len(*unit);
        if len > 0xFFFF {
            return None;
        }
    }
    Some(len as u16)
}

/// How many bytes an entry of a pool takes.
pub(crate) fn entry_len(entry: &PoolEntry) -> usize
    requires { length (entry_bytes entry.now) ≤ 65538 }
    ensures { result ≡ length (entry_bytes entry.now) }
{
    match entry {
        PoolEntry::Utf8(name) => match text_len(name) {
            Some(len) => 3 + len as usize,
            None => unreachable!(),
        },
        PoolEntry::Long(_) | PoolEntry::Double(_) => 9,
        PoolEntry::Class { .. } | PoolEntry::String { .. } | PoolEntry::MethodType { .. } => 3,
        PoolEntry::MethodHandle { .. } => 4,
        PoolEntry::Unusable => 0,
        _ => 5,
    }
}
