//! Whether members are distinct.
ghost use Rattle.std.specs.Prelude.{◌↔◌, IsTrue, IfOk};
ghost use Rattle.wv_class.specs.Formed.{AreDistinct};

use std::alloc::Global;
use std::collections::BTreeSet;
use wv_base::{Member, Memory};

/// Whether no two of the members have one name and descriptor (JVM Specification 4.5 and 4.6).
pub(crate) fn are_distinct(alloc: Global, members: &[Member]) -> Result<bool, Memory>
    ensures { IfOk result (λ are. IsTrue are ↔ AreDistinct members.now) }
{
    let mut seen = BTreeSet::new(alloc);
    for member in members {
        let key = (member.name.copy()?, member.descriptor.copy()?);
        if !seen.insert(key)? {
            return Ok(false);
        }
    }
    Ok(true)
}
