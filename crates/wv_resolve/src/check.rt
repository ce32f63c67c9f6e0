//! Whether the entries of mods are as they have to be.
ghost use Rattle.std.specs.Prelude.{List, IfSome, IfNone, IfErr, OnOk};
ghost use Rattle.std.specs.List.{AllByRecursion};
ghost use Rattle.wv_resolve.specs.Presence.{Presence};
ghost use Rattle.wv_resolve.specs.Dependency.{Keeps, Fails, all_entries};
ghost use Rattle.wv_resolve.specs.Refusal.{IsFirst, IsEntryBroken, IsBrokenFault};
ghost use Rattle.wv_resolve.specs.Holding.{Holds};

use crate::kind::Kind;
use crate::present::Present;
use crate::refusal::refused;
use std::alloc::Global;
use wv_mod::{Dependency, ModFault, ModInfo};

/// Looks at the entries of one kind. A fault is the first that is not as it has to be.
pub(crate) fn check(
    alloc: Global,
    kind: Kind,
    present: &Present,
    mods: &[ModInfo],
) -> Result<(), ModFault>
    ensures keep { (list : List Presence) → Holds list present.now
        → OnOk result (AllByRecursion (λ e. Keeps kind list e.1) (all_entries kind mods.now)) }
    ensures fault { (list : List Presence) → Holds list present.now
        → IfErr result (IsBrokenFault (IsEntryBroken kind list (all_entries kind mods.now))) }
{
    for info in mods {
        if let Some(dependency) = first_failing(kind, present, kind.entries(info)) {
            let broken = refused(alloc, kind, present, &info.path, dependency)?;
            return Err(ModFault::Broken(broken));
        }
    }
    Ok(())
}

/// The first entry that is not as it has to be.
fn first_failing<'d>(
    kind: Kind,
    present: &Present,
    entries: &'d [Dependency],
) -> Option<&'d Dependency>
    ensures keep { (list : List Presence) → Holds list present.now
        → IfNone result (AllByRecursion (Keeps kind list) entries.now) }
    ensures fail { (list : List Presence) → Holds list present.now
        → IfSome result (λ dependency. IsFirst (Keeps kind list) (Fails kind list) entries.now dependency.now) }
{
    for dependency in entries {
        if !kind.keeps(present, dependency) {
            return Some(dependency);
        }
    }
    None
}
