//! What a refusal says.
ghost use Rattle.std.specs.Prelude.{◌≡◌, ◌++◌, List, IfOk, codes, string_bytes};
ghost use Rattle.wv_base.specs.declared.rule.Rule.TheVariants.{DuplicateId};
ghost use Rattle.wv_resolve.specs.Presence.{Presence};
ghost use Rattle.wv_resolve.specs.Refusal.{broken_at, wanted_text, IsRefused};
ghost use Rattle.wv_resolve.specs.Holding.{Holds};

use crate::kind::Kind;
use crate::present::Present;
use std::alloc::{AllocError, Global};
use wv_base::{Broken, Memory, Place, Rule, Text};
use wv_mod::Dependency;

/// A rule that is broken at a file.
fn broken_at(
    alloc: Global,
    rule: Rule,
    path: &str,
    wanted: Text,
    found: Text,
) -> Result<Broken, Memory>
    ensures { IfOk result (λ broken. broken ≡ broken_at rule path.now wanted found) }
{
    Ok(Broken {
        rule,
        place: Place {
            file: Text::from_str(alloc, path)?,
            member: None,
            index: None,
        },
        wanted,
        found,
    })
}

/// The id is present twice, the second time by the file with this path.
pub(crate) fn twice(alloc: Global, path: &str, id: &Text) -> Result<Broken, Memory>
    ensures { IfOk result (λ broken. broken ≡ broken_at DuplicateId path.now (codes "-") id.now) }
{
    let wanted = Text::from_str(alloc, "-")?;
    broken_at(alloc, Rule::DuplicateId, path, wanted, id.copy(alloc)?)
}

/// The entry of the mod with this path is not as it has to be.
pub(crate) fn refused(
    alloc: Global,
    kind: Kind,
    present: &Present,
    path: &Text,
    dependency: &Dependency,
) -> Result<Broken, Memory>
    ensures { (list : List Presence) → Holds list present.now
        → IfOk result (IsRefused kind list (path.now, dependency.now)) }
{
    let wanted = Text::from_string(wanted(alloc, dependency)?);
    let found = present.found(alloc, &dependency.id)?;
    broken_at(alloc, kind.rule(), path.as_str(), wanted, found)
}

/// The id and the texts of an entry.
fn wanted(alloc: Global, dependency: &Dependency) -> Result<String, AllocError>
    ensures { IfOk result (λ text. string_bytes text ≡ wanted_text dependency.now) }
{
    let mut wanted = String::from_str(alloc, dependency.id.as_str())?;
    wanted.push(' ')?;
    if let Some((first, others)) = dependency.any_of.as_slice().split_first() {
        wanted.push_str(first.text.as_str())?;
        for other in others {
            wanted.push_str(" or ")?;
            wanted.push_str(other.text.as_str())?;
        }
    }
    Ok(wanted)
}
