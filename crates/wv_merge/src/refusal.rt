//! The refusal of an overwrite.
ghost use Rattle.std.specs.Prelude.{◌≡◌, ◌++◌, IfOk};
ghost use Rattle.wv_merge.specs.Merging.{method_of, overwrite_missing, shown_method};

use std::alloc::Global;
use wv_base::{Broken, Member, Memory, Name, Place, Rule, Text, shown};

fn joined(alloc: Global, front: &str, back: &str) -> Result<Text, Memory>
    ensures { IfOk result (λ text. text ≡ front.now ++ back.now) }
{
    Ok(Text::from_string(format!(in alloc; "{front}{back}")?))
}

/// A method as a place shows it: its name and its descriptor.
fn member_text(alloc: Global, method: &Member) -> Result<Text, Memory>
    ensures { IfOk result (λ text. text ≡ shown_method method.now) }
{
    let name = shown(alloc, &method.name)?;
    let descriptor = shown(alloc, &method.descriptor)?;
    joined(alloc, name.as_str(), descriptor.as_str())
}

/// A method with the name of a class.
fn text_of(alloc: Global, class: &Name, method: &Member) -> Result<Text, Memory>
    ensures { IfOk result (λ text. text ≡ method_of class.now method.now) }
{
    let class = shown(alloc, class)?;
    let member = member_text(alloc, method)?;
    let behind = joined(alloc, ".", member.as_str())?;
    joined(alloc, class.as_str(), behind.as_str())
}

/// The refusal of an overwrite whose method the target lacks.
pub(crate) fn overwrite_missing(
    alloc: Global,
    path: &Text,
    target: &Name,
    method: &Member,
) -> Result<Broken, Memory>
    ensures { IfOk result (λ broken. broken ≡ overwrite_missing path.now target.now method.now) }
{
    Ok(Broken {
        rule: Rule::OverwriteMissing,
        place: Place {
            file: path.copy(alloc)?,
            member: Some(member_text(alloc, method)?),
            index: None,
        },
        wanted: text_of(alloc, target, method)?,
        found: Text::from_str(alloc, "-")?,
    })
}
