//! The refusals of class files.
ghost use Rattle.std.specs.Prelude.{◌≡◌, IfOk};
ghost use Rattle.wv_classes.specs.Refusal.{bad_layout, bad_reference, other_name, other_version, refused};

use std::alloc::Global;
use wv_base::{Broken, ClassFile, Memory, Place, Rule, Text, shown};

/// A refusal at the path of a class file.
fn refused(
    alloc: Global,
    rule: Rule,
    path: &Text,
    wanted: &str,
    found: Text,
) -> Result<Broken, Memory>
    ensures { IfOk result (λ broken. broken ≡ refused rule path.now wanted.now found) }
{
    Ok(Broken {
        rule,
        place: Place {
            file: path.copy(alloc)?,
            member: None,
            index: None,
        },
        wanted: Text::from_str(alloc, wanted)?,
        found,
    })
}

/// The refusal of bytes that are no class file, from this offset on.
pub(crate) fn bad_layout(alloc: Global, path: &Text, at: usize) -> Result<Broken, Memory>
    ensures { IfOk result (λ broken. broken ≡ bad_layout path.now at) }
{
    let found = Text::from_string(format!(in alloc; "{at}")?);
    refused(alloc, Rule::ClassBad, path, "layout", found)
}

/// The refusal of a class file whose item at this offset is the first that breaks what it must meet.
pub(crate) fn bad_reference(alloc: Global, path: &Text, at: usize) -> Result<Broken, Memory>
    ensures { IfOk result (λ broken. broken ≡ bad_reference path.now at) }
{
    let found = Text::from_string(format!(in alloc; "{at}")?);
    refused(alloc, Rule::ClassBad, path, "reference", found)
}

/// The refusal of a class of another version than those of Java 6 to 8.
pub(crate) fn other_version(alloc: Global, path: &Text, class: &ClassFile) -> Result<Broken, Memory>
    ensures { IfOk result (λ broken. broken ≡ other_version path.now class.now) }
{
    let major = class.version.major;
    let found = Text::from_string(format!(in alloc; "{major}")?);
    refused(alloc, Rule::VersionOutside, path, "50 to 52", found)
}

/// The refusal of a class with another name than its path says.
pub(crate) fn other_name(
    alloc: Global,
    path: &Text,
    name: &Text,
    class: &ClassFile,
) -> Result<Broken, Memory>
    ensures { IfOk result (λ broken. broken ≡ other_name path.now name.now class.now) }
{
    let found = shown(alloc, &class.name)?;
    refused(alloc, Rule::NamePath, path, name.as_str(), found)
}
