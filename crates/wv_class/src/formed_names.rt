//! Whether names can stand at their places.
ghost use Rattle.std.specs.Prelude.{◌↔◌, IsTrue, IfOk};
ghost use Rattle.std.specs.List.{AllByRecursion};
ghost use Rattle.wv_pool.specs.Allowed.{IsShort, IsClassText};
ghost use Rattle.wv_class.specs.Formed.{IsFormedClassName};

use wv_base::{Const, Memory, Name, is_class_name};
use wv_pool::is_allowed;

/// Whether an entry has room for the text.
pub(crate) fn is_short(text: &Name) -> Result<bool, Memory>
    ensures { IfOk result (λ is. IsTrue is ↔ IsShort text.now) }
{
    let text = Const::Utf8(text.copy()?);
    Ok(is_allowed(&text))
}

pub(crate) fn is_formed_class_name(name: &Name) -> Result<bool, Memory>
    ensures { IfOk result (λ is. IsTrue is ↔ IsFormedClassName name.now) }
{
    Ok(is_class_name(name) && is_short(name)?)
}

pub(crate) fn are_formed_class_names(names: &[Name]) -> Result<bool, Memory>
    ensures { IfOk result (λ are. IsTrue are ↔ AllByRecursion IsFormedClassName names.now) }
{
    for name in names {
        if !is_formed_class_name(name)? {
            return Ok(false);
        }
    }
    Ok(true)
}

/// Whether a pool may hold the class.
fn is_class_text(name: &Name) -> Result<bool, Memory>
    ensures { IfOk result (λ is. IsTrue is ↔ IsClassText name.now) }
{
    let class = Const::Class(name.copy()?);
    Ok(is_allowed(&class))
}

/// Whether a pool may hold the classes.
pub(crate) fn are_class_texts(names: &[Name]) -> Result<bool, Memory>
    ensures { IfOk result (λ are. IsTrue are ↔ AllByRecursion IsClassText names.now) }
{
    for name in names {
        if !is_class_text(name)? {
            return Ok(false);
        }
    }
    Ok(true)
}
