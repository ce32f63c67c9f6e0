//! The names that numbers of a pool name.
ghost use Rattle.std.specs.Prelude.{◌≡◌, ◌++◌, ℕ, List, Some, IfOk, OnOk};
ghost use Rattle.std.specs.List.{AllByRecursion};
ghost use Rattle.wv_pool.specs.References.{text_of};
ghost use Rattle.wv_pool.specs.Constants.{class_name};
ghost use Rattle.wv_code.specs.Breaks.{NamesClass};
ghost use Rattle.wv_class.specs.Meaning.{AreClasses};
ghost use Rattle.wv_class.specs.MemberRead.{NamesText};

use std::alloc::Global;
use wv_base::{Items, Memory, Name};
use wv_pool::Pool;

pub(crate) fn text_at(pool: &Pool, number: u16) -> Result<Name, Memory>
    requires { NamesText pool.now number }
    ensures { IfOk result (λ text. text_of pool.now number ≡ Some text) }
{
    match pool.text(number) {
        Some(text) => text.copy(),
        None => unreachable!(),
    }
}

pub(crate) fn class_at(pool: &Pool, number: u16) -> Result<Name, Memory>
    requires { NamesClass pool.now number }
    ensures { IfOk result (λ name. class_name pool.now number ≡ Some name) }
{
    match pool.class_name(number) {
        Some(name) => name.copy(),
        None => unreachable!(),
    }
}

/// Puts the names of the classes with the numbers at the end.
pub(crate) fn push_classes(
    pool: &Pool,
    numbers: &[u16],
    names: &mut Vec<Name>,
) -> Result<(), Memory>
    requires { AllByRecursion (NamesClass pool.now) numbers.now }
    ensures { OnOk result ((before : List ℕ) → AreClasses pool.now before names.old.items → AreClasses pool.now (before ++ numbers.now) names.new.items) }
{
    for number in numbers {
        names.push(class_at(pool, *number)?)?;
    }
    Ok(())
}

pub(crate) fn classes_at(alloc: Global, pool: &Pool, numbers: &[u16]) -> Result<Items<Name>, Memory>
    requires { AllByRecursion (NamesClass pool.now) numbers.now }
    ensures { IfOk result (AreClasses pool.now numbers.now) }
{
    let mut names = Vec::with_capacity(alloc, numbers.len())?;
    push_classes(pool, numbers, &mut names)?;
    Ok(Items::from_vec(names))
}
