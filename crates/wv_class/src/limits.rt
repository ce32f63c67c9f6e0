//! The limits that a class passes.
ghost use Rattle.std.specs.Prelude.{◌≡◌, ◌↔◌, ◌+◌, length, IsTrue, IfOk, OnOk, IfErr};
ghost use Rattle.std.specs.List.{AllByRecursion};
ghost use Rattle.wv_pool.specs.Adding.{Keeps};
ghost use Rattle.wv_pool.specs.Numbers.{Named};
ghost use Rattle.wv_class.specs.Formed.{IsFormedClass};
ghost use Rattle.wv_class.specs.Enterable.{IsWritableBody};
ghost use Rattle.wv_class.specs.Needs.{code_constants, class_needs};
ghost use Rattle.wv_class.specs.Tables.{tables_of};
ghost use Rattle.wv_class.specs.Limits.{Passes, HasLong, SomeHasLong, HasLongList, member_attributes};
ghost use Rattle.wv_class.specs.Laid.{IsLaid, BodyBreaks, AreLaid, LayoutsBreak};

use crate::tables::first_table_len;
use std::alloc::Global;
use wv_base::{ClassFile, LimitFault, Member, Note};
use wv_code::{CodeLayout, layout};
use wv_pool::Pool;

/// The greatest count of a list, which has two bytes.
const MOST: usize = 65535;

/// How many tables the annotations make.
pub(crate) fn table_count(notes: &[Note]) -> usize
    ensures { result ≡ length (tables_of notes.now) }
{
    let mut count = 0;
    let mut rest = notes;
    while !rest.is_empty() {
        rest = &rest[first_table_len(rest)..];
        count += 1;
    }
    count
}

/// Whether so many attributes, with the tables of annotations and those that are kept, are too many.
fn passes(others: usize, notes: &[Note], kept: usize) -> bool
    ensures { IsTrue result ↔ Passes (others + length (tables_of notes.now) + kept) }
{
    others
        .saturating_add(table_count(notes))
        .saturating_add(kept)
        > MOST
}

fn member_passes(member: &Member) -> bool
    ensures { IsTrue result ↔ Passes (member_attributes member.now) }
{
    let value = usize::from(member.value.is_some());
    let body = usize::from(member.body.is_some());
    let throws = usize::from(!member.throws.is_empty());
    passes(
        value + body + throws,
        member.notes.as_slice(),
        member.kept.len(),
    )
}

fn has_long(member: &Member) -> bool
    ensures { IsTrue result ↔ HasLong member.now }
{
    member.throws.len() > MOST || member_passes(member)
}

fn some_has_long(members: &[Member]) -> bool
    ensures { IsTrue result ↔ SomeHasLong members.now }
{
    for member in members {
        if has_long(member) {
            return true;
        }
    }
    false
}

/// Whether one of the lists of the class passes 65,535, the greatest count (JVM Specification 4.11).
pub(crate) fn has_long_list(class: &ClassFile) -> bool
    ensures { IsTrue result ↔ HasLongList class.now }
{
    class.interfaces.len() > MOST
        || class.fields.len() > MOST
        || class.methods.len() > MOST
        || passes(0, class.notes.as_slice(), class.kept.len())
        || some_has_long(class.fields.as_slice())
        || some_has_long(class.methods.as_slice())
}

/// The layout of a method's code, or the limit that it passes.
fn layout_of(
    alloc: Global,
    method: &Member,
    pool: &mut Pool,
) -> Result<Option<CodeLayout>, LimitFault>
    requires formed { IsWritableBody method.now.body }
    requires named { AllByRecursion (Named pool.old) (code_constants method.now.body) }
    ensures same { OnOk result (pool.new ≡ pool.old) }
    ensures laid { IfOk result (IsLaid pool.old method.now.body) }
    ensures cause { IfErr result (BodyBreaks pool.old method.now.body) }
{
    let Some(body) = &method.body else {
        return Ok(None);
    };
    // The entries as they are: each number names what its place needs.
    let _entries = pool.entries();
    Ok(Some(layout(alloc, body, pool)?))
}

/// The layout of each method's code, or the first limit that one passes. The pool has the constants of
/// the class, and stays as it is.
pub(crate) fn layouts(
    alloc: Global,
    class: &ClassFile,
    pool: &mut Pool,
) -> Result<Vec<Option<CodeLayout>>, LimitFault>
    requires formed { IsFormedClass class.now }
    requires kept { Keeps class.now.pool pool.old }
    requires named { AllByRecursion (Named pool.old) (class_needs class.now) }
    ensures same { OnOk result (pool.new ≡ pool.old) }
    ensures laid { IfOk result (λ found. AreLaid pool.old class.now.methods found.items) }
    ensures cause { IfErr result (LayoutsBreak pool.old class.now.methods) }
{
    let mut found = Vec::with_capacity(alloc, class.methods.len())?;
    for method in class.methods.as_slice() {
        found.push(layout_of(alloc, method, pool)?)?;
    }
    Ok(found)
}
