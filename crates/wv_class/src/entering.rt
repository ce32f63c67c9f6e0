//! Putting the constants of a class into its pool.
ghost use Rattle.std.specs.Prelude.{◌≡◌, OnOk, IfErr};
ghost use Rattle.std.specs.List.{AllByRecursion};
ghost use Rattle.wv_pool.specs.declared.add.PoolFault.TheVariants as faults;
ghost use Rattle.wv_pool.specs.Adding.{needs, AreTooMany, Keeps, Grows};
ghost use Rattle.wv_pool.specs.Allowed.{IsAllowed};
ghost use Rattle.wv_pool.specs.References.{IsPool};
ghost use Rattle.wv_class.specs.Enterable.{PutsAll, IsWritableTable, IsWritableOf, AreWritableTables, IsEnterable};
ghost use Rattle.wv_class.specs.Formed.{IsFormedClass};
ghost use Rattle.wv_class.specs.Needs.{parts_of, content_needs, table_needs, annotations_need, member_needs, members_need, class_needs};

use crate::needed::{head_constants, member_constants, table_name};
use crate::tables::first_table_len;
use std::alloc::Global;
use wv_attr::{write_notes, write_parameter_notes};
use wv_base::{ClassFile, Const, Member, Note};
use wv_pool::{Pool, PoolFault};

/// Puts a constant and those behind it into the pool, where no number names them yet.
fn enter(pool: &mut Pool, constant: &Const) -> Result<(), PoolFault>
    requires { IsAllowed constant.now }
    ensures { PutsAll pool.old pool.new (needs constant.now) result }
{
    // In a pool each number names what its place needs: what is named is, with those behind it.
    let _entries = pool.entries();
    pool.add(constant)?;
    Ok(())
}

fn enter_each(constants: &[Const], pool: &mut Pool) -> Result<(), PoolFault>
    requires { AllByRecursion IsAllowed constants.now }
    ensures { PutsAll pool.old pool.new (parts_of constants.now) result }
{
    for constant in constants {
        enter(pool, constant)?;
    }
    Ok(())
}

/// Puts the constants of a table's annotations into the pool. The bytes that this makes are dropped:
/// they are made again when the pool has all constants of the class, with numbers that stay.
fn enter_content(
    alloc: Global,
    parameter: Option<u8>,
    table: &[Note],
    pool: &mut Pool,
) -> Result<(), PoolFault>
    requires { IsWritableOf parameter table.now }
    ensures { PutsAll pool.old pool.new (content_needs parameter table.now) result }
{
    if parameter.is_none() {
        write_notes(alloc, table, pool)?;
    } else {
        write_parameter_notes(alloc, table, 255, pool)?;
    }
    Ok(())
}

/// Puts the name of a table and the constants of its annotations into the pool.
fn enter_table(alloc: Global, table: &[Note], pool: &mut Pool) -> Result<(), PoolFault>
    requires { IsWritableTable table.now }
    ensures { PutsAll pool.old pool.new (table_needs table.now) result }
{
    let Some(first) = table.first() else {
        return Ok(());
    };
    enter(pool, &Const::Utf8(table_name(alloc, first)?))?;
    enter_content(alloc, first.parameter, table, pool)
}

fn enter_annotations(alloc: Global, notes: &[Note], pool: &mut Pool) -> Result<(), PoolFault>
    requires { AreWritableTables notes.now }
    ensures { PutsAll pool.old pool.new (annotations_need notes.now) result }
{
    let mut rest = notes;
    while !rest.is_empty() {
        let (table, others) = rest.split_at(first_table_len(rest));
        enter_table(alloc, table, pool)?;
        rest = others;
    }
    Ok(())
}

fn enter_member(alloc: Global, member: &Member, pool: &mut Pool) -> Result<(), PoolFault>
    requires { IsEnterable member.now }
    ensures { PutsAll pool.old pool.new (member_needs member.now) result }
{
    enter_each(member_constants(alloc, member)?.as_slice(), pool)?;
    enter_annotations(alloc, member.notes.as_slice(), pool)
}

fn enter_members(alloc: Global, members: &[Member], pool: &mut Pool) -> Result<(), PoolFault>
    requires { AllByRecursion IsEnterable members.now }
    ensures { PutsAll pool.old pool.new (members_need members.now) result }
{
    for member in members {
        enter_member(alloc, member, pool)?;
    }
    Ok(())
}

/// Puts the constants that the class names into the pool, in the order in which its items stand.
fn enter_parts(alloc: Global, class: &ClassFile, pool: &mut Pool) -> Result<(), PoolFault>
    requires { IsFormedClass class.now }
    ensures { PutsAll pool.old pool.new (class_needs class.now) result }
{
    enter_each(head_constants(alloc, class)?.as_slice(), pool)?;
    enter_members(alloc, class.fields.as_slice(), pool)?;
    enter_members(alloc, class.methods.as_slice(), pool)?;
    enter_annotations(alloc, class.notes.as_slice(), pool)
}

/// Puts the constants that the class names into its pool, where no number names them yet.
pub(crate) fn enter_class(
    alloc: Global,
    class: &ClassFile,
    pool: &mut Pool,
) -> Result<(), PoolFault>
    requires formed { IsFormedClass class.now }
    requires own { pool.old ≡ class.now.pool }
    ensures kept { Keeps pool.old pool.new }
    ensures grows { OnOk result (Grows pool.old (class_needs class.now) pool.new) }
    // Those that it lacks would make the pool's count pass 65,535.
    ensures full { IfErr result (λ e. e ≡ faults.Full → AreTooMany pool.old (class_needs class.now)) }
{
    enter_parts(alloc, class, pool)
}
