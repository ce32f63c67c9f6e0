//! Writing annotations.
ghost use Rattle.std.specs.Prelude.{◌≡◌, ◌++◌, ◌<◌, ◌≤◌, ℕ, IfOk, IfErr, OnOk};
ghost use Rattle.std.specs.List.{AllByRecursion};
ghost use Rattle.wv_pool.specs.declared.add.PoolFault.TheVariants as faults;
ghost use Rattle.wv_pool.specs.Numbers.{Named};
ghost use Rattle.wv_attr.specs.Writing.{AreOrdered};
ghost use Rattle.wv_code.specs.WritingBody.{HasRoom};
ghost use Rattle.wv_class.specs.Tables.{table_name};
ghost use Rattle.wv_class.specs.Needs.{content_needs, table_needs, annotations_need};
ghost use Rattle.wv_class.specs.Appending.{Appends, WritesNotes, WritesTable, WritesTables, WritesOthers, IsWritableOf, IsWritableTable, AreWritableTables};

use crate::attribute_writing::{put_kept, put_named};
use crate::tables::first_table_len;
use std::alloc::Global;
use wv_attr::{write_notes, write_parameter_notes};
use wv_base::{Attribute, Bytes, Memory, Note};
use wv_pool::{Pool, PoolFault};

/// How many parameters there are up to the last that an annotation has.
fn place_count(table: &[Note]) -> u8
    requires { AreOrdered 0 255 table.now }
    ensures ordered { (count : ℕ) → result ≤ count → AreOrdered 0 count table.now }
    ensures few { result ≤ 255 }
{
    let Some(last) = table.last() else {
        return 0;
    };
    match last.parameter {
        Some(place) => place + 1,
        None => unreachable!(),
    }
}

/// How many lists a table of parameters' annotations has: one for each of the method's parameters, and
/// one for each place up to the last that an annotation has (JVM Specification 4.7.18).
fn list_count(table: &[Note], parameters: usize) -> u8
    requires { AreOrdered 0 255 table.now }
    ensures ordered { AreOrdered 0 result table.now }
    ensures parameters { parameters ≤ 255 → parameters ≤ result }
    ensures few { result ≤ 255 }
{
    let places = place_count(table);
    if parameters <= places as usize {
        places
    } else if parameters < 255 {
        parameters as u8
    } else {
        255
    }
}

/// The name of the attribute in which an annotation stands (JVM Specification 4.7.16 to 4.7.19).
fn table_name(note: &Note) -> &'static str
    ensures { result.now ≡ table_name note.now }
{
    match (note.visible, note.parameter) {
        (true, None) => "RuntimeVisibleAnnotations",
        (false, None) => "RuntimeInvisibleAnnotations",
        (true, Some(_)) => "RuntimeVisibleParameterAnnotations",
        (false, Some(_)) => "RuntimeInvisibleParameterAnnotations",
    }
}

/// The content of a table that begins with this annotation. The pool has its constants.
fn table_content(
    alloc: Global,
    first: &Note,
    table: &[Note],
    parameters: usize,
    pool: &mut Pool,
) -> Result<Bytes, PoolFault>
    requires writable { IsWritableOf first.now.parameter table.now }
    requires named { AllByRecursion (Named pool.old) (content_needs first.now.parameter table.now) }
    ensures same { OnOk result (pool.new ≡ pool.old) }
    ensures written { IfOk result (WritesNotes pool.old first.now.visible first.now.parameter table.now) }
    ensures not_full { IfErr result (λ e. e ≡ faults.Full → ⊥) }
{
    // The pool is sound: it isn't full, since it lacks nothing.
    let _entries = pool.entries();
    match first.parameter {
        None => write_notes(alloc, table, pool),
        Some(_) => write_parameter_notes(alloc, table, list_count(table, parameters), pool),
    }
}

/// Puts a table of annotations, of a method with so many parameters.
fn put_table(
    alloc: Global,
    table: &[Note],
    parameters: usize,
    pool: &mut Pool,
    out: &mut Bytes,
) -> Result<(), Memory>
    requires writable { IsWritableTable table.now }
    requires named { AllByRecursion (Named pool.old) (table_needs table.now) }
    ensures same { OnOk result (pool.new ≡ pool.old) }
    ensures written { OnOk result (Appends (WritesTable pool.old table.now) out.old out.new) }
{
    let [first, ..] = table else { unreachable!() };
    match table_content(alloc, first, table, parameters, pool) {
        Ok(content) => put_named(alloc, pool, table_name(first), &content, out),
        Err(PoolFault::Memory) => Err(Memory),
        Err(PoolFault::Full) => unreachable!(),
    }
}

/// Puts the tables of annotations: those that can stand in one table do.
fn put_tables(
    alloc: Global,
    notes: &[Note],
    parameters: usize,
    pool: &mut Pool,
    out: &mut Bytes,
) -> Result<(), Memory>
    requires writable { AreWritableTables notes.now }
    requires named { AllByRecursion (Named pool.old) (annotations_need notes.now) }
    ensures same { OnOk result (pool.new ≡ pool.old) }
    ensures written { OnOk result (Appends (WritesTables pool.old notes.now) out.old out.new) }
{
    let mut rest = notes;
    while !rest.is_empty() {
        let (table, others) = rest.split_at(first_table_len(rest));
        put_table(alloc, table, parameters, pool, out)?;
        rest = others;
    }
    Ok(())
}

/// Puts the annotations of a class or of a member, and behind them the attributes that are kept.
pub(crate) fn put_others(
    alloc: Global,
    notes: &[Note],
    parameters: usize,
    kept: &[Attribute],
    pool: &mut Pool,
    out: &mut Bytes,
) -> Result<(), Memory>
    requires writable { AreWritableTables notes.now }
    requires kept { AllByRecursion HasRoom kept.now }
    requires named { AllByRecursion (Named pool.old) (annotations_need notes.now) }
    ensures same { OnOk result (pool.new ≡ pool.old) }
    ensures written { OnOk result (Appends (WritesOthers pool.old notes.now kept.now) out.old out.new) }
{
    put_tables(alloc, notes, parameters, pool, out)?;
    put_kept(out, kept)
}
