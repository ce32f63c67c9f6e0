//! Writing annotations.
ghost use Rattle.std.specs.Prelude.{◌≡◌, ◌↔◌, ◌<◌, ◌≤◌, ◌+◌, ◌^◌, ◌++◌, ◌∷◌, ℕ, Bool, List, length, take, drop, IsTrue, Some, IfOk, IfErr, OnOk};
ghost use Rattle.std.specs.List.{AllByRecursion, filter};
ghost use Rattle.wv_base.specs.declared.constant.Const.{Const};
ghost use Rattle.wv_base.specs.declared.note.Note.{Note};
ghost use Rattle.wv_pool.specs.declared.add.PoolFault.TheVariants as faults;
ghost use Rattle.wv_pool.specs.Constants.{constant_of};
ghost use Rattle.wv_pool.specs.Adding.{AreTooMany, Keeps, Grows};
ghost use Rattle.wv_attr.specs.Meanings.{AreRead, AreParametersRead};
ghost use Rattle.wv_attr.specs.Pieces.{list_pieces, pieces_size};
ghost use Rattle.wv_attr.specs.Writing.{IsFormed, AreWritable, notes_need, as_members, as_parameters, AreOrdered, is_place, by_place, lists_pieces, AreWritableOf, parameters_need};

use crate::depth::are_shallow;
use crate::flattening::put_list;
use crate::numbering::marks_of;
use crate::piece::Piece;
use crate::spelling::put_marks;
use std::alloc::Global;
use wv_base::{Bytes, Memory, Note};
use wv_pool::{Pool, PoolFault};

/// Whether each of the parts is formed.
fn are_formed(alloc: Global, pieces: &[Piece]) -> Result<bool, Memory>
    ensures { IfOk result (λ formed. IsTrue formed ↔ AllByRecursion IsFormed pieces.now) }
{
    for piece in pieces {
        if !piece.is_formed(alloc)? {
            return Ok(false);
        }
    }
    Ok(true)
}

/// Whether the parts have fewer than 2^32 bytes, behind so many others.
fn have_room(before: u32, pieces: &[Piece]) -> bool
    ensures { IsTrue result ↔ (before + pieces_size pieces.now < 2 ^ 32) }
{
    let mut size = before;
    for piece in pieces {
        let Some(more) = size.checked_add(piece.size()) else {
            return false;
        };
        size = more;
    }
    true
}

/// Whether a table of a class or of a member can have these annotations (JVM Specification 4.7.16 and
/// 4.7.17): counts have room in two bytes and the table's length in four, classes and descriptors are
/// such, constants are of their tags' kinds, a pool may hold the texts, and values nest at most 255
/// deep.
pub fn are_writable(alloc: Global, notes: &[Note]) -> Result<bool, Memory>
    ensures { IfOk result (λ writable. IsTrue writable ↔ AreWritable notes.now) }
{
    if !are_shallow(notes) {
        return Ok(false);
    }
    let mut pieces = Vec::new(alloc);
    put_list(notes, &mut pieces)?;
    Ok(are_formed(alloc, &pieces)? && have_room(0, &pieces))
}

/// The content of a RuntimeVisibleAnnotations or RuntimeInvisibleAnnotations attribute with these
/// annotations (JVM Specification 4.7.16 and 4.7.17), whichever table they were of. The constants that
/// they name are added to the pool, in the order in which they stand, where no number names them yet;
/// after an error those before it may be there.
pub fn write_notes(alloc: Global, notes: &[Note], pool: &mut Pool) -> Result<Bytes, PoolFault>
    requires { AreWritable notes.now }
    ensures read_again { (visible : Bool) → IfOk result (λ bytes. AreRead pool.new visible bytes (as_members visible notes.now)) }
    ensures older { (n : ℕ) (c : Const) → constant_of pool.old n ≡ Some c → constant_of pool.new n ≡ Some c }
    ensures kept { Keeps pool.old pool.new }
    // The pool grows by the constants that it lacks, each once.
    ensures grows { IfOk result (λ _. Grows pool.old (notes_need notes.now) pool.new) }
    // Those that it lacks would make the pool's count pass 65,535.
    ensures full { IfErr result (λ e. e ≡ faults.Full → AreTooMany pool.old (notes_need notes.now)) }
{
    let mut pieces = Vec::new(alloc);
    put_list(notes, &mut pieces)?;
    let marks = marks_of(alloc, &pieces, pool)?;
    let mut out = Vec::new(alloc);
    put_marks(&mut out, &marks)?;
    Ok(Bytes::from_vec(out))
}

/// Whether the annotation is of the parameter.
fn is_of(note: &Note, place: u8) -> bool
    ensures { IsTrue result ↔ (note.now.parameter ≡ Some place) }
{
    match note.parameter {
        Some(parameter) => parameter == place,
        None => false,
    }
}

/// How many annotations of the parameter stand in front.
fn run_len(notes: &[Note], place: u8) -> usize
    ensures within { result ≤ length notes.now }
    ensures here { AllByRecursion (λ (n : Note). n.parameter ≡ Some place) (take result notes.now) }
    ensures behind { (limit : ℕ) → AreOrdered place limit notes.now → AreOrdered (place + 1) limit (drop result notes.now) }
{
    for (index, note) in notes.iter().enumerate() {
        if !is_of(note, place) {
            return index;
        }
    }
    notes.len()
}

/// Whether the annotations are of parameters below the count, in the parameters' order.
fn are_ordered(notes: &[Note], count: u8) -> bool
    ensures { IsTrue result ↔ AreOrdered 0 count notes.now }
{
    let mut least = 0;
    for note in notes {
        let Some(place) = note.parameter else {
            return false;
        };
        if place < least || place >= count {
            return false;
        }
        least = place;
    }
    true
}

/// Puts the parts of the parameters' lists at the end.
fn put_lists(notes: &[Note], count: u8, out: &mut Vec<Piece>) -> Result<(), Memory>
    requires { AreOrdered 0 count notes.now }
    ensures { OnOk result (out.new.items ≡ out.old.items ++ lists_pieces (by_place 0 count notes.now)) }
{
    let mut rest = notes;
    for place in 0..count {
        let (list, after) = rest.split_at(run_len(rest, place));
        put_list(list, out)?;
        rest = after;
    }
    Ok(())
}

/// Whether a table of so many parameters can have these annotations (JVM Specification 4.7.18 and
/// 4.7.19): what `are_writable` asks of each parameter's list, and each is of a parameter below the
/// count, in the parameters' order.
pub fn are_parameters_writable(alloc: Global, notes: &[Note], count: u8) -> Result<bool, Memory>
    ensures { IfOk result (λ writable. IsTrue writable ↔ AreWritableOf count notes.now) }
{
    if !are_ordered(notes, count) || !are_shallow(notes) {
        return Ok(false);
    }
    let mut pieces = Vec::new(alloc);
    put_lists(notes, count, &mut pieces)?;
    Ok(are_formed(alloc, &pieces)? && have_room(1, &pieces))
}

/// The content of a RuntimeVisibleParameterAnnotations or RuntimeInvisibleParameterAnnotations
/// attribute with a list for each of so many parameters and these annotations (JVM Specification
/// 4.7.18 and 4.7.19), each of the parameter that it has. The constants that they name are added to
/// the pool as `write_notes` adds them.
pub fn write_parameter_notes(
    alloc: Global,
    notes: &[Note],
    count: u8,
    pool: &mut Pool,
) -> Result<Bytes, PoolFault>
    requires { AreWritableOf count notes.now }
    ensures read_again { (visible : Bool) → IfOk result (λ bytes. AreParametersRead pool.new visible bytes (as_parameters visible notes.now)) }
    ensures count { IfOk result (λ bytes. (rest : List ℕ) × (bytes ≡ count ∷ rest)) }
    ensures older { (n : ℕ) (c : Const) → constant_of pool.old n ≡ Some c → constant_of pool.new n ≡ Some c }
    ensures kept { Keeps pool.old pool.new }
    // The pool grows by the constants that it lacks, each once.
    ensures grows { IfOk result (λ _. Grows pool.old (parameters_need count notes.now) pool.new) }
    // Those that it lacks would make the pool's count pass 65,535.
    ensures full { IfErr result (λ e. e ≡ faults.Full → AreTooMany pool.old (parameters_need count notes.now)) }
{
    let mut pieces = Vec::new(alloc);
    put_lists(notes, count, &mut pieces)?;
    let marks = marks_of(alloc, &pieces, pool)?;
    let mut out = Vec::new(alloc);
    out.push(count)?;
    put_marks(&mut out, &marks)?;
    Ok(Bytes::from_vec(out))
}
