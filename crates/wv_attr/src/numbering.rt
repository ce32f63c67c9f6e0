//! Numbers of a pool in place of the constants of parts.
ghost use Rattle.std.specs.Prelude.{◌≡◌, List, IfOk, IfErr, Some, ◌∷◌, []};
ghost use Rattle.std.specs.List.{AllByRecursion};
ghost use Rattle.wv_base.specs.declared.constant.Const.{Const};
ghost use Rattle.wv_base.specs.declared.constant.Const.TheVariants as constants;
ghost use Rattle.wv_pool.specs.declared.add.PoolFault.TheVariants as faults;
ghost use Rattle.wv_pool.specs.References.{text_of};
ghost use Rattle.wv_pool.specs.Constants.{constant_of};
ghost use Rattle.wv_pool.specs.Adding.{needs, AreTooMany, Keeps, Grows};
ghost use Rattle.wv_pool.specs.Allowed.{IsShort, IsAllowed};
ghost use Rattle.wv_attr.specs.Marks.{IsMark};
ghost use Rattle.wv_attr.specs.Pieces.{Names, AllName};
ghost use Rattle.wv_attr.specs.Writing.{IsFormed, piece_needs, pieces_need};

use crate::mark::Mark;
use crate::piece::{Piece, class_descriptor};
use std::alloc::Global;
use wv_base::{Const, Name};
use wv_pool::{Pool, PoolFault};

/// The number of the constant, which is added to the pool where none names it.
fn constant(pool: &mut Pool, value: &Const) -> Result<u16, PoolFault>
    requires { IsAllowed value.now }
    ensures names { IfOk result (λ number. constant_of pool.new number ≡ Some value.now) }
    ensures kept { Keeps pool.old pool.new }
    ensures grows { IfOk result (λ _. needs value.now ≡ value.now ∷ [] → Grows pool.old (needs value.now) pool.new) }
    ensures full { IfErr result (λ e. e ≡ faults.Full → AreTooMany pool.old (needs value.now)) }
{
    pool.add(value)
}

/// The number of the text, which is added to the pool where none names it.
fn text(pool: &mut Pool, text: &Name) -> Result<u16, PoolFault>
    requires { IsShort text.now }
    ensures names { IfOk result (λ number. text_of pool.new number ≡ Some text.now) }
    ensures kept { Keeps pool.old pool.new }
    ensures grows { IfOk result (λ _. Grows pool.old (constants.Utf8 text.now ∷ []) pool.new) }
    ensures full { IfErr result (λ e. e ≡ faults.Full → AreTooMany pool.old (constants.Utf8 text.now ∷ [])) }
{
    let value = Const::Utf8(text.copy()?);
    constant(pool, &value)
}

/// The part with the numbers of its constants, which are added to the pool where none names them.
fn mark_of(alloc: Global, piece: &Piece, pool: &mut Pool) -> Result<Mark, PoolFault>
    requires { IsFormed piece.now }
    ensures names { IfOk result (Names pool.new piece.now) }
    ensures mark { IfOk result IsMark }
    ensures kept { Keeps pool.old pool.new }
    ensures grows { IfOk result (λ _. Grows pool.old (piece_needs piece.now) pool.new) }
    ensures full { IfErr result (λ e. e ≡ faults.Full → AreTooMany pool.old (piece_needs piece.now)) }
{
    Ok(match piece {
        Piece::List { count } => Mark::List {
            count: *count as u16,
        },
        Piece::Annotation { class, count } => {
            let descriptor = class_descriptor(alloc, class)?;
            Mark::Annotation {
                class: text(pool, &descriptor)?,
                count: *count as u16,
            }
        }
        Piece::Name(name) => Mark::Name {
            name: text(pool, name)?,
        },
        Piece::Constant { tag, value } => Mark::Constant {
            tag: *tag,
            value: constant(pool, value)?,
        },
        Piece::Enum { descriptor, name } => Mark::Enum {
            descriptor: text(pool, descriptor)?,
            name: text(pool, name)?,
        },
        Piece::Class(descriptor) => Mark::Class {
            descriptor: text(pool, descriptor)?,
        },
        Piece::Nested => Mark::Nested,
        Piece::Array { count } => Mark::Array {
            count: *count as u16,
        },
    })
}

/// The parts with the numbers of their constants, which are added to the pool, one after the other,
/// where none names them.
pub(crate) fn marks_of(
    alloc: Global,
    pieces: &[Piece],
    pool: &mut Pool,
) -> Result<Vec<Mark>, PoolFault>
    requires { AllByRecursion IsFormed pieces.now }
    ensures names { IfOk result (λ marks. AllName pool.new pieces.now marks.items) }
    ensures marks { IfOk result (λ marks. AllByRecursion IsMark marks.items) }
    ensures kept { Keeps pool.old pool.new }
    ensures grows { IfOk result (λ _. Grows pool.old (pieces_need pieces.now) pool.new) }
    ensures full { IfErr result (λ e. e ≡ faults.Full → AreTooMany pool.old (pieces_need pieces.now)) }
{
    let mut marks = Vec::new(alloc);
    for piece in pieces {
        marks.push(mark_of(alloc, piece, pool)?)?;
    }
    Ok(marks)
}
