//! The classes in descriptors and in the names of Class constants.
ghost use Rattle.std.specs.Prelude.{◌≡◌, ◌==◌, ℕ, List, [], ◌∷◌, ◌++◌, map, codes, IfOk, MatchOption};
ghost use Rattle.std.specs.List.{slice_split};
ghost use Rattle.wv_form.specs.NamedClasses.{behind_l};

use std::alloc::{AllocError, Global};

/// The unit `L`, behind which the name of a class stands in a descriptor.
const BEGIN: u16 = 76;
/// The unit `;`, which ends it.
const END: u16 = 59;

/// The parts of a descriptor that the units `;` leave.
pub(crate) fn parts<'a>(alloc: Global, descriptor: &'a [u16]) -> Result<Vec<&'a [u16]>, AllocError>
    ensures { IfOk result (λ parts. map (λ part. part.now) parts.items ≡ slice_split (λ unit. unit == 59) descriptor.now) }
{
    descriptor.split(|unit| *unit == END).collect(alloc)
}

/// What follows the first `L` of a part of a descriptor.
pub(crate) fn behind_l(part: &[u16]) -> Option<&[u16]>
    ensures { MatchOption result (behind_l part.now ≡ []) (λ name. behind_l part.now ≡ name.now ∷ []) }
{
    for (place, unit) in part.iter().enumerate() {
        if *unit == BEGIN {
            return Some(&part[place + 1..]);
        }
    }
    None
}

/// The name of the class whose descriptor this is.
pub(crate) fn name_within(descriptor: &[u16]) -> Option<&[u16]>
    ensures { MatchOption result
        ((name : List ℕ) → descriptor.now ≡ codes "L" ++ (name ++ codes ";") → ⊥)
        (λ name. descriptor.now ≡ codes "L" ++ (name.now ++ codes ";")) }
{
    match descriptor {
        [BEGIN, name @ .., END] => Some(name),
        _ => None,
    }
}
