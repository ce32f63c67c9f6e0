//! Terms of a predicate.
ghost use Rattle.std.specs.Prelude.{◌≡◌, ◌↔◌, ℕ, List, IsTrue, IfOk, IfSome, IfNone, MatchOption, slice_index, EachIndex};
ghost use Rattle.wv_version.specs.declared.term.Term.{Term};
ghost use Rattle.wv_version.specs.Term.{IsTerm, IsWildcard, MeetsTerm, IsBeforeWildcard, HasNoWildcard, BeginsWith};

use crate::cut::behind;
use crate::dotted::Dotted;
use crate::numeral::read_numbers;
use crate::relation::Relation;
use crate::version::Version;
use std::alloc::Global;
use wv_base::{Items, Memory};

/// A term of a predicate.
#[derive(Debug, Drop)]
pub enum Term {
    /// `*`: every version.
    Any,
    /// A version, or `=` and a version.
    Is(Version),
    /// The sign of a relation, and a dotted version.
    Compared(Relation, Dotted),
    /// `1.20.x`: the numbers that the version begins with.
    Wildcard(Items<u64>),
}

impl Term {
    /// The term that the text spells. None where a sign stands before no dotted version.
    pub(crate) fn read(alloc: Global, text: &str) -> Result<Option<Term>, Memory>
        ensures found { IfOk result (λ read. IfSome read (IsTerm text.now)) }
        ensures none { IfOk result (λ read. IfNone read
            ((term : Term) → IsTerm text.now term → ⊥)) }
    {
        if text == "*" {
            return Ok(Some(Term::Any));
        }
        if let Some(rest) = behind(text, '=') {
            return Ok(Some(Term::Is(Version::read_str(alloc, rest)?)));
        }
        if let Some((relation, rest)) = Relation::split(text) {
            return match Dotted::read(alloc, rest)? {
                Some(version) => Ok(Some(Term::Compared(relation, version))),
                None => Ok(None),
            };
        }
        if let Some(numbers) = read_wildcard(alloc, text)? {
            return Ok(Some(Term::Wildcard(numbers)));
        }
        Ok(Some(Term::Is(Version::read_str(alloc, text)?)))
    }

    /// Whether the version meets the term.
    pub(crate) fn is_met(&self, version: &Version) -> bool
        ensures { IsTrue result ↔ MeetsTerm version.now self.now }
    {
        match (self, version) {
            (Term::Any, _) => true,
            (Term::Is(named), _) => version.is_same(named),
            (Term::Compared(relation, named), Version::Dotted(version)) => relation.holds(
                version, named,
            ),
            (Term::Wildcard(numbers), Version::Dotted(version)) => begins_with(
                version,
                numbers.as_slice(),
            ),
            (_, Version::Plain(_)) => false,
        }
    }
}

/// Whether the version's numbers begin with these, where a missing number counts as 0.
fn begins_with(version: &Dotted, numbers: &[u64]) -> bool
    ensures { IsTrue result ↔ BeginsWith version.now.numbers numbers.now }
{
    for (place, number) in numbers.iter().enumerate() {
        if version.number_at(place) != *number {
            return false;
        }
    }
    true
}

/// The numbers before a wildcard, where the text has that form.
fn read_wildcard(alloc: Global, text: &str) -> Result<Option<Items<u64>>, Memory>
    ensures found { IfOk result (λ read. IfSome read (IsWildcard text.now)) }
    ensures none { IfOk result (λ read. IfNone read
        ((numbers : List ℕ) → IsWildcard text.now numbers → ⊥)) }
{
    match before_wildcard(text) {
        Some(front) => read_numbers(alloc, front),
        None => Ok(None),
    }
}

/// What stands before a dot and `x`, `X` or `*` at the end.
fn before_wildcard(text: &str) -> Option<&str>
    ensures { MatchOption result (HasNoWildcard text.now)
        (λ front. IsBeforeWildcard text.now front.now) }
{
    match text.as_bytes() {
        [.., b'.', b'x' | b'X' | b'*'] => Some(&text[..text.len() - 2]),
        _ => None,
    }
}
