//! Versions of numbers.
ghost use Rattle.std.specs.Prelude.{◌≡◌, ◌<◌, IfOk, IfSome, IfNone, IsTrue, ◌↔◌, MatchOption, slice_index};
ghost use Rattle.std.specs.Option.{option_copied};
ghost use Rattle.std.specs.Ordering.{MatchOrdering};
ghost use Rattle.wv_version.specs.declared.dotted.Dotted.{Dotted};
ghost use Rattle.wv_version.specs.Dotted.{IsDotted, IsLower, IsSame, IsBuild, IsNumbersLower, HasSameNumbers, IsPreReleaseLower};
ghost use Rattle.wv_version.specs.Reading.{pre_release_of, is_build};

use crate::cut::cut;
use crate::identifier::{Identifier, compare_identifiers, read_identifiers};
use crate::numeral::read_numbers;
use std::alloc::Global;
use std::cmp::Ordering;
use wv_base::{Items, Memory};

/// A version of the dotted form, as `1.20.1`, `1.21-pre1` or `0.14.21+build.1`. Its build part is
/// left out.
#[derive(Debug, Drop)]
pub struct Dotted {
    /// One or more.
    pub numbers: Items<u64>,
    /// The identifiers of the pre-release part, which may be empty.
    pub pre_release: Option<Items<Identifier>>,
}

impl Dotted {
    /// The version that the text spells, where it has the dotted form.
    pub(crate) fn read(alloc: Global, text: &str) -> Result<Option<Dotted>, Memory>
        ensures found { IfOk result (λ read. IfSome read (IsDotted text.now)) }
        ensures none { IfOk result (λ read. IfNone read
            ((other : Dotted) → IsDotted text.now other → ⊥)) }
    {
        let (text, build) = cut(text, '+');
        let (numbers, pre_release) = cut(text, '-');
        if !is_build_part(build) {
            return Ok(None);
        }
        let Some(numbers) = read_numbers(alloc, numbers)? else {
            return Ok(None);
        };
        let Some(pre_release) = pre_release else {
            return Ok(Some(Dotted {
                numbers,
                pre_release: None,
            }));
        };
        let Some(pre_release) = read_pre_release(alloc, pre_release)? else {
            return Ok(None);
        };
        Ok(Some(Dotted {
            numbers,
            pre_release: Some(pre_release),
        }))
    }

    /// By the first number that differs, where a missing one counts as 0, and then by the
    /// pre-release parts.
    pub(crate) fn compare(&self, other: &Dotted) -> Ordering
        ensures { MatchOrdering result (IsLower self.now other.now) (IsSame self.now other.now)
            (IsLower other.now self.now) }
    {
        compare_numbers(self.numbers.as_slice(), other.numbers.as_slice()).then_with(
            || compare_pre_releases(&self.pre_release, &other.pre_release),
        )
    }

    /// The number at a place, and 0 where there is none.
    pub(crate) fn number_at(&self, place: usize) -> u64
        ensures { result ≡ slice_index self.now.numbers place }
    {
        number_at(self.numbers.as_slice(), place)
    }
}

/// The number at a place, and 0 where there is none.
fn number_at(numbers: &[u64], place: usize) -> u64
    ensures { result ≡ slice_index numbers.now place }
{
    numbers.get(place).copied().unwrap_or(0)
}

/// Whether a build part is one or more letters, digits, dashes and dots, where there is one.
fn is_build_part(part: Option<&str>) -> bool
    ensures { MatchOption (option_copied part.entry) (IsTrue result)
        (λ part. result ≡ is_build part) }
{
    part.is_none_or(|part| is_build(part))
}

/// Whether the text is one or more letters, digits, dashes and dots.
fn is_build(text: &str) -> bool
    ensures { result ≡ is_build text.now }
{
    !text.is_empty()
        && text.as_bytes().iter().all(|byte| byte.is_ascii_alphanumeric()
            || *byte == b'-'
            || *byte == b'.')
}

/// The identifiers of a pre-release part: none where it is empty.
fn read_pre_release(alloc: Global, text: &str) -> Result<Option<Items<Identifier>>, Memory>
    ensures { IfOk result (λ read. read ≡ pre_release_of text.now) }
{
    if text.is_empty() {
        return Ok(Some(Items::new(alloc)));
    }
    read_identifiers(alloc, text)
}

/// By the first number that differs, where a missing one counts as 0.
fn compare_numbers(numbers: &[u64], other: &[u64]) -> Ordering
    ensures { MatchOrdering result (IsNumbersLower numbers.now other.now)
        (HasSameNumbers numbers.now other.now) (IsNumbersLower other.now numbers.now) }
{
    for place in 0..numbers.len().max(other.len()) {
        let order = number_at(numbers, place).cmp(&number_at(other, place));
        if order.is_ne() {
            return order;
        }
    }
    Ordering::Equal
}

/// By identifiers. No pre-release part is the greatest.
fn compare_pre_releases(
    part: &Option<Items<Identifier>>,
    other: &Option<Items<Identifier>>,
) -> Ordering
    ensures { MatchOrdering result (IsPreReleaseLower part.now other.now) (part.now ≡ other.now)
        (IsPreReleaseLower other.now part.now) }
{
    match (part, other) {
        (None, None) => Ordering::Equal,
        (None, Some(_)) => Ordering::Greater,
        (Some(_), None) => Ordering::Less,
        (Some(part), Some(other)) => compare_identifiers(part.as_slice(), other.as_slice()),
    }
}
