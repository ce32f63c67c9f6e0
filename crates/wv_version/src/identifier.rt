//! Identifiers of a pre-release part.
ghost use Rattle.std.specs.Prelude.{◌≡◌, IfOk};
ghost use Rattle.std.specs.Ordering.{MatchOrdering};
ghost use Rattle.wv_version.specs.Order.{IsListLower};
ghost use Rattle.wv_version.specs.Identifier.{IsIdentifierLower};
ghost use Rattle.wv_version.specs.Reading.{is_word, identifier_of, identifiers_of};

use crate::cut::cut;
use crate::numeral::read_number;
use std::alloc::Global;
use std::cmp::Ordering;
use wv_base::{Items, Memory, Text};

/// An identifier of a pre-release part.
#[derive(Debug, Drop)]
pub enum Identifier {
    /// 1 to 18 digits, by their value.
    Number(u64),
    /// Any other identifier, 19 digits and more among them.
    Word(Text),
}

impl Identifier {
    /// The identifier that the text spells, where it is one.
    pub(crate) fn read(alloc: Global, text: &str) -> Result<Option<Identifier>, Memory>
        ensures { IfOk result (λ read. read ≡ identifier_of text.now) }
    {
        if let Some(number) = read_number(text) {
            return Ok(Some(Identifier::Number(number)));
        }
        if !is_word(text) {
            return Ok(None);
        }
        Ok(Some(Identifier::Word(Text::from_str(alloc, text)?)))
    }

    /// Numbers by value and below words, words by their bytes.
    pub(crate) fn compare(&self, other: &Identifier) -> Ordering
        ensures { MatchOrdering result (IsIdentifierLower self.now other.now)
            (self.now ≡ other.now) (IsIdentifierLower other.now self.now) }
    {
        match (self, other) {
            (Identifier::Number(number), Identifier::Number(other)) => number.cmp(other),
            (Identifier::Number(_), Identifier::Word(_)) => Ordering::Less,
            (Identifier::Word(_), Identifier::Number(_)) => Ordering::Greater,
            (Identifier::Word(word), Identifier::Word(other)) => {
                word.as_bytes().cmp(other.as_bytes())
            }
        }
    }
}

/// Whether the text is one or more letters, digits and dashes.
fn is_word(text: &str) -> bool
    ensures { result ≡ is_word text.now }
{
    !text.is_empty()
        && text
            .as_bytes()
            .iter()
            .all(|byte| byte.is_ascii_alphanumeric() || *byte == b'-')
}

/// The identifiers between dots.
pub(crate) fn read_identifiers(
    alloc: Global,
    text: &str,
) -> Result<Option<Items<Identifier>>, Memory>
    ensures { IfOk result (λ read. read ≡ identifiers_of text.now) }
{
    let mut identifiers = Items::new(alloc);
    let mut rest = Some(text);
    while let Some(text) = rest {
        let (piece, after) = cut(text, '.');
        let Some(identifier) = Identifier::read(alloc, piece)? else {
            return Ok(None);
        };
        identifiers.push(identifier)?;
        rest = after;
    }
    Ok(Some(identifiers))
}

/// By the first identifier that differs. A front of a list is less than the list.
pub(crate) fn compare_identifiers(list: &[Identifier], other: &[Identifier]) -> Ordering
    ensures { MatchOrdering result (IsListLower IsIdentifierLower list.now other.now)
        (list.now ≡ other.now) (IsListLower IsIdentifierLower other.now list.now) }
{
    for (left, right) in list.iter().zip(other) {
        let order = left.compare(right);
        if order.is_ne() {
            return order;
        }
    }
    list.len().cmp(&other.len())
}
