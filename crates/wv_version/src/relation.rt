//! Relations to a version that a predicate names.
ghost use Rattle.std.specs.Prelude.{◌≡◌, ◌↔◌, IsTrue, ◌++◌, MatchOption};
ghost use Rattle.wv_version.specs.Relation.{Holds, HasNoSign, IsSigned};

use crate::cut::behind;
use crate::dotted::Dotted;

/// How a version stands to the one that a predicate names.
#[derive(Clone, Copy, Debug, PartialEq, Eq)]
pub enum Relation {
    /// `<`
    Below,
    /// `<=`
    AtMost,
    /// `>`
    Above,
    /// `>=`
    AtLeast,
    /// `^`: not less, and the same first number.
    Caret,
    /// `~`: not less, and the same first two numbers.
    Tilde,
}

impl Relation {
    /// The relation whose sign begins the text, and what stands behind the sign. `<=` and `>=` come
    /// before `<` and `>`.
    pub(crate) fn split(text: &str) -> Option<(Relation, &str)>
        ensures { MatchOption result (HasNoSign text.now)
            (λ found. IsSigned text.now found.0 found.1.now) }
    {
        if let Some(rest) = behind(text, '<') {
            return Some(match behind(rest, '=') {
                Some(rest) => (Relation::AtMost, rest),
                None => (Relation::Below, rest),
            });
        }
        if let Some(rest) = behind(text, '>') {
            return Some(match behind(rest, '=') {
                Some(rest) => (Relation::AtLeast, rest),
                None => (Relation::Above, rest),
            });
        }
        if let Some(rest) = behind(text, '^') {
            return Some((Relation::Caret, rest));
        }
        match behind(text, '~') {
            Some(rest) => Some((Relation::Tilde, rest)),
            None => None,
        }
    }

    /// Whether `version` stands so to `named`.
    pub(crate) fn holds(self, version: &Dotted, named: &Dotted) -> bool
        ensures { IsTrue result ↔ Holds self version.now named.now }
    {
        let order = version.compare(named);
        match self {
            Relation::Below => order.is_lt(),
            Relation::AtMost => order.is_le(),
            Relation::Above => order.is_gt(),
            Relation::AtLeast => order.is_ge(),
            Relation::Caret => order.is_ge() && version.number_at(0) == named.number_at(0),
            Relation::Tilde => {
                order.is_ge()
                    && version.number_at(0) == named.number_at(0)
                    && version.number_at(1) == named.number_at(1)
            }
        }
    }
}
