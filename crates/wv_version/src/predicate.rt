//! Predicates on versions.
ghost use Rattle.std.specs.Prelude.{◌≡◌, ◌↔◌, IsTrue, IfOk, IfSome, IfNone};
ghost use Rattle.wv_version.specs.declared.predicate.Predicate.{Predicate};
ghost use Rattle.wv_version.specs.Predicate.{IsPredicate, Meets};

use crate::cut::cut;
use crate::term::Term;
use crate::version::Version;
use std::alloc::Global;
use wv_base::{Items, Memory, Text};

/// A predicate on versions, as an entry of `depends` or `breaks` has it: terms that all must be met.
#[derive(Debug, Drop)]
pub struct Predicate {
    /// A predicate without terms is met by every version.
    pub terms: Items<Term>,
}

impl Predicate {
    /// The predicate that the text spells: terms with spaces between them. Spaces at the ends are
    /// let pass. None exactly where the text is outside the grammar.
    pub fn read(alloc: Global, text: &Text) -> Result<Option<Predicate>, Memory>
        ensures found { IfOk result (λ read. IfSome read (IsPredicate text.now)) }
        ensures none { IfOk result (λ read. IfNone read
            ((predicate : Predicate) → IsPredicate text.now predicate → ⊥)) }
    {
        let mut terms = Items::new(alloc);
        let mut rest = Some(text.as_str());
        while let Some(text) = rest {
            let (piece, after) = cut(text, ' ');
            if !piece.is_empty() {
                let Some(term) = Term::read(alloc, piece)? else {
                    return Ok(None);
                };
                terms.push(term)?;
            }
            rest = after;
        }
        Ok(Some(Predicate { terms }))
    }

    /// Whether the version meets every term.
    pub fn test(&self, version: &Version) -> bool
        ensures { IsTrue result ↔ Meets version.now self.now }
    {
        self.terms
            .as_slice()
            .iter()
            .all(|term| term.is_met(version))
    }
}
