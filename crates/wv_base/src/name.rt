//! Names, as class files have them.
ghost use Rattle.std.specs.Prelude.{◌≡◌, ◌↔◌, ℕ, List, [], length, IsTrue, IfOk, Some, refl, bytes_eq};
ghost use Rattle.std.specs.Ordering.{nat_cmp};
ghost use Rattle.std.specs.Cmp.{on_equiv, on_total, on_po, on_per, partial_equiv_from_equiv};
ghost use Rattle.std.specs.Cmp.Lexicographic.{slice_cmp, nat_list_eq_equiv, nat_list_cmp_total, texts_ties, texts_po};

use crate::memory::Memory;
use std::alloc::Global;
use std::cmp::Ordering;
use std::marker::Model;
use std::rc::Rc;

/// A name, a descriptor or another text of a class file: a list of UTF-16 units, in which a
/// surrogate may stand alone (JVM Specification 4.4.7). A copy shares the units.
#[derive(Debug, Drop)]
pub struct Name {
    units: Rc<Vec<u16>>,
}

impl Model for Name {
    ghost Value = { List ℕ };

    ghost view = { λ n. n.units.value.items };
}

impl Name {
    pub fn from_vec(alloc: Global, units: Vec<u16>) -> Result<Name, Memory>
        ensures { IfOk result (λ n. n ≡ units.items) }
    {
        Ok(Name {
            units: Rc::new(alloc, units)?,
        })
    }

    pub fn from_slice(alloc: Global, units: &[u16]) -> Result<Name, Memory>
        ensures { IfOk result (λ n. n ≡ units.now) }
    {
        Name::from_vec(alloc, Vec::from_slice(alloc, units)?)
    }

    /// The name of a text of ASCII characters, each of which is one unit.
    pub fn from_ascii(alloc: Global, text: &str) -> Result<Name, Memory>
        ensures { IfOk result (λ n. n ≡ text.now) }
    {
        let units = text.bytes().map(|byte| byte as u16).collect(alloc)?;
        Name::from_vec(alloc, units)
    }

    /// The same name, with the units shared.
    pub fn copy(&self) -> Result<Name, Memory>
        ensures { IfOk result (λ n. n ≡ self.now) }
    {
        Ok(Name {
            units: self.units.clone()?,
        })
    }

    pub fn units(&self) -> &[u16]
        ensures { result.now ≡ self.now }
    {
        self.units.as_ref().as_slice()
    }

    /// How many units the name has.
    pub fn len(&self) -> usize
        ensures { result ≡ length self.now }
    {
        self.units().len()
    }

    pub fn is_empty(&self) -> bool
        ensures { IsTrue result ↔ (self.now ≡ []) }
    {
        self.units().is_empty()
    }

    /// Whether the name is this text of ASCII characters.
    pub fn is_ascii(&self, text: &str) -> bool
        ensures { IsTrue result ↔ (self.now ≡ text.now) }
    {
        let units = self.units();
        let bytes = text.as_bytes();
        if units.len() != bytes.len() {
            return false;
        }
        for (place, unit) in units.iter().enumerate() {
            if *unit != bytes[place] as u16 {
                return false;
            }
        }
        true
    }

    /// Whether both are the same name.
    pub fn is(&self, other: &Name) -> bool
        ensures { IsTrue result ↔ (self.now ≡ other.now) }
    {
        self.units() == other.units()
    }
}

impl PartialEq for Name {
    ghost eq = { λ a b. bytes_eq a b };

    ghost laws = { on_per (λ n. n) (partial_equiv_from_equiv nat_list_eq_equiv) };

    fn eq(&self, other: &Name) -> bool {
        self.units() == other.units()
    }
}

impl Eq for Name {
    ghost laws = { on_equiv (λ n. n) nat_list_eq_equiv };
}

impl PartialOrd for Name {
    ghost partial_cmp = { λ a b. Some (slice_cmp nat_cmp a b) };

    ghost laws = { on_po (λ n. n) texts_po };

    fn partial_cmp(&self, other: &Name) -> Option<Ordering> {
        Some(self.cmp(other))
    }
}

impl Ord for Name {
    ghost cmp = { λ a b. slice_cmp nat_cmp a b };

    ghost total = { on_total (λ n. n) nat_list_cmp_total };

    ghost matches_partial_cmp = { λ a b. refl };

    ghost matches_eq = { λ a b. texts_ties a b };

    fn cmp(&self, other: &Name) -> Ordering {
        self.units().cmp(other.units())
    }
}
