//! Counts in a table of annotations.
ghost use Rattle.std.specs.Prelude.{◌≡◌, ◌+◌, ◌^◌, ◌≤◌, IfSome, IfNone};

use crate::elements::Elements;
use crate::number::Allows;

/// What a list in a table of annotations has.
#[derive(Clone, Copy, Debug, PartialEq, Eq)]
pub enum ElementKind {
    Value,
    /// The number of a name and a value.
    Pair,
    Annotation,
    Parameter,
}

/// A count of items in a table of annotations: allowed are those so many of which, besides what else
/// is to come, can fill exactly the room behind the count.
#[derive(Clone, Copy, Debug, PartialEq, Eq)]
pub struct ElementCount {
    pub kind: ElementKind,
    pub besides: Elements,
    pub room: u32,
}

impl ElementCount {
    ghost use Rattle.wv_room.specs.Counts.{elements_with};

    /// All that is to come, with so many items of the list.
    fn with(&self, count: u32) -> Option<Elements>
        ensures all { IfSome result (λ all. all ≡ elements_with self.now.kind count self.now.besides) }
        ensures many { IfNone result (let all = elements_with self.now.kind count self.now.besides in
            2 ^ 32 ≤ all.bytes + all.values + all.annotations + all.parameters) }
    {
        let mut all = self.besides;
        match self.kind {
            ElementKind::Value => all.values = all.values.checked_add(count)?,
            ElementKind::Pair => {
                all.bytes = count.checked_mul(2)?.checked_add(all.bytes)?;
                all.values = all.values.checked_add(count)?;
            }
            ElementKind::Annotation => all.annotations = all.annotations.checked_add(count)?,
            ElementKind::Parameter => all.parameters = all.parameters.checked_add(count)?,
        }
        Some(all)
    }
}

impl Allows for ElementCount {
    ghost use Rattle.wv_room.specs.Counts.{elements_with, ElementsFillRoom};

    ghost allows = { λ c n. ElementsFillRoom (elements_with c.kind n c.besides) c.room };

    fn allows_value(&self, value: u32) -> bool {
        let room = self.room;
        match self.with(value) {
            Some(all) => all.fits(room),
            None => false,
        }
    }

    fn is_past(&self, value: u32) -> bool {
        let room = self.room;
        match self.with(value) {
            Some(all) => all.least() > u64::from(room),
            None => true,
        }
    }
}
