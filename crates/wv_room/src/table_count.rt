//! Counts and lengths in a Code attribute.
ghost use Rattle.std.specs.Prelude.{◌≡◌, ◌+◌, ◌^◌, ◌≤◌, IfSome, IfNone};

use crate::number::Allows;
use crate::tables::Tables;

/// What a Code attribute has a number of.
#[derive(Clone, Copy, Debug, PartialEq, Eq)]
pub enum TableKind {
    Byte,
    Range,
    Attribute,
}

/// A count or a length in a Code attribute: allowed are those so many items of which, besides what
/// else is to come, can fill exactly the room behind it.
#[derive(Clone, Copy, Debug, PartialEq, Eq)]
pub struct TableCount {
    pub kind: TableKind,
    pub besides: Tables,
    pub room: u32,
}

impl TableCount {
    ghost use Rattle.wv_room.specs.Counts.{tables_with};

    /// All that is to come, with so many items of the list.
    fn with(&self, count: u32) -> Option<Tables>
        ensures all { IfSome result (λ all. all ≡ tables_with self.now.kind count self.now.besides) }
        ensures many { IfNone result (let all = tables_with self.now.kind count self.now.besides in
            2 ^ 32 ≤ all.bytes + all.attributes) }
    {
        let mut all = self.besides;
        match self.kind {
            TableKind::Byte => all.bytes = all.bytes.checked_add(count)?,
            TableKind::Range => all.bytes = count.checked_mul(8)?.checked_add(all.bytes)?,
            TableKind::Attribute => all.attributes = all.attributes.checked_add(count)?,
        }
        Some(all)
    }
}

impl Allows for TableCount {
    ghost use Rattle.wv_room.specs.Counts.{tables_with, TablesFillRoom};

    ghost allows = { λ c n. TablesFillRoom (tables_with c.kind n c.besides) c.room };

    fn allows_value(&self, value: u32) -> bool {
        let room = self.room;
        match self.with(value) {
            Some(all) => all.fits(room),
            None => false,
        }
    }

    fn is_past(&self, value: u32) -> bool {
        let room = self.room;
        match self.with(value) {
            Some(all) => all.least() > u64::from(room),
            None => true,
        }
    }
}
