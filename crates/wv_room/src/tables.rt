//! The tables behind a method's code that are still to come.
ghost use Rattle.std.specs.Prelude.{◌≡◌, ◌↔◌, ◌+◌, ◌*◌, ◌≤◌, IsTrue};
ghost use Rattle.wv_room.specs.Tables.{TablesFill, TablesTake};

/// What is still to come in a Code attribute: the bytes of the code and of fields of a fixed size,
/// and the number of items of each kind (JVM Specification 4.7.3). A table is a count and its items.
#[derive(Clone, Copy, Debug, PartialEq, Eq)]
pub struct Tables {
    pub bytes: u32,
    pub attributes: u32,
    pub attribute_tables: u32,
    pub range_tables: u32,
}

impl Tables {
    /// Whether these items can fill exactly so many bytes.
    pub fn fits(&self, room: u32) -> bool
        ensures filled { IsTrue result ↔ TablesFill self.now.bytes self.now.attributes self.now.attribute_tables self.now.range_tables room }
        ensures small { IsTrue result →
            self.now.bytes + 6 * self.now.attributes + 2 * self.now.attribute_tables + 2 * self.now.range_tables ≤ room }
    {
        let room = u64::from(room);
        let least = self.least();
        if room < least {
            return false;
        }
        self.take(room - least)
    }

    /// The bytes of the items in their least forms.
    pub(crate) fn least(&self) -> u64
        ensures { result ≡ self.now.bytes + 6 * self.now.attributes + 2 * self.now.attribute_tables + 2 * self.now.range_tables }
    {
        u64::from(self.bytes)
            + 6 * u64::from(self.attributes)
            + 2 * u64::from(self.attribute_tables)
            + 2 * u64::from(self.range_tables)
    }

    /// Whether the items can take exactly so many bytes more than in their least forms.
    fn take(&self, more: u64) -> bool
        ensures { IsTrue result ↔ TablesTake self.now.attributes self.now.attribute_tables self.now.range_tables more }
    {
        if self.attributes > 0 {
            return true;
        }
        if self.attribute_tables > 0 {
            return more == 0 || more >= 6;
        }
        more % 8 == 0 && more / 8 <= 65535 * u64::from(self.range_tables)
    }
}
