//! Annotation elements that are still to come.
ghost use Rattle.std.specs.Prelude.{◌≡◌, ◌↔◌, ◌+◌, ◌*◌, ◌≤◌, IsTrue};
ghost use Rattle.wv_room.specs.Elements.{ElementsFill, Takes};

/// What is still to come in a table of annotations: the bytes of fields of a fixed size, and the
/// number of items of each kind (JVM Specification 4.7.16 to 4.7.18). An element with its name is
/// two bytes and a value.
#[derive(Clone, Copy, Debug, PartialEq, Eq)]
pub struct Elements {
    pub bytes: u32,
    pub values: u32,
    pub annotations: u32,
    pub parameters: u32,
}

impl Elements {
    /// Whether these items can fill exactly so many bytes.
    pub fn fits(&self, room: u32) -> bool
        ensures filled { IsTrue result ↔ ElementsFill self.now.bytes self.now.values self.now.annotations self.now.parameters room }
        ensures small { IsTrue result →
            self.now.bytes + 3 * self.now.values + 4 * self.now.annotations + 2 * self.now.parameters ≤ room }
    {
        let room = u64::from(room);
        let least = self.least();
        if room < least {
            return false;
        }
        self.take(room - least)
    }

    /// The bytes of the items in their least forms.
    pub(crate) fn least(&self) -> u64
        ensures { result ≡ self.now.bytes + 3 * self.now.values + 4 * self.now.annotations + 2 * self.now.parameters }
    {
        u64::from(self.bytes)
            + 3 * u64::from(self.values)
            + 4 * u64::from(self.annotations)
            + 2 * u64::from(self.parameters)
    }

    /// Whether the items can take exactly so many bytes more than in their least forms.
    fn take(&self, more: u64) -> bool
        ensures { IsTrue result ↔ Takes self.now.values self.now.annotations self.now.parameters more }
    {
        match more {
            0 => true,
            1 => false,
            2 | 3 | 6 => self.values > 0,
            4 => self.values > 1 || self.parameters > 0,
            5 | 7 | 10 => self.values > 0 || self.annotations > 0,
            9 => self.values > 0 || self.parameters > 0,
            _ => self.values > 0 || self.annotations > 0 || self.parameters > 0,
        }
    }
}
