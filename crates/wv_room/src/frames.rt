//! Stack map frames that are still to come.
ghost use Rattle.std.specs.Prelude.{◌≡◌, ◌↔◌, ◌+◌, ◌*◌, ◌≤◌, IsTrue};
ghost use Rattle.wv_room.specs.Frames.{FramesFill, FramesTake, most_more};

/// What is still to come in a StackMapTable: the bytes of fields of a fixed size, and the number of
/// items of each kind (JVM Specification 4.7.4). A list is a count of types and the types.
#[derive(Clone, Copy, Debug, PartialEq, Eq)]
pub struct Frames {
    pub bytes: u32,
    pub types: u32,
    pub lists: u32,
    pub frames: u32,
}

impl Frames {
    /// Whether these items can fill exactly so many bytes.
    pub fn fits(&self, room: u32) -> bool
        ensures filled { IsTrue result ↔ FramesFill self.now.bytes self.now.types self.now.lists self.now.frames room }
        ensures small { IsTrue result → self.now.bytes + self.now.types + 2 * self.now.lists + self.now.frames ≤ room }
    {
        let room = u64::from(room);
        let least = self.least();
        if room < least {
            return false;
        }
        self.take(room - least)
    }

    /// The bytes of the items in their least forms.
    pub(crate) fn least(&self) -> u64
        ensures { result ≡ self.now.bytes + self.now.types + 2 * self.now.lists + self.now.frames }
    {
        u64::from(self.bytes)
            + u64::from(self.types)
            + 2 * u64::from(self.lists)
            + u64::from(self.frames)
    }

    /// How many bytes more the items take in their greatest forms.
    fn most_more(&self) -> u64
        ensures { result ≡ most_more self.now.types self.now.lists self.now.frames }
    {
        2 * u64::from(self.types) + 196605 * u64::from(self.lists) + 393216 * u64::from(self.frames)
    }

    /// Whether the items can take exactly so many bytes more than in their least forms.
    fn take(&self, more: u64) -> bool
        ensures { IsTrue result ↔ FramesTake self.now.types self.now.lists self.now.frames more }
    {
        let most = self.most_more();
        if more > most {
            return false;
        }
        if self.lists == 0 && self.frames == 0 {
            return more % 2 == 0;
        }
        most - more != 1
    }
}
