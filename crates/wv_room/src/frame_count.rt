//! Counts in a StackMapTable.
ghost use Rattle.std.specs.Prelude.{◌≡◌, ◌+◌, ◌^◌, ◌≤◌, IfSome, IfNone};

use crate::frames::Frames;
use crate::number::Allows;

/// What a list in a StackMapTable has.
#[derive(Clone, Copy, Debug, PartialEq, Eq)]
pub enum FrameKind {
    Type,
    Frame,
}

/// A count of items in a StackMapTable: allowed are those so many of which, besides what else is to
/// come, can fill exactly the room behind the count.
#[derive(Clone, Copy, Debug, PartialEq, Eq)]
pub struct FrameCount {
    pub kind: FrameKind,
    pub besides: Frames,
    pub room: u32,
}

impl FrameCount {
    ghost use Rattle.wv_room.specs.Counts.{frames_with};

    /// All that is to come, with so many items of the list.
    fn with(&self, count: u32) -> Option<Frames>
        ensures all { IfSome result (λ all. all ≡ frames_with self.now.kind count self.now.besides) }
        ensures many { IfNone result (let all = frames_with self.now.kind count self.now.besides in
            2 ^ 32 ≤ all.types + all.frames) }
    {
        let mut all = self.besides;
        match self.kind {
            FrameKind::Type => all.types = all.types.checked_add(count)?,
            FrameKind::Frame => all.frames = all.frames.checked_add(count)?,
        }
        Some(all)
    }
}

impl Allows for FrameCount {
    ghost use Rattle.wv_room.specs.Counts.{frames_with, FramesFillRoom};

    ghost allows = { λ c n. FramesFillRoom (frames_with c.kind n c.besides) c.room };

    fn allows_value(&self, value: u32) -> bool {
        let room = self.room;
        match self.with(value) {
            Some(all) => all.fits(room),
            None => false,
        }
    }

    fn is_past(&self, value: u32) -> bool {
        let room = self.room;
        match self.with(value) {
            Some(all) => all.least() > u64::from(room),
            None => true,
        }
    }
}
