//! Numbers of switches that have to fit the room that is left of the code.
ghost use Rattle.std.specs.Prelude.{◌≡◌, ◌↔◌, ◌<◌, ◌≤◌, ◌^◌, true, IsTrue};
ghost use Rattle.wv_code.specs.Fitting.{may_be, part_behind, part_fits};

use wv_insn::targets;
use wv_room::Allows;

/// A number of a switch behind which others stand (JVM Specification 6.5, tableswitch and
/// lookupswitch).
#[derive(Clone, Copy, Debug, PartialEq, Eq)]
pub(crate) enum SwitchPart {
    /// The least key of a tableswitch.
    Low,
    /// The greatest key of a tableswitch whose least is `low`.
    High { low: i32 },
    /// How many cases a lookupswitch has.
    Count,
}

/// A number of a switch: allowed are those for which what stands behind it fits in `room` bytes, the
/// last `tail` of which are no part of the code.
#[derive(Clone, Copy, Debug, PartialEq, Eq)]
pub(crate) struct SwitchNumber {
    pub(crate) part: SwitchPart,
    pub(crate) tail: u32,
    pub(crate) room: u32,
}

/// The first of the numbers whose sign is set.
const LEAST: u32 = 0x8000_0000;

/// Whether the first of the numbers whose sign is set is between these two, behind the first.
fn spans_sign(least: u32, most: u32) -> bool
    ensures { IsTrue result ↔ (least < 2147483648) × (2147483648 ≤ most) }
{
    least < LEAST && LEAST <= most
}

impl SwitchNumber {
    /// Whether the number may have this value, whatever stands behind it.
    fn may_be(&self, value: u32) -> bool
        ensures { result ≡ may_be self.now.part value }
    {
        match self.part {
            SwitchPart::Count => value < LEAST,
            _ => true,
        }
    }

    /// How many bytes stand behind this value, at least.
    #[tactic(auto, using(crate::proofs::SwitchNumbers::few_targets), unfolding(crate::specs::Fitting::part_behind))]
    fn behind(&self, value: u32) -> u64
        ensures value { result ≡ part_behind self.now.part value }
        ensures few { result < 2 ^ 40 }
    {
        match self.part {
            SwitchPart::Low => 4 + 4 * targets(value.cast_signed(), i32::MIN),
            SwitchPart::High { low } => 4 * targets(low, value.cast_signed()),
            SwitchPart::Count => 8 * u64::from(value),
        }
    }
}

impl Allows for SwitchNumber {
    ghost allows = { λ s n. part_fits s.part s.tail s.room n ≡ true };

    #[tactic(auto, unfolding(crate::specs::Fitting::part_fits))]
    fn allows_value(&self, value: u32) -> bool {
        self.may_be(value) && self.behind(value) + u64::from(self.tail) <= u64::from(self.room)
    }

    fn allows_some(&self, least: u32, most: u32) -> bool {
        if self.allows_value(least) || self.allows_value(most) {
            return true;
        }
        spans_sign(least, most) && self.allows_value(LEAST)
    }
}
