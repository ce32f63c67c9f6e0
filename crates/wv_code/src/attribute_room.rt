//! What fits behind an attribute's name and its length.
ghost use Rattle.std.specs.Prelude.{◌≡◌, ◌<◌, ◌≤◌};
ghost use Rattle.std.specs.Option.{option_copied};
ghost use Rattle.wv_pool.specs.References.{entry_of, text_of};
ghost use Rattle.wv_code.specs.Reading.{names_frames, attributes_fit, least_content};

use wv_base::{Name, PoolEntry};
use wv_room::Allows;

/// The longest attribute, in bytes: its name's number, its length, and the longest content (JVM
/// Specification 4.7).
const LONGEST: u64 = 6 + 0xffff_ffff;

/// Whether so many attributes can fill so many bytes exactly.
#[tactic(auto, unfolding(crate::specs::Reading::attributes_fit))]
fn attributes_fit(room: u32, count: u16) -> bool
    ensures { result ≡ attributes_fit room count }
{
    let (room, count) = (u64::from(room), u64::from(count));
    6 * count <= room && room <= LONGEST * count
}

/// The entry with the number.
fn entry_of(pool: &[PoolEntry], number: u32) -> Option<&PoolEntry>
    ensures { option_copied result ≡ entry_of pool.now number }
{
    pool.get((number as usize).checked_sub(1)?)
}

/// The text with the number.
fn text_of(pool: &[PoolEntry], number: u32) -> Option<&Name>
    ensures { option_copied result ≡ text_of pool.now number }
{
    match entry_of(pool, number) {
        Some(PoolEntry::Utf8(text)) => Some(text),
        _ => None,
    }
}

/// Whether the number is that of the name StackMapTable (JVM Specification 4.7.4).
#[tactic(auto, unfolding(crate::specs::Reading::names_frames))]
pub(crate) fn names_frames(pool: &[PoolEntry], number: u32) -> bool
    ensures { result ≡ names_frames pool.now number }
{
    match text_of(pool, number) {
        Some(text) => text.is_ascii("StackMapTable"),
        None => false,
    }
}

/// The least length of the content of an attribute with the name: a StackMapTable has a count.
pub(crate) fn least_content(pool: &[PoolEntry], number: u32) -> u32
    ensures value { result ≡ least_content pool.now number }
    ensures few { result ≤ 2 }
{
    if names_frames(pool, number) { 2 } else { 0 }
}

/// A number of an attribute's name, behind which an attribute of that name and so many more
/// fit the room.
#[derive(Drop)]
pub(crate) struct NameRoom<'a> {
    pub pool: &'a [PoolEntry],
    pub left: u16,
    pub room: u32,
}

impl Allows for NameRoom<'_> {
    ghost use Rattle.std.specs.Prelude.{◌≡◌, true};
    ghost use Rattle.wv_code.specs.Reading.{name_fits};

    ghost allows = { λ c n. name_fits c.pool.now c.left c.room n ≡ true };

    #[tactic(auto, unfolding(crate::specs::Reading::name_fits))]
    fn allows_value(&self, value: u32) -> bool {
        let least = least_content(self.pool, value);
        let (room, left) = (u64::from(self.room), u64::from(self.left));
        4 + u64::from(least) + 6 * left <= room && room + 2 <= LONGEST * (left + 1)
    }
}

/// The length of a content of at least so many bytes, behind which so many attributes fit the room.
#[derive(Clone, Copy, Debug, PartialEq, Eq)]
pub(crate) struct LengthRoom {
    pub least: u32,
    pub left: u16,
    pub room: u32,
}

impl LengthRoom {
    /// The least length, where this is the greatest: the last content fills what is left.
    fn first(&self, greatest: u32) -> u32
        ensures last { self.now.left ≡ 0 → result ≡ greatest }
        ensures others { 0 < self.now.left → result ≡ self.now.least }
    {
        if self.left == 0 { greatest } else { self.least }
    }
}

impl Allows for LengthRoom {
    ghost use Rattle.std.specs.Prelude.{◌≡◌, true};
    ghost use Rattle.wv_code.specs.Reading.{length_fits};

    ghost allows = { λ c n. length_fits c.least c.left c.room n ≡ true };

    #[tactic(auto, unfolding(crate::specs::Reading::length_fits))]
    fn allows_value(&self, value: u32) -> bool {
        self.least <= value && value <= self.room && attributes_fit(self.room - value, self.left)
    }

    fn allows_some(&self, least: u32, most: u32) -> bool {
        let Some(greatest) = self.room.checked_sub(6 * u32::from(self.left)) else {
            return false;
        };
        self.least <= greatest && self.first(greatest).max(least) <= greatest.min(most)
    }
}
