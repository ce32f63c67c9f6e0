//! Versions of mods.
ghost use Rattle.std.specs.Prelude.{◌≡◌, ◌↔◌, ◌⊎◌, IfOk, Some, IsNone, IsTrue};
ghost use Rattle.wv_version.specs.Version.{IsVersion, IsPlain, IsVersionLower, IsVersionSame, HasSamePlace};

use crate::dotted::Dotted;
use std::alloc::Global;
use std::cmp::Ordering;
use wv_base::{Memory, Text};

/// A version of a mod (own, after Fabric Loader): numbers of 1 to 18 digits between dots, then
/// optionally `-` and a pre-release part, then optionally `+` and a build part; or any other text.
#[derive(Debug, Drop)]
pub enum Version {
    /// A version of numbers. Only such versions have an order.
    Dotted(Dotted),
    /// Any other text, as `23w31a`.
    Plain(Text),
}

impl Version {
    /// The version that the text spells. Every text spells one.
    pub fn read(alloc: Global, text: &Text) -> Result<Version, Memory>
        ensures { IfOk result (IsVersion text.now) }
    {
        Version::read_str(alloc, text.as_str())
    }

    /// The version that the text spells.
    pub(crate) fn read_str(alloc: Global, text: &str) -> Result<Version, Memory>
        ensures { IfOk result (IsVersion text.now) }
    {
        match Dotted::read(alloc, text)? {
            Some(dotted) => Ok(Version::Dotted(dotted)),
            None => Ok(Version::Plain(Text::from_str(alloc, text)?)),
        }
    }

    /// The order of two dotted versions: by the first number that differs, where a missing one counts
    /// as 0, and then by the pre-release parts. A plain version has none.
    pub fn compare(&self, other: &Version) -> Option<Ordering>
        ensures none { IsNone result ↔ (IsPlain self.now ⊎ IsPlain other.now) }
        ensures less { (result ≡ Some Ordering.Less) ↔ IsVersionLower self.now other.now }
        ensures equal { (result ≡ Some Ordering.Equal) ↔ HasSamePlace self.now other.now }
        ensures greater { (result ≡ Some Ordering.Greater) ↔ IsVersionLower other.now self.now }
    {
        match (self, other) {
            (Version::Dotted(version), Version::Dotted(other)) => Some(version.compare(other)),
            _ => None,
        }
    }

    /// Whether both are dotted and equal in the order, or both are plain and the same text.
    pub(crate) fn is_same(&self, other: &Version) -> bool
        ensures { IsTrue result ↔ IsVersionSame self.now other.now }
    {
        match (self, other) {
            (Version::Dotted(version), Version::Dotted(other)) => version.compare(other).is_eq(),
            (Version::Plain(text), Version::Plain(other)) => text.is(other),
            _ => false,
        }
    }
}
