//! The first broken rule of what was read, or what it is woven to.
ghost use Rattle.std.specs.Prelude.{List};
ghost use Rattle.wv_base.specs.Folder.{File};
ghost use Rattle.wv_top.specs.Reading.{IsReadingOf};
ghost use Rattle.wv_top.specs.Rules.{Weaves};

use crate::reading::Reading;
use std::alloc::Global;
use wv_base::Side;
use wv_front::{WeaveFault, opening, opening_cut};
use wv_weave::{Woven, weave};

/// Weaves what was read for a side. Where the reading ended early, that is refused, or a rule that
/// comes before that of the limits.
pub(crate) fn weave_reading(
    alloc: Global,
    reading: &Reading,
    side: Side,
) -> Result<Woven, WeaveFault>
    ensures { (files : List File) → IsReadingOf files reading.now → Weaves files side result }
{
    match &reading.cut {
        None => {
            opening(alloc, &reading.folder)?;
            weave(alloc, &reading.folder, side)
        }
        Some(cut) => Err(opening_cut(alloc, &reading.folder, cut)),
    }
}
