//! Whether the classes of mixins carry their annotation.
ghost use Rattle.std.specs.Prelude.{◌≡◌, ◌↔◌, IsTrue, IfOk, IfErr, OnOk, MatchOption};
ghost use Rattle.wv_front.specs.Opening.{IsBrokenFault};
ghost use Rattle.wv_front.specs.Marked.{HasOneMark, IsMarked, IsMarklessClass, AreMarked, IsFirstMarkless, markless_at};

use crate::fault::WeaveFault;
use crate::order::AppliedMixin;
use crate::priority::is_mixin;
use std::alloc::Global;
use wv_base::{Broken, ClassFile, Memory, Rule, Text};
use wv_classes::LoadedClass;

/// Checks that the class of each mixin has exactly one `@Mixin`.
///
/// Rule 40 (MixinBad) is broken in its first way at the file of another, the first by the number of
/// its mixin; `found` is `Mixin`.
///
/// It takes time linear in the annotations of these classes.
pub fn check_marked(
    alloc: Global,
    mixins: &[AppliedMixin],
    classes: &[LoadedClass],
) -> Result<(), WeaveFault>
    ensures marked { OnOk result (AreMarked classes.now mixins.now) }
    ensures markless { IfErr result (IsBrokenFault (IsFirstMarkless classes.now mixins.now)) }
{
    for mixin in mixins {
        if let Some(class) = markless(mixin, classes) {
            return Err(WeaveFault::Broken(refused(alloc, &class.path)?));
        }
    }
    Ok(())
}

/// The class of the mixin, unless it has exactly one `@Mixin`.
fn markless<'a>(mixin: &AppliedMixin, classes: &'a [LoadedClass]) -> Option<&'a LoadedClass>
    ensures { MatchOption result (IsMarked classes.now mixin.now)
        (λ class. IsMarklessClass classes.now mixin.now class.now) }
{
    let class = classes.get(mixin.class_place)?;
    if has_one_mark(&class.class) {
        None
    } else {
        Some(class)
    }
}

fn has_one_mark(class: &ClassFile) -> bool
    ensures { IsTrue result ↔ HasOneMark class.now }
{
    let notes = class.notes.as_slice();
    notes.iter().filter(|note| is_mixin(note)).count() == 1
}

fn refused(alloc: Global, path: &Text) -> Result<Broken, Memory>
    ensures { IfOk result (λ broken. broken ≡ markless_at path.now) }
{
    let mut broken = Broken::at_file(alloc, Rule::MixinBad, path.as_str())?;
    broken.found = Text::from_str(alloc, "Mixin")?;
    Ok(broken)
}
