//! What the mixins of a folder overwrite in their targets.
ghost use Rattle.std.specs.Prelude.{◌≡◌, ℕ, List, map, bytes_eq, replicate, IfOk, IfErr, OnOk, None as Nothing};
ghost use Rattle.std.specs.List.{AllByRecursion, position};
ghost use Rattle.wv_form.specs.FileForm.{HasTarget};
ghost use Rattle.wv_front.specs.Listing.{ArePlaces};
ghost use Rattle.wv_front.specs.Places.{loaded_name};
ghost use Rattle.wv_front.specs.Marked.{AreMarked, IsMarked};
ghost use Rattle.wv_front.specs.Opening.{IsBrokenFault};
ghost use Rattle.wv_weave.specs.Formed.{AreFormed};
ghost use Rattle.wv_weave.specs.Merging.{AreEdits, HasPlace, IsEdit};
ghost use Rattle.wv_weave.specs.Overwrites.{FindAll, FindsAll, IsFirstLacking, LacksOne};

use std::alloc::Global;
use wv_base::{ClassFile, Memory};
use wv_classes::LoadedClass;
use wv_form::target_name;
use wv_front::{AppliedMixin, ClassPlaces, WeaveFault};
use wv_merge::{MergeFault, Overwriting};

/// What is overwritten in each of the classes, by the places of the classes: nothing where no mixin
/// has it as its target.
///
/// A fault is rule 51, at the first mixin whose target lacks its method. It takes time linear in the
/// classes and the code of mixins, but for a logarithm.
pub(crate) fn overwritings(
    alloc: Global,
    classes: &[LoadedClass],
    mixins: &[AppliedMixin],
) -> Result<Vec<Option<Overwriting>>, WeaveFault>
    requires formed { AreFormed classes.now }
    requires placed { AllByRecursion (HasPlace classes.now) mixins.now }
    requires marked { AreMarked classes.now mixins.now }
    ensures edits { IfOk result (λ edits. AreEdits classes.now mixins.now edits.items) }
    ensures found { OnOk result (FindAll classes.now mixins.now) }
    ensures lacking { IfErr result (IsBrokenFault (IsFirstLacking classes.now mixins.now)) }
{
    let places = ClassPlaces::of_loaded(alloc, classes)?;
    let mut edits = no_edits(alloc, classes.len())?;
    for mixin in mixins {
        let (place, overwriting) = overwriting(alloc, classes, &places, mixin)?;
        edits[place] = Some(overwriting);
    }
    Ok(edits)
}

fn no_edits(alloc: Global, count: usize) -> Result<Vec<Option<Overwriting>>, Memory>
    ensures { IfOk result (λ edits. edits.items ≡ replicate count Nothing) }
{
    let mut edits = Vec::new(alloc);
    for _ in 0..count {
        edits.push(None)?;
    }
    Ok(edits)
}

/// The place of the mixin's target, and what the mixin overwrites there.
fn overwriting(
    alloc: Global,
    classes: &[LoadedClass],
    places: &ClassPlaces,
    mixin: &AppliedMixin,
) -> Result<(usize, Overwriting), WeaveFault>
    requires formed { AreFormed classes.now }
    requires places { ArePlaces (map loaded_name classes.now) places.now }
    requires placed { HasPlace classes.now mixin.now }
    requires marked { IsMarked classes.now mixin.now }
    ensures edit { IfOk result (IsEdit classes.now mixin.now) }
    ensures found { OnOk result (FindsAll classes.now mixin.now) }
    ensures lacking { IfErr result (IsBrokenFault (λ broken. LacksOne classes.now broken mixin.now)) }
{
    let class = &classes[mixin.class_place];
    let Some(place) = target_place(alloc, places, &class.class)? else {
        unreachable!()
    };
    let target = &classes[place].class;
    match Overwriting::find(alloc, target, &class.class, &class.path) {
        Ok(overwriting) => Ok((place, overwriting)),
        Err(MergeFault::Broken(broken)) => Err(WeaveFault::Broken(broken)),
        Err(MergeFault::Memory) => Err(WeaveFault::Memory),
    }
}

/// The place of the class that a mixin has as its target.
fn target_place(
    alloc: Global,
    places: &ClassPlaces,
    mixin: &ClassFile,
) -> Result<Option<usize>, Memory>
    ensures { (names : List (List ℕ)) (name : List ℕ) → ArePlaces names places.now → HasTarget mixin.now name
        → IfOk result (λ place. place ≡ position (bytes_eq name) names) }
{
    match target_name(alloc, mixin)? {
        Some(name) => Ok(places.place(&name)),
        None => Ok(None),
    }
}
