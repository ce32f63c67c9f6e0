//! The weaver: the first broken rule of a folder, or the files that it is woven to.
ghost use Rattle.std.specs.Prelude.{IfOk, IfErr, OnOk};
ghost use Rattle.wv_front.specs.Opening.{IsBrokenFault, IsOpened};
ghost use Rattle.wv_weave.specs.Meaning.{MeansFolder};
ghost use Rattle.wv_weave.specs.Stages.{IsFirstBroken, NoneBroken};
ghost use Rattle.wv_weave.specs.Woven.{IsWoven};

use crate::front::{Front, read_front};
use crate::merging::overwritings;
use crate::outgoing::{edited_count, sorted_outgoing, written_files};
use std::alloc::Global;
use wv_base::{Folder, Side};
use wv_front::WeaveFault;

/// What a folder is woven to.
#[derive(Debug, Drop)]
pub struct Woven {
    /// The written classes, by the paths under which they are put.
    pub files: Folder,
    /// How many of them a mixin edits.
    pub edited: usize,
    /// How many mixins are applied.
    pub mixins: usize,
    /// How many actions they have.
    pub hooks: usize,
}

/// Weaves a folder for a side, or answers the first rule that it breaks. `opening` is the test of what
/// the folder has to meet.
///
/// A class file may have the form that is built so far (`check_form`). A fault is the first broken
/// rule of 9, 10 to 17, 20 to 24, 30 to 32, 40 and 51, at its first place. Written are all classes that
/// no configuration lists: those that no mixin has as its target with the bytes that were read, the
/// others with the method of their mixin in place of their own.
///
/// It takes time linear in the files and their bytes, but for a logarithm.
pub fn weave(alloc: Global, folder: &Folder, side: Side) -> Result<Woven, WeaveFault>
    requires { IsOpened folder.now }
    ensures kept { OnOk result (NoneBroken folder.now side) }
    ensures woven { IfOk result (IsWoven folder.now side) }
    ensures means { IfOk result (λ woven. MeansFolder folder.now side woven.files) }
    ensures broken { IfErr result (IsBrokenFault (IsFirstBroken folder.now side)) }
{
    let Front {
        configs,
        classes,
        mixins,
    } = read_front(alloc, folder, side)?;
    let edits = overwritings(alloc, classes.as_slice(), mixins.as_slice())?;
    let outgoing = sorted_outgoing(alloc, &configs, classes, edits)?;
    let edited = edited_count(outgoing.as_slice());
    Ok(Woven {
        files: written_files(alloc, folder, outgoing)?,
        edited,
        mixins: mixins.len(),
        hooks: 0,
    })
}
