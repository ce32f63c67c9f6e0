//! What a mixin changes of its target.
ghost use Rattle.std.specs.Prelude.{◌≡◌, ◌<◌, length, IfErr, IfOk, OnOk};
ghost use Rattle.wv_base.specs.declared.class_file.ClassFile.{ClassFile as Class};
ghost use Rattle.wv_class.specs.Same.{Writes};
ghost use Rattle.wv_merge.specs.Merging.{IsFaultOf, IsMissing, NoneMissing};
ghost use Rattle.wv_merge.specs.Overwriting.{IsChanged, IsOverwriting, changed};
ghost use Rattle.wv_merge.specs.ThinClass.{IsReadThin};
ghost use Rattle.wv_merge.specs.Written.{IsWritten};
ghost use Rattle.wv_model.specs.PlainCode.{Game, Mixin};

use crate::fault::MergeFault;
use crate::overwrite::{Renaming, merged, place_of, written_version};
use crate::refusal::overwrite_missing;
use std::alloc::Global;
use wv_base::{Bytes, ClassFile, ClassVersion, LimitFault, Member, Memory, Text};
use wv_class::write_class;

/// What a mixin changes of its target: the method at one place, and the version (Mixin 0.8.5,
/// @Overwrite).
#[derive(Debug, Drop)]
pub struct Overwriting {
    place: usize,
    method: Member,
    version: ClassVersion,
}

impl Overwriting {
    /// Finds the method of the target that the mixin's overwrites, and makes what stands there then.
    ///
    /// A target without such a method is refused by rule 51 (OverwriteMissing), at the mixin's
    /// method and with this path. It takes time linear in the target's methods and the mixin's code.
    pub fn find(
        alloc: Global,
        target: &ClassFile,
        mixin: &ClassFile,
        path: &Text,
    ) -> Result<Overwriting, MergeFault>
        requires target { IsReadThin Game target.now }
        requires mixin { IsReadThin Mixin mixin.now }
        ensures found { IfOk result (IsOverwriting target.now mixin.now) }
        ensures none_missing { OnOk result (NoneMissing target.now mixin.now) }
        ensures missing { IfErr result (IsFaultOf (IsMissing path.now target.now mixin.now)) }
    {
        let [method] = mixin.methods.as_slice() else {
            unreachable!()
        };
        let Some(place) = place_of(target, method) else {
            let broken = overwrite_missing(alloc, path, &target.name, method)?;
            return Err(MergeFault::Broken(broken));
        };
        let renaming = Renaming {
            mixin: &mixin.name,
            target: &target.name,
        };
        Ok(Overwriting {
            place,
            method: merged(alloc, &renaming, &target.methods.as_slice()[place], method)?,
            version: written_version(target.version, mixin.version),
        })
    }

    /// The bytes of the target as it is written under its mixin.
    ///
    /// Nothing but memory can run out: a thin class and one plain method more keep within every
    /// limit of a class file.
    pub fn write(self, alloc: Global, target: ClassFile) -> Result<Bytes, Memory>
        requires { (mixin : Class) × IsReadThin Game target × IsReadThin Mixin mixin × IsOverwriting target mixin self }
        ensures { (mixin : Class) → IsReadThin Game target → IsReadThin Mixin mixin → IsOverwriting target mixin self → IfOk result (IsWritten target mixin) }
    {
        let woven = changed(target, self);
        written(alloc, &woven)
    }
}

/// The target with the method at its place and with the version.
fn changed(mut target: ClassFile, overwriting: Overwriting) -> ClassFile
    requires { overwriting.place < length target.methods }
    ensures { result ≡ changed target overwriting }
{
    let Overwriting {
        place,
        method,
        version,
    } = overwriting;
    target.version = version;
    target.methods.set(place, method);
    target
}

/// The bytes of the woven class.
fn written(alloc: Global, class: &ClassFile) -> Result<Bytes, Memory>
    requires { (target : Class) × (mixin : Class) × IsChanged target mixin class.now }
    ensures { IfOk result (Writes class.now) }
{
    match write_class(alloc, class) {
        Ok(bytes) => Ok(bytes),
        Err(LimitFault::Memory) => Err(Memory),
        // A thin class and one plain method more keep within every limit.
        Err(LimitFault::PoolLarge) => unreachable!(),
        Err(LimitFault::CodeLarge) => unreachable!(),
        Err(LimitFault::BranchFar) => unreachable!(),
    }
}
