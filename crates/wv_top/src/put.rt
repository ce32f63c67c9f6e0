//! Putting the written files.
ghost use Rattle.std.specs.Prelude.{◌≡◌, ℕ, take, OnOk, OnErr};
ghost use Rattle.wv_base.specs.Folder.{IsInOrder};
ghost use Rattle.wv_tree.specs.Fault.{HasCause};
ghost use Rattle.wv_top.specs.Puts.{with_files};

use std::alloc::Global;
use wv_base::Folder;
use wv_tree::{IoFault, Outlet};

/// Puts the files under a name, in the order of their paths. Where that fails, some first ones of
/// them were put.
pub(crate) fn put_files<O: Outlet>(
    alloc: Global,
    outlet: &mut O,
    name: &str,
    files: &Folder,
) -> Result<(), IoFault>
    ensures cause { HasCause result (O.faults outlet.old) (O.faults outlet.new) }
    ensures ok { OnOk result (O.told outlet.new ≡ with_files name.now files.now (O.told outlet.old)) }
    ensures err { OnErr result ((count : ℕ)
        × (O.told outlet.new ≡ with_files name.now (take count files.now) (O.told outlet.old))) }
    ensures order { IsInOrder files.now }
{
    let listed = files.files();
    outlet.enter(alloc, name)?;
    for file in listed {
        outlet.put(alloc, file.0.as_str(), file.1.as_slice())?;
    }
    Ok(())
}
