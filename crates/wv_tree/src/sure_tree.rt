//! A tree in memory that doesn't fail.
ghost use Rattle.std.specs.Prelude.{◌≡◌, [], IfOk, IfErr, Some, take};
ghost use Rattle.wv_tree.specs.Tree.{only_folder, path_bytes, paths_of};

use crate::fault::IoFault;
use crate::tree::Tree;
use std::alloc::Global;
use wv_base::{Bytes, Folder, Text};

/// A tree with one folder that has files, which never fails but for want of memory. Every other
/// folder is empty.
#[derive(Debug, Drop)]
pub struct SureTree {
    entered: Text,
    name: Text,
    folder: Folder,
    none: Folder,
    ghost no_files: { none ≡ [] },
}

impl SureTree {
    /// A tree with this folder under this name.
    pub fn new(alloc: Global, name: Text, folder: Folder) -> SureTree
        ensures name { ⟦<SureTree as Tree>⟧.name result ≡ [] }
        ensures told { ⟦<SureTree as Tree>⟧.told result ≡ Some (only_folder name folder) }
    {
        SureTree {
            entered: Text::from_string(String::new(alloc)),
            name,
            folder,
            none: Folder::new(alloc),
        }
    }

    /// The folder that was entered.
    fn here(&self) -> &Folder
        ensures { result.now ≡ only_folder self.now.name self.now.folder self.now.entered }
    {
        if self.entered.is(&self.name) {
            &self.folder
        } else {
            &self.none
        }
    }
}

impl Tree for SureTree {
    ghost faults = { λ _. 0 };

    ghost name = { λ t. t.entered };

    ghost told = { λ t. Some (only_folder t.name t.folder) };

    fn enter(&mut self, alloc: Global, path: &str) -> Result<(), IoFault> {
        self.entered = Text::from_str(alloc, path)?;
        Ok(())
    }

    fn list(&mut self, alloc: Global) -> Result<Vec<String>, IoFault> {
        let paths = paths(alloc, self.here().files())?;
        Ok(paths)
    }

    fn read(&mut self, alloc: Global, path: &str, most: u64) -> Result<Vec<u8>, IoFault> {
        match self.here().find(path) {
            Some(bytes) => front(alloc, bytes.as_slice(), most),
            None => Ok(Vec::new(alloc)),
        }
    }
}

/// The paths of the files, in their order.
fn paths(alloc: Global, files: &[(Text, Bytes)]) -> Result<Vec<String>, IoFault>
    ensures paths { IfOk result (λ paths. path_bytes paths ≡ paths_of files.now) }
    ensures memory { IfErr result (λ fault. fault ≡ IoFault.Memory) }
{
    let mut paths = Vec::with_capacity(alloc, files.len())?;
    for file in files {
        paths.push(String::from_str(alloc, file.0.as_str())?)?;
    }
    Ok(paths)
}

/// The first bytes, at most `most` of them.
fn front(alloc: Global, bytes: &[u8], most: u64) -> Result<Vec<u8>, IoFault>
    ensures front { IfOk result (λ front. front.items ≡ take most bytes.now) }
    ensures memory { IfErr result (λ fault. fault ≡ IoFault.Memory) }
{
    let end = (bytes.len() as u64).min(most) as usize;
    Ok(Vec::from_slice(alloc, &bytes[..end])?)
}
