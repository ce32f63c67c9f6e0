//! Reading the folder.
ghost use Rattle.std.specs.Prelude.{◌≡◌, map, string_bytes, [], Some, IfOk, OnOk};
ghost use Rattle.wv_tree.specs.Fault.{HasCause};
ghost use Rattle.wv_tree.specs.Tree.{IsAscending, paths_of};
ghost use Rattle.wv_top.specs.Reading.{WhereTold, IsReadingOf, ReadsNext, file_at};

use std::alloc::Global;
use wv_base::{Bytes, Folder, Memory, Text};
use wv_front::{Cut, Limit};
use wv_resolve::is_read;
use wv_tree::{IoFault, Tree};

/// How many files are listed at most.
const MOST_FILES: usize = 20_000;

/// How many bytes are read at most.
const MOST_BYTES: u64 = 67_108_864;

/// How many files more may be listed, and how many bytes more may be read, up to the path at which one
/// of these limits was passed. From there on no file counts as read.
#[derive(Debug, Drop)]
struct Allowance {
    files: usize,
    bytes: u64,
    cut: Option<Cut>,
}

/// What was read of a folder: each listed file, with no bytes where it isn't read, and where the
/// reading ended early.
#[derive(Debug, Drop)]
pub(crate) struct Reading {
    pub(crate) folder: Folder,
    pub(crate) cut: Option<Cut>,
}

impl Allowance {
    /// Ends the reading at a path, at which a limit was passed.
    fn end(&mut self, alloc: Global, path: &str, limit: Limit) -> Result<Vec<u8>, Memory>
        ensures cut { OnOk result (self.new.cut ≡ Some (record { path = path.now; limit = limit })) }
        ensures none { IfOk result (λ bytes. bytes.items ≡ []) }
    {
        let path = Text::from_str(alloc, path)?;
        self.cut = Some(Cut { path, limit });
        Ok(Vec::new(alloc))
    }

    /// The bytes of the next file, none where it doesn't count as read. One byte more than what is
    /// left is asked for, so that the limit is seen to be passed without reading on.
    fn read<T: Tree>(&mut self, alloc: Global, tree: &mut T, path: &str) -> Result<Vec<u8>, IoFault>
        ensures cause { HasCause result (T.faults tree.old) (T.faults tree.new) }
        ensures name { T.name tree.new ≡ T.name tree.old }
        ensures told { T.told tree.new ≡ T.told tree.old }
        ensures next { IfOk result (λ bytes. WhereTold (T.told tree.old) (T.name tree.old)
            (λ files. ReadsNext (file_at path.now files) self.old self.new bytes.items)) }
    {
        if self.cut.is_some() {
            return Ok(Vec::new(alloc));
        }
        if self.files == 0 {
            return Ok(self.end(alloc, path, Limit::Files)?);
        }
        self.files -= 1;
        if !is_read(path) {
            return Ok(Vec::new(alloc));
        }
        let bytes = tree.read(alloc, path, self.bytes.saturating_add(1))?;
        let count = bytes.len() as u64;
        if count > self.bytes {
            return Ok(self.end(alloc, path, Limit::Bytes)?);
        }
        self.bytes -= count;
        Ok(bytes)
    }
}

fn read_files<T: Tree>(alloc: Global, tree: &mut T, paths: &[String]) -> Result<Reading, IoFault>
    requires { IsAscending (map string_bytes paths.now) }
    ensures cause { HasCause result (T.faults tree.old) (T.faults tree.new) }
    ensures read { IfOk result (λ reading. WhereTold (T.told tree.old) (T.name tree.old)
        (λ files. paths_of files ≡ map string_bytes paths.now → IsReadingOf files reading)) }
{
    let mut allowance = Allowance {
        files: MOST_FILES,
        bytes: MOST_BYTES,
        cut: None,
    };
    let mut folder = Folder::new(alloc);
    for path in paths {
        let bytes = allowance.read(alloc, tree, path.as_str())?;
        folder.push(
            Text::from_str(alloc, path.as_str())?,
            Bytes::from_vec(bytes),
        )?;
    }
    Ok(Reading {
        folder,
        cut: allowance.cut,
    })
}

/// Reads the files of a folder of the tree, in the order of their paths.
pub(crate) fn read_folder<T: Tree>(
    alloc: Global,
    tree: &mut T,
    name: &str,
) -> Result<Reading, IoFault>
    ensures cause { HasCause result (T.faults tree.old) (T.faults tree.new) }
    ensures read { IfOk result (λ reading. WhereTold (T.told tree.old) name.now
        (λ files. IsReadingOf files reading)) }
{
    tree.enter(alloc, name)?;
    let paths = tree.list(alloc)?;
    read_files(alloc, tree, paths.as_slice())
}

#[cfg(test)]
mod tests {
    use super::*;
    use std::process::Abort;
    use std::test::Fail;
    use wv_tree::MemTree;

    const NAME: &str = "game";

    /// Adds a file behind the last.
    fn add(alloc: Global, folder: &mut Folder, path: &str, bytes: Bytes) -> Result<(), Fail> {
        let path = Text::from_str(alloc, path)?;
        if !folder.takes(&path) {
            return Err(Fail::from("a path out of order"));
        }
        folder.push(path, bytes)?;
        Ok(())
    }

    /// The folder of these files, which stand in the order of their paths.
    fn folder(alloc: Global, files: &[(&str, &str, &str)]) -> Result<Folder, Fail> {
        let mut folder = Folder::new(alloc);
        for (path, content, _) in files {
            let bytes = Bytes::from_slice(alloc, content.as_bytes())?;
            add(alloc, &mut folder, path, bytes)?;
        }
        Ok(folder)
    }

    fn tree(alloc: Global, folder: Folder) -> Result<MemTree, Fail> {
        let name = Text::from_str(alloc, NAME)?;
        Ok(MemTree::new(alloc, name, folder, Vec::new(alloc)))
    }

    fn assert_cut(rt: &impl Abort, cut: &Option<Cut>, path: &str, limit: Limit) {
        assert!(rt; cut.is_some());
        if let Some(cut) = cut {
            assert_eq!(rt; cut.path.as_str(), path);
            assert_eq!(rt; cut.limit, limit);
        }
    }

    /// The tree is called to enter the folder, to list it, and for each file that is read.
    #[test]
    fn which_files_are_read(rt: HostRuntime) -> Result<(), Fail> {
        let alloc = rt.alloc();
        let files = [
            ("META-INF/a.class", "1", ""),
            ("a.class", "2", "2"),
            ("a.txt", "3", ""),
            ("mods/a.json", "4", ""),
            ("mods/a/a.json", "5", "5"),
            ("module-info.class", "6", ""),
        ];
        let mut tree = tree(alloc, folder(alloc, &files)?)?;
        let reading = read_folder(alloc, &mut tree, NAME)?;
        assert!(rt; reading.cut.is_none());
        assert_eq!(rt; tree.plan.calls, 4);
        assert_eq!(rt; reading.folder.len(), files.len());
        for (path, _, wanted) in files {
            let Some(bytes) = reading.folder.find(path) else {
                return Err(Fail::from("a file that isn't listed"));
            };
            assert_eq!(rt; bytes.as_slice(), wanted.as_bytes());
        }
        Ok(())
    }

    #[test]
    fn too_many_files(rt: HostRuntime) -> Result<(), Fail> {
        let alloc = rt.alloc();
        let mut folder = Folder::new(alloc);
        for number in 0..20_002u32 {
            let path = format!(in alloc; "{}.json", 10_000_000 + number)?;
            let bytes = Bytes::from_slice(alloc, b"1")?;
            add(alloc, &mut folder, path.as_str(), bytes)?;
        }
        let mut tree = tree(alloc, folder)?;
        let reading = read_folder(alloc, &mut tree, NAME)?;
        assert_eq!(rt; tree.plan.calls, 20_002);
        assert_eq!(rt; reading.folder.len(), 20_002);
        assert_cut(&rt, &reading.cut, "10020000.json", Limit::Files);
        Ok(())
    }

    #[test]
    fn too_many_bytes(rt: HostRuntime) -> Result<(), Fail> {
        let alloc = rt.alloc();
        let files = [
            ("a.json", "12", "12"),
            ("b.txt", "3", ""),
            ("c.json", "45", ""),
            ("d.json", "6", ""),
        ];
        let mut tree = tree(alloc, folder(alloc, &files)?)?;
        tree.enter(alloc, NAME)?;
        let mut allowance = Allowance {
            files: 9,
            bytes: 3,
            cut: None,
        };
        for (path, _, wanted) in files {
            let bytes = allowance.read(alloc, &mut tree, path)?;
            assert_eq!(rt; bytes.as_slice(), wanted.as_bytes());
        }
        assert_eq!(rt; tree.plan.calls, 3);
        assert_cut(&rt, &allowance.cut, "c.json", Limit::Bytes);
        Ok(())
    }
}
