//! A folder: files by their paths.
ghost use Rattle.std.specs.Prelude.{◌≡◌, ◌≢◌, ◌↔◌, [], ◌∷◌, ◌++◌, length, IsTrue, OnOk, OnErr, All, Contains, IfNone, IfSome, option_copied};
ghost use Rattle.std.specs.Cmp.Lexicographic.{slice_cmp};
ghost use Rattle.std.specs.Ordering.{nat_cmp};
ghost use Rattle.wv_base.specs.Folder.{IsInOrder, IsPathAfter, content_of};

use crate::bytes::Bytes;
use crate::memory::Memory;
use crate::text::Text;
use std::alloc::Global;
use std::cmp::Ordering;
use std::marker::Model;

/// A folder of files. Contracts see the list of its pairs of path and bytes, which are in strict
/// order of the bytes of the paths.
#[derive(Debug, Drop)]
pub struct Folder {
    files: Vec<(Text, Bytes)>,
}

impl Model for Folder {
    ghost use Rattle.std.specs.Prelude.{List};
    ghost use Rattle.wv_base.specs.Folder.{File, IsInOrder};

    ghost Value = { List File };

    ghost view = { λ f. f.files.items };

    ghost invariant = { λ f. IsInOrder f.files.items };
}

impl Folder {
    /// The empty folder. It takes no memory.
    pub fn new(alloc: Global) -> Folder
        ensures { result ≡ [] }
    {
        Folder {
            files: Vec::new(alloc),
        }
    }

    /// The files, ordered by the bytes of their paths, each path once.
    pub fn files(&self) -> &[(Text, Bytes)]
        ensures list { result.now ≡ self.now }
        ensures order { IsInOrder self.now }
    {
        self.files.as_slice()
    }

    /// How many files there are.
    pub fn len(&self) -> usize
        ensures { result ≡ length self.now }
    {
        self.files.len()
    }

    pub fn is_empty(&self) -> bool
        ensures { IsTrue result ↔ (self.now ≡ []) }
    {
        self.files.is_empty()
    }

    /// Whether the path is greater by its bytes than all paths so far, as `push` asks.
    pub fn takes(&self, path: &Text) -> bool
        ensures { IsTrue result ↔ IsPathAfter path.now self.now }
    {
        match self.files.last() {
            None => true,
            Some(file) => file.0.as_str() < path.as_str(),
        }
    }

    /// Adds a file behind the last.
    pub fn push(&mut self, path: Text, bytes: Bytes) -> Result<(), Memory>
        requires { IsPathAfter path self.old }
        ensures ok { OnOk result (self.new ≡ self.old ++ (path, bytes) ∷ []) }
        ensures err { OnErr result (self.new ≡ self.old) }
    {
        self.files.push((path, bytes))?;
        Ok(())
    }

    /// The content of the file with this path. It takes time logarithmic in the number of files.
    pub fn find(&self, path: &str) -> Option<&Bytes>
        ensures content { option_copied result ≡ content_of path.now self.now }
        ensures found { IfSome result (λ bytes. Contains self.now (path.now, bytes.now)) }
        ensures absent { IfNone result (All (λ file. file.0 ≢ path.now) self.now) }
    {
        let compare = |file: &(Text, Bytes)| -> Ordering
            ensures { result ≡ slice_cmp nat_cmp file.now.0 path.entry.now }
        { file.0.as_str().cmp(path) };
        let place = self.files.binary_search_by(compare);
        match place {
            Ok(place) => Some(&self.files[place].1),
            Err(_) => None,
        }
    }
}

#[cfg(test)]
mod tests {
    use super::*;
    use std::test::Fail;

    #[test]
    fn finds_files_by_path(rt: HostRuntime) -> Result<(), Fail> {
        let alloc = rt.alloc();
        let mut folder = Folder::new(alloc);
        for (path, byte) in [("a", 1), ("a.b", 2), ("a/b", 3), ("b", 4)] {
            let path = Text::from_str(alloc, path)?;
            assert!(rt; folder.takes(&path));
            folder.push(path, Bytes::from_slice(alloc, &[byte])?)?;
        }
        assert!(rt; !folder.takes(&Text::from_str(alloc, "b")?));
        assert_eq!(rt; folder.len(), 4);
        assert_eq!(rt;
            folder.find("a/b").map(|bytes| bytes.as_slice()),
            Some([3u8].as_slice())
        );
        assert!(rt; folder.find("a/").is_none());
        Ok(())
    }
}
