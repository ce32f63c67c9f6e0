//! The limits on a folder: how many files it lists, and how many bytes are read of it.
ghost use Rattle.std.specs.Prelude.{◌≡◌, [], ◌∷◌, ◌++◌, List, ℕ, IfOk, MatchOption};
ghost use Rattle.wv_base.specs.Folder.{File};
ghost use Rattle.wv_model.specs.FolderRead.{read_size};
ghost use Rattle.wv_front.specs.declared.limit.Limit.{Limit as Passed};
ghost use Rattle.wv_front.specs.Allowance.{IsLeft};
ghost use Rattle.wv_front.specs.Opening.{Exceeds, PassesAt, limit_text, too_much};

use std::alloc::Global;
use wv_base::{Broken, Bytes, Folder, Memory, Rule, Text};
use wv_resolve::is_read;

/// How many files a folder lists at most.
const MOST_FILES: usize = 20_000;

/// How many bytes are read of a folder at most.
const MOST_BYTES: u64 = 67_108_864;

/// A limit on a folder.
#[derive(Clone, Copy, Debug, PartialEq, Eq)]
pub enum Limit {
    /// On the files that it lists, read or not.
    Files,
    /// On the bytes of those that are read.
    Bytes,
}

/// Where the reading of a folder ended early: the path at which a limit was passed. No file counts as
/// read from there on.
#[derive(Debug, Drop)]
pub struct Cut {
    pub path: Text,
    pub limit: Limit,
}

impl Limit {
    /// What a refusal says was wanted.
    fn wanted(self) -> &'static str
        ensures { result.now ≡ limit_text self }
    {
        match self {
            Limit::Files => "20000 files",
            Limit::Bytes => "67108864 bytes",
        }
    }

    /// The refusal of a folder that passes the limit at a path.
    pub(crate) fn too_much(self, alloc: Global, path: &str) -> Result<Broken, Memory>
        ensures { IfOk result (λ broken. broken ≡ too_much path.now self) }
    {
        let mut broken = Broken::at_file(alloc, Rule::TooMuch, path)?;
        broken.wanted = Text::from_str(alloc, self.wanted())?;
        Ok(broken)
    }
}

/// How many bytes of a file are read.
fn read_count(path: &str, content: &Bytes) -> u64
    ensures { result ≡ read_size ((path.now, content.now) ∷ []) }
{
    if is_read(path) {
        content.len() as u64
    } else {
        0
    }
}

/// How many files more may be listed, and how many bytes more may be read.
#[derive(Clone, Copy, Debug)]
struct Allowance {
    files: usize,
    bytes: u64,
}

impl Allowance {
    /// What a file behind the others leaves, or the limit that it passes.
    fn take(&mut self, path: &str, content: &Bytes) -> Option<Limit>
        ensures { (before : List File) → IsLeft before self.old
            → MatchOption result
            (IsLeft (before ++ (path.now, content.now) ∷ []) self.new)
            (Exceeds (before ++ (path.now, content.now) ∷ [])) }
    {
        let count = read_count(path, content);
        if self.files == 0 {
            return Some(Limit::Files);
        }
        if count > self.bytes {
            return Some(Limit::Bytes);
        }
        self.files -= 1;
        self.bytes -= count;
        None
    }
}

/// The path at which a folder passes a limit, each file with the bytes that it has there.
pub(crate) fn passing(folder: &Folder) -> Option<(&str, Limit)>
    ensures { MatchOption result
        ((path : List ℕ) (limit : Passed) → PassesAt folder.now path limit → ⊥)
        (λ passing. PassesAt folder.now passing.0.now passing.1) }
{
    let mut allowance = Allowance {
        files: MOST_FILES,
        bytes: MOST_BYTES,
    };
    for (path, content) in folder.files() {
        if let Some(limit) = allowance.take(path.as_str(), content) {
            return Some((path.as_str(), limit));
        }
    }
    None
}
