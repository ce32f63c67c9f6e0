//! Folders and files of the system, without following links in them.
ghost use Rattle.std.specs.Prelude.{◌≤◌, ◌+◌, IfOk, OnOk, vec_len};
ghost use Rattle.std.specs.IoError.{error_kind};
ghost use Rattle.wv_tree.specs.Fault.{TellsMemory};
ghost use Rattle.wv_tree.specs.Tree.{IsAscending, path_bytes};

use crate::fault::IoFault;
use std::alloc::Global;
use std::io::{ErrorKind, Read};
use std::rt::Files;
use std::{fs, io};

/// How many folders may lie one in another within the folder that is listed.
const MOST_NESTED: usize = 64;

/// How many bytes are read at once.
const PIECE: usize = 8192;

impl From<io::Error> for IoFault {
    ghost from_gives = { λ error fault. TellsMemory (error_kind error) fault };

    fn from(error: io::Error) -> IoFault {
        if error.kind() == ErrorKind::OutOfMemory {
            IoFault::Memory
        } else {
            IoFault::Failed
        }
    }
}

/// Fails where there is no such folder.
pub(crate) fn require_folder(files: &impl Files, path: &str) -> Result<(), IoFault> {
    if fs::metadata(files, path)?.is_dir() {
        Ok(())
    } else {
        Err(IoFault::Failed)
    }
}

/// The paths of all files below a folder, in the order of their bytes.
pub(crate) fn list<R: Files + AllocGlobal + Clone + Drop>(
    runtime: &R,
    alloc: Global,
    folder: &str,
) -> Result<Vec<String>, IoFault>
    ensures { IfOk result (λ paths. IsAscending (path_bytes paths)) }
{
    Ok(in_order(find_files(runtime, alloc, folder)?))
}

/// The paths in the order of their bytes, each once.
fn in_order(mut paths: Vec<String>) -> Vec<String>
    ensures { IsAscending (path_bytes result) }
{
    paths.sort_unstable();
    paths.dedup();
    paths
}

/// What stands at a path. A link is none of the three that have a name, so none is followed.
#[derive(Clone, Copy, PartialEq, Eq)]
enum Kind {
    Absent,
    Folder,
    File,
    Other,
}

fn kind_of(files: &impl Files, path: &str) -> Result<Kind, IoFault> {
    match fs::symlink_metadata(files, path) {
        Ok(found) if found.is_dir() => Ok(Kind::Folder),
        Ok(found) if found.is_file() => Ok(Kind::File),
        Ok(_) => Ok(Kind::Other),
        Err(error) if error.kind() == ErrorKind::NotFound => Ok(Kind::Absent),
        Err(error) => Err(error.into()),
    }
}

/// Fails where something else stands at the path, or nothing.
fn require(files: &impl Files, path: &str, wanted: Kind) -> Result<(), IoFault> {
    if kind_of(files, path)? == wanted {
        Ok(())
    } else {
        Err(IoFault::Failed)
    }
}

/// A folder that is still to be gone through: its path below the first one, and how many folders
/// lie round it there.
#[derive(Drop)]
struct Pending {
    path: String,
    nested: usize,
}

/// The paths of all files below a folder, in some order.
fn find_files<R: Files + AllocGlobal + Clone + Drop>(
    runtime: &R,
    alloc: Global,
    folder: &str,
) -> Result<Vec<String>, IoFault> {
    let mut paths = Vec::new(alloc);
    let mut pending = Vec::new(alloc);
    pending.push(Pending {
        path: String::new(alloc),
        nested: 0,
    })?;
    for _ in 0..u64::MAX {
        let Some(next) = pending.pop() else {
            return Ok(paths);
        };
        if next.nested > MOST_NESTED {
            return Err(IoFault::Failed);
        }
        list_one(runtime, alloc, folder, &next, &mut pending, &mut paths)?;
    }
    Err(IoFault::Failed)
}

/// Adds the files of one folder to the paths, and the folders in it to those still to come. What
/// is neither, as a link, is left out.
fn list_one<R: Files + AllocGlobal + Clone + Drop>(
    runtime: &R,
    alloc: Global,
    folder: &str,
    inner: &Pending,
    pending: &mut Vec<Pending>,
    paths: &mut Vec<String>,
) -> Result<(), IoFault> {
    let full = join(alloc, folder, inner.path.as_str())?;
    for entry in fs::read_dir(runtime, full.as_str())? {
        let entry = entry?;
        let kind = entry.file_type()?;
        let path = join(alloc, inner.path.as_str(), entry.file_name())?;
        if kind.is_dir() {
            pending.push(Pending {
                path,
                nested: inner.nested.saturating_add(1),
            })?;
        } else if kind.is_file() {
            paths.push(path)?;
        }
    }
    Ok(())
}

/// One path below another, where an empty one stands for the place itself.
fn join(alloc: Global, front: &str, back: &str) -> Result<String, IoFault> {
    let mut path = String::from_str(alloc, front)?;
    if !front.is_empty() && !back.is_empty() {
        path.push('/')?;
    }
    path.push_str(back)?;
    Ok(path)
}

/// The place of a file below a folder. `visit` is handed each folder on the way, and fails where
/// it isn't to be gone through.
fn place_of<F: Fn(&str) -> Result<(), IoFault>>(
    alloc: Global,
    folder: &str,
    path: &str,
    visit: F,
) -> Result<String, IoFault>
where
    F: Drop,
    requires { F.IsAlwaysCallable visit }
{
    if folder.is_empty() || !path.split('/').all(is_name) {
        return Err(IoFault::Failed);
    }
    let mut place = String::from_str(alloc, folder)?;
    for part in path.split('/') {
        if place.len() > folder.len() {
            visit(place.as_str())?;
        }
        place.push('/')?;
        place.push_str(part)?;
    }
    Ok(place)
}

/// Whether a part of a path names something in its folder.
fn is_name(part: &str) -> bool {
    !part.is_empty() && part != "." && part != ".."
}

/// The first bytes of a file below a folder, at most `most` of them.
pub(crate) fn read(
    files: &impl Files,
    alloc: Global,
    folder: &str,
    path: &str,
    most: u64,
) -> Result<Vec<u8>, IoFault>
    ensures { IfOk result (λ bytes. vec_len bytes ≤ most) }
{
    let place = place_of(
        alloc,
        folder,
        path,
        |inner| require(files, inner, Kind::Folder),
    )?;
    require(files, place.as_str(), Kind::File)?;
    let mut file = fs::open(files, place.as_str())?;
    read_front(alloc, &mut file, most)
}

/// What a reader gives up to its end, at most `most` bytes.
fn read_front(alloc: Global, reader: &mut impl Read, most: u64) -> Result<Vec<u8>, IoFault>
    ensures { IfOk result (λ bytes. vec_len bytes ≤ most) }
{
    let mut bytes = Vec::new(alloc);
    for _ in 0..u64::MAX {
        let wanted = (most - bytes.len() as u64).min(PIECE as u64) as usize;
        if wanted == 0 || !read_piece(reader, &mut bytes, wanted)? {
            return Ok(bytes);
        }
    }
    Err(IoFault::Failed)
}

/// Reads some bytes behind those that are there, at most `wanted`. It answers whether there may be
/// more.
fn read_piece(reader: &mut impl Read, bytes: &mut Vec<u8>, wanted: usize) -> Result<bool, IoFault>
    requires { wanted ≤ PIECE }
    ensures { OnOk result (vec_len bytes.new ≤ vec_len bytes.old + wanted) }
{
    let mut piece = [0u8; PIECE];
    match reader.read(&mut piece[..wanted]) {
        Ok(0) => Ok(false),
        Ok(count) => {
            bytes.extend_from_slice(&piece[..count])?;
            Ok(true)
        }
        Err(error) if error.kind() == ErrorKind::Interrupted => Ok(true),
        Err(error) => Err(error.into()),
    }
}

/// Puts a file below a folder, and makes the folders that it needs.
pub(crate) fn put(
    files: &impl Files,
    alloc: Global,
    folder: &str,
    path: &str,
    bytes: &[u8],
) -> Result<(), IoFault> {
    fs::create_dir_all(files, folder)?;
    let place = place_of(alloc, folder, path, |inner| make_folder(files, inner))?;
    match kind_of(files, place.as_str())? {
        Kind::Absent | Kind::File => Ok(fs::write(files, place.as_str(), bytes)?),
        Kind::Folder | Kind::Other => Err(IoFault::Failed),
    }
}

/// Makes a folder where it isn't there, and fails where something else stands in its place.
fn make_folder(files: &impl Files, folder: &str) -> Result<(), IoFault> {
    match kind_of(files, folder)? {
        Kind::Absent => Ok(fs::create_dir(files, folder)?),
        Kind::Folder => Ok(()),
        Kind::File | Kind::Other => Err(IoFault::Failed),
    }
}
