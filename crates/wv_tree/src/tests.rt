//! The objects in memory at their listed calls, and each adapter over real files.

use super::*;
use std::alloc::Global;
use std::fs;
use std::os::unix::fs::symlink;
use std::process::Abort;
use std::test::Fail;
use wv_base::{Bytes, Folder, Text};

fn two_files(alloc: Global, rt: &impl Abort) -> Result<Folder, Fail> {
    let mut folder = Folder::new(alloc);
    for (path, bytes) in [("a.json", b"123"), ("b/c.class", b"456")] {
        let path = Text::from_str(alloc, path)?;
        assert!(rt; folder.takes(&path));
        folder.push(path, Bytes::from_slice(alloc, bytes)?)?;
    }
    Ok(folder)
}

fn assert_paths(rt: &impl Abort, paths: &[String], wanted: &[&str]) {
    assert_eq!(rt; paths.len(), wanted.len());
    for (path, wanted) in paths.iter().zip(wanted) {
        assert_eq!(rt; path.as_str(), *wanted);
    }
}

#[test]
fn a_sure_tree_reads_its_folder(rt: HostRuntime) -> Result<(), Fail> {
    let alloc = rt.alloc();
    let mut tree = SureTree::new(
        alloc,
        Text::from_str(alloc, "game")?,
        two_files(alloc, &rt)?,
    );
    assert_paths(&rt, &tree.list(alloc)?, &[]);
    tree.enter(alloc, "game")?;
    assert_paths(&rt, &tree.list(alloc)?, &["a.json", "b/c.class"]);
    assert_eq!(rt;
        tree.read(alloc, "b/c.class", 2)?.as_slice(),
        b"45".as_slice()
    );
    assert_eq!(rt; tree.read(alloc, "b", 9)?.len(), 0);
    Ok(())
}

#[test]
fn a_tree_in_memory_fails_at_its_calls(rt: HostRuntime) -> Result<(), Fail> {
    let alloc = rt.alloc();
    let name = Text::from_str(alloc, "game")?;
    let mut tree = MemTree::new(alloc, name, two_files(alloc, &rt)?, vec![in alloc; 1, 4]?);
    assert_eq!(rt; tree.enter(alloc, "game"), Err(IoFault::Failed));
    tree.enter(alloc, "game")?;
    assert_paths(&rt, &tree.list(alloc)?, &["a.json", "b/c.class"]);
    assert!(rt; tree.read(alloc, "a.json", 9).is_err());
    assert_eq!(rt;
        tree.read(alloc, "a.json", 9)?.as_slice(),
        b"123".as_slice()
    );
    assert_eq!(rt; (tree.plan.calls, tree.plan.faults), (5, 2));
    Ok(())
}

#[test]
fn an_outlet_in_memory_fails_at_its_calls(rt: HostRuntime) -> Result<(), Fail> {
    let alloc = rt.alloc();
    let mut outlet = MemOutlet::new(alloc, vec![in alloc; 3]?);
    outlet.enter(alloc, "out")?;
    outlet.put(alloc, "a", b"1")?;
    assert_eq!(rt; outlet.put(alloc, "b", b"2"), Err(IoFault::Failed));
    assert_eq!(rt; (outlet.plan.faults, outlet.files().len()), (1, 1));
    for file in outlet.files() {
        assert_eq!(rt; file.folder.as_str(), "out");
        assert_eq!(rt; file.path.as_str(), "a");
        assert_eq!(rt; file.bytes.as_slice(), b"1".as_slice());
    }
    Ok(())
}

#[test]
fn sinks_count_their_bytes(rt: HostRuntime) -> Result<(), Fail> {
    let alloc = rt.alloc();
    let mut sink = MemSink::new(alloc, 4, vec![in alloc; 2]?)?;
    sink.write(b"abc")?;
    assert_eq!(rt; sink.write(b"d"), Err(SinkFault));
    assert_eq!(rt; sink.write(b"de"), Err(SinkFault));
    sink.write(b"d")?;
    assert_eq!(rt; sink.bytes(), b"abcd".as_slice());
    assert_eq!(rt; sink.plan.faults, 2);
    let mut sure = SureSink::new();
    sure.write(b"abc")?;
    assert_eq!(rt; sure.count, 3);
    OutSink::new(rt.clone()?).write(b"written\n")?;
    Ok(())
}

#[test]
fn folders_on_disk_are_written_and_read(rt: HostRuntime) -> Result<(), Fail> {
    let alloc = rt.alloc();
    let mut outlet = DirOutlet::new(alloc, rt.clone()?);
    assert!(rt; outlet.put(alloc, "a", b"1").is_err());
    outlet.enter(alloc, "o/p")?;
    for path in ["b/z", "b.c", "b/a/q"] {
        outlet.put(alloc, path, b"first, and longer")?;
        outlet.put(alloc, path, path.as_bytes())?;
    }
    for path in ["../a", "b//q", "b", "b.c/d", ""] {
        assert_eq!(rt;
            outlet.put(alloc, path, b"1"),
            Err(IoFault::Failed),
            "{path}"
        );
    }
    let mut tree = DirTree::new(alloc, rt.clone()?);
    assert_eq!(rt; tree.enter(alloc, "absent"), Err(IoFault::Failed));
    assert!(rt; tree.list(alloc).is_err());
    tree.enter(alloc, "o")?;
    assert_paths(&rt, &tree.list(alloc)?, &["p/b.c", "p/b/a/q", "p/b/z"]);
    for (most, wanted) in [(0, ""), (4, "b/a/"), (5, "b/a/q"), (u64::MAX, "b/a/q")] {
        assert_eq!(rt;
            tree.read(alloc, "p/b/a/q", most)?.as_slice(),
            wanted.as_bytes()
        );
    }
    assert!(rt; tree.read(alloc, "p/b/absent", 1).is_err());
    assert!(rt; tree.read(alloc, "../o/p/b/z", 1).is_err());
    fs::remove_dir_all(&rt, "o")?;
    Ok(())
}

#[test]
fn a_long_file_is_cut(rt: HostRuntime) -> Result<(), Fail> {
    let alloc = rt.alloc();
    fs::write(&rt, "long", vec![in alloc; 7u8; 20_000]?.as_slice())?;
    let mut tree = DirTree::new(alloc, rt.clone()?);
    tree.enter(alloc, ".")?;
    for (most, wanted) in [(19_999, 19_999), (20_001, 20_000)] {
        assert_eq!(rt; tree.read(alloc, "long", most)?.len(), wanted);
    }
    fs::remove_file(&rt, "long")?;
    Ok(())
}

#[test]
fn links_are_not_followed(rt: HostRuntime) -> Result<(), Fail> {
    let alloc = rt.alloc();
    fs::create_dir_all(&rt, "f/real")?;
    fs::write(&rt, "f/real/a", b"1".as_slice())?;
    symlink(&rt, "real", "f/folder")?;
    symlink(&rt, "real/a", "f/file")?;
    let mut tree = DirTree::new(alloc, rt.clone()?);
    tree.enter(alloc, "f")?;
    assert_paths(&rt, &tree.list(alloc)?, &["real/a"]);
    assert!(rt; tree.read(alloc, "file", 1).is_err());
    assert!(rt; tree.read(alloc, "folder/a", 1).is_err());
    let mut outlet = DirOutlet::new(alloc, rt.clone()?);
    outlet.enter(alloc, "f")?;
    assert!(rt; outlet.put(alloc, "file", b"2").is_err());
    assert!(rt; outlet.put(alloc, "folder/a", b"2").is_err());
    assert_eq!(rt; tree.read(alloc, "real/a", 9)?.as_slice(), b"1".as_slice());
    fs::remove_dir_all(&rt, "f")?;
    Ok(())
}

#[test]
fn folders_nest_sixty_four_deep(rt: HostRuntime) -> Result<(), Fail> {
    let alloc = rt.alloc();
    let mut path = String::from_str(alloc, "n")?;
    for _ in 0..64 {
        path.push_str("/d")?;
    }
    fs::create_dir_all(&rt, path.as_str())?;
    let mut tree = DirTree::new(alloc, rt.clone()?);
    tree.enter(alloc, "n")?;
    assert_paths(&rt, &tree.list(alloc)?, &[]);
    path.push_str("/d")?;
    fs::create_dir_all(&rt, path.as_str())?;
    assert!(rt; tree.list(alloc).is_err());
    fs::remove_dir_all(&rt, "n")?;
    Ok(())
}
