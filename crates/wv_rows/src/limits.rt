//! The limits on a folder's files and on their bytes.

use crate::cases::prints;
use crate::files::{folder, push, small};
use crate::outside::WEAVE;
use std::alloc::Global;
use std::process::Abort;
use std::test::Fail;
use wv_base::Bytes;

/// How many files the folder has with those that are added, what is changed in the small folder, and how
/// the call ends. The files that are added come behind the others, and are left unread.
const FILES: [(usize, &str, &str); 4] = [
    (20_000, "", "woven 1 classes, 1 edited, 1 mixins, 0 hooks"),
    (
        20_001,
        "",
        "refused: rule 5 TooMuch at z29995 wanted 20000 files found -",
    ),
    (
        20_001,
        "game/game.json = {}",
        "refused: rule 3 GameBad at game/game.json wanted - found id",
    ),
    (
        20_001,
        "game/app/Main.class = class:app/Main field:I",
        "refused: rule 5 TooMuch at z29995 wanted 20000 files found -",
    ),
];

fn files_end(
    rt: &(impl Abort + AllocGlobal),
    count: usize,
    changes: &str,
    line: &str,
) -> Result<(), Fail> {
    let alloc = rt.alloc();
    let mut folder = folder(rt, &small(alloc, changes)?)?;
    for number in folder.len()..count {
        let path = format!(in alloc; "z{}", number.saturating_add(9_995))?;
        push(rt, &mut folder, path.as_str(), Bytes::new(alloc))?;
    }
    assert_eq!(rt; folder.len(), count);
    prints(rt, WEAVE, folder, line)?;
    Ok(())
}

#[test]
fn files_are_limited(rt: HostRuntime) -> Result<(), Fail> {
    for (count, changes, line) in FILES {
        files_end(&rt, count, changes, line)?;
    }
    Ok(())
}

/// How many bytes the folder has with the file that is added, the path of that file, and how the call
/// ends. The file comes behind the others.
const BYTES: [(usize, &str, &str); 3] = [
    (
        67_108_864,
        "z.json",
        "woven 1 classes, 1 edited, 1 mixins, 0 hooks",
    ),
    (
        67_108_865,
        "z.json",
        "refused: rule 5 TooMuch at z.json wanted 67108864 bytes found -",
    ),
    // What is left unread has no bytes.
    (
        67_108_865,
        "z.txt",
        "woven 1 classes, 1 edited, 1 mixins, 0 hooks",
    ),
];

/// As many spaces.
fn spaces(alloc: Global, count: usize) -> Result<Bytes, Fail> {
    let block = [b' '; 4096];
    let mut bytes = Vec::new(alloc);
    for _ in 0..count / block.len() {
        bytes.extend_from_slice(&block)?;
    }
    bytes.extend_from_slice(&block[..count % block.len()])?;
    Ok(Bytes::from_vec(bytes))
}

fn bytes_end(
    rt: &(impl Abort + AllocGlobal),
    count: usize,
    path: &str,
    line: &str,
) -> Result<(), Fail> {
    let alloc = rt.alloc();
    let mut folder = folder(rt, &small(alloc, "")?)?;
    let mut used = 0usize;
    for (_, bytes) in folder.files() {
        used = used.saturating_add(bytes.len());
    }
    let bytes = spaces(alloc, count.saturating_sub(used))?;
    push(rt, &mut folder, path, bytes)?;
    prints(rt, WEAVE, folder, line)?;
    Ok(())
}

#[test]
fn bytes_are_limited(rt: HostRuntime) -> Result<(), Fail> {
    for (count, path, line) in BYTES {
        bytes_end(&rt, count, path, line)?;
    }
    Ok(())
}
