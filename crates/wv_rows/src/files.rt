//! Folders as text.

use crate::assembler::assemble;
use std::alloc::Global;
use std::collections::BTreeMap;
use std::process::Abort;
use std::test::Fail;
use wv_base::{Bytes, Folder, Text};

/// A folder that breaks no rule: a class of the game, and a mod with a mixin that overwrites one of
/// its methods.
const SMALL: &str = r#"game/app/Main.class = class:app/Main main call:app/Main.f def:f
game/game.json = {"id":"game","version":"1.0.0","main":"app/Main"}
mods/alpha/alpha.mixins.json = {"package":"alpha.mixin","mixins":["MainMixin"]}
mods/alpha/alpha/mixin/MainMixin.class = class:alpha/mixin/MainMixin on:Lapp/Main; over:f out push:7 println
mods/alpha/fabric.mod.json = {"schemaVersion":1,"id":"alpha","version":"1.0.0","mixins":["alpha.mixins.json"]}"#;

pub(crate) const MAIN_CLASS: &str = "game/app/Main.class";

pub(crate) const MIXIN_CLASS: &str = "mods/alpha/alpha/mixin/MainMixin.class";

/// The files of a folder by their paths.
pub(crate) type Files<'a> = BTreeMap<&'a str, Vec<u8>>;

/// The content of a file: a class, or else the text itself.
fn content(alloc: Global, text: &str) -> Result<Vec<u8>, Fail> {
    if text.starts_with("class:") {
        assemble(alloc, text)
    } else {
        Ok(Vec::from_slice(alloc, text.as_bytes())?)
    }
}

/// Changes files as a line says: `PATH = CONTENT` adds a file, or puts it in the place of another,
/// `- PATH` takes one away, and a line that begins with `#` says nothing.
fn change_one<'a>(alloc: Global, files: &mut Files<'a>, line: &'a str) -> Result<(), Fail> {
    if line.starts_with('#') {
        return Ok(());
    }
    if let Some(path) = line.strip_prefix("- ") {
        files.remove(path).ok_or("a file that is there")?;
        return Ok(());
    }
    let (path, text) = line.split_once(" = ").ok_or("a path and a content")?;
    files.insert(path, content(alloc, text)?)?;
    Ok(())
}

/// Changes files as the lines say.
pub(crate) fn change<'a>(alloc: Global, files: &mut Files<'a>, lines: &'a str) -> Result<(), Fail> {
    for line in lines.lines() {
        change_one(alloc, files, line)?;
    }
    Ok(())
}

/// The small folder, changed as the lines say.
pub(crate) fn small<'a>(alloc: Global, lines: &'a str) -> Result<Files<'a>, Fail> {
    let mut files = BTreeMap::new(alloc);
    change(alloc, &mut files, SMALL)?;
    change(alloc, &mut files, lines)?;
    Ok(files)
}

/// Adds a file behind the others.
pub(crate) fn push(
    rt: &(impl Abort + AllocGlobal),
    folder: &mut Folder,
    path: &str,
    bytes: Bytes,
) -> Result<(), Fail> {
    let path = Text::from_str(rt.alloc(), path)?;
    assert!(rt; folder.takes(&path));
    folder.push(path, bytes)?;
    Ok(())
}

/// The files as a folder.
pub(crate) fn folder(rt: &(impl Abort + AllocGlobal), files: &Files<'_>) -> Result<Folder, Fail> {
    let mut folder = Folder::new(rt.alloc());
    for (path, bytes) in files.iter() {
        let bytes = Bytes::from_slice(rt.alloc(), bytes.as_slice())?;
        push(rt, &mut folder, path, bytes)?;
    }
    Ok(folder)
}
