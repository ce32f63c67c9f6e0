//! Weaving folders of many mods.

use anyhow::{Result, anyhow};
use std::alloc::{AllocError, Global};
use std::rt::Clock;
use std::time::{Duration, Instant};
use wv_base::{Bytes, Folder, Side, Text};
use wv_front::opening;
use wv_weave::{Woven, weave};

const GAME: &str = r#"{"id":"game","version":"1.0.0","main":"app/C10000"}"#;

/// The start of a class file of version 52.0, up to the count of its pool.
const FRONT: &[u8] = &[0xCA, 0xFE, 0xBA, 0xBE, 0, 0, 0, 52, 0];

/// The texts of a pool that stand behind a class's name, from the number 2 on, and those that a mixin has
/// besides, from the number 6 on, of which the last stands before the descriptor of its target.
const TEXTS: [&str; 4] = ["java/lang/Object", "f", "()V", "Code"];

const MIXIN_TEXTS: [&str; 4] = [
    "RuntimeInvisibleAnnotations",
    "Lorg/spongepowered/asm/mixin/Overwrite;",
    "Lorg/spongepowered/asm/mixin/Mixin;",
    "value",
];

/// The classes of the numbers 1 and 2, and behind the pool the flags, the class, its superclass, no
/// interfaces, no fields, and the flags, the name and the descriptor of one method.
fn head(bytes: &mut Vec<u8>, class: u8) -> Result<(), AllocError> {
    bytes.extend_from_slice(&[7, 0, 1, 7, 0, 2])?;
    let superclass = class.wrapping_add(1);
    bytes.extend_from_slice(&[0, 0x21, 0, class, 0, superclass, 0, 0, 0, 0])?;
    bytes.extend_from_slice(&[0, 1, 0, 9, 0, 3, 0, 4])
}

/// One attribute Code with `return`, and no attribute of the class.
const REST: &[u8] = &[
    0, 1, 0, 5, 0, 0, 0, 13, 0, 0, 0, 0, 0, 0, 0, 1, 0xb1, 0, 0, 0, 0, 0, 0,
];

/// Two attributes: Code with `iconst_1`, `pop` and `return`, and the annotation `@Overwrite`; and the
/// attribute of the class with `@Mixin` on its target.
const MIXIN_REST: &[u8] = &[
    0, 2, 0, 5, 0, 0, 0, 15, 0, 1, 0, 0, 0, 0, 0, 3, 4, 0x57, 0xb1, 0, 0, 0, 0, 0, 6, 0, 0, 0, 6,
    0, 1, 0, 7, 0, 0, 0, 1, 0, 6, 0, 0, 0, 14, 0, 1, 0, 8, 0, 1, 0, 9, 0x5b, 0, 1, 0x63, 0, 10,
];

/// Adds a text to a pool.
fn text(bytes: &mut Vec<u8>, content: &str) -> Result<(), AllocError> {
    let length = u16::try_from(content.len()).unwrap_or(0);
    bytes.push(1)?;
    bytes.extend_from_slice(&length.to_be_bytes())?;
    bytes.extend_from_slice(content.as_bytes())
}

/// A class file with this count of pool entries, which begin with the name and these texts.
fn front(alloc: Global, count: u8, name: &str) -> Result<Vec<u8>, AllocError> {
    let mut bytes = Vec::from_slice(alloc, FRONT)?;
    bytes.push(count)?;
    text(&mut bytes, name)?;
    for constant in TEXTS {
        text(&mut bytes, constant)?;
    }
    Ok(bytes)
}

/// A class of this name with the method `f`, which does nothing.
fn plain_class(alloc: Global, name: &str) -> Result<Bytes, AllocError> {
    let mut bytes = front(alloc, 8, name)?;
    head(&mut bytes, 6)?;
    bytes.extend_from_slice(REST)?;
    Ok(Bytes::from_vec(bytes))
}

/// A mixin of this name, which overwrites the method of the class of this descriptor.
fn mixin_class(alloc: Global, name: &str, target: &str) -> Result<Bytes, AllocError> {
    let mut bytes = front(alloc, 13, name)?;
    for constant in MIXIN_TEXTS {
        text(&mut bytes, constant)?;
    }
    text(&mut bytes, target)?;
    head(&mut bytes, 11)?;
    bytes.extend_from_slice(MIXIN_REST)?;
    Ok(Bytes::from_vec(bytes))
}

/// Adds a file behind the others.
fn add(alloc: Global, folder: &mut Folder, path: &str, bytes: Bytes) -> Result<()> {
    let path = Text::from_str(alloc, path)?;
    if !folder.takes(&path) {
        return Err(anyhow!("a path out of order"));
    }
    Ok(folder.push(path, bytes)?)
}

fn add_text(alloc: Global, folder: &mut Folder, path: &str, content: &str) -> Result<()> {
    add(
        alloc,
        folder,
        path,
        Bytes::from_slice(alloc, content.as_bytes())?,
    )
}

/// Adds a mod with a plain class.
fn add_plain(alloc: Global, folder: &mut Folder, number: usize) -> Result<()> {
    let description = format!(in alloc;
        r#"{{"schemaVersion":1,"id":"m{number}","version":"1.0.0"}}"#
    )?;
    let path = format!(in alloc; "mods/m{number}/fabric.mod.json")?;
    add_text(alloc, folder, path.as_str(), description.as_str())?;
    let path = format!(in alloc; "mods/m{number}/m{number}/A.class")?;
    let name = format!(in alloc; "m{number}/A")?;
    add(
        alloc,
        folder,
        path.as_str(),
        plain_class(alloc, name.as_str())?,
    )
}

/// Adds a mod with a mixin on the class of the game with this number.
fn add_mixin(alloc: Global, folder: &mut Folder, number: usize, target: usize) -> Result<()> {
    let description = format!(in alloc;
        r#"{{"schemaVersion":1,"id":"m{number}","version":"1.0.0","mixins":["m.json"]}}"#
    )?;
    let path = format!(in alloc; "mods/m{number}/fabric.mod.json")?;
    add_text(alloc, folder, path.as_str(), description.as_str())?;
    let config = format!(in alloc; r#"{{"package":"m{number}","mixins":["A"]}}"#)?;
    let path = format!(in alloc; "mods/m{number}/m.json")?;
    add_text(alloc, folder, path.as_str(), config.as_str())?;
    let path = format!(in alloc; "mods/m{number}/m{number}/A.class")?;
    let name = format!(in alloc; "m{number}/A")?;
    let target = format!(in alloc; "Lapp/C{target};")?;
    let bytes = mixin_class(alloc, name.as_str(), target.as_str())?;
    add(alloc, folder, path.as_str(), bytes)
}

/// Adds half as many classes of the game as there are mods, and its description. Numbers begin at
/// 10,000, so that their order is that of their texts.
fn add_game(alloc: Global, folder: &mut Folder, count: usize) -> Result<()> {
    for place in 0..count / 2 {
        let number = place.saturating_add(10_000);
        let path = format!(in alloc; "game/app/C{number}.class")?;
        let name = format!(in alloc; "app/C{number}")?;
        add(
            alloc,
            folder,
            path.as_str(),
            plain_class(alloc, name.as_str())?,
        )?;
    }
    add_text(alloc, folder, "game/game.json", GAME)
}

/// So many mods, every second one with a mixin on a class of its own, the others with a plain class.
fn folder(alloc: Global, count: usize) -> Result<Folder> {
    let mut folder = Folder::new(alloc);
    add_game(alloc, &mut folder, count)?;
    for place in 0..count {
        let number = place.saturating_add(10_000);
        if place % 2 == 0 {
            add_plain(alloc, &mut folder, number)?;
        } else {
            let target = (place / 2).saturating_add(10_000);
            add_mixin(alloc, &mut folder, number, target)?;
        }
    }
    Ok(folder)
}

/// Weaves the folder, and answers how long it takes.
fn weave_once<R: Clock + AllocGlobal>(rt: &R, folder: &Folder) -> Result<(Woven, Duration)> {
    let alloc = rt.alloc();
    match opening(alloc, folder) {
        Ok(()) => {}
        Err(_) => return Err(anyhow!("a folder that isn't woven")),
    }
    let start = Instant::now(rt)?;
    let woven = weave(alloc, folder, Side::Client);
    let took = start.elapsed(rt)?;
    match woven {
        Ok(woven) => Ok((woven, took)),
        Err(_) => Err(anyhow!("a folder that breaks a rule")),
    }
}

/// Prints how long 125 to 1,000 mods take.
pub(crate) fn time<R: Clock + AllocGlobal + Print>(rt: &R, rounds: usize) -> Result<()> {
    for count in [125usize, 250, 500, 1000] {
        let folder = folder(rt.alloc(), count)?;
        let mut shortest = Duration::from_secs(3600);
        let (mut classes, mut edited) = (0, 0);
        for _ in 0..rounds {
            let (woven, took) = weave_once(rt, &folder)?;
            shortest = shortest.min(took);
            classes = woven.files.len();
            edited = woven.edited;
        }
        let took = shortest.as_micros();
        println!(rt;
            "weave: {count} mods, {classes} classes, {edited} edited in {took} microseconds"
        )?;
    }
    Ok(())
}
