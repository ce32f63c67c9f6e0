use crate::{Cut, Limit, WeaveFault, opening, opening_cut};
use std::alloc::Global;
use std::test::Fail;
use wv_base::{Broken, Bytes, Folder, LINE, Text, write_broken};

const GAME: &str = r#"{"id":"game","version":"1","main":"app/Main"}"#;

/// Adds a file behind the last.
fn add(alloc: Global, folder: &mut Folder, path: &str, bytes: Bytes) -> Result<(), Fail> {
    let path = Text::from_str(alloc, path)?;
    if !folder.takes(&path) {
        return Err(Fail::from("a path out of order"));
    }
    folder.push(path, bytes)?;
    Ok(())
}

/// The folder of these files, which stand in the order of their paths.
fn folder(alloc: Global, files: &[(&str, &str)]) -> Result<Folder, Fail> {
    let mut folder = Folder::new(alloc);
    for (path, content) in files {
        let bytes = Bytes::from_slice(alloc, content.as_bytes())?;
        add(alloc, &mut folder, path, bytes)?;
    }
    Ok(folder)
}

fn line(alloc: Global, broken: &Broken) -> Result<String, Fail> {
    let mut out = [0u8; LINE];
    let len = write_broken(broken, &mut out);
    let line = str::from_utf8(&out[..len]).map_err(|_| "no text")?;
    Ok(String::from_str(alloc, line)?)
}

/// The line that refuses the folder, or an empty one.
fn answer(alloc: Global, folder: &Folder) -> Result<String, Fail> {
    match opening(alloc, folder) {
        Ok(()) => Ok(String::new(alloc)),
        Err(WeaveFault::Broken(broken)) => line(alloc, &broken),
        Err(WeaveFault::Memory) => Err(Fail::from("out of memory")),
    }
}

#[test]
fn what_is_listed(rt: HostRuntime) -> Result<(), Fail> {
    let alloc = rt.alloc();
    let game = ("game/game.json", GAME);
    let bad = ("game/game.json", "{}");
    let jar = ("mods/b/lib.jar", "");
    for (first, second, wanted) in [
        (game, ("mods/a", ""), ""),
        (
            ("a.jar", ""),
            jar,
            "refused: rule 1 JarFile at a.jar wanted - found -\n",
        ),
        (
            bad,
            jar,
            "refused: rule 1 JarFile at mods/b/lib.jar wanted - found -\n",
        ),
        (
            ("game", ""),
            ("game/game.jso", ""),
            "refused: rule 2 GameMissing at game/game.json wanted - found -\n",
        ),
        (
            bad,
            ("mods/a", ""),
            "refused: rule 3 GameBad at game/game.json wanted - found id\n",
        ),
    ] {
        let folder = folder(alloc, &[first, second])?;
        assert_eq!(rt; answer(alloc, &folder)?.as_str(), wanted);
    }
    Ok(())
}

#[test]
fn how_much_there_is(rt: HostRuntime) -> Result<(), Fail> {
    let alloc = rt.alloc();
    let mut folder = folder(alloc, &[("game/game.json", GAME)])?;
    for number in 1..20_001u32 {
        let path = format!(in alloc; "mods/{}", 10_000_000 + number)?;
        add(alloc, &mut folder, path.as_str(), Bytes::new(alloc))?;
        if number == 19_999 {
            assert_eq!(rt; answer(alloc, &folder)?.as_str(), "");
        }
    }
    assert_eq!(rt;
        answer(alloc, &folder)?.as_str(),
        "refused: rule 5 TooMuch at mods/10020000 wanted 20000 files found -\n"
    );
    Ok(())
}

#[test]
fn what_is_left_unread(rt: HostRuntime) -> Result<(), Fail> {
    let alloc = rt.alloc();
    let folder = folder(
        alloc,
        &[
            ("game/game.json", ""),
            ("mods/a/a.json", ""),
            ("z.jar.json", ""),
        ],
    )?;
    for (path, limit, wanted) in [
        (
            "game/game.json",
            Limit::Bytes,
            "refused: rule 5 TooMuch at game/game.json wanted 67108864 bytes found -\n",
        ),
        (
            "mods/a/a.json",
            Limit::Files,
            "refused: rule 3 GameBad at game/game.json wanted - found json\n",
        ),
    ] {
        let cut = Cut {
            path: Text::from_str(alloc, path)?,
            limit,
        };
        match opening_cut(alloc, &folder, &cut) {
            WeaveFault::Broken(broken) => assert_eq!(rt; line(alloc, &broken)?.as_str(), wanted),
            WeaveFault::Memory => return Err(Fail::from("out of memory")),
        }
    }
    Ok(())
}
