use crate::{ClassesFault, LoadedClass, check_classes, load_classes, read_classes};
use std::alloc::Global;
use std::test::Fail;
use wv_base::{Bytes, Folder, LINE, Side, Text, write_broken};

/// The class `app/E` of version 52, without members.
const SMALLEST: [u8; 57] = [
    0xca, 0xfe, 0xba, 0xbe, 0, 0, 0, 52, 0, 5, 7, 0, 2, 1, 0, 5, b'a', b'p', b'p', b'/', b'E', 7,
    0, 4, 1, 0, 16, b'j', b'a', b'v', b'a', b'/', b'l', b'a', b'n', b'g', b'/', b'O', b'b', b'j',
    b'e', b'c', b't', 0, 0x21, 0, 1, 0, 3, 0, 0, 0, 0, 0, 0, 0, 0,
];

/// Where the class has its major version, and the number of its superclass.
const MAJOR: usize = 7;

const SUPERCLASS: usize = 48;

/// The bytes of a class file: the smallest, changed as the word says. Other words are the bytes
/// themselves.
fn content(alloc: Global, word: &str) -> Result<Bytes, Fail> {
    let mut bytes = SMALLEST;
    match word {
        "smallest" => {}
        "short" => return Ok(Bytes::from_slice(alloc, &bytes[..56])?),
        "no superclass" => bytes[SUPERCLASS] = 0,
        "version 49" => bytes[MAJOR] = 49,
        "version 50" => bytes[MAJOR] = 50,
        "version 53" => bytes[MAJOR] = 53,
        _ => return Ok(Bytes::from_slice(alloc, word.as_bytes())?),
    }
    Ok(Bytes::from_slice(alloc, &bytes)?)
}

/// The folder of these files, which stand in the order of their paths.
fn folder(alloc: Global, files: &[(&str, &str)]) -> Result<Folder, Fail> {
    let mut folder = Folder::new(alloc);
    for (path, word) in files {
        let path = Text::from_str(alloc, path)?;
        if !folder.takes(&path) {
            return Err(Fail::from("a path out of order"));
        }
        folder.push(path, content(alloc, word)?)?;
    }
    Ok(folder)
}

/// The names of the classes, or the line that refuses the folder.
fn shown(alloc: Global, answer: Result<Vec<LoadedClass>, ClassesFault>) -> Result<String, Fail> {
    match answer {
        Ok(loaded) => {
            let mut names = String::new(alloc);
            for class in loaded.as_slice() {
                names.push_str(class.path.as_str())?;
                names.push(' ')?;
                names.push_str(class.name.as_str())?;
                names.push('\n')?;
            }
            Ok(names)
        }
        Err(ClassesFault::Broken(broken)) => {
            let mut out = [0u8; LINE];
            let len = write_broken(&broken, &mut out);
            let line = str::from_utf8(&out[..len]).map_err(|_| "no text")?;
            Ok(String::from_str(alloc, line)?)
        }
        Err(ClassesFault::Memory) => Err(Fail::from("out of memory")),
    }
}

#[test]
fn class_files_by_themselves(rt: HostRuntime) -> Result<(), Fail> {
    let alloc = rt.alloc();
    for (path, word, wanted) in [
        ("game/app/E.class", "smallest", "game/app/E.class app/E\n"),
        ("game/app/E.class", "version 50", "game/app/E.class app/E\n"),
        // Paths that aren't those of class files.
        ("game/META-INF/app/E.class", "short", ""),
        ("game/app/E.json", "short", ""),
        ("game/module-info.class", "short", ""),
        ("games/app/E.class", "short", ""),
        ("mods/E.class", "short", ""),
        ("mods/absent/app/E.class", "short", ""),
        // Each of the rules.
        (
            "game/app/E.class",
            "short",
            "refused: rule 30 ClassBad at game/app/E.class wanted layout found 56\n",
        ),
        (
            "game/app/E.class",
            "no superclass",
            "refused: rule 30 ClassBad at game/app/E.class wanted reference found 47\n",
        ),
        (
            "game/app/F.class",
            "version 53",
            "refused: rule 31 VersionOutside at game/app/F.class wanted 50 to 52 found 53\n",
        ),
        (
            "game/app/E.class",
            "version 49",
            "refused: rule 31 VersionOutside at game/app/E.class wanted 50 to 52 found 49\n",
        ),
        (
            "game/app/F.class",
            "smallest",
            "refused: rule 32 NamePath at game/app/F.class wanted app/F found app/E\n",
        ),
    ] {
        let folder = folder(alloc, &[(path, word)])?;
        let loaded = load_classes(alloc, &folder, Side::Client);
        assert_eq!(rt; shown(alloc, loaded)?.as_str(), wanted);
    }
    Ok(())
}

#[test]
fn class_files_together(rt: HostRuntime) -> Result<(), Fail> {
    let alloc = rt.alloc();
    let both = r#"{"schemaVersion":1,"id":"alpha","version":"1"}"#;
    let server = r#"{"schemaVersion":1,"id":"beta","version":"1","environment":"server"}"#;
    for (first, second, wanted) in [
        ("smallest", "smallest", "mods/a/app/E.class app/E\n"),
        ("smallest", "short", "mods/a/app/E.class app/E\n"),
        (
            "short",
            "short",
            "refused: rule 30 ClassBad at mods/a/app/E.class wanted layout found 56\n",
        ),
    ] {
        let folder = folder(
            alloc,
            &[
                ("mods/a/app/E.class", first),
                ("mods/a/fabric.mod.json", both),
                ("mods/b/app/E.class", second),
                ("mods/b/fabric.mod.json", server),
            ],
        )?;
        let classes = read_classes(alloc, &folder, Side::Client)?;
        assert_eq!(rt; classes.len(), 1);
        let loaded = check_classes(alloc, classes);
        assert_eq!(rt; shown(alloc, loaded)?.as_str(), wanted);
    }
    Ok(())
}

#[test]
fn the_first_rule_and_the_first_path(rt: HostRuntime) -> Result<(), Fail> {
    let alloc = rt.alloc();
    for (first, second, third, wanted) in [
        (
            "smallest",
            "version 53",
            "short",
            "refused: rule 30 ClassBad at game/c.class wanted layout found 56\n",
        ),
        (
            "smallest",
            "version 53",
            "version 49",
            "refused: rule 31 VersionOutside at game/b.class wanted 50 to 52 found 53\n",
        ),
        (
            "smallest",
            "smallest",
            "smallest",
            "refused: rule 32 NamePath at game/a.class wanted a found app/E\n",
        ),
    ] {
        let folder = folder(
            alloc,
            &[
                ("game/a.class", first),
                ("game/b.class", second),
                ("game/c.class", third),
            ],
        )?;
        let loaded = load_classes(alloc, &folder, Side::Server);
        assert_eq!(rt; shown(alloc, loaded)?.as_str(), wanted);
    }
    Ok(())
}
