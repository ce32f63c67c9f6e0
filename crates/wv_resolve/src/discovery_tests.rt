use crate::{load_mods, loaded_folders};
use std::alloc::Global;
use std::test::Fail;
use wv_base::{Bytes, Folder, LINE, Side, Text, write_broken};
use wv_mod::{ModFault, ModInfo};

const ALPHA: &str = r#"{"schemaVersion":1,"id":"alpha","version":"1"}"#;

/// The folder of these files, which stand in the order of their paths.
fn folder(alloc: Global, files: &[(&str, &str)]) -> Result<Folder, Fail> {
    let mut folder = Folder::new(alloc);
    for (path, content) in files {
        let path = Text::from_str(alloc, path)?;
        if !folder.takes(&path) {
            return Err(Fail::from("a path out of order"));
        }
        folder.push(path, Bytes::from_slice(alloc, content.as_bytes())?)?;
    }
    Ok(folder)
}

/// The ids and paths of the loaded mods, or the line that refuses the folder.
fn answer(alloc: Global, side: Side, files: &[(&str, &str)]) -> Result<String, Fail> {
    let folder = folder(alloc, files)?;
    let mut builtin = Vec::new(alloc);
    builtin.push((
        Text::from_str(alloc, "game")?,
        Text::from_str(alloc, "1.0.0")?,
    ))?;
    match load_mods(alloc, &folder, builtin.as_slice(), side) {
        Ok(mods) => shown(alloc, mods.as_slice()),
        Err(ModFault::Broken(broken)) => {
            let mut out = [0u8; LINE];
            let len = write_broken(&broken, &mut out);
            let line = str::from_utf8(&out[..len]).map_err(|_| "no text")?;
            Ok(String::from_str(alloc, line)?)
        }
        Err(ModFault::Memory) => Err(Fail::from("out of memory")),
    }
}

fn shown(alloc: Global, mods: &[ModInfo]) -> Result<String, Fail> {
    let mut shown = String::new(alloc);
    for info in mods {
        shown.push_str(info.id.as_str())?;
        shown.push(' ')?;
        shown.push_str(info.path.as_str())?;
        shown.push('\n')?;
    }
    Ok(shown)
}

#[test]
fn what_is_a_mod_folder(rt: HostRuntime) -> Result<(), Fail> {
    let alloc = rt.alloc();
    for (path, description) in [
        ("mods/a/x.class", "mods/a/fabric.mod.json"),
        ("mods/a/readme.txt", "mods/a/fabric.mod.json"),
        ("mods/a/META-INF/x", "mods/a/fabric.mod.json"),
        ("mods/a/b/fabric.mod.json", "mods/a/fabric.mod.json"),
        ("mods/a/fabric.mod.json/x", "mods/a/fabric.mod.json"),
        (
            "mods/fabric.mod.json/x",
            "mods/fabric.mod.json/fabric.mod.json",
        ),
        ("mods//x", "mods//fabric.mod.json"),
        ("mods///x", "mods//fabric.mod.json"),
        ("mods/a/", "mods/a/fabric.mod.json"),
        ("mods/é b/x", "mods/é b/fabric.mod.json"),
    ] {
        let wanted = format!(in alloc;
            "refused: rule 10 ModMissing at {description} wanted - found -\n"
        )?;
        assert_eq!(rt;
            answer(alloc, Side::Client, &[(path, ALPHA)])?.as_str(),
            wanted.as_str()
        );
    }
    for path in [
        "mods",
        "mods/",
        "mods/a",
        "mods/fabric.mod.json",
        "mod/a/x",
        "mods-a/b/x",
        "Mods/a/x",
        "/mods/a/x",
        "game/mods/a/x",
        "fabric.mod.json",
    ] {
        assert_eq!(rt;
            answer(alloc, Side::Client, &[(path, "")])?.as_str(),
            "",
            "{path}"
        );
    }
    Ok(())
}

#[test]
fn what_is_loaded(rt: HostRuntime) -> Result<(), Fail> {
    let alloc = rt.alloc();
    let zeta =
        r#"{"schemaVersion":1,"id":"zeta","version":"2","depends":{"alpha":"1","game":"*"}}"#;
    let server = r#"{"schemaVersion":1,"id":"alpha","version":"3","environment":"server",
        "provides":["game"],"depends":{"gone":"*"},"breaks":{"game":"*"}}"#;
    for (files, wanted) in [
        ([].as_slice(), ""),
        (
            [("game/game.json", "{}"), ("readme.txt", "")].as_slice(),
            "",
        ),
        (
            [("mods/a/fabric.mod.json", ALPHA)].as_slice(),
            "alpha mods/a/fabric.mod.json\n",
        ),
        (
            [("mods//fabric.mod.json", ALPHA)].as_slice(),
            "alpha mods//fabric.mod.json\n",
        ),
        // By the bytes of the ids, wherever other files lie.
        (
            [
                ("mods/a/A.class", "?"),
                ("mods/a/fabric.mod.json", zeta),
                ("mods/a/z/readme.txt", ""),
                ("mods/b", "{"),
                ("mods/b/META-INF/x", ""),
                ("mods/b/fabric.mod.json", ALPHA),
                ("mods/b/z/fabric.mod.json", "{"),
            ]
            .as_slice(),
            "alpha mods/b/fabric.mod.json\nzeta mods/a/fabric.mod.json\n",
        ),
        // A mod of the other side isn't there.
        (
            [
                ("mods/a-b/fabric.mod.json", server),
                ("mods/a/fabric.mod.json", ALPHA),
            ]
            .as_slice(),
            "alpha mods/a/fabric.mod.json\n",
        ),
    ] {
        assert_eq!(rt; answer(alloc, Side::Client, files)?.as_str(), wanted);
    }
    let files = [("mods/a/fabric.mod.json", server)];
    assert_eq!(rt;
        answer(alloc, Side::Server, &files)?.as_str(),
        "refused: rule 15 DuplicateId at mods/a/fabric.mod.json wanted - found game\n"
    );
    Ok(())
}

/// The rules in their order, what a refusal says of each, and keys of a description that break it.
/// Rule 10 has no description.
const BREAKS: [(&str, &str, &str); 8] = [
    ("10 ModMissing", "wanted - found -", ""),
    ("11 ModBad", "wanted - found id", r#""id":1"#),
    ("12 IdBad", "wanted - found A", r#""id":"A","version":"1""#),
    (
        "13 NestedJars",
        "wanted - found -",
        r#""id":"ID","version":"1","jars":[{}]"#,
    ),
    (
        "14 PredicateBad",
        "wanted - found ^x",
        r#""id":"ID","version":"1","depends":{"game":"^x"}"#,
    ),
    (
        "15 DuplicateId",
        "wanted - found game",
        r#""id":"ID","version":"1","provides":["game"]"#,
    ),
    (
        "16 DependsUnmet",
        "wanted gone 1 or >2 found -",
        r#""id":"ID","version":"1","depends":{"gone":["1",">2"]}"#,
    ),
    (
        "17 BreaksMet",
        "wanted game 1.x found 1.0.0",
        r#""id":"ID","version":"1","breaks":{"game":"1.x"}"#,
    ),
];

/// What is wrong with the description of a mod with this id, and where it lies.
fn broken_file(alloc: Global, name: &str, id: &str, keys: &str) -> Result<(String, String), Fail> {
    if keys.is_empty() {
        let path = format!(in alloc; "mods/{name}/readme.txt")?;
        return Ok((path, String::new(alloc)));
    }
    let mut content = String::from_str(alloc, r#"{"schemaVersion":1,"#)?;
    for (place, part) in keys.split("ID").enumerate() {
        if place > 0 {
            content.push_str(id)?;
        }
        content.push_str(part)?;
    }
    content.push('}')?;
    Ok((format!(in alloc; "mods/{name}/fabric.mod.json")?, content))
}

#[test]
fn the_first_rule_and_the_first_path(rt: HostRuntime) -> Result<(), Fail> {
    let alloc = rt.alloc();
    // By the bytes of the paths, the folder `a-b` comes before `a`.
    for (early, (rule, told, early_keys)) in BREAKS.iter().enumerate() {
        for (late, (_, _, late_keys)) in BREAKS.iter().enumerate() {
            if late < early {
                continue;
            }
            for (place, other) in [("a-b", "a"), ("a", "a-b")] {
                if early == late && place == "a" {
                    continue;
                }
                let (path, content) = broken_file(alloc, place, "alpha", early_keys)?;
                let (other_path, other_content) = broken_file(alloc, other, "beta", late_keys)?;
                let one = (path.as_str(), content.as_str());
                let two = (other_path.as_str(), other_content.as_str());
                let files = if place == "a-b" {
                    [one, two]
                } else {
                    [two, one]
                };
                let wanted = format!(in alloc;
                    "refused: rule {rule} at mods/{place}/fabric.mod.json {told}\n"
                )?;
                assert_eq!(rt;
                    answer(alloc, Side::Client, &files)?.as_str(),
                    wanted.as_str()
                );
            }
        }
    }
    Ok(())
}

#[test]
fn rules_of_mods_together(rt: HostRuntime) -> Result<(), Fail> {
    let alloc = rt.alloc();
    let first = r#"{"schemaVersion":1,"id":"zeta","version":"1","provides":["lib"]}"#;
    let second = r#"{"schemaVersion":1,"id":"alpha","version":"1","provides":["lib"]}"#;
    // The second by its path, and not by its id.
    let files = [
        ("mods/a/fabric.mod.json", first),
        ("mods/b/fabric.mod.json", second),
    ];
    assert_eq!(rt;
        answer(alloc, Side::Client, &files)?.as_str(),
        "refused: rule 15 DuplicateId at mods/b/fabric.mod.json wanted - found lib\n"
    );
    // The description of a mod of the other side is looked at, though the mod isn't loaded.
    for (keys, rule) in [
        (
            r#""jars":[{}]"#,
            "13 NestedJars at mods/b/fabric.mod.json wanted - found -",
        ),
        (
            r#""depends":{"b":"^x"}"#,
            "14 PredicateBad at mods/b/fabric.mod.json wanted - found ^x",
        ),
    ] {
        let mut content = String::from_str(
            alloc,
            r#"{"schemaVersion":1,"id":"beta","version":"1","environment":"server","#,
        )?;
        content.push_str(keys)?;
        content.push('}')?;
        let files = [
            ("mods/a/fabric.mod.json", ALPHA),
            ("mods/b/fabric.mod.json", content.as_str()),
        ];
        let wanted = format!(in alloc; "refused: rule {rule}\n")?;
        assert_eq!(rt;
            answer(alloc, Side::Client, &files)?.as_str(),
            wanted.as_str()
        );
    }
    Ok(())
}

#[test]
fn which_folders_are_loaded(rt: HostRuntime) -> Result<(), Fail> {
    let alloc = rt.alloc();
    let server = r#"{"schemaVersion":1,"id":"alpha","version":"1","environment":"server"}"#;
    let files = folder(
        alloc,
        &[
            ("mods/a b/fabric.mod.json", ALPHA),
            ("mods/a/fabric.mod.json", ALPHA),
            ("mods/a/x.class", ""),
            ("mods/broken/fabric.mod.json", "{}"),
            ("mods/missing/x.class", ""),
            ("mods/server/fabric.mod.json", server),
        ],
    )?;
    let client = loaded_folders(alloc, &files, Side::Client)?;
    assert_eq!(rt; client.as_slice(), ["a b", "a"].as_slice());
    let server = loaded_folders(alloc, &files, Side::Server)?;
    assert_eq!(rt; server.as_slice(), ["a b", "a", "server"].as_slice());
    Ok(())
}
