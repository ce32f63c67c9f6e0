use crate::{ConfigFault, LoadedConfig, load_configs};
use std::alloc::Global;
use std::test::Fail;
use wv_base::{Bytes, Folder, LINE, Side, Text, write_broken};
use wv_mod::{ModInfo, read_mod};

/// The folder of these files, which stand in the order of their paths: a line each, with the path, a
/// space and the content.
fn folder(alloc: Global, files: &str) -> Result<Folder, Fail> {
    let mut folder = Folder::new(alloc);
    for line in files.lines() {
        let Some((path, content)) = line.split_once(' ') else {
            return Err(Fail::from("a file without content"));
        };
        let path = Text::from_str(alloc, path)?;
        if !folder.takes(&path) {
            return Err(Fail::from("a path out of order"));
        }
        folder.push(path, Bytes::from_slice(alloc, content.as_bytes())?)?;
    }
    Ok(folder)
}

/// The mods `a` and `b` with these lists of `mixins`.
fn mods(alloc: Global, first: &str, second: &str) -> Result<Vec<ModInfo>, Fail> {
    let mut mods = Vec::new(alloc);
    for (name, list) in [("aa", first), ("bb", second)] {
        let path = Text::from_string(format!(in alloc; "mods/{name}/fabric.mod.json")?);
        let mut text = String::from_str(alloc, r#"{"schemaVersion":1,"version":"1","id":""#)?;
        text.push_str(name)?;
        text.push_str(r#"","mixins":["#)?;
        text.push_str(list)?;
        text.push_str("]}")?;
        mods.push(read_mod(alloc, &path, text.as_bytes(), Side::Client)?)?;
    }
    Ok(mods)
}

/// The used configurations and the others with their places, or the line that refuses them.
fn answer(alloc: Global, first: &str, second: &str, files: &str) -> Result<String, Fail> {
    let folder = folder(alloc, files)?;
    let mods = mods(alloc, first, second)?;
    match load_configs(alloc, &folder, mods.as_slice(), Side::Client) {
        Ok(configs) => {
            let mut shown = String::new(alloc);
            show(alloc, &mut shown, configs.used.as_slice())?;
            shown.push_str("| ")?;
            show(alloc, &mut shown, configs.others.as_slice())?;
            Ok(shown)
        }
        Err(ConfigFault::Broken(broken)) => {
            let mut out = [0u8; LINE];
            let len = write_broken(&broken, &mut out);
            let line = str::from_utf8(&out[..len]).map_err(|_| "no text")?;
            Ok(String::from_str(alloc, line)?)
        }
        Err(ConfigFault::Memory) => Err(Fail::from("out of memory")),
    }
}

fn show(alloc: Global, shown: &mut String, configs: &[LoadedConfig]) -> Result<(), Fail> {
    for config in configs {
        let (path, place) = (config.path.as_str(), config.place);
        let text = format!(in alloc; "{path}@{}.{place} ", config.mod_place)?;
        shown.push_str(text.as_str())?;
    }
    Ok(())
}

#[test]
fn what_is_loaded(rt: HostRuntime) -> Result<(), Fail> {
    let alloc = rt.alloc();
    for (first, second, files, wanted) in [
        ("", "", "", "| "),
        // Used configurations by priority, then by mod, then by place.
        (
            r#""z.json","y.json""#,
            r#""c.json","d.json""#,
            r#"mods/aa/y.json {"package":"a"}
mods/aa/z.json {"package":"a"}
mods/bb/c.json {"package":"a"}
mods/bb/d.json {"package":"a","priority":-5}"#,
            "mods/bb/d.json@1.1 mods/aa/z.json@0.0 mods/aa/y.json@0.1 mods/bb/c.json@1.0 | ",
        ),
        (
            r#""z.json""#,
            r#""c.json""#,
            r#"mods/aa/z.json {"package":"a","priority":1001}
mods/bb/c.json {"package":"a"}"#,
            "mods/bb/c.json@1.0 mods/aa/z.json@0.0 | ",
        ),
        // One that is named more than once, and two of the other side.
        (
            r#"{"config":"y.json","environment":"server"},"z.json",{"config":"y.json","environment":"client"},"y.json""#,
            r#"{"config":"d.json","environment":"server"},{"config":"c.json","environment":"server"},{"config":"d.json","environment":"server"}"#,
            r#"mods/aa/y.json {"package":"a"}
mods/aa/z.json {"package":"a"}
mods/bb/c.json {"package":"a","priority":-5}
mods/bb/d.json {"package":"a","priority":1001}"#,
            "mods/aa/z.json@0.1 mods/aa/y.json@0.2 | mods/bb/c.json@1.1 mods/bb/d.json@1.0 ",
        ),
        // A refmap that is there, and one that isn't.
        (
            r#""y.json","z.json""#,
            "",
            r#"mods/aa/r.json {"mappings":{}}
mods/aa/y.json {"package":"a","refmap":"r.json"}
mods/aa/z.json {"package":"a","refmap":"gone.json"}"#,
            "mods/aa/y.json@0.0 mods/aa/z.json@0.1 | ",
        ),
    ] {
        assert_eq!(rt; answer(alloc, first, second, files)?.as_str(), wanted);
    }
    Ok(())
}

#[test]
fn what_breaks_a_rule(rt: HostRuntime) -> Result<(), Fail> {
    let alloc = rt.alloc();
    let server = r#"{"config":"y.json","environment":"server"}"#;
    for (first, second, files, wanted) in [
        (
            r#""y.json""#,
            "",
            "",
            "20 ConfigMissing at mods/aa/y.json wanted - found -",
        ),
        (
            r#""y.txt""#,
            "",
            r#"mods/aa/y.txt {"package":"a"}"#,
            "20 ConfigMissing at mods/aa/y.txt wanted - found -",
        ),
        (
            r#""META-INF/y.json""#,
            "",
            r#"mods/aa/META-INF/y.json {"package":"a"}"#,
            "20 ConfigMissing at mods/aa/META-INF/y.json wanted - found -",
        ),
        (
            server,
            "",
            "mods/aa/y.json []",
            "21 ConfigBad at mods/aa/y.json wanted - found json",
        ),
        (
            r#""y.json""#,
            "",
            r#"mods/aa/y.json {"package":"a","client":1}"#,
            "21 ConfigBad at mods/aa/y.json wanted - found client",
        ),
        (
            r#""y.json""#,
            "",
            r#"mods/aa/y.json {"package":"a","plugin":null}"#,
            "22 PluginNamed at mods/aa/y.json wanted - found -",
        ),
        (
            server,
            "",
            r#"mods/aa/r.txt -
mods/aa/y.json {"package":"a","refmap":"r.txt"}"#,
            "23 RefmapBad at mods/aa/r.txt wanted - found -",
        ),
        (
            r#""y.json""#,
            "",
            r#"mods/aa/r.txt {"mappings":{}}
mods/aa/y.json {"package":"a","refmap":"r.txt"}"#,
            "23 RefmapBad at mods/aa/r.txt wanted - found -",
        ),
        // Several at once: the least rule, then the first path, which for rule 23 is the refmap's.
        (
            r#""y.json","z.json""#,
            r#""c.json""#,
            r#"mods/aa/y.json {"package":"a","plugin":null}
mods/aa/z.json 1"#,
            "20 ConfigMissing at mods/bb/c.json wanted - found -",
        ),
        (
            r#""z.json","y.json""#,
            r#""c.json""#,
            r#"mods/aa/y.json 1
mods/aa/z.json 2
mods/bb/c.json {"package":"a","plugin":null}"#,
            "21 ConfigBad at mods/aa/y.json wanted - found json",
        ),
        (
            r#""y.json","z.json""#,
            "",
            r#"mods/aa/q.json -
mods/aa/r.json -
mods/aa/y.json {"package":"a","refmap":"r.json"}
mods/aa/z.json {"package":"a","refmap":"q.json"}"#,
            "23 RefmapBad at mods/aa/q.json wanted - found -",
        ),
    ] {
        let wanted = format!(in alloc; "refused: rule {wanted}\n")?;
        assert_eq!(rt;
            answer(alloc, first, second, files)?.as_str(),
            wanted.as_str()
        );
    }
    Ok(())
}
