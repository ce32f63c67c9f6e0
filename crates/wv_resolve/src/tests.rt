use crate::resolve;
use std::alloc::Global;
use std::test::Fail;
use wv_base::{LINE, Side, Text, write_broken};
use wv_mod::{ModFault, ModInfo, read_mod};

const BUILTIN: [(&str, &str); 2] = [("game", "1.0.0"), ("java", "8")];

fn read(alloc: Global, folder: &str, keys: &str) -> Result<ModInfo, Fail> {
    let path = Text::from_string(format!(in alloc; "mods/{folder}/fabric.mod.json")?);
    let mut text = String::from_str(alloc, r#"{"schemaVersion":1,"#)?;
    text.push_str(keys)?;
    text.push('}')?;
    Ok(read_mod(alloc, &path, text.as_bytes(), Side::Client)?)
}

/// The ids of the resolved mods on the client, or the line that refuses them.
fn answer(alloc: Global, builtin: &[(&str, &str)], mods: &[(&str, &str)]) -> Result<String, Fail> {
    let mut read_builtin = Vec::new(alloc);
    for (id, version) in builtin {
        read_builtin.push((Text::from_str(alloc, id)?, Text::from_str(alloc, version)?))?;
    }
    let mut read_mods = Vec::new(alloc);
    for (folder, keys) in mods {
        read_mods.push(read(alloc, folder, keys)?)?;
    }
    match resolve(alloc, read_mods, read_builtin.as_slice()) {
        Ok(resolved) => ids(alloc, resolved.as_slice()),
        Err(ModFault::Broken(broken)) => {
            let mut out = [0u8; LINE];
            let len = write_broken(&broken, &mut out);
            let line = str::from_utf8(&out[..len]).map_err(|_| "no text")?;
            Ok(String::from_str(alloc, line)?)
        }
        Err(ModFault::Memory) => Err(Fail::from("out of memory")),
    }
}

fn ids(alloc: Global, mods: &[ModInfo]) -> Result<String, Fail> {
    let mut ids = String::new(alloc);
    for info in mods {
        ids.push_str(info.id.as_str())?;
        ids.push(' ')?;
    }
    Ok(ids)
}

#[test]
fn what_fits(rt: HostRuntime) -> Result<(), Fail> {
    let alloc = rt.alloc();
    let alpha = (
        "alpha",
        r#""id":"alpha","version":"1.10","provides":["lib"]"#,
    );
    let plain = ("alpha", r#""id":"alpha","version":"nightly""#);
    let server = (
        "alpha",
        r#""id":"alpha","version":"1","environment":"server","provides":["java"],"depends":{"gone":"*"}"#,
    );
    for (first, second, wanted) in [
        (
            alpha,
            (
                "beta",
                r#""id":"beta","version":"1","depends":{"alpha":">=1.2 <2"}"#,
            ),
            "alpha beta ",
        ),
        (
            alpha,
            (
                "beta",
                r#""id":"able","version":"1","depends":{"able":"1.0","lib":["<1","1.10"]}"#,
            ),
            "able alpha ",
        ),
        (
            alpha,
            (
                "beta",
                r#""id":"beta","version":"1","depends":{"game":"~1.0","java":">=8"}"#,
            ),
            "alpha beta ",
        ),
        (
            alpha,
            (
                "beta",
                r#""id":"beta","version":"1","breaks":{"gone":"*","alpha":[],"lib":"<1.10"}"#,
            ),
            "alpha beta ",
        ),
        (
            plain,
            (
                "beta",
                r#""id":"beta","version":"1","depends":{"alpha":["nightly"]},"breaks":{"alpha":">=0"}"#,
            ),
            "alpha beta ",
        ),
        (
            server,
            (
                "beta",
                r#""id":"beta","version":"1","provides":["alpha"],"environment":"client""#,
            ),
            "beta ",
        ),
        (
            server,
            (
                "beta",
                r#""id":"beta","version":"1","breaks":{"alpha":"*"}"#,
            ),
            "beta ",
        ),
    ] {
        assert_eq!(rt; answer(alloc, &BUILTIN, &[first, second])?.as_str(), wanted);
    }
    assert_eq!(rt; answer(alloc, &BUILTIN, &[])?.as_str(), "");
    Ok(())
}

#[test]
fn what_breaks_a_rule(rt: HostRuntime) -> Result<(), Fail> {
    let alloc = rt.alloc();
    let alpha = (
        "alpha",
        r#""id":"alpha","version":"2.0.0","provides":["lib"]"#,
    );
    let plain = ("alpha", r#""id":"alpha","version":"nightly""#);
    let server = (
        "alpha",
        r#""id":"alpha","version":"1","environment":"server""#,
    );
    for (first, second, wanted) in [
        // Ids that are present twice: of two mods, of a mod and the game, of one mod.
        (
            alpha,
            (
                "beta",
                r#""id":"alpha","version":"1","depends":{"gone":"*"}"#,
            ),
            "15 DuplicateId at mods/beta/fabric.mod.json wanted - found alpha",
        ),
        (
            alpha,
            (
                "beta",
                r#""id":"beta","version":"1","provides":["other","lib","alpha"],"breaks":{"game":"*"}"#,
            ),
            "15 DuplicateId at mods/beta/fabric.mod.json wanted - found lib",
        ),
        (
            alpha,
            ("beta", r#""id":"java","version":"9""#),
            "15 DuplicateId at mods/beta/fabric.mod.json wanted - found java",
        ),
        (
            alpha,
            ("beta", r#""id":"beta","version":"1","provides":["beta"]"#),
            "15 DuplicateId at mods/beta/fabric.mod.json wanted - found beta",
        ),
        // Entries that are not met.
        (
            alpha,
            (
                "beta",
                r#""id":"beta","version":"1","depends":{"zeta":"*","gone":"*"}"#,
            ),
            "16 DependsUnmet at mods/beta/fabric.mod.json wanted gone * found -",
        ),
        (
            alpha,
            (
                "beta",
                r#""id":"beta","version":"1","depends":{"alpha":">=1.2 <2"}"#,
            ),
            "16 DependsUnmet at mods/beta/fabric.mod.json wanted alpha >=1.2 <2 found 2.0.0",
        ),
        (
            alpha,
            (
                "beta",
                r#""id":"beta","version":"1","depends":{"alpha":"*","lib":["<2","3.x"]}"#,
            ),
            "16 DependsUnmet at mods/beta/fabric.mod.json wanted lib <2 or 3.x found 2.0.0",
        ),
        (
            alpha,
            (
                "beta",
                r#""id":"beta","version":"1","depends":{"alpha":[]}"#,
            ),
            "16 DependsUnmet at mods/beta/fabric.mod.json wanted alpha  found 2.0.0",
        ),
        (
            alpha,
            (
                "beta",
                r#""id":"beta","version":"1","depends":{"beta":">1"}"#,
            ),
            "16 DependsUnmet at mods/beta/fabric.mod.json wanted beta >1 found 1",
        ),
        (
            plain,
            (
                "beta",
                r#""id":"beta","version":"1","depends":{"alpha":">=0"}"#,
            ),
            "16 DependsUnmet at mods/beta/fabric.mod.json wanted alpha >=0 found nightly",
        ),
        (
            server,
            (
                "beta",
                r#""id":"beta","version":"1","depends":{"alpha":"1"}"#,
            ),
            "16 DependsUnmet at mods/beta/fabric.mod.json wanted alpha 1 found -",
        ),
        // Entries that are met.
        (
            alpha,
            (
                "beta",
                r#""id":"beta","version":"1","breaks":{"gone":"*","lib":["1","2.x"]}"#,
            ),
            "17 BreaksMet at mods/beta/fabric.mod.json wanted lib 1 or 2.x found 2.0.0",
        ),
        (
            alpha,
            (
                "beta",
                r#""id":"beta","version":"1","breaks":{"beta":"","game":"*"}"#,
            ),
            "17 BreaksMet at mods/beta/fabric.mod.json wanted beta  found 1",
        ),
        // Several at once: the rule with the least number, then the first path.
        (
            ("b", r#""id":"beta","version":"1","depends":{"gone":"*"}"#),
            ("a", r#""id":"zeta","version":"1","breaks":{"game":"*"}"#),
            "16 DependsUnmet at mods/b/fabric.mod.json wanted gone * found -",
        ),
        (
            ("b", r#""id":"able","version":"1","breaks":{"java":"8"}"#),
            ("a", r#""id":"zeta","version":"1","breaks":{"game":"*"}"#),
            "17 BreaksMet at mods/a/fabric.mod.json wanted game * found 1.0.0",
        ),
        (
            ("b", r#""id":"beta","version":"1","provides":["lib"]"#),
            ("a", r#""id":"zeta","version":"1","provides":["lib"]"#),
            "15 DuplicateId at mods/b/fabric.mod.json wanted - found lib",
        ),
        (
            ("a", r#""id":"able","version":"1","depends":{"gone":"1"}"#),
            ("a-b", r#""id":"beta","version":"1","depends":{"gone":"2"}"#),
            "16 DependsUnmet at mods/a-b/fabric.mod.json wanted gone 2 found -",
        ),
    ] {
        let wanted = format!(in alloc; "refused: rule {wanted}\n")?;
        assert_eq!(rt;
            answer(alloc, &BUILTIN, &[first, second])?.as_str(),
            wanted.as_str()
        );
    }
    let twice = [("game", "1"), ("java", "8"), ("game", "2")];
    assert_eq!(rt;
        answer(alloc, &twice, &[alpha])?.as_str(),
        "refused: rule 15 DuplicateId at game/game.json wanted - found game\n"
    );
    Ok(())
}
