use crate::{GameInfo, ModFault, read_game};
use std::alloc::Global;
use std::test::Fail;
use wv_base::{LINE, write_broken};

/// The line of the refusal, and nothing where the text is read.
fn line(alloc: Global, text: &str) -> Result<String, Fail> {
    match read_game(alloc, text.as_bytes()) {
        Ok(_) => Ok(String::new(alloc)),
        Err(ModFault::Broken(broken)) => {
            let mut out = [0u8; LINE];
            let len = write_broken(&broken, &mut out);
            let line = str::from_utf8(&out[..len]).map_err(|_| "no text")?;
            Ok(String::from_str(alloc, line)?)
        }
        Err(ModFault::Memory) => Err(Fail::from("out of memory")),
    }
}

/// A description with this text of `main`.
fn with_main(alloc: Global, main: &str) -> Result<String, Fail> {
    let mut text = String::from_str(alloc, r#"{"id":"game","version":"1","main":""#)?;
    text.push_str(main)?;
    text.push_str(r#""}"#)?;
    Ok(text)
}

fn game(alloc: Global, text: &str) -> Result<GameInfo, Fail> {
    Ok(read_game(alloc, text.as_bytes()).map_err(|_| "refused")?)
}

#[test]
fn what_is_wrong(rt: HostRuntime) -> Result<(), Fail> {
    let alloc = rt.alloc();
    for (text, found) in [
        ("", "json"),
        ("[]", "json"),
        ("null", "json"),
        (r#""game""#, "json"),
        ("{", "json"),
        ("{} {}", "json"),
        (r#"{"id":"\q"}"#, "json"),
        ("{}", "id"),
        (r#"{"id":1,"version":"1","main":"a"}"#, "id"),
        (r#"{"id":null,"version":"1","main":"a"}"#, "id"),
        (r#"{"id":["a"],"version":"1","main":"a"}"#, "id"),
        (r#"{"id":"a","main":"a"}"#, "version"),
        (r#"{"id":"a","version":1,"main":"a"}"#, "version"),
        (r#"{"id":"a","version":null,"main":"a"}"#, "version"),
        (r#"{"id":"a","version":"1"}"#, "main"),
        (r#"{"id":"a","version":"1","main":{}}"#, "main"),
        (r#"{"id":"a","version":"1","main":null}"#, "main"),
        (
            r#"{"id":"a","version":"1","main":"a","builtin":null}"#,
            "builtin",
        ),
        (
            r#"{"id":"a","version":"1","main":"a","builtin":[]}"#,
            "builtin",
        ),
        (
            r#"{"id":"a","version":"1","main":"a","builtin":"b"}"#,
            "builtin",
        ),
        (
            r#"{"id":"a","version":"1","main":"a","builtin":{"b":1}}"#,
            "builtin",
        ),
        (
            r#"{"id":"a","version":"1","main":"a","builtin":{"b":"1","c":["1"]}}"#,
            "builtin",
        ),
        // Of two that are wrong the first in order counts.
        (r#"{"version":1}"#, "id"),
        (r#"{"id":1,"builtin":1}"#, "id"),
        (r#"{"id":"a","main":1}"#, "version"),
        (r#"{"id":"a","version":"1","builtin":1}"#, "main"),
        (r#"{"id":"a","version":"1","main":"","builtin":1}"#, "main"),
    ] {
        let wanted = format!(in alloc;
            "refused: rule 3 GameBad at game/game.json wanted - found {found}\n"
        )?;
        assert_eq!(rt; line(alloc, text)?.as_str(), wanted.as_str(), "{text}");
    }
    Ok(())
}

#[test]
fn main_names_a_class(rt: HostRuntime) -> Result<(), Fail> {
    let alloc = rt.alloc();
    for (main, kept) in [
        ("Main", "Main"),
        ("app.Main", "app/Main"),
        ("app/Main", "app/Main"),
        ("a.b/c.d", "a/b/c/d"),
        ("a-b c$1<>", "a-b c$1<>"),
        ("é.ü€.𝄞", "é/ü€/𝄞"),
        (r"app\u002eMain", "app/Main"),
        (r"\u0000", "\0"),
    ] {
        let text = with_main(alloc, main)?;
        assert_eq!(rt; game(alloc, text.as_str())?.main.as_str(), kept, "{main}");
    }
    for main in [
        "", ".", "/", ".a", "a.", "/a", "a/", "a..b", "a//b", "a./b", "a;", "La;", "[I", "[La;",
        "a.b[]",
    ] {
        let text = with_main(alloc, main)?;
        assert_eq!(rt;
            line(alloc, text.as_str())?.as_str(),
            "refused: rule 3 GameBad at game/game.json wanted - found main\n",
            "{main}"
        );
    }
    Ok(())
}

#[test]
fn what_is_kept(rt: HostRuntime) -> Result<(), Fail> {
    let alloc = rt.alloc();
    let info = game(
        alloc,
        r#" {"main":"app.Main","version":"no version","id":"Not An Id","icon":1,"builtin":
            {"java":"8","Any":"","é":"1.0","a b":"x","java2":"17","jav":"0"},"mixins":null}"#,
    )?;
    assert_eq!(rt; info.id.as_str(), "Not An Id");
    assert_eq!(rt; info.version.as_str(), "no version");
    assert_eq!(rt; info.main.as_str(), "app/Main");
    let entries = [
        ("Any", ""),
        ("a b", "x"),
        ("jav", "0"),
        ("java", "8"),
        ("java2", "17"),
        ("é", "1.0"),
    ];
    assert_eq!(rt; info.builtin.len(), entries.len());
    for (entry, wanted) in info.builtin.as_slice().iter().zip(&entries) {
        assert_eq!(rt; (entry.0.as_str(), entry.1.as_str()), *wanted);
    }
    for text in [
        r#"{"id":"","version":"","main":"a"}"#,
        r#"{"id":"","version":"","main":"a","builtin":{}}"#,
    ] {
        assert!(rt; game(alloc, text)?.builtin.is_empty(), "{text}");
    }
    Ok(())
}
