use crate::{Environment, ModFault, ModInfo, read_mod};
use std::alloc::Global;
use std::test::Fail;
use wv_base::{LINE, Side, Text, write_broken};

fn read(alloc: Global, text: &str, side: Side) -> Result<ModInfo, ModFault> {
    let path = Text::from_str(alloc, "mods/alpha/fabric.mod.json")?;
    read_mod(alloc, &path, text.as_bytes(), side)
}

/// The line of the refusal, and nothing where the text is read.
fn line(alloc: Global, text: &str) -> Result<String, Fail> {
    match read(alloc, text, Side::Client) {
        Ok(_) => Ok(String::new(alloc)),
        Err(ModFault::Broken(broken)) => {
            let mut out = [0u8; LINE];
            let len = write_broken(&broken, &mut out);
            let line = str::from_utf8(&out[..len]).map_err(|_| "no text")?;
            Ok(String::from_str(alloc, line)?)
        }
        Err(ModFault::Memory) => Err(Fail::from("out of memory")),
    }
}

/// A description with these keys besides those that it needs.
fn with_keys(alloc: Global, keys: &str) -> Result<String, Fail> {
    let mut text = String::from_str(alloc, r#"{"schemaVersion":1,"id":"alpha","version":"1","#)?;
    text.push_str(keys)?;
    text.push('}')?;
    Ok(text)
}

/// The line that refuses a description.
fn refusal(alloc: Global, rule: &str, found: &str) -> Result<String, Fail> {
    let mut line = String::from_str(alloc, "refused: rule ")?;
    line.push_str(rule)?;
    line.push_str(" at mods/alpha/fabric.mod.json wanted - found ")?;
    line.push_str(found)?;
    line.push('\n')?;
    Ok(line)
}

#[test]
fn what_breaks_a_rule(rt: HostRuntime) -> Result<(), Fail> {
    let alloc = rt.alloc();
    for (text, rule, found) in [
        ("", "11 ModBad", "json"),
        ("[]", "11 ModBad", "json"),
        ("{", "11 ModBad", "json"),
        ("{}", "11 ModBad", "schemaVersion"),
        (r#"{"schemaVersion":1.0}"#, "11 ModBad", "schemaVersion"),
        (r#"{"schemaVersion":2}"#, "11 ModBad", "schemaVersion"),
        (r#"{"schemaVersion":1}"#, "11 ModBad", "id"),
        (r#"{"schemaVersion":1,"id":1}"#, "11 ModBad", "id"),
        (
            r#"{"schemaVersion":1,"id":"alpha"}"#,
            "11 ModBad",
            "version",
        ),
        // The id is outside the grammar too, but rule 11 comes before rule 12.
        (
            r#"{"schemaVersion":1,"id":"A","version":null}"#,
            "11 ModBad",
            "version",
        ),
        (
            r#"{"schemaVersion":1,"id":"A","version":""}"#,
            "12 IdBad",
            "A",
        ),
        (
            r#"{"schemaVersion":1,"id":"a","version":"","jars":1}"#,
            "12 IdBad",
            "a",
        ),
    ] {
        let wanted = refusal(alloc, rule, found)?;
        assert_eq!(rt; line(alloc, text)?.as_str(), wanted.as_str(), "{text}");
    }
    for (keys, rule, found) in [
        (r#""provides":"b""#, "11 ModBad", "provides"),
        (r#""provides":["bc",1]"#, "11 ModBad", "provides"),
        (r#""provides":null"#, "11 ModBad", "provides"),
        (r#""environment":"both""#, "11 ModBad", "environment"),
        (r#""environment":null"#, "11 ModBad", "environment"),
        (r#""mixins":"a""#, "11 ModBad", "mixins"),
        (r#""mixins":[1]"#, "11 ModBad", "mixins"),
        (r#""mixins":[{}]"#, "11 ModBad", "mixins"),
        (
            r#""mixins":[{"config":"a","environment":"x"}]"#,
            "11 ModBad",
            "mixins",
        ),
        (r#""depends":[]"#, "11 ModBad", "depends"),
        (r#""depends":{"b":[1]},"breaks":1"#, "11 ModBad", "depends"),
        (r#""breaks":{"b":null}"#, "11 ModBad", "breaks"),
        (r#""provides":["bc","b.c","B"]"#, "12 IdBad", "b.c"),
        (r#""provides":["-b"]"#, "12 IdBad", "-b"),
        (r#""provides":["é"],"jars":[{}]"#, "12 IdBad", "é"),
        (r#""jars":[{}]"#, "13 NestedJars", "-"),
        (r#""jars":null,"depends":{"b":"^x"}"#, "13 NestedJars", "-"),
        (r#""depends":{"b":"^x"}"#, "14 PredicateBad", "^x"),
        (
            r#""depends":{"b":"~","a":["*","<x"]},"breaks":{"a":">"}"#,
            "14 PredicateBad",
            "<x",
        ),
        (
            r#""depends":{"b":"*"},"breaks":{"a":">y"}"#,
            "14 PredicateBad",
            ">y",
        ),
    ] {
        let text = with_keys(alloc, keys)?;
        let wanted = refusal(alloc, rule, found)?;
        assert_eq!(rt;
            line(alloc, text.as_str())?.as_str(),
            wanted.as_str(),
            "{keys}"
        );
    }
    Ok(())
}

#[test]
fn what_is_read(rt: HostRuntime) -> Result<(), Fail> {
    let alloc = rt.alloc();
    for text in [
        r#"{"schemaVersion":1,"id":"a_","version":""}"#,
        r#"{"schemaVersion":1,"id":"a-9","version":"no version","jars":[],"depends":{}}"#,
        r#"{"schemaVersion":1,"id":"ab","version":"1","depends":{"ab":[],"Not An Id":" "}}"#,
        r#"{"schemaVersion":1,"id":"ab","version":"1","provides":["ab"],"suggests":1,"conflicts":1}"#,
    ] {
        assert_eq!(rt; line(alloc, text)?.as_str(), "", "{text}");
    }
    let text = r#"{"schemaVersion":1,"id":"alpha","version":"1.0.0","provides":["lib","library"],
        "environment":"server","mixins":["a.json",{"config":"b.json","environment":"client"}],
        "depends":{"beta":["1.x",">=2"],"able":"*"},"breaks":{"gamma":"<1"}}"#;
    let info = read(alloc, text, Side::Client).map_err(|_| "refused")?;
    assert_eq!(rt; info.path.as_str(), "mods/alpha/fabric.mod.json");
    assert_eq!(rt;
        (info.id.as_str(), info.version.as_str()),
        ("alpha", "1.0.0")
    );
    assert_eq!(rt; info.provides.len(), 2);
    assert!(rt; !info.loaded);
    let mixins = [
        ("a.json", Environment::Both),
        ("b.json", Environment::Client),
    ];
    for (mixin, (config, environment)) in info.mixins.as_slice().iter().zip(&mixins) {
        assert_eq!(rt; mixin.config.as_str(), *config);
        assert_eq!(rt; mixin.environment, *environment);
    }
    for (dependency, (id, len)) in info
        .depends
        .as_slice()
        .iter()
        .zip(&[("able", 1), ("beta", 2)])
    {
        assert_eq!(rt;
            (dependency.id.as_str(), dependency.any_of.len()),
            (*id, *len)
        );
    }
    assert_eq!(rt; info.breaks.len(), 1);
    assert!(rt;
        read(alloc, text, Side::Server)
            .map_err(|_| "refused")?
            .loaded
    );
    Ok(())
}

#[test]
fn what_is_malformed(rt: HostRuntime) -> Result<(), Fail> {
    let alloc = rt.alloc();
    for (text, found) in [
        ("{} {}", "json"),
        (r#"{"schemaVersion":1,}"#, "json"),
        (r#"{"schemaVersion":01}"#, "json"),
        (r#"{"id":"\q"}"#, "json"),
        (r#""alpha""#, "json"),
        (r#"{"schemaVersion":"1"}"#, "schemaVersion"),
        (r#"{"schemaVersion":true}"#, "schemaVersion"),
    ] {
        let wanted = refusal(alloc, "11 ModBad", found)?;
        assert_eq!(rt; line(alloc, text)?.as_str(), wanted.as_str(), "{text}");
    }
    for (keys, found) in [
        (r#""environment":"Client""#, "environment"),
        (r#""environment":["client"]"#, "environment"),
        (r#""mixins":{"config":"a"}"#, "mixins"),
        (r#""mixins":[{"config":1}]"#, "mixins"),
        (r#""depends":null"#, "depends"),
        (r#""depends":{"b":{}}"#, "depends"),
    ] {
        let text = with_keys(alloc, keys)?;
        let wanted = refusal(alloc, "11 ModBad", found)?;
        assert_eq!(rt;
            line(alloc, text.as_str())?.as_str(),
            wanted.as_str(),
            "{keys}"
        );
    }
    Ok(())
}
