use crate::{Config, ConfigFault, Names, Refmap, read_config, read_refmap};
use std::alloc::Global;
use std::test::Fail;
use wv_base::{Broken, Items, Name, Rule, Text};

/// The rule that a configuration breaks.
fn broken_config(alloc: Global, bytes: &[u8]) -> Result<Broken, Fail> {
    match read_config(alloc, &Text::from_str(alloc, "a.mixins.json")?, bytes) {
        Ok(_) => Err(Fail::from("read")),
        Err(ConfigFault::Memory) => Err(Fail::from("memory")),
        Err(ConfigFault::Broken(broken)) => Ok(broken),
    }
}

fn config(alloc: Global, bytes: &[u8]) -> Result<Config, Fail> {
    Ok(read_config(alloc, &Text::from_str(alloc, "a.mixins.json")?, bytes)?)
}

fn refmap(alloc: Global, bytes: &[u8]) -> Result<Refmap, ConfigFault> {
    read_refmap(alloc, &Text::from_str(alloc, "a.refmap.json")?, bytes)
}

fn first(texts: &Items<Text>) -> Option<&str> {
    texts.get(0).map(|text| text.as_str())
}

#[test]
fn wrong_keys_come_in_order(rt: HostRuntime) -> Result<(), Fail> {
    let alloc = rt.alloc();
    let rows = [
        ("", "json"),
        ("[]", "json"),
        ("null", "json"),
        ("{", "json"),
        (r#"{"plugin":"p"}"#, "package"),
        (r#"{"package":null,"mixins":1}"#, "package"),
        (r#"{"package":["a"]}"#, "package"),
        (r#"{"client":1,"mixins":"A","package":"a"}"#, "mixins"),
        (r#"{"package":"a","mixins":["A",1]}"#, "mixins"),
        (r#"{"package":"a","mixins":null}"#, "mixins"),
        (r#"{"package":"a","server":1,"client":{}}"#, "client"),
        (r#"{"package":"a","refmap":1,"server":[null]}"#, "server"),
        (r#"{"package":"a","priority":"1","refmap":null}"#, "refmap"),
        (
            r#"{"package":"a","mixinPriority":"1","priority":1.0}"#,
            "priority",
        ),
        (r#"{"package":"a","priority":2147483648}"#, "priority"),
        (r#"{"package":"a","priority":-0}"#, "priority"),
        (
            r#"{"package":"a","injectors":1,"mixinPriority":true}"#,
            "mixinPriority",
        ),
        (
            r#"{"package":"a","overwrites":1,"injectors":[]}"#,
            "injectors.defaultRequire",
        ),
        (
            r#"{"package":"a","injectors":null}"#,
            "injectors.defaultRequire",
        ),
        (
            r#"{"package":"a","injectors":{"defaultRequire":1e0}}"#,
            "injectors.defaultRequire",
        ),
        (
            r#"{"package":"a","plugin":"p","overwrites":"x"}"#,
            "overwrites.requireAnnotations",
        ),
        (
            r#"{"package":"a","overwrites":{"requireAnnotations":0}}"#,
            "overwrites.requireAnnotations",
        ),
    ];
    for (text, found) in rows {
        let broken = broken_config(alloc, text.as_bytes())?;
        assert_eq!(rt; broken.rule, Rule::ConfigBad, "{text}");
        assert_eq!(rt; broken.found.as_str(), found, "{text}");
        assert_eq!(rt; broken.wanted.as_str(), "-");
        assert_eq!(rt; broken.place.file.as_str(), "a.mixins.json");
        assert!(rt; broken.place.member.is_none() && broken.place.index.is_none());
    }
    Ok(())
}

#[test]
fn a_plugin_of_any_kind_is_refused(rt: HostRuntime) -> Result<(), Fail> {
    let alloc = rt.alloc();
    for text in [
        r#"{"package":"a","plugin":"a.Plugin"}"#,
        r#"{"package":"a","plugin":""}"#,
        r#"{"package":"a","plugin":null}"#,
        r#"{"package":"a","plugin":1}"#,
        r#"{"package":"a","plugin":false}"#,
        r#"{"package":"a","plugin":[]}"#,
        r#"{"plugin":{},"package":"a"}"#,
    ] {
        let broken = broken_config(alloc, text.as_bytes())?;
        assert_eq!(rt; broken.rule, Rule::PluginNamed, "{text}");
        assert_eq!(rt; broken.found.as_str(), "-");
        assert_eq!(rt; broken.place.file.as_str(), "a.mixins.json");
    }
    Ok(())
}

#[test]
fn absent_keys_have_defaults(rt: HostRuntime) -> Result<(), Fail> {
    let alloc = rt.alloc();
    for text in [
        r#"{"package":"a"}"#,
        r#"{"package":"a","injectors":{},"overwrites":{}}"#,
        r#"{"package":"a","defaultRequire":5,"requireAnnotations":true,"required":1,
            "minVersion":null,"compatibilityLevel":[]}"#,
    ] {
        let config = config(alloc, text.as_bytes())?;
        assert_eq!(rt; config.package.as_str(), "a");
        assert!(rt; config.mixins.is_empty());
        assert!(rt; config.client.is_empty() && config.server.is_empty());
        assert!(rt; config.refmap.is_none());
        assert_eq!(rt; (config.priority, config.mixin_priority), (1000, 1000));
        assert_eq!(rt;
            (config.default_require, config.require_annotations),
            (0, false)
        );
    }
    Ok(())
}

#[test]
fn values_are_kept_with_slashes(rt: HostRuntime) -> Result<(), Fail> {
    let alloc = rt.alloc();
    let config = config(
        alloc,
        br#"{"package":"com.example/mixin","mixins":["A.b","C"],"client":["gui/D.E"],
            "server":["\u00e9.F"],"refmap":"a.refmap.json","priority":-7,"mixinPriority":500,
            "injectors":{"defaultRequire":1},"overwrites":{"requireAnnotations":true}}"#,
    )?;
    assert_eq!(rt; config.package.as_str(), "com/example/mixin");
    assert_eq!(rt; config.mixins.len(), 2);
    assert_eq!(rt; first(&config.mixins), Some("A/b"));
    assert_eq!(rt; first(&config.client), Some("gui/D/E"));
    assert_eq!(rt; first(&config.server), Some("é/F"));
    assert_eq!(rt;
        config.refmap.as_ref().map(|path| path.as_str()),
        Some("a.refmap.json")
    );
    assert_eq!(rt; (config.priority, config.mixin_priority), (-7, 500));
    assert_eq!(rt;
        (config.default_require, config.require_annotations),
        (1, true)
    );
    let class = config.class_of(alloc, &Text::from_str(alloc, "gui/D/E")?)?;
    assert_eq!(rt; class.as_str(), "com/example/mixin/gui/D/E");
    Ok(())
}

#[test]
fn refmaps_of_wrong_depth_are_refused(rt: HostRuntime) -> Result<(), Fail> {
    let alloc = rt.alloc();
    for text in [
        "",
        "[]",
        "{}",
        r#"{"mappings":null}"#,
        r#"{"mappings":[]}"#,
        r#"{"mappings":{"a/B":"x"}}"#,
        r#"{"mappings":{"a/B":{"x":1}}}"#,
        r#"{"mappings":{"a/B":{"x":{"y":"z"}}}}"#,
        r#"{"a/B":{"x":"y"}}"#,
    ] {
        let Err(ConfigFault::Broken(broken)) = refmap(alloc, text.as_bytes()) else {
            return Err(Fail::from("read"));
        };
        assert_eq!(rt; broken.rule, Rule::RefmapBad, "{text}");
        assert_eq!(rt; broken.found.as_str(), "-");
        assert_eq!(rt; broken.place.file.as_str(), "a.refmap.json");
    }
    Ok(())
}

#[test]
fn names_are_those_of_one_class(rt: HostRuntime) -> Result<(), Fail> {
    let alloc = rt.alloc();
    let refmap = refmap(
        alloc,
        br#"{"mappings":{"a/B":{"run":"Lx/Y;f()V"},"a/C":{"run":"g"},"a.D":{"run":"h"},
            "\u00e9":{"run":"i"}},"data":7}"#,
    )?;
    let rows = [
        ("a/B", "run", Some("Lx/Y;f()V")),
        ("a/B", "Run", None),
        ("a/C", "run", Some("g")),
        ("a/D", "run", None),
        ("a.D", "run", Some("h")),
        ("mappings", "a/B", None),
    ];
    for (class, reference, text) in rows {
        let names = refmap.names(alloc, &Name::from_ascii(alloc, class)?)?;
        assert_eq!(rt; names.get(reference), text, "{class} {reference}");
    }
    let accented = refmap.names(alloc, &Name::from_slice(alloc, &[0xe9])?)?;
    assert_eq!(rt; accented.get("run"), Some("i"));
    let lone: Names = refmap.names(alloc, &Name::from_slice(alloc, &[0xd800])?)?;
    assert_eq!(rt; lone.get("run"), None);
    let none = Refmap::empty();
    let names = none.names(alloc, &Name::from_ascii(alloc, "a/B")?)?;
    assert_eq!(rt; names.get("run"), None);
    Ok(())
}
