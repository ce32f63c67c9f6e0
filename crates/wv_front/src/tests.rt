use crate::{WeaveFault, check_listed, check_marked, order_mixins};
use std::alloc::Global;
use std::test::Fail;
use wv_base::{
    AccessFlags, Annotation, Broken, ClassFile, ClassVersion, Const, Element, Items, Name,
    NamedElement, Note, Rule, Side, Text,
};
use wv_classes::{ClassRead, FolderClass, LoadedClass};
use wv_config::{Configs, LoadedConfig, Refmap, read_config};

fn loaded(alloc: Global, path: &str, text: &str) -> Result<LoadedConfig, Fail> {
    let path = Text::from_str(alloc, path)?;
    let config = read_config(alloc, &path, text.as_bytes())?;
    Ok(LoadedConfig {
        path,
        mod_place: 0,
        place: 0,
        config,
        refmap: Refmap::empty(),
    })
}

/// A `@Mixin` with this priority, if any.
fn mark(alloc: Global, priority: Option<i32>) -> Result<Note, Fail> {
    let mut elements = Items::new(alloc);
    if let Some(number) = priority {
        elements.push(NamedElement {
            name: Name::from_ascii(alloc, "priority")?,
            value: Element::Constant {
                tag: b'I',
                value: Const::Integer(number),
            },
        })?;
    }
    Ok(Note {
        visible: false,
        parameter: None,
        annotation: Annotation {
            class: Name::from_ascii(alloc, "org/spongepowered/asm/mixin/Mixin")?,
            elements,
        },
    })
}

fn class(alloc: Global, name: &str, marks: &[Option<i32>]) -> Result<LoadedClass, Fail> {
    let mut notes = Items::new(alloc);
    for priority in marks {
        notes.push(mark(alloc, *priority)?)?;
    }
    Ok(LoadedClass {
        path: Text::from_string(format!(in alloc; "mods/m/{name}.class")?),
        name: Text::from_str(alloc, name)?,
        class: ClassFile {
            version: ClassVersion {
                major: 52,
                minor: 0,
            },
            flags: AccessFlags::PUBLIC,
            name: Name::from_ascii(alloc, name)?,
            superclass: Name::from_ascii(alloc, "java/lang/Object")?,
            interfaces: Items::new(alloc),
            fields: Items::new(alloc),
            methods: Items::new(alloc),
            notes,
            pool: Items::new(alloc),
            kept: Items::new(alloc),
        },
    })
}

fn classes(alloc: Global) -> Result<Vec<LoadedClass>, Fail> {
    let mut classes = Vec::new(alloc);
    classes.push(class(alloc, "m/A", &[None])?)?;
    classes.push(class(alloc, "m/B", &[Some(-5)])?)?;
    classes.push(class(alloc, "m/C", &[Some(1000), Some(1)])?)?;
    classes.push(class(alloc, "m/D", &[])?)?;
    Ok(classes)
}

fn configs(alloc: Global) -> Result<Configs, Fail> {
    let mut used = Vec::new(alloc);
    used.push(loaded(
        alloc,
        "mods/m/b.json",
        r#"{"package":"m","mixins":["A","C"],"client":["B"],"server":["D"]}"#,
    )?)?;
    used.push(loaded(
        alloc,
        "mods/m/c.json",
        r#"{"package":"m","mixins":["A"],"client":["C"],"server":["gone.F"],"mixinPriority":7}"#,
    )?)?;
    let mut others = Vec::new(alloc);
    others.push(loaded(
        alloc,
        "mods/m/a.json",
        r#"{"package":"m","mixins":["A"],"server":["E","gone.G"]}"#,
    )?)?;
    Ok(Configs { used, others })
}

fn folder_classes(alloc: Global, names: &[&str]) -> Result<Vec<FolderClass>, Fail> {
    let mut classes = Vec::new(alloc);
    for name in names {
        classes.push(FolderClass {
            path: Text::from_string(format!(in alloc; "mods/m/{name}.class")?),
            name: Text::from_str(alloc, name)?,
            read: ClassRead::Layout(0),
        })?;
    }
    Ok(classes)
}

fn broken(answer: Result<(), WeaveFault>) -> Result<Option<Broken>, Fail> {
    match answer {
        Ok(()) => Ok(None),
        Err(WeaveFault::Broken(broken)) => Ok(Some(broken)),
        Err(WeaveFault::Memory) => Err(Fail::from("out of memory")),
    }
}

#[test]
fn a_missing_class_is_named_by_the_first_path(rt: HostRuntime) -> Result<(), Fail> {
    let alloc = rt.alloc();
    let configs = configs(alloc)?;
    let mut names = Vec::new(alloc);
    for name in ["m/A", "m/B", "m/C", "m/D"] {
        names.push(name)?;
    }
    for (path, found, more) in [
        ("mods/m/a.json", "m/E", "m/E"),
        ("mods/m/a.json", "m/gone/G", "m/gone/G"),
        ("mods/m/c.json", "m/gone/F", "m/gone/F"),
    ] {
        let classes = folder_classes(alloc, names.as_slice())?;
        let Some(broken) = broken(check_listed(alloc, &configs, classes.as_slice()))? else {
            return Err(Fail::from("kept"));
        };
        assert_eq!(rt; broken.rule, Rule::MixinMissing);
        assert_eq!(rt; broken.place.file.as_str(), path);
        assert_eq!(rt; broken.found.as_str(), found);
        names.push(more)?;
    }
    let classes = folder_classes(alloc, names.as_slice())?;
    assert!(rt; broken(check_listed(alloc, &configs, classes.as_slice()))?.is_none());
    Ok(())
}

#[test]
fn mixins_come_by_their_keys(rt: HostRuntime) -> Result<(), Fail> {
    let alloc = rt.alloc();
    let configs = configs(alloc)?;
    let classes = classes(alloc)?;
    for (side, wanted) in [
        (Side::Client, "m/B m/A m/C "),
        (Side::Server, "m/A m/C m/D "),
    ] {
        let mixins = order_mixins(alloc, &configs, classes.as_slice(), side)?;
        let mut names = String::new(alloc);
        for mixin in mixins.as_slice() {
            names.push_str(mixin.name.as_str())?;
            names.push(' ')?;
        }
        assert_eq!(rt; names.as_str(), wanted);
    }
    Ok(())
}

#[test]
fn a_mixin_without_one_mark_is_refused(rt: HostRuntime) -> Result<(), Fail> {
    let alloc = rt.alloc();
    let configs = configs(alloc)?;
    let mut classes = classes(alloc)?;
    for (side, path) in [
        (Side::Client, "mods/m/m/C.class"),
        (Side::Server, "mods/m/m/C.class"),
    ] {
        let mixins = order_mixins(alloc, &configs, classes.as_slice(), side)?;
        let answer = check_marked(alloc, mixins.as_slice(), classes.as_slice());
        let Some(broken) = broken(answer)? else {
            return Err(Fail::from("kept"));
        };
        assert_eq!(rt; broken.rule, Rule::MixinBad);
        assert_eq!(rt; broken.place.file.as_str(), path);
        assert_eq!(rt; broken.found.as_str(), "Mixin");
    }
    classes.truncate(2);
    let mixins = order_mixins(alloc, &configs, classes.as_slice(), Side::Client)?;
    let answer = check_marked(alloc, mixins.as_slice(), classes.as_slice());
    assert!(rt; broken(answer)?.is_none());
    Ok(())
}
