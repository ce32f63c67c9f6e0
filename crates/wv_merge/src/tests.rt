use crate::note::{has_overwrite, one_target};
use crate::opcode::{GETSTATIC, INVOKESTATIC, INVOKEVIRTUAL, RETURN};
use crate::overwrite::{Renaming, merged, place_of, written_version};
use crate::refusal::overwrite_missing;
use crate::typing::has_typing;
use crate::{Role, is_thin, target_of};
use bitflags::Flags;
use std::alloc::Global;
use std::test::Fail;
use wv_base::{
    AccessFlags, Annotation, Body, ClassFile, ClassVersion, Const, Element, Insn, Items, Member,
    Name, NamedElement, Note, Text,
};

/// An annotation of this class with these elements.
fn note(alloc: Global, class: &str, elements: Items<NamedElement>) -> Result<Note, Fail> {
    Ok(Note {
        visible: false,
        parameter: None,
        annotation: Annotation {
            class: Name::from_ascii(alloc, class)?,
            elements,
        },
    })
}

/// The elements of `@Mixin`: a letter each, `v` for the target, `w` for two targets, `p` for a
/// priority and `q` for one of another kind.
fn elements(alloc: Global, letters: &str) -> Result<Items<NamedElement>, Fail> {
    let mut elements = Items::new(alloc);
    for letter in letters.bytes() {
        elements.push(element(alloc, letter)?)?;
    }
    Ok(elements)
}

fn element(alloc: Global, letter: u8) -> Result<NamedElement, Fail> {
    if letter == b'p' || letter == b'q' {
        return Ok(NamedElement {
            name: Name::from_ascii(alloc, "priority")?,
            value: Element::Constant {
                tag: if letter == b'p' { b'I' } else { b'S' },
                value: Const::Integer(7),
            },
        });
    }
    let mut targets = Items::new(alloc);
    targets.push(Element::Class(Name::from_ascii(alloc, "La/B;")?))?;
    if letter == b'w' {
        targets.push(Element::Class(Name::from_ascii(alloc, "La/C;")?))?;
    }
    Ok(NamedElement {
        name: Name::from_ascii(alloc, "value")?,
        value: Element::Array(targets),
    })
}

/// The annotations of a class: a letter each, `o` for another one, `x` for one of Mixin's packages,
/// and else `@Mixin` with the elements.
fn notes(alloc: Global, letters: &str, inner: &str) -> Result<Items<Note>, Fail> {
    let mut notes = Items::new(alloc);
    for letter in letters.bytes() {
        let note = match letter {
            b'o' => note(alloc, "java/lang/Deprecated", Items::new(alloc))?,
            b'x' => note(
                alloc,
                "org/spongepowered/asm/mixin/Debug",
                Items::new(alloc),
            )?,
            b'w' => note(
                alloc,
                "org/spongepowered/asm/mixin/Overwrite",
                Items::new(alloc),
            )?,
            _ => note(
                alloc,
                "org/spongepowered/asm/mixin/Mixin",
                elements(alloc, inner)?,
            )?,
        };
        notes.push(note)?;
    }
    Ok(notes)
}

#[test]
fn targets(rt: HostRuntime) -> Result<(), Fail> {
    for (letters, inner, found) in [
        ("m", "v", true),
        ("om", "vp", true),
        ("moo", "pv", true),
        ("", "v", false),
        ("mm", "v", false),
        ("xm", "v", false),
        ("m", "", false),
        ("m", "w", false),
        ("m", "p", false),
        ("m", "vv", false),
        ("m", "pvp", false),
        ("m", "vq", false),
        ("wm", "v", false),
    ] {
        let notes = notes(rt.alloc(), letters, inner)?;
        assert_eq!(rt;
            one_target(notes.as_slice()).is_some_and(|name| name.is_ascii("La/B;")),
            found
        );
        assert_eq!(rt; one_target(notes.as_slice()).is_some(), found);
    }
    Ok(())
}

#[test]
fn overwrites(rt: HostRuntime) -> Result<(), Fail> {
    for (letters, found) in [
        ("w", true),
        ("owo", true),
        ("", false),
        ("ww", false),
        ("wx", false),
        ("m", false),
    ] {
        let notes = notes(rt.alloc(), letters, "v")?;
        assert_eq!(rt; has_overwrite(notes.as_slice()), found);
    }
    Ok(())
}

/// A reference of an instruction with this opcode.
fn refer(alloc: Global, op: u8, owner: &str, name: &str, descriptor: &str) -> Result<Insn, Fail> {
    Ok(Insn::Reference {
        op,
        owner: Name::from_ascii(alloc, owner)?,
        name: Name::from_ascii(alloc, name)?,
        descriptor: Name::from_ascii(alloc, descriptor)?,
        interface: false,
    })
}

/// Code that prints 7, calls a method of a class, and returns.
fn code(alloc: Global, called: &str) -> Result<Items<Insn>, Fail> {
    let mut insns = Items::new(alloc);
    insns.push(refer(
        alloc,
        GETSTATIC,
        "java/lang/System",
        "out",
        "Ljava/io/PrintStream;",
    )?)?;
    insns.push(Insn::Push { op: 0x10, value: 7 })?;
    insns.push(refer(
        alloc,
        INVOKEVIRTUAL,
        "java/io/PrintStream",
        "println",
        "(I)V",
    )?)?;
    insns.push(refer(alloc, INVOKESTATIC, called, "f", "()V")?)?;
    insns.push(Insn::Plain { op: RETURN })?;
    Ok(insns)
}

fn method(alloc: Global, name: &str, called: &str, marks: &str) -> Result<Member, Fail> {
    Ok(Member {
        flags: AccessFlags::from_bits_retain(0x0009),
        name: Name::from_ascii(alloc, name)?,
        descriptor: Name::from_ascii(alloc, "()V")?,
        body: Some(Body {
            max_stack: 2,
            max_locals: 0,
            insns: code(alloc, called)?,
            ranges: Items::new(alloc),
            frames: Items::new(alloc),
            kept: Items::new(alloc),
        }),
        value: None,
        throws: Items::new(alloc),
        notes: notes(alloc, marks, "")?,
        kept: Items::new(alloc),
    })
}

/// A class with one method, by its name, the class that its code calls, and the letters of its
/// annotations and of the method's.
fn class(
    alloc: Global,
    name: &str,
    called: &str,
    class_marks: &str,
    marks: &str,
) -> Result<ClassFile, Fail> {
    let mut methods = Items::new(alloc);
    methods.push(method(alloc, "f", called, marks)?)?;
    Ok(ClassFile {
        version: ClassVersion {
            major: 52,
            minor: 0,
        },
        flags: AccessFlags::from_bits_retain(0x0021),
        name: Name::from_ascii(alloc, name)?,
        superclass: Name::from_ascii(alloc, "java/lang/Object")?,
        interfaces: Items::new(alloc),
        fields: Items::new(alloc),
        methods,
        notes: notes(alloc, class_marks, "v")?,
        pool: Items::new(alloc),
        kept: Items::new(alloc),
    })
}

#[test]
fn thin_classes(rt: HostRuntime) -> Result<(), Fail> {
    let alloc = rt.alloc();
    for (name, called, class_marks, marks, game, mixin) in [
        ("a/B", "c/D", "", "", true, false),
        ("a/B", "a/B", "o", "o", true, false),
        ("a/B", "[La/B;", "", "", false, false),
        ("a/B", "c/D", "m", "", false, false),
        ("a/B", "c/D", "m", "w", false, true),
        ("a/B", "[I", "m", "w", false, false),
        ("java/lang/System", "c/D", "m", "w", false, false),
        ("java/io/PrintStream", "c/D", "m", "w", false, false),
        ("a/B", "c/D", "", "w", false, false),
    ] {
        let class = class(alloc, name, called, class_marks, marks)?;
        assert_eq!(rt; is_thin(alloc, Role::Game, b"", &class)?, game);
        assert_eq!(rt; is_thin(alloc, Role::Mixin, b"", &class)?, mixin);
        assert_eq!(rt; target_of(&class).is_some(), class_marks == "m");
        assert!(rt; !is_thin(alloc, Role::Game, &[0; 4097], &class)?);
    }
    Ok(())
}

#[test]
fn typings(rt: HostRuntime) -> Result<(), Fail> {
    let insns = code(rt.alloc(), "a/B")?;
    for (max_stack, typed) in [(1, false), (2, true), (3, true)] {
        assert_eq!(rt; has_typing(rt.alloc(), max_stack, insns.as_slice())?, typed);
    }
    Ok(())
}

/// The class whose method the code of a method calls.
fn called_by(method: &Member, owner: &str) -> bool {
    match &method.body {
        Some(body) => match body.insns.as_slice().get(3) {
            Some(Insn::Reference { owner: found, .. }) => found.is_ascii(owner),
            _ => false,
        },
        None => false,
    }
}

#[test]
fn methods_read_in_target(rt: HostRuntime) -> Result<(), Fail> {
    let alloc = rt.alloc();
    let mixin = Name::from_ascii(alloc, "m/Mixin")?;
    let target = Name::from_ascii(alloc, "a/B")?;
    let renaming = Renaming {
        mixin: &mixin,
        target: &target,
    };
    let old = method(alloc, "f", "a/Old", "o")?;
    for (called, meant) in [("m/Mixin", "a/B"), ("a/B", "a/B"), ("c/D", "c/D")] {
        let new = method(alloc, "g", called, "w")?;
        let member = merged(alloc, &renaming, &old, &new)?;
        assert!(rt; called_by(&member, meant));
        assert!(rt; member.name.is_ascii("f") && member.notes.is_empty());
    }
    Ok(())
}

#[test]
fn versions(rt: HostRuntime) -> Result<(), Fail> {
    for (target, mixin, major, minor) in [(50, 52, 52, 0), (52, 50, 52, 3), (51, 51, 51, 3)] {
        let written = written_version(
            ClassVersion {
                major: target,
                minor: 3,
            },
            ClassVersion {
                major: mixin,
                minor: 4,
            },
        );
        assert_eq!(rt; (written.major, written.minor), (major, minor));
    }
    Ok(())
}

#[test]
fn missing_methods(rt: HostRuntime) -> Result<(), Fail> {
    let alloc = rt.alloc();
    let target = class(alloc, "a/B", "c/D", "", "")?;
    for (name, place) in [("f", Some(0)), ("g", None)] {
        let method = method(alloc, name, "c/D", "w")?;
        assert_eq!(rt; place_of(&target, &method), place);
    }
    let method = method(alloc, "g", "c/D", "w")?;
    let path = Text::from_str(alloc, "mods/m/m/Mixin.class")?;
    let broken = overwrite_missing(alloc, &path, &target.name, &method)?;
    assert_eq!(rt; broken.wanted.as_str(), "a/B.g()V");
    assert_eq!(rt; broken.place.file.as_str(), "mods/m/m/Mixin.class");
    Ok(())
}
