//! Classes that are written and read again, and classes that no class file has.

use super::*;
use crate::reading_tests::{FRONT, NONE, SMALLEST, head};
use bitflags::Flags;
use std::alloc::Global;
use std::fmt::Debug;
use std::test::*;
use wv_base::{
    AccessFlags, Annotation, Attribute, Body, Bytes, ClassFile, Const, Insn, Items, Member, Name,
    Note, PoolEntry,
};

/// Each kind of attribute, in the order in which they are written: two fields with values, and a method
/// with code, an exception, annotations of its own and of a parameter.
const FULL: [&[u8]; 11] = [
    &[0, 33, 0, 2, 0, 4, 0, 1, 0, 4, 0, 2],
    // The value 7, an annotation and an attribute that is kept.
    &[0, 26, 0, 5, 0, 6, 0, 3, 0, 9, 0, 0, 0, 2, 0, 10],
    &[
        0, 15, 0, 0, 0, 6, 0, 1, 0, 16, 0, 0, 0, 21, 0, 0, 0, 2, 7, 7,
    ],
    &[0, 8, 0, 5, 0, 23, 0, 1, 0, 9, 0, 0, 0, 2, 0, 22],
    &[0, 1, 0, 8, 0, 5, 0, 7, 0, 5],
    // ldc 7, pop and return; the first two are caught.
    &[
        0, 8, 0, 0, 0, 31, 0, 1, 0, 0, 0, 0, 0, 4, 0x12, 10, 0x57, 0xb1,
    ],
    &[
        0, 1, 0, 0, 0, 3, 0, 3, 0, 14, 0, 1, 0, 21, 0, 0, 0, 1, 9, 0, 11, 0, 0, 0, 4, 0, 1, 0, 14,
    ],
    // Two annotations, the second with f = 7; one of the first parameter; an attribute that is kept.
    &[
        0, 15, 0, 0, 0, 15, 0, 2, 0, 16, 0, 0, 0, 16, 0, 1, 0, 5, b'I', 0, 10,
    ],
    &[0, 18, 0, 0, 0, 7, 1, 0, 1, 0, 16, 0, 0],
    &[0, 21, 0, 0, 0, 0],
    &[
        0, 2, 0, 15, 0, 0, 0, 6, 0, 1, 0, 16, 0, 0, 0, 21, 0, 0, 0, 3, 1, 2, 3,
    ],
];

fn full_file(alloc: Global) -> Result<Vec<u8>, Fail> {
    let mut bytes = head(alloc)?;
    for part in FULL {
        bytes.extend_from_slice(part)?;
    }
    Ok(bytes)
}

/// What is written of the class, where a class file can have it.
fn written(alloc: Global, class: &ClassFile) -> Result<Bytes, Fail> {
    if !is_formed(alloc, class)? {
        return Err("no class file has the class".into());
    }
    Ok(write_class(alloc, class)?)
}

/// What is read is written as it was.
#[test]
fn the_same_bytes(rt: HostRuntime) -> Result<(), Fail> {
    let alloc = rt.alloc();
    let mut bare = head(alloc)?;
    for part in [FRONT, NONE, NONE, NONE] {
        bare.extend_from_slice(part)?;
    }
    for bytes in [SMALLEST.to_vec(alloc)?, bare, full_file(alloc)?] {
        let class = read_class(alloc, &bytes)?;
        let same = written(alloc, &class)?;
        assert_eq!(rt; same.as_slice(), bytes.as_slice());
    }
    Ok(())
}

fn text<T: Debug>(alloc: Global, value: &T) -> Result<String, Fail> {
    Ok(format!(in alloc; "{value:?}")?)
}

/// All of a class but its pool, as text.
fn parts(alloc: Global, class: &ClassFile) -> Result<String, Fail> {
    let mut out = text(alloc, &(class.version, class.flags))?;
    for part in [
        text(alloc, &class.name)?,
        text(alloc, &class.superclass)?,
        text(alloc, &class.interfaces)?,
        text(alloc, &class.fields)?,
        text(alloc, &class.methods)?,
        text(alloc, &class.notes)?,
        text(alloc, &class.kept)?,
    ] {
        out.push_str(part.as_str())?;
        out.push_str("\n")?;
    }
    Ok(out)
}

/// An annotation LA; with no elements.
pub(crate) fn note(alloc: Global, visible: bool, parameter: Option<u8>) -> Result<Note, Fail> {
    Ok(Note {
        visible,
        parameter,
        annotation: Annotation {
            class: Name::from_ascii(alloc, "A")?,
            elements: Items::new(alloc),
        },
    })
}

pub(crate) fn member(
    alloc: Global,
    flags: u16,
    name: &str,
    descriptor: &str,
) -> Result<Member, Fail> {
    Ok(Member {
        flags: AccessFlags::from_bits_retain(flags),
        name: Name::from_ascii(alloc, name)?,
        descriptor: Name::from_ascii(alloc, descriptor)?,
        body: None,
        value: None,
        throws: Items::new(alloc),
        notes: Items::new(alloc),
        kept: Items::new(alloc),
    })
}

/// A body with these instructions alone.
pub(crate) fn body(alloc: Global, insns: Items<Insn>) -> Body {
    Body {
        max_stack: 1,
        max_locals: 1,
        insns,
        ranges: Items::new(alloc),
        frames: Items::new(alloc),
        kept: Items::new(alloc),
    }
}

/// A class with more than it was read with: an interface, a native method with annotations of two
/// parameters, and an annotation of the class.
fn more(alloc: Global) -> Result<ClassFile, Fail> {
    let mut class = read_class(alloc, &full_file(alloc)?)?;
    class.interfaces.push(Name::from_ascii(alloc, "C")?)?;
    let mut method = member(alloc, 0x100, "g", "(IJ)V")?;
    for (visible, parameter) in [
        (true, None),
        (true, Some(0)),
        (true, Some(1)),
        (false, Some(1)),
        (true, Some(0)),
    ] {
        method.notes.push(note(alloc, visible, parameter)?)?;
    }
    class.methods.push(method)?;
    class.notes.push(note(alloc, false, None)?)?;
    Ok(class)
}

/// The pool as it was read is the front of the written one, and what it lacked stands behind.
#[test]
fn new_constants(rt: HostRuntime) -> Result<(), Fail> {
    let alloc = rt.alloc();
    let class = more(alloc)?;
    let bytes = written(alloc, &class)?;
    let again = read_class(alloc, bytes.as_slice())?;
    assert_eq!(rt;
        parts(alloc, &again)?.as_str(),
        parts(alloc, &class)?.as_str()
    );
    // C and its class, g, (IJ)V and the names of two tables.
    assert_eq!(rt; (class.pool.len(), again.pool.len()), (23, 29));
    for (old, new) in class.pool.as_slice().iter().zip(again.pool.as_slice()) {
        assert_eq!(rt; text(alloc, new)?.as_str(), text(alloc, old)?.as_str());
    }
    let name = match again.pool.get(24) {
        Some(PoolEntry::Class { name }) => *name,
        _ => 0,
    };
    assert_eq!(rt; name, 24);
    assert!(rt; matches!(again.pool.get(23), Some(PoolEntry::Utf8(text)) if text.is_ascii("C")));
    // With its pool the class is written as it is.
    let same = written(alloc, &again)?;
    assert_eq!(rt; same.as_slice(), bytes.as_slice());
    Ok(())
}

/// The number of the constant 7 has one byte, and that of a new one doesn't.
#[test]
fn loads(rt: HostRuntime) -> Result<(), Fail> {
    let alloc = rt.alloc();
    let mut class = read_class(alloc, &full_file(alloc)?)?;
    for value in 1000..1240i32 {
        class.pool.push(PoolEntry::Integer(value))?;
    }
    let mut insns = Items::new(alloc);
    for value in [7, 1231, 1232, 8] {
        let value = Const::Integer(value);
        insns.push(Insn::Load { op: 0x12, value })?;
    }
    let mut method = member(alloc, 0, "g", "()V")?;
    method.body = Some(body(alloc, insns));
    class.methods.push(method)?;
    let again = read_class(alloc, written(alloc, &class)?.as_slice())?;
    let Some(method) = again.methods.get(1) else {
        return Err("two methods".into());
    };
    let Some(body) = &method.body else {
        return Err("a body".into());
    };
    let mut loads = Vec::new(alloc);
    for insn in body.insns.as_slice() {
        if let Insn::Load {
            op,
            value: Const::Integer(value),
        } = insn
        {
            loads.push((*op, *value))?;
        }
    }
    // The integer 1231 has number 255.
    let want = [(0x12, 7), (0x12, 1231), (0x13, 1232), (0x13, 8)];
    assert_eq!(rt; loads.as_slice(), want.as_slice());
    Ok(())
}

/// Members by their flags, their name and descriptor, whether they have a body and the value 7, and
/// whether a class can have them as field or as method.
#[test]
fn members(rt: HostRuntime) -> Result<(), Fail> {
    let alloc = rt.alloc();
    let table: [(u16, &str, &str, (bool, bool), (bool, bool)); 16] = [
        (0, "f", "I", (false, false), (true, false)),
        (0, "f", "I", (false, true), (true, false)),
        (0, "f", "I", (true, false), (false, false)),
        (0, "f", "F", (false, true), (false, false)),
        (0, "a/b", "I", (false, false), (false, false)),
        (0, "f", "()V", (false, false), (false, false)),
        (0, "f", "()V", (true, false), (false, true)),
        (0, "f", "()V", (true, true), (false, false)),
        (0x100, "f", "()V", (false, false), (false, true)),
        (0x400, "f", "()V", (false, false), (false, true)),
        (0x400, "f", "()V", (true, false), (false, false)),
        (0, "a<b", "()V", (true, false), (false, false)),
        (8, "<clinit>", "()V", (true, false), (false, true)),
        (0, "<clinit>", "()V", (true, false), (false, false)),
        (0, "f", "(X)V", (true, false), (false, false)),
        (0, "", "I", (false, false), (false, false)),
    ];
    for (flags, name, descriptor, (bodied, valued), (as_field, as_method)) in table {
        for (field, want) in [(true, as_field), (false, as_method)] {
            let mut one = member(alloc, flags, name, descriptor)?;
            if bodied {
                let mut insns = Items::new(alloc);
                insns.push(Insn::Plain { op: 0xb1 })?;
                one.body = Some(body(alloc, insns));
            }
            if valued {
                one.value = Some(Const::Integer(7));
            }
            let mut class = read_class(alloc, &SMALLEST)?;
            if field {
                class.fields.push(one)?;
            } else {
                class.methods.push(one)?;
            }
            let formed = is_formed(alloc, &class)?;
            assert_eq!(rt; formed, want, "{field} {flags} {name} {descriptor}");
        }
    }
    Ok(())
}

/// What is wrong with a class.
#[derive(Clone, Copy, Debug, PartialEq, Eq)]
enum Flaw {
    None,
    Name,
    Superclass,
    Interface,
    Pool,
    Kept,
    FarKept,
    Parameter,
    Twins,
    Target,
}

fn spoil(alloc: Global, class: &mut ClassFile, flaw: Flaw) -> Result<(), Fail> {
    let content = Bytes::new(alloc);
    match flaw {
        Flaw::None => (),
        Flaw::Name => class.name = Name::from_ascii(alloc, "[LA;")?,
        Flaw::Superclass => class.superclass = Name::from_ascii(alloc, "")?,
        Flaw::Interface => class.interfaces.push(Name::from_ascii(alloc, "a//b")?)?,
        // A class whose name is the integer 7.
        Flaw::Pool => class.pool.push(PoolEntry::Class { name: 10 })?,
        // RuntimeVisibleAnnotations, and a number behind the pool.
        Flaw::Kept => class.kept.push(Attribute { name: 15, content })?,
        Flaw::FarKept => class.kept.push(Attribute { name: 24, content })?,
        Flaw::Parameter => class.notes.push(note(alloc, true, Some(0))?)?,
        Flaw::Twins => class.methods.push(member(alloc, 0x400, "f", "()V")?)?,
        Flaw::Target => {
            let mut insns = Items::new(alloc);
            insns.push(Insn::Branch { op: 0xa7, to: 1 })?;
            let mut method = member(alloc, 0, "g", "()V")?;
            method.body = Some(body(alloc, insns));
            class.methods.push(method)?;
        }
    }
    Ok(())
}

#[test]
fn flaws(rt: HostRuntime) -> Result<(), Fail> {
    let alloc = rt.alloc();
    for flaw in [
        Flaw::None,
        Flaw::Name,
        Flaw::Superclass,
        Flaw::Interface,
        Flaw::Pool,
        Flaw::Kept,
        Flaw::FarKept,
        Flaw::Parameter,
        Flaw::Twins,
        Flaw::Target,
    ] {
        let mut class = read_class(alloc, &full_file(alloc)?)?;
        spoil(alloc, &mut class, flaw)?;
        assert_eq!(rt; is_formed(alloc, &class)?, flaw == Flaw::None, "{flaw:?}");
    }
    Ok(())
}
