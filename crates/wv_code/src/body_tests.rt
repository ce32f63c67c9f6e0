use super::*;
use std::alloc::Global;
use std::test::*;
use wv_base::{Body, ClassFault, Const, ExceptionRange, Frame, Insn, Items, Name, VType};
use wv_pool::{Pool, read_pool};

/// The pool 1 A, 2 Class 1, 3 ()V, 4 NameAndType 1 3, 5 Method 2 4, 6 InterfaceMethod 2 4, 7 I,
/// 8 NameAndType 1 7, 9 Field 2 8, 10 InvokeDynamic 0 4, 11 StackMapTable, 12 Integer 7, 13 Long 5,
/// 15 [[I, 16 Class 15.
const POOL: [u8; 88] = [
    0, 17, 1, 0, 1, 65, 7, 0, 1, 1, 0, 3, 40, 41, 86, 12, 0, 1, 0, 3, 10, 0, 2, 0, 4, 11, 0, 2, 0,
    4, 1, 0, 1, 73, 12, 0, 1, 0, 7, 9, 0, 2, 0, 8, 18, 0, 0, 0, 4, 1, 0, 13, 83, 116, 97, 99, 107,
    77, 97, 112, 84, 97, 98, 108, 101, 3, 0, 0, 0, 7, 5, 0, 0, 0, 0, 0, 0, 0, 5, 1, 0, 3, 91, 91,
    73, 7, 0, 15,
];

/// A content with an instruction of each kind, at the offsets 0, 1, 3, 5, 8, 10, 13, 16, 19, 22, 27,
/// 32, 35, 37, 41, 64 and 84, two ranges, a kept attribute, a StackMapTable, and an attribute whose
/// name's number, 40, is behind the pool.
const CONTENT: [u8; 153] = [
    0, 2, 0, 3, 0, 0, 0, 85, 0, 16, 5, 18, 12, 20, 0, 13, 21, 1, 132, 1, 255, 167, 255, 243, 180,
    0, 9, 182, 0, 5, 185, 0, 6, 1, 0, 186, 0, 10, 0, 0, 187, 0, 2, 188, 4, 197, 0, 16, 2, 170, 0,
    0, 255, 255, 255, 215, 0, 0, 0, 1, 0, 0, 0, 2, 255, 255, 255, 216, 255, 255, 255, 218, 171, 0,
    0, 0, 0, 0, 0, 20, 0, 0, 0, 1, 0, 0, 0, 9, 255, 255, 255, 192, 177, 0, 2, 0, 0, 0, 85, 0, 84,
    0, 0, 0, 1, 0, 3, 0, 84, 0, 2, 0, 3, 0, 1, 0, 0, 0, 2, 1, 2, 0, 11, 0, 0, 0, 19, 0, 2, 252, 0,
    0, 8, 0, 32, 255, 0, 83, 0, 1, 7, 0, 2, 0, 1, 1, 0, 40, 0, 0, 0, 1, 9,
];

/// The instructions that it means.
const INSNS: [&str; 17] = [
    "plain 0",
    "push 16 5",
    "load 18 7",
    "load 20 5L",
    "local 21 1 false",
    "inc 1 -1 false",
    "branch 167 0",
    "reference 180 A.A I false",
    "reference 182 A.A ()V false",
    "reference 185 A.A ()V true",
    "site 0 A ()V",
    "class 187 A",
    "array 4",
    "multi [[I 2",
    "table 1 0 1 2",
    "lookup 16 9 0",
    "plain 177",
];

fn pool(alloc: Global) -> Result<Pool, Fail> {
    let (pool, _) = read_pool(alloc, &POOL)?;
    Ok(pool)
}

/// A start frame of this local.
fn first(alloc: Global, local: VType) -> Result<Frame, Fail> {
    let mut locals = Items::new(alloc);
    locals.push(local)?;
    Ok(Frame {
        locals,
        stack: Items::new(alloc),
        this_uninitialized: false,
    })
}

/// Reads a content in a method that starts with an int.
fn read(alloc: Global, bytes: &[u8]) -> Result<Result<Body, ClassFault>, Fail> {
    let first = first(alloc, VType::Int)?;
    if bytes.len() > 0xFFFF || !is_start(&first) {
        return Err("the content or the start frame is refused".into());
    }
    Ok(read_code(alloc, bytes, &pool(alloc)?, &first))
}

fn text(alloc: Global, name: &Name) -> Result<String, Fail> {
    let mut text = String::new(alloc);
    for unit in name.units() {
        text.push(char::from(u8::try_from(*unit).unwrap_or(b'?')))?;
    }
    Ok(text)
}

fn constant_text(alloc: Global, constant: &Const) -> Result<String, Fail> {
    Ok(match constant {
        Const::Integer(value) => format!(in alloc; "{value}")?,
        Const::Long(value) => format!(in alloc; "{value}L")?,
        _ => format!(in alloc; "?")?,
    })
}

fn switch_text(alloc: Global, insn: &Insn) -> Result<String, Fail> {
    let mut text = String::new(alloc);
    match insn {
        Insn::Table {
            low,
            other,
            targets,
        } => {
            text.push_str(format!(in alloc; "table {low} {other}")?.as_str())?;
            for to in targets.as_slice() {
                text.push_str(format!(in alloc; " {to}")?.as_str())?;
            }
        }
        Insn::Lookup { other, cases } => {
            text.push_str(format!(in alloc; "lookup {other}")?.as_str())?;
            for case in cases.as_slice() {
                text.push_str(format!(in alloc; " {} {}", case.key, case.to)?.as_str())?;
            }
        }
        _ => {}
    }
    Ok(text)
}

fn named_text(alloc: Global, insn: &Insn) -> Result<String, Fail> {
    Ok(match insn {
        Insn::Reference {
            op,
            owner,
            name,
            descriptor,
            interface,
        } => {
            let (owner, name) = (text(alloc, owner)?, text(alloc, name)?);
            let descriptor = text(alloc, descriptor)?;
            format!(in alloc; "reference {op} {owner}.{name} {descriptor} {interface}")?
        }
        Insn::Site {
            bootstrap,
            name,
            descriptor,
        } => {
            let (name, descriptor) = (text(alloc, name)?, text(alloc, descriptor)?);
            format!(in alloc; "site {bootstrap} {name} {descriptor}")?
        }
        Insn::Class { op, class } => {
            let class = text(alloc, class)?;
            format!(in alloc; "class {op} {class}")?
        }
        Insn::MultiArray { class, dimensions } => {
            let class = text(alloc, class)?;
            format!(in alloc; "multi {class} {dimensions}")?
        }
        _ => switch_text(alloc, insn)?,
    })
}

fn insn_text(alloc: Global, insn: &Insn) -> Result<String, Fail> {
    Ok(match insn {
        Insn::Plain { op } => format!(in alloc; "plain {op}")?,
        Insn::Push { op, value } => format!(in alloc; "push {op} {value}")?,
        Insn::Load { op, value } => {
            let value = constant_text(alloc, value)?;
            format!(in alloc; "load {op} {value}")?
        }
        Insn::Local { op, slot, wide } => format!(in alloc; "local {op} {slot} {wide}")?,
        Insn::Inc { slot, by, wide } => format!(in alloc; "inc {slot} {by} {wide}")?,
        Insn::Branch { op, to } => format!(in alloc; "branch {op} {to}")?,
        Insn::NewArray { kind } => format!(in alloc; "array {kind}")?,
        _ => named_text(alloc, insn)?,
    })
}

fn type_text(alloc: Global, kind: &VType) -> Result<String, Fail> {
    Ok(match kind {
        VType::Int => format!(in alloc; "int ")?,
        VType::Uninitialized(index) => format!(in alloc; "new {index} ")?,
        VType::Class(name) => {
            let name = text(alloc, name)?;
            format!(in alloc; "{name} ")?
        }
        _ => format!(in alloc; "? ")?,
    })
}

fn types_text(alloc: Global, kinds: &[VType]) -> Result<String, Fail> {
    let mut text = String::new(alloc);
    for kind in kinds {
        text.push_str(type_text(alloc, kind)?.as_str())?;
    }
    Ok(text)
}

/// Whether the range catches the class, or every class where there is none.
fn catches(range: &ExceptionRange, class: Option<&str>) -> bool {
    match (&range.catch, class) {
        (Some(name), Some(class)) => name.is_ascii(class),
        (None, None) => true,
        _ => false,
    }
}

#[test]
fn each_instruction(rt: HostRuntime) -> Result<(), Fail> {
    let alloc = rt.alloc();
    let body = read(alloc, &CONTENT)??;
    assert_eq!(rt; body.insns.len(), INSNS.len());
    for (index, insn) in body.insns.as_slice().iter().enumerate() {
        assert_eq!(rt;
            Some(insn_text(alloc, insn)?.as_str()),
            INSNS.get(index).copied()
        );
    }
    Ok(())
}

#[test]
fn sizes_and_ranges(rt: HostRuntime) -> Result<(), Fail> {
    let alloc = rt.alloc();
    let body = read(alloc, &CONTENT)??;
    assert_eq!(rt;
        (body.max_stack, body.max_locals, body.ranges.len()),
        (2, 3, 2)
    );
    for (range, (start, end, class)) in body
        .ranges
        .as_slice()
        .iter()
        .zip([(0, 17, None), (1, 2, Some("A"))])
    {
        assert_eq!(rt; (range.start, range.end, range.handler), (start, end, 16));
        assert!(rt; catches(range, class));
    }
    Ok(())
}

#[test]
fn frames(rt: HostRuntime) -> Result<(), Fail> {
    let alloc = rt.alloc();
    let body = read(alloc, &CONTENT)??;
    assert_eq!(rt; body.frames.len(), 2);
    for (frame, (at, locals, stack)) in body
        .frames
        .as_slice()
        .iter()
        .zip([(0, "int new 11 ", ""), (16, "A ", "int ")])
    {
        assert_eq!(rt; frame.at, at);
        assert_eq!(rt;
            types_text(alloc, frame.frame.locals.as_slice())?.as_str(),
            locals
        );
        assert_eq!(rt;
            types_text(alloc, frame.frame.stack.as_slice())?.as_str(),
            stack
        );
    }
    Ok(())
}

#[test]
fn kept_attributes(rt: HostRuntime) -> Result<(), Fail> {
    let body = read(rt.alloc(), &CONTENT)??;
    assert_eq!(rt; body.kept.len(), 2);
    // The number 40 is behind the pool.
    for (kept, (name, content)) in body
        .kept
        .as_slice()
        .iter()
        .zip([(1, [1, 2].as_slice()), (0, [9].as_slice())])
    {
        assert_eq!(rt; (kept.name, kept.content.as_slice()), (name, content));
    }
    Ok(())
}

#[test]
fn starts(rt: HostRuntime) -> Result<(), Fail> {
    let alloc = rt.alloc();
    for (local, is) in [
        (VType::Int, true),
        (VType::UninitializedThis, true),
        (VType::Uninitialized(0), false),
    ] {
        assert_eq!(rt; is_start(&first(alloc, local)?), is);
    }
    Ok(())
}
