//! What fields and methods must meet, and the frames with which methods start.

use crate::content_break::is_value_of;
use crate::member_rules::{has_its_code, is_initializer, is_narrow};
use crate::raw_class::{Content, RawAttribute, RawMember};
use crate::start_frame::start_of;
use std::alloc::Global;
use std::test::*;
use wv_base::{Frame, Items, VType};
use wv_code::{RawBody, RawCode};
use wv_pool::{Pool, read_pool};

const STATIC: u16 = 0x0008;

const NATIVE: u16 = 0x0100;

const ABSTRACT: u16 = 0x0400;

/// The pool 1 name, 2 descriptor, 3 A, 4 Class 3, 5 Integer, 6 Float, 7 Long, 9 Double, 11 String 3.
fn pool_of(alloc: Global, name: &str, descriptor: &str) -> Result<Pool, Fail> {
    let mut bytes = [0, 12].to_vec(alloc)?;
    for text in [name, descriptor, "A"] {
        if text.len() > 200 {
            return Err("a long text".into());
        }
        bytes.extend_from_slice(&[1, 0, text.len() as u8])?;
        bytes.extend_from_slice(text.as_bytes())?;
    }
    bytes.extend_from_slice(&[7, 0, 3])?;
    bytes.extend_from_slice(&[3, 0, 0, 0, 7])?;
    bytes.extend_from_slice(&[4, 0, 0, 0, 0])?;
    bytes.extend_from_slice(&[5, 0, 0, 0, 0, 0, 0, 0, 1])?;
    bytes.extend_from_slice(&[6, 0, 0, 0, 0, 0, 0, 0, 0])?;
    bytes.extend_from_slice(&[8, 0, 3])?;
    let (pool, _) = read_pool(alloc, &bytes)?;
    Ok(pool)
}

/// A member of that name and descriptor.
fn member(alloc: Global, flags: u16) -> RawMember {
    RawMember {
        flags,
        name: 1,
        descriptor: 2,
        attributes: Items::new(alloc),
    }
}

/// A Code attribute without instructions.
fn code(alloc: Global) -> RawAttribute {
    RawAttribute {
        name: 3,
        content: Content::Code(RawBody {
            max_stack: 0,
            max_locals: 0,
            len: 0,
            code: RawCode {
                raws: Items::new(alloc),
                offsets: Items::new(alloc),
            },
            ranges: Items::new(alloc),
            attributes: Items::new(alloc),
        }),
    }
}

/// Each descriptor, and the one number whose constant is a value of its fields.
#[test]
fn values(rt: HostRuntime) -> Result<(), Fail> {
    for (descriptor, value) in [
        ("Z", 5),
        ("B", 5),
        ("C", 5),
        ("S", 5),
        ("I", 5),
        ("F", 6),
        ("J", 7),
        ("D", 9),
        ("Ljava/lang/String;", 11),
        ("Ljava/lang/Object;", 0),
        ("[I", 0),
    ] {
        let pool = pool_of(rt.alloc(), "f", descriptor)?;
        let field = member(rt.alloc(), 0);
        for number in 1..13u16 {
            let holds = is_value_of(&pool, &field, number)?;
            assert_eq!(rt; holds, number == value, "{descriptor} {number}");
        }
    }
    Ok(())
}

#[test]
fn initializers(rt: HostRuntime) -> Result<(), Fail> {
    for (flags, name, descriptor, holds) in [
        (STATIC, "<clinit>", "()V", true),
        (0, "<clinit>", "()V", false),
        (STATIC | NATIVE, "<clinit>", "()V", false),
        (STATIC | ABSTRACT, "<clinit>", "()V", false),
        (STATIC, "<clinit>", "(I)V", false),
        (NATIVE, "f", "(I)V", true),
    ] {
        let pool = pool_of(rt.alloc(), name, descriptor)?;
        let method = member(rt.alloc(), flags);
        assert_eq!(rt;
            is_initializer(&pool, &method),
            holds,
            "{flags} {name} {descriptor}"
        );
    }
    Ok(())
}

/// One Code where the method is neither native nor abstract, and else none.
#[test]
fn codes(rt: HostRuntime) -> Result<(), Fail> {
    for (flags, count, holds) in [
        (0, 0, false),
        (0, 1, true),
        (0, 2, false),
        (NATIVE, 0, true),
        (NATIVE, 1, false),
        (ABSTRACT, 0, true),
        (ABSTRACT, 1, false),
    ] {
        let mut method = member(rt.alloc(), flags);
        for _ in 0..count {
            method.attributes.push(code(rt.alloc()))?;
        }
        assert_eq!(rt; has_its_code(&method), holds, "{flags} {count}");
    }
    Ok(())
}

/// 127 longs take 254 words, and an int and `this` one each.
#[test]
fn widths(rt: HostRuntime) -> Result<(), Fail> {
    let longs = "J".repeat(rt.alloc(), 127)?;
    for (flags, last, holds) in [
        (0, "", true),
        (0, "I", false),
        (STATIC, "I", true),
        (STATIC, "II", false),
        (STATIC, "D", false),
    ] {
        let descriptor = format!(in rt.alloc(); "({longs}{last})V")?;
        let pool = pool_of(rt.alloc(), "f", &descriptor)?;
        let method = member(rt.alloc(), flags);
        assert_eq!(rt; is_narrow(&pool, &method), holds, "{flags} {last}");
    }
    Ok(())
}

/// Whether the locals are of these types: of primitives by their names, and else of `this` before its
/// initialization or of a class.
fn has_locals(frame: &Frame, locals: &[&str]) -> bool {
    let found = frame.locals.as_slice();
    found.len() == locals.len()
        && found.iter().zip(locals.iter()).all(|(kind, name)| match kind {
            VType::Int => *name == "int",
            VType::Float => *name == "float",
            VType::Long => *name == "long",
            VType::Double => *name == "double",
            VType::UninitializedThis => *name == "this",
            VType::Class(class) => class.is_ascii(name),
            _ => false,
        })
}

/// The flags, the name and the descriptor of a method, and the locals that it starts with.
const STARTS: [(u16, &str, &str, &[&str]); 5] = [
    (STATIC, "f", "()V", &[]),
    (STATIC, "f", "(IJ[[LA;)V", &["int", "long", "[[LA;"]),
    (0, "f", "(ZBCS)V", &["A", "int", "int", "int", "int"]),
    (
        0,
        "<init>",
        "(FDLa/B;[I)V",
        &["this", "float", "double", "a/B", "[I"],
    ),
    (STATIC, "<init>", "()I", &[]),
];

#[test]
fn starts(rt: HostRuntime) -> Result<(), Fail> {
    for (flags, name, descriptor, locals) in STARTS {
        let pool = pool_of(rt.alloc(), name, descriptor)?;
        let method = member(rt.alloc(), flags);
        let Some(frame) = start_of(rt.alloc(), &pool, 4, &method)? else {
            return Err("no start".into());
        };
        assert!(rt; has_locals(&frame, locals));
        assert!(rt; frame.stack.is_empty());
        assert_eq!(rt;
            frame.this_uninitialized,
            name == "<init>" && flags != STATIC
        );
    }
    let pool = pool_of(rt.alloc(), "f", "I")?;
    assert!(rt; start_of(rt.alloc(), &pool, 4, &member(rt.alloc(), 0))?.is_none());
    Ok(())
}
