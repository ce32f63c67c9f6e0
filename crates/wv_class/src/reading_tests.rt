//! Class files, whole, cut short and spoilt.

use super::*;
use std::alloc::Global;
use std::process::Abort;
use std::test::*;
use wv_base::{ClassFault, ClassFile, Const, Insn};

/// The smallest class, `app/E`: the pool 1 Class 2, 2 app/E, 3 Class 4, 4 java/lang/Object, the flags
/// 0021, the class 1, the superclass 3 and four counts of 0.
pub(crate) const SMALLEST: [u8; 57] = [
    0xca, 0xfe, 0xba, 0xbe, 0, 0, 0, 52, 0, 5, 7, 0, 2, 1, 0, 5, 97, 112, 112, 47, 69, 7, 0, 4, 1,
    0, 16, 106, 97, 118, 97, 47, 108, 97, 110, 103, 47, 79, 98, 106, 101, 99, 116, 0, 33, 0, 1, 0,
    3, 0, 0, 0, 0, 0, 0, 0, 0,
];

/// What reading answers.
#[derive(Clone, Copy, Debug, PartialEq, Eq)]
enum Answer {
    Read,
    Layout(usize),
    Reference(usize),
}

fn read(alloc: Global, bytes: &[u8]) -> Result<Answer, Fail> {
    match read_class(alloc, bytes) {
        Ok(_) => Ok(Answer::Read),
        Err(ClassFault::Layout { at }) => Ok(Answer::Layout(at)),
        Err(ClassFault::Reference { at }) => Ok(Answer::Reference(at)),
        Err(ClassFault::Memory) => Err("out of memory".into()),
    }
}

#[test]
fn the_smallest_class(rt: HostRuntime) -> Result<(), Fail> {
    let class = read_class(rt.alloc(), &SMALLEST)?;
    assert!(rt; class.name.is_ascii("app/E") && class.superclass.is_ascii("java/lang/Object"));
    assert_eq!(rt; (class.version.major, class.version.minor), (52, 0));
    assert_eq!(rt; class.pool.len(), 4);
    assert!(rt; class.fields.is_empty() && class.methods.is_empty() && class.kept.is_empty());
    Ok(())
}

/// A class file that ends too early ends there.
#[test]
fn cut_at_each_length(rt: HostRuntime) -> Result<(), Fail> {
    for cut in 0..SMALLEST.len() {
        let bytes = &SMALLEST[..cut];
        assert_eq!(rt; read(rt.alloc(), bytes)?, Answer::Layout(cut), "{cut}");
    }
    Ok(())
}

#[test]
fn a_byte_more(rt: HostRuntime) -> Result<(), Fail> {
    let mut bytes = SMALLEST.to_vec(rt.alloc())?;
    bytes.push(0)?;
    assert_eq!(rt; read(rt.alloc(), &bytes)?, Answer::Layout(57));
    Ok(())
}

/// The last unit of the name, at byte 20, in two bytes.
#[test]
fn an_overlong_name(rt: HostRuntime) -> Result<(), Fail> {
    let mut bytes = SMALLEST[..20].to_vec(rt.alloc())?;
    bytes[15] = 6;
    bytes.extend_from_slice(&[0xc1, 0x85])?;
    bytes.extend_from_slice(&SMALLEST[21..])?;
    assert_eq!(rt; read(rt.alloc(), &bytes)?, Answer::Layout(20));
    Ok(())
}

/// Each byte of the magic number, spoilt.
#[test]
fn magic_numbers(rt: HostRuntime) -> Result<(), Fail> {
    for place in 0..4usize {
        let mut bytes = SMALLEST.to_vec(rt.alloc())?;
        bytes[place] = 0;
        assert_eq!(rt; read(rt.alloc(), &bytes)?, Answer::Layout(place), "{place}");
    }
    Ok(())
}

/// An entry of a pool: a text.
fn text(pool: &mut Vec<u8>, text: &str) -> Result<(), Fail> {
    if text.len() > 100 {
        return Err("a long text".into());
    }
    pool.extend_from_slice(&[1, 0, text.len() as u8])?;
    pool.extend_from_slice(text.as_bytes())?;
    Ok(())
}

/// The first bytes of a class A, with the pool 1 A, 2 Class 1, 3 java/lang/Object, 4 Class 3, 5 f, 6 I,
/// 7 ()V, 8 Code, 9 ConstantValue, 10 Integer 7, 11 Exceptions, 12 <clinit>, 13 [LA;, 14 Class 13,
/// 15 RuntimeVisibleAnnotations, 16 LA;, 17 a<b, 18 RuntimeVisibleParameterAnnotations, 19 Float 0,
/// 20 a/b, 21 Kept, 22 String 5, 23 Ljava/lang/String;.
pub(crate) fn head(alloc: Global) -> Result<Vec<u8>, Fail> {
    let mut out = [0xca, 0xfe, 0xba, 0xbe, 0, 0, 0, 52, 0, 24].to_vec(alloc)?;
    text(&mut out, "A")?;
    out.extend_from_slice(&[7, 0, 1])?;
    text(&mut out, "java/lang/Object")?;
    out.extend_from_slice(&[7, 0, 3])?;
    for name in ["f", "I", "()V", "Code", "ConstantValue"] {
        text(&mut out, name)?;
    }
    out.extend_from_slice(&[3, 0, 0, 0, 7])?;
    for name in ["Exceptions", "<clinit>", "[LA;"] {
        text(&mut out, name)?;
    }
    out.extend_from_slice(&[7, 0, 13])?;
    for name in [
        "RuntimeVisibleAnnotations",
        "LA;",
        "a<b",
        "RuntimeVisibleParameterAnnotations",
    ] {
        text(&mut out, name)?;
    }
    out.extend_from_slice(&[4, 0, 0, 0, 0])?;
    text(&mut out, "a/b")?;
    text(&mut out, "Kept")?;
    out.extend_from_slice(&[8, 0, 5])?;
    text(&mut out, "Ljava/lang/String;")?;
    Ok(out)
}

/// What reading answers on the class with these parts behind the pool; places count from its flags on.
fn read_behind(alloc: Global, parts: &[&[u8]]) -> Result<Answer, Fail> {
    let mut bytes = head(alloc)?;
    let base = bytes.len();
    for part in parts {
        bytes.extend_from_slice(part)?;
    }
    Ok(match read(alloc, &bytes)? {
        Answer::Read => Answer::Read,
        Answer::Layout(at) => Answer::Layout(at.saturating_sub(base)),
        Answer::Reference(at) => Answer::Reference(at.saturating_sub(base)),
    })
}

/// Public flags, the class 2, the superclass 4 and no interface: eight bytes.
pub(crate) const FRONT: &[u8] = &[0, 33, 0, 2, 0, 4, 0, 0];

/// A count of 0.
pub(crate) const NONE: &[u8] = &[0, 0];

/// A count of 1.
const ONE: &[u8] = &[0, 1];

fn check(rt: &impl Abort, alloc: Global, cases: &[(&[&[u8]], Answer)]) -> Result<(), Fail> {
    for (parts, want) in cases {
        assert_eq!(rt; read_behind(alloc, parts)?, *want, "{parts:?}");
    }
    Ok(())
}

/// The class has place 2, the superclass 4 and the first interface 8: each names a class that is no
/// array.
#[test]
fn class_numbers(rt: HostRuntime) -> Result<(), Fail> {
    let rest: &[u8] = &[0, 0, 0, 0, 0, 0];
    check(
        &rt,
        rt.alloc(),
        &[
            (&[&[0, 33, 0, 1, 0, 4, 0, 0], rest], Answer::Reference(2)),
            (&[&[0, 33, 0, 14, 0, 4, 0, 0], rest], Answer::Reference(2)),
            (&[&[0, 33, 0, 2, 0, 0, 0, 0], rest], Answer::Reference(4)),
            (&[&[0, 33, 0, 2, 0, 14, 0, 0], rest], Answer::Reference(4)),
            (&[&[0, 33, 0, 2, 0, 4, 0, 1, 0, 2], rest], Answer::Read),
            (
                &[&[0, 33, 0, 2, 0, 4, 0, 2, 0, 2, 0, 14], rest],
                Answer::Reference(10),
            ),
        ],
    )
}

/// The first field stands at 10, its name at 12, its descriptor at 14, its first attribute at 18 and
/// that one's number at 24. A second field of eight bytes stands at 18.
#[test]
fn fields(rt: HostRuntime) -> Result<(), Fail> {
    let field: &[u8] = &[0, 0, 0, 5, 0, 6, 0, 0];
    let valued: &[u8] = &[0, 0, 0, 5, 0, 6, 0, 1, 0, 9, 0, 0, 0, 2, 0, 10];
    let rest: &[u8] = &[0, 0, 0, 0];
    check(
        &rt,
        rt.alloc(),
        &[
            (&[FRONT, ONE, field, rest], Answer::Read),
            (&[FRONT, ONE, valued, rest], Answer::Read),
            (
                &[FRONT, ONE, &[0, 0, 0, 20, 0, 6, 0, 0], rest],
                Answer::Reference(12),
            ),
            (
                &[FRONT, ONE, &[0, 0, 0, 2, 0, 6, 0, 0], rest],
                Answer::Reference(12),
            ),
            (
                &[FRONT, ONE, &[0, 0, 0, 5, 0, 7, 0, 0], rest],
                Answer::Reference(14),
            ),
            (&[FRONT, &[0, 2], field, field, rest], Answer::Reference(18)),
            // A float isn't the value of an int.
            (
                &[
                    FRONT,
                    ONE,
                    &[0, 0, 0, 5, 0, 6, 0, 1, 0, 9, 0, 0, 0, 2, 0, 19],
                    rest,
                ],
                Answer::Reference(24),
            ),
            (
                &[
                    FRONT,
                    ONE,
                    &[0, 0, 0, 5, 0, 23, 0, 1, 0, 9, 0, 0, 0, 2, 0, 22],
                    rest,
                ],
                Answer::Read,
            ),
            // A second value breaks it at its name, eight bytes behind the first.
            (
                &[
                    FRONT,
                    ONE,
                    &[0, 0, 0, 5, 0, 6, 0, 2, 0, 9, 0, 0, 0, 2, 0, 10],
                    &[0, 9, 0, 0, 0, 2, 0, 10],
                    rest,
                ],
                Answer::Reference(26),
            ),
        ],
    )
}

/// A static method `f()V` with one attribute.
const METHOD: &[u8] = &[0, 8, 0, 5, 0, 7, 0, 1];

/// A Code attribute with one instruction, return.
const CODE: &[u8] = &[0, 8, 0, 0, 0, 13, 0, 0, 0, 0, 0, 0, 0, 1, 0xb1, 0, 0, 0, 0];

/// The first method stands at 12, behind the counts of fields and methods: its name at 14, its
/// descriptor at 16, its first attribute at 20, the content of that at 26.
const METHODS: &[(&[&[u8]], Answer)] = &[
    (&[FRONT, NONE, ONE, METHOD, CODE, NONE], Answer::Read),
    // Neither native nor abstract, and without code; abstract and with code; with two.
    (
        &[FRONT, NONE, ONE, &[0, 8, 0, 5, 0, 7, 0, 0], NONE],
        Answer::Reference(12),
    ),
    (
        &[FRONT, NONE, ONE, &[4, 0, 0, 5, 0, 7, 0, 1], CODE, NONE],
        Answer::Reference(12),
    ),
    (
        &[
            FRONT,
            NONE,
            ONE,
            &[0, 8, 0, 5, 0, 7, 0, 2],
            CODE,
            CODE,
            NONE,
        ],
        Answer::Reference(12),
    ),
    (
        &[FRONT, NONE, ONE, &[4, 0, 0, 5, 0, 7, 0, 0], NONE],
        Answer::Read,
    ),
    // The name, and the descriptor.
    (
        &[FRONT, NONE, ONE, &[4, 0, 0, 17, 0, 7, 0, 0], NONE],
        Answer::Reference(14),
    ),
    (
        &[FRONT, NONE, ONE, &[4, 0, 0, 5, 0, 6, 0, 0], NONE],
        Answer::Reference(16),
    ),
    // An initializer that isn't static.
    (
        &[FRONT, NONE, ONE, &[0, 0, 0, 12, 0, 7, 0, 1], CODE, NONE],
        Answer::Reference(12),
    ),
    (
        &[FRONT, NONE, ONE, &[0, 8, 0, 12, 0, 7, 0, 1], CODE, NONE],
        Answer::Read,
    ),
    // The second method stands behind the 8 + 19 bytes of the first.
    (
        &[FRONT, NONE, &[0, 2], METHOD, CODE, METHOD, CODE, NONE],
        Answer::Reference(39),
    ),
    // Code of no bytes breaks it at its length, 4 behind the sizes.
    (
        &[
            FRONT,
            NONE,
            ONE,
            METHOD,
            &[0, 8, 0, 0, 0, 12, 0, 0, 0, 0, 0, 0, 0, 0, 0, 0, 0, 0],
            NONE,
        ],
        Answer::Reference(30),
    ),
    // A second exception that is no class.
    (
        &[
            FRONT,
            NONE,
            ONE,
            &[4, 0, 0, 5, 0, 7, 0, 1],
            &[0, 11, 0, 0, 0, 6, 0, 2, 0, 2, 0, 1],
            NONE,
        ],
        Answer::Reference(30),
    ),
    // An annotation's class at 28, and that of a parameter at 29.
    (
        &[
            FRONT,
            NONE,
            ONE,
            &[4, 0, 0, 5, 0, 7, 0, 1],
            &[0, 15, 0, 0, 0, 6, 0, 1, 0, 1, 0, 0],
            NONE,
        ],
        Answer::Reference(28),
    ),
    (
        &[
            FRONT,
            NONE,
            ONE,
            &[4, 0, 0, 5, 0, 7, 0, 1],
            &[0, 18, 0, 0, 0, 7, 1, 0, 1, 0, 1, 0, 0],
            NONE,
        ],
        Answer::Reference(29),
    ),
];

#[test]
fn methods(rt: HostRuntime) -> Result<(), Fail> {
    check(&rt, rt.alloc(), METHODS)
}

/// The number of an attribute's name isn't asked for, and a fault of the layout comes before every other.
#[test]
fn attributes(rt: HostRuntime) -> Result<(), Fail> {
    let kept: &[u8] = &[0, 99, 0, 0, 0, 1, 5];
    check(
        &rt,
        rt.alloc(),
        &[
            (&[FRONT, NONE, NONE, ONE, kept], Answer::Read),
            // Code is known on methods alone: on a class it is kept, whatever it has.
            (
                &[FRONT, NONE, NONE, ONE, &[0, 8, 0, 0, 0, 1, 5]],
                Answer::Read,
            ),
            // The fourth byte of the length of a ConstantValue with three bytes, at 23.
            (
                &[
                    FRONT,
                    ONE,
                    &[0, 0, 0, 5, 0, 6, 0, 1, 0, 9, 0, 0, 0, 3, 0, 10, 0],
                    NONE,
                    NONE,
                ],
                Answer::Layout(23),
            ),
            // An annotation that the length has no room for, at the count.
            (
                &[FRONT, NONE, NONE, ONE, &[0, 15, 0, 0, 0, 2, 0, 1]],
                Answer::Layout(21),
            ),
            // The class number is wrong, and a byte too many is at the end.
            (
                &[&[0, 33, 0, 1, 0, 4, 0, 0], NONE, NONE, NONE, &[7]],
                Answer::Layout(14),
            ),
        ],
    )
}

#[test]
fn what_is_read(rt: HostRuntime) -> Result<(), Fail> {
    let mut bytes = head(rt.alloc())?;
    for part in [
        FRONT,
        ONE,
        &[0, 26, 0, 5, 0, 6, 0, 1, 0, 9, 0, 0, 0, 2, 0, 10],
        ONE,
        &[0, 8, 0, 5, 0, 7, 0, 3],
        &[0, 8, 0, 0, 0, 13, 0, 0, 0, 0, 0, 0, 0, 1, 0xb1, 0, 0, 0, 0],
        &[0, 11, 0, 0, 0, 4, 0, 1, 0, 14],
        &[0, 15, 0, 0, 0, 6, 0, 1, 0, 16, 0, 0],
        ONE,
        &[0, 99, 0, 0, 0, 1, 5],
    ] {
        bytes.extend_from_slice(part)?;
    }
    let class: ClassFile = read_class(rt.alloc(), &bytes)?;
    let [field] = class.fields.as_slice() else {
        return Err("one field".into());
    };
    assert!(rt; matches!(field.value, Some(Const::Integer(7))));
    let [method] = class.methods.as_slice() else {
        return Err("one method".into());
    };
    let Some(body) = &method.body else {
        return Err("a body".into());
    };
    assert!(rt; matches!(body.insns.as_slice(), [Insn::Plain { op: 0xb1 }]));
    assert!(rt; matches!(method.throws.as_slice(), [name] if name.is_ascii("[LA;")));
    let [note] = method.notes.as_slice() else {
        return Err("one annotation".into());
    };
    assert!(rt; note.visible && note.parameter.is_none() && note.annotation.class.is_ascii("A"));
    let [kept] = class.kept.as_slice() else {
        return Err("one attribute that is kept".into());
    };
    assert_eq!(rt; (kept.name, kept.content.as_slice()), (0, [5].as_slice()));
    Ok(())
}
