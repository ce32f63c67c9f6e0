//! The first item of a content that breaks what it must meet, on code written out in bytes.

use super::*;
use std::alloc::Global;
use std::process::Abort;
use std::test::*;
use wv_base::{Frame, Items};
use wv_pool::read_pool;

/// The pool 1 A, 2 Class 1, 3 [[I, 4 Class 3, 5 f, 6 I, 7 f I, 8 Field 2 7, 9 ()V, 10 f ()V, 11 Method
/// 2 10, 12 (IJ)V, 13 f (IJ)V, 14 InterfaceMethod 2 13, 15 InvokeDynamic 10, 16 StackMapTable, 17 a
/// long, 19 an integer.
const POOL: [u8; 105] = [
    0, 20, 1, 0, 1, 65, 7, 0, 1, 1, 0, 3, 91, 91, 73, 7, 0, 3, 1, 0, 1, 102, 1, 0, 1, 73, 12, 0, 5,
    0, 6, 9, 0, 2, 0, 7, 1, 0, 3, 40, 41, 86, 12, 0, 5, 0, 9, 10, 0, 2, 0, 10, 1, 0, 5, 40, 73, 74,
    41, 86, 12, 0, 5, 0, 12, 11, 0, 2, 0, 13, 18, 0, 0, 0, 10, 1, 0, 13, 83, 116, 97, 99, 107, 77,
    97, 112, 84, 97, 98, 108, 101, 5, 0, 0, 0, 0, 0, 0, 0, 1, 3, 0, 0, 0, 7,
];

/// An exception table and an attribute table without entries.
const NOTHING: [u8; 4] = [0, 0, 0, 0];

/// The place of the first break in a method without parameters, of a content with this code, behind
/// which the exception table and the attributes stand.
fn place(alloc: Global, code: &[u8], rest: &[u8]) -> Result<Option<usize>, Fail> {
    if code.len() > 0x1_0000 {
        return Err("the code is long".into());
    }
    let mut content = [0, 0, 0, 0].to_vec(alloc)?;
    content.extend_from_slice(&(code.len() as u32).to_be_bytes())?;
    content.extend_from_slice(code)?;
    content.extend_from_slice(rest)?;
    if content.len() > 0x2_0000 {
        return Err("the content is long".into());
    }
    let (pool, _len) = read_pool(alloc, &POOL)?;
    let raw = read_layout(alloc, &content, pool.entries(), 0)?;
    let first = Frame {
        locals: Items::new(alloc),
        stack: Items::new(alloc),
        this_uninitialized: false,
    };
    Ok(first_break(alloc, &pool, &first, &raw)?)
}

fn check_code(
    rt: &impl Abort,
    alloc: Global,
    cases: &[(&[u8], Option<usize>)],
) -> Result<(), Fail> {
    for (code, want) in cases {
        assert_eq!(rt; place(alloc, code, &NOTHING)?, *want, "{code:?}");
    }
    Ok(())
}

/// Of code the first byte has place 8.
#[test]
fn code_lengths(rt: HostRuntime) -> Result<(), Fail> {
    check_code(&rt, rt.alloc(), &[(&[], Some(4)), (&[0], None)])?;
    let mut nops = Vec::new(rt.alloc());
    for _ in 0..0xFFFF {
        nops.push(0)?;
    }
    assert_eq!(rt; place(rt.alloc(), &nops, &NOTHING)?, None);
    nops.push(0)?;
    assert_eq!(rt; place(rt.alloc(), &nops, &NOTHING)?, Some(4));
    Ok(())
}

/// A number stands behind its opcode.
#[test]
fn constants(rt: HostRuntime) -> Result<(), Fail> {
    check_code(
        &rt,
        rt.alloc(),
        &[
            // ldc of an integer, a text, a class, a long, its second number, no number
            (&[0x12, 19], None),
            (&[0x12, 1], Some(9)),
            (&[0x12, 2], None),
            (&[0x12, 17], Some(9)),
            (&[0x12, 18], Some(9)),
            (&[0x12, 20], Some(9)),
            // ldc2_w of a long and of an integer
            (&[0x14, 0, 17], None),
            (&[0x14, 0, 19], Some(9)),
            // invokevirtual of a field, a method, an interface's method
            (&[0xb6, 0, 8], Some(9)),
            (&[0xb6, 0, 11], None),
            (&[0xb6, 0, 14], Some(9)),
            // invokestatic of an interface's method
            (&[0xb8, 0, 14], None),
            // getfield of a field and of a method
            (&[0xb4, 0, 8], None),
            (&[0xb4, 0, 11], Some(9)),
            // invokedynamic of a call site and of a method
            (&[0xba, 0, 15, 0, 0], None),
            (&[0xba, 0, 11, 0, 0], Some(9)),
            // new of a class and of a text, behind a nop
            (&[0, 0xbb, 0, 2], None),
            (&[0, 0xbb, 0, 1], Some(10)),
        ],
    )
}

/// The least place is found, not the first kind of item.
#[test]
fn invokeinterface(rt: HostRuntime) -> Result<(), Fail> {
    check_code(
        &rt,
        rt.alloc(),
        &[
            // the arguments take three words
            (&[0xb9, 0, 14, 4, 0], None),
            (&[0xb9, 0, 14, 3, 0], Some(11)),
            (&[0xb9, 0, 14, 4, 1], Some(12)),
            (&[0xb9, 0, 14, 3, 1], Some(11)),
            (&[0xb9, 0, 11, 1, 0], Some(9)),
            (&[0xb9, 0, 11, 1, 1], Some(9)),
        ],
    )
}

#[test]
fn arrays(rt: HostRuntime) -> Result<(), Fail> {
    check_code(
        &rt,
        rt.alloc(),
        &[
            (&[0xbc, 3], Some(9)),
            (&[0xbc, 4], None),
            (&[0xbc, 11], None),
            (&[0xbc, 12], Some(9)),
            // a type of two dimensions
            (&[0xc5, 0, 4, 0], Some(11)),
            (&[0xc5, 0, 4, 1], None),
            (&[0xc5, 0, 4, 2], None),
            (&[0xc5, 0, 4, 3], Some(11)),
            (&[0xc5, 0, 3, 1], Some(9)),
        ],
    )
}

#[test]
fn branches(rt: HostRuntime) -> Result<(), Fail> {
    check_code(
        &rt,
        rt.alloc(),
        &[
            // goto itself, into itself, behind the code, before it
            (&[0xa7, 0, 0], None),
            (&[0xa7, 0, 1], Some(9)),
            (&[0xa7, 0, 3], Some(9)),
            (&[0xa7, 0xff, 0xff], Some(9)),
            // a nop before and behind it
            (&[0, 0xa7, 0xff, 0xff, 0], None),
            (&[0, 0xa7, 0, 3, 0], None),
        ],
    )
}

/// Three bytes stand between the opcode of a switch at the code's start and its first number.
#[test]
fn switches(rt: HostRuntime) -> Result<(), Fail> {
    check_code(
        &rt,
        rt.alloc(),
        &[
            // tableswitch: elsewhere, its keys from 1 to 0, a target
            (
                &[
                    0xaa, 0, 0, 0, 0, 0, 0, 0, 0, 0, 0, 0, 0, 0, 0, 0, 0, 0, 0, 0,
                ],
                None,
            ),
            (
                &[
                    0xaa, 0, 0, 0, 0, 0, 0, 1, 0, 0, 0, 0, 0, 0, 0, 0, 0, 0, 0, 0,
                ],
                Some(12),
            ),
            (
                &[0xaa, 0, 0, 0, 0, 0, 0, 0, 0, 0, 0, 1, 0, 0, 0, 0],
                Some(16),
            ),
            (
                &[
                    0xaa, 0, 0, 0, 0, 0, 0, 0, 0, 0, 0, 0, 0, 0, 0, 0, 0, 0, 0, 1,
                ],
                Some(24),
            ),
            // lookupswitch: elsewhere, a target, a key that repeats, and one that falls
            (&[0xab, 0, 0, 0, 0, 0, 0, 1, 0, 0, 0, 0], Some(12)),
            (
                &[
                    0xab, 0, 0, 0, 0, 0, 0, 0, 0, 0, 0, 1, 0, 0, 0, 5, 0, 0, 0, 2,
                ],
                Some(24),
            ),
            (
                &[
                    0xab, 0, 0, 0, 0, 0, 0, 0, 0, 0, 0, 2, 0, 0, 0, 5, 0, 0, 0, 0, 0, 0, 0, 5, 0,
                    0, 0, 0,
                ],
                Some(28),
            ),
            (
                &[
                    0xab, 0, 0, 0, 0, 0, 0, 0, 0, 0, 0, 2, 0, 0, 0, 5, 0, 0, 0, 0, 0xff, 0, 0, 0,
                    0, 0, 0, 0,
                ],
                Some(28),
            ),
            (
                &[
                    0xab, 0, 0, 0, 0, 0, 0, 0, 0, 0, 0, 2, 0, 0, 0, 5, 0, 0, 0, 0, 0, 0, 0, 6, 0,
                    0, 0, 0,
                ],
                None,
            ),
        ],
    )
}

/// nop, ldc, nop: the ranges behind them begin at place 14.
const RANGED: [u8; 4] = [0, 0x12, 19, 0];

#[test]
fn ranges(rt: HostRuntime) -> Result<(), Fail> {
    for (start, end, handler, catch, want) in [
        (0, 1, 3, 0, None),
        (0, 4, 0, 2, None),
        (1, 1, 3, 0, Some(14)),
        (3, 1, 3, 0, Some(14)),
        (2, 3, 3, 0, Some(14)),
        (0, 2, 3, 0, Some(16)),
        (0, 5, 3, 0, Some(16)),
        (0, 1, 2, 0, Some(18)),
        (0, 1, 4, 0, Some(18)),
        (0, 1, 3, 1, Some(20)),
    ] {
        let rest = [0, 1, 0, start, 0, end, 0, handler, 0, catch, 0, 0];
        assert_eq!(rt; place(rt.alloc(), &RANGED, &rest)?, want, "{rest:?}");
    }
    // the second range
    let rest = [0, 2, 0, 0, 0, 1, 0, 3, 0, 0, 0, 0, 0, 1, 0, 2, 0, 0, 0, 0];
    assert_eq!(rt; place(rt.alloc(), &RANGED, &rest)?, Some(26));
    Ok(())
}

/// nop and new: the attributes behind them begin at place 16, a table's frames at 24.
const MADE: [u8; 4] = [0, 0xbb, 0, 2];

#[test]
fn frames(rt: HostRuntime) -> Result<(), Fail> {
    let cases: [(&[u8], Option<usize>); 14] = [
        // the same frame at 1, at 2, and at 2 in the long form
        (&[0, 1, 1], None),
        (&[0, 1, 2], Some(24)),
        (&[0, 1, 251, 0, 2], Some(25)),
        // the second frame, at 1 and at 2
        (&[0, 2, 0, 0], None),
        (&[0, 2, 0, 1], Some(25)),
        // one more local, at 2
        (&[0, 1, 252, 0, 2, 1], Some(25)),
        // fewer locals than none
        (&[0, 1, 250, 0, 0], Some(24)),
        // a class that is none, and one that is
        (&[0, 1, 64, 7, 0, 1], Some(26)),
        (&[0, 1, 64, 7, 0, 2], None),
        // made by the new, and by the nop
        (&[0, 1, 64, 8, 0, 1], None),
        (&[0, 1, 64, 8, 0, 0], Some(26)),
        (&[0, 1, 247, 0, 0, 8, 0, 0], Some(28)),
        (&[0, 1, 253, 0, 0, 1, 8, 0, 2], Some(29)),
        (&[0, 1, 255, 0, 0, 0, 1, 8, 0, 1, 0, 1, 8, 0, 0], Some(35)),
    ];
    for (table, want) in &cases {
        let mut rest = [0, 0, 0, 1, 0, 16, 0, 0, 0].to_vec(rt.alloc())?;
        rest.push(table.len() as u8)?;
        rest.extend_from_slice(table)?;
        assert_eq!(rt; place(rt.alloc(), &MADE, &rest)?, *want, "{table:?}");
    }
    Ok(())
}

/// The second table breaks the first rule, whatever stands between.
#[test]
fn tables(rt: HostRuntime) -> Result<(), Fail> {
    let one = [0, 0, 0, 1, 0, 16, 0, 0, 0, 2, 0, 0];
    assert_eq!(rt; place(rt.alloc(), &MADE, &one)?, None);
    let two = [0, 0, 0, 2, 0, 16, 0, 0, 0, 2, 0, 0, 0, 16, 0, 0, 0, 2, 0, 0];
    assert_eq!(rt; place(rt.alloc(), &MADE, &two)?, Some(24));
    let between = [
        0, 0, 0, 3, 0, 16, 0, 0, 0, 2, 0, 0, 0, 1, 0, 0, 0, 0, 0, 16, 0, 0, 0, 2, 0, 0,
    ];
    assert_eq!(rt; place(rt.alloc(), &MADE, &between)?, Some(30));
    Ok(())
}
