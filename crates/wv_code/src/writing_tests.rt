//! Bodies that are written, with bytes worked out by hand.
use super::*;
use std::alloc::Global;
use std::test::*;
use wv_base::{
    Attribute, Body, Bytes, Const, ExceptionRange, Frame, FrameAt, FrameList, Insn, Items, Name,
    VType,
};
use wv_pool::{Pool, PoolFault, read_pool};

/// A pool with the integers from 0 on, so many, whose numbers begin with 1.
fn integers(alloc: Global, count: i32) -> Result<Pool, Fail> {
    let (mut pool, _len) = read_pool(alloc, &[0, 1])?;
    for value in 0..count {
        pool.add(&Const::Integer(value))?;
    }
    Ok(pool)
}

/// ldc 254, ldc 255, a `new` of `a`, nop and return.
fn insns(alloc: Global) -> Result<Items<Insn>, Fail> {
    let mut insns = Items::new(alloc);
    for value in [254, 255] {
        let value = Const::Integer(value);
        insns.push(Insn::Load { op: 0x12, value })?;
    }
    let class = Name::from_ascii(alloc, "a")?;
    insns.push(Insn::Class { op: 0xbb, class })?;
    insns.push(Insn::Plain { op: 0 })?;
    insns.push(Insn::Plain { op: 0xb1 })?;
    Ok(insns)
}

fn range(start: u32, end: u32, handler: u32, catch: Option<Name>) -> ExceptionRange {
    ExceptionRange {
        start,
        end,
        handler,
        catch,
    }
}

/// The two loads, caught as `b`, and all that follows the first one, whatever it throws.
fn ranges(alloc: Global) -> Result<Items<ExceptionRange>, Fail> {
    let mut ranges = Items::new(alloc);
    let class = Name::from_ascii(alloc, "b")?;
    ranges.push(range(0, 2, 4, Some(class)))?;
    ranges.push(range(1, 5, 3, None))?;
    Ok(ranges)
}

fn push_frame(
    frames: &mut FrameList,
    at: u32,
    locals: Items<VType>,
    stack: Items<VType>,
) -> Result<(), Fail> {
    let this_uninitialized = false;
    let frame = Frame {
        locals,
        stack,
        this_uninitialized,
    };
    frames.push(FrameAt { at, frame })?;
    Ok(())
}

/// A class's type by its name.
fn class(alloc: Global, name: &str) -> Result<VType, Fail> {
    Ok(VType::Class(Name::from_ascii(alloc, name)?))
}

/// At nop the object of the `new` and one of `a`, and at return an int and on the stack one of `c`.
fn frames(alloc: Global) -> Result<FrameList, Fail> {
    let mut frames = Items::new(alloc);
    let mut locals = Items::new(alloc);
    locals.push(VType::Uninitialized(2))?;
    locals.push(class(alloc, "a")?)?;
    push_frame(&mut frames, 3, locals, Items::new(alloc))?;
    let (mut locals, mut stack) = (Items::new(alloc), Items::new(alloc));
    locals.push(VType::Int)?;
    stack.push(class(alloc, "c")?)?;
    push_frame(&mut frames, 4, locals, stack)?;
    Ok(frames)
}

/// One attribute whose name isn't in the pool, and one whose name is the integer with number 7.
fn kept(alloc: Global) -> Result<Items<Attribute>, Fail> {
    let mut kept = Items::new(alloc);
    let content = Bytes::new(alloc);
    kept.push(Attribute { name: 0, content })?;
    let content = Bytes::from_slice(alloc, &[1, 2, 3])?;
    kept.push(Attribute { name: 7, content })?;
    Ok(kept)
}

fn body(alloc: Global) -> Result<Body, Fail> {
    Ok(Body {
        max_stack: 2,
        max_locals: 3,
        insns: insns(alloc)?,
        ranges: ranges(alloc)?,
        frames: frames(alloc)?,
        kept: kept(alloc)?,
    })
}

/// A body that only returns.
fn plain(alloc: Global) -> Result<Body, Fail> {
    let mut insns = Items::new(alloc);
    insns.push(Insn::Plain { op: 0xb1 })?;
    Ok(Body {
        max_stack: 0,
        max_locals: 0,
        insns,
        ranges: Items::new(alloc),
        frames: Items::new(alloc),
        kept: Items::new(alloc),
    })
}

fn written(alloc: Global, body: &Body, pool: &mut Pool) -> Result<Result<Bytes, PoolFault>, Fail> {
    if !are_formed(body.insns.as_slice())? {
        return Err("the instructions aren't formed".into());
    }
    let layout = layout(alloc, body, pool)?;
    if !is_formed(body, pool)? {
        return Err("the body isn't formed".into());
    }
    Ok(write_code(alloc, body, &layout, pool))
}

#[test]
fn bytes_of_a_body(rt: HostRuntime) -> Result<(), Fail> {
    let alloc = rt.alloc();
    // The integer n has the number n + 1. `a`, `b` and `c` get the numbers 301 to 306, each the text and
    // then the class, and StackMapTable 307.
    let mut pool = integers(alloc, 300)?;
    let content = [
        0, 2, 0, 3, 0, 0, 0, 10, // the sizes, and 10 bytes of code
        0x12, 255, 0x13, 1, 0, 0xbb, 1, 46, 0, 0xb1, // ldc 255, ldc_w 256, new 302, nop, return
        0, 2, 0, 0, 0, 5, 0, 9, 1, 48, 0, 2, 0, 10, 0, 8, 0, 0, // from 0 to 5, and from 2 to the end
        0, 3, 0, 0, 0, 0, 0, 0, 0, 7, 0, 0, 0, 3, 1, 2, 3, // what is kept
        1, 51, 0, 0, 0, 26, 0, 2, // two frames
        255, 0, 8, 0, 2, 8, 0, 5, 7, 1, 46, 0, 0, // at 8, with the object of the new at 5
        255, 0, 0, 0, 1, 1, 0, 1, 7, 1, 50, // at 9
    ];
    match written(alloc, &body(alloc)?, &mut pool)? {
        Ok(bytes) => assert_eq!(rt; bytes.as_slice(), content.as_slice()),
        Err(_) => assert!(rt; false),
    }
    Ok(())
}

#[test]
fn bytes_of_a_plain_body(rt: HostRuntime) -> Result<(), Fail> {
    let alloc = rt.alloc();
    let mut pool = integers(alloc, 0)?;
    let content = [0, 0, 0, 0, 0, 0, 0, 1, 0xb1, 0, 0, 0, 0];
    match written(alloc, &plain(alloc)?, &mut pool)? {
        Ok(bytes) => assert_eq!(rt; bytes.as_slice(), content.as_slice()),
        Err(_) => assert!(rt; false),
    }
    assert!(rt; pool.entries().is_empty());
    Ok(())
}

/// One instruction, caught as a class.
fn ranges_of_one(alloc: Global, name: &str) -> Result<Items<ExceptionRange>, Fail> {
    let mut ranges = Items::new(alloc);
    let class = Name::from_ascii(alloc, name)?;
    ranges.push(range(0, 1, 0, Some(class)))?;
    Ok(ranges)
}

#[test]
fn bodies_for_a_full_pool(rt: HostRuntime) -> Result<(), Fail> {
    let alloc = rt.alloc();
    // Each takes two numbers, and the last is 65,534.
    let mut pool = integers(alloc, 0)?;
    for value in 0..32767 {
        pool.add(&Const::Long(value))?;
    }
    let none = plain(alloc)?;
    let mut caught = plain(alloc)?;
    caught.ranges = ranges_of_one(alloc, "b")?;
    let mut framed = plain(alloc)?;
    push_frame(&mut framed.frames, 0, Items::new(alloc), Items::new(alloc))?;
    for (body, full) in [(&none, false), (&caught, true), (&framed, true)] {
        let found = written(alloc, body, &mut pool)?;
        assert_eq!(rt; matches!(found, Err(PoolFault::Full)), full);
        assert_eq!(rt; found.is_ok(), !full);
    }
    Ok(())
}

#[test]
fn bodies_that_are_not_formed(rt: HostRuntime) -> Result<(), Fail> {
    let alloc = rt.alloc();
    let pool = integers(alloc, 0)?;
    assert!(rt; is_formed(&plain(alloc)?, &pool)?);
    // No instruction, a range that ends behind the last, and an attribute whose number the pool hasn't.
    let mut empty = plain(alloc)?;
    empty.insns = Items::new(alloc);
    let mut long = plain(alloc)?;
    long.ranges.push(range(0, 2, 0, None))?;
    let mut unknown = plain(alloc)?;
    unknown.kept = kept(alloc)?;
    for body in [&empty, &long, &unknown] {
        assert!(rt; !is_formed(body, &pool)?);
    }
    Ok(())
}
