use super::*;
use std::alloc::Global;
use std::test::*;
use wv_base::{Body, Bytes, Case, ClassFault, Const, Insn, Items, LimitFault, Name};
use wv_pool::{Pool, read_pool};

/// A pool with the integers from 0 on, so many, whose numbers begin with 1.
fn integers(alloc: Global, count: i32) -> Result<Pool, Fail> {
    let (mut pool, _len) = read_pool(alloc, &[0, 1])?;
    for value in 0..count {
        pool.add(&Const::Integer(value))?;
    }
    Ok(pool)
}

fn body_of(alloc: Global, insns: Items<Insn>) -> Body {
    Body {
        max_stack: 0,
        max_locals: 0,
        insns,
        ranges: Items::new(alloc),
        frames: Items::new(alloc),
        kept: Items::new(alloc),
    }
}

fn push_nops(insns: &mut Items<Insn>, count: usize) -> Result<(), Fail> {
    for _ in 0..count {
        insns.push(Insn::Plain { op: 0 })?;
    }
    Ok(())
}

/// The length of the code, or why it has no layout.
fn length(
    alloc: Global,
    insns: Items<Insn>,
    pool: &mut Pool,
) -> Result<Result<u32, LimitFault>, Fail> {
    let body = body_of(alloc, insns);
    if !are_formed(body.insns.as_slice())? {
        return Err("the instructions aren't formed".into());
    }
    Ok(layout(alloc, &body, pool).map(|layout| layout.len))
}

/// The code of the instructions.
fn written(alloc: Global, insns: Items<Insn>, pool: &mut Pool) -> Result<Bytes, Fail> {
    let body = body_of(alloc, insns);
    if !are_formed(body.insns.as_slice())? {
        return Err("the instructions aren't formed".into());
    }
    let layout = layout(alloc, &body, pool)?;
    Ok(write_insns(alloc, body.insns.as_slice(), &layout, pool)?)
}

/// An instruction that loads an integer.
fn load(alloc: Global, op: u8, value: i32) -> Result<Items<Insn>, Fail> {
    let mut insns = Items::new(alloc);
    let value = Const::Integer(value);
    insns.push(Insn::Load { op, value })?;
    Ok(insns)
}

fn push_constants(insns: &mut Items<Insn>) -> Result<(), Fail> {
    insns.push(Insn::Plain { op: 0 })?;
    insns.push(Insn::Push { op: 0x10, value: 1 })?;
    insns.push(Insn::Push { op: 0x11, value: 1 })?;
    for op in [0x12, 0x13] {
        let value = Const::Integer(7);
        insns.push(Insn::Load { op, value })?;
    }
    Ok(())
}

fn push_locals(insns: &mut Items<Insn>) -> Result<(), Fail> {
    for wide in [false, true] {
        let (op, slot, by) = (0x15, 1, 1);
        insns.push(Insn::Local { op, slot, wide })?;
        insns.push(Insn::Inc { slot, by, wide })?;
    }
    Ok(())
}

/// A call of `a.a:()V`.
fn call(alloc: Global, op: u8, interface: bool) -> Result<Insn, Fail> {
    Ok(Insn::Reference {
        op,
        owner: Name::from_ascii(alloc, "a")?,
        name: Name::from_ascii(alloc, "a")?,
        descriptor: Name::from_ascii(alloc, "()V")?,
        interface,
    })
}

fn site(alloc: Global) -> Result<Insn, Fail> {
    Ok(Insn::Site {
        bootstrap: 0,
        name: Name::from_ascii(alloc, "a")?,
        descriptor: Name::from_ascii(alloc, "()V")?,
    })
}

fn push_references(alloc: Global, insns: &mut Items<Insn>) -> Result<(), Fail> {
    insns.push(call(alloc, 0xb6, false)?)?;
    insns.push(call(alloc, 0xb9, true)?)?;
    insns.push(site(alloc)?)?;
    let class = Name::from_ascii(alloc, "a")?;
    insns.push(Insn::Class { op: 0xbb, class })?;
    insns.push(Insn::NewArray { kind: 4 })?;
    let (class, dimensions) = (Name::from_ascii(alloc, "[I")?, 1);
    insns.push(Insn::MultiArray { class, dimensions })?;
    Ok(())
}

fn table(alloc: Global) -> Result<Insn, Fail> {
    let targets = Items::from_slice(alloc, &[0, 1])?;
    let (low, other) = (5, 0);
    Ok(Insn::Table {
        low,
        other,
        targets,
    })
}

fn lookup(alloc: Global) -> Result<Insn, Fail> {
    let cases = [Case { key: -1, to: 0 }, Case { key: 2, to: 1 }];
    let cases = Items::from_slice(alloc, &cases)?;
    Ok(Insn::Lookup { other: 0, cases })
}

/// One instruction of each size, and switches with each number of pad bytes.
fn each_size(alloc: Global) -> Result<Items<Insn>, Fail> {
    let mut insns = Items::new(alloc);
    push_constants(&mut insns)?;
    push_locals(&mut insns)?;
    insns.push(Insn::Branch { op: 0xa7, to: 0 })?;
    insns.push(Insn::Branch { op: 0xc8, to: 0 })?;
    push_references(alloc, &mut insns)?;
    for nops in 0..4 {
        push_nops(&mut insns, nops)?;
        if nops % 2 == 0 {
            insns.push(table(alloc)?)?;
        } else {
            insns.push(lookup(alloc)?)?;
        }
    }
    Ok(insns)
}

#[test]
fn offsets_of_each_size(rt: HostRuntime) -> Result<(), Fail> {
    let alloc = rt.alloc();
    let body = body_of(alloc, each_size(alloc)?);
    let mut pool = integers(alloc, 0)?;
    assert!(rt; are_formed(body.insns.as_slice())?);
    let layout = layout(alloc, &body, &mut pool)?;
    // Behind the opcodes at 56, 81, 110 and 135 stand 3, 2, 1 and no pad bytes: with the two targets of
    // each switch that is 1 + 3 + 12 + 8, 1 + 2 + 8 + 16, 1 + 1 + 12 + 8 and 1 + 8 + 16 bytes.
    let offsets = [
        0, 1, 3, 6, 8, 11, 13, 16, 20, 26, 29, 34, 37, 42, 47, 50, 52, 56, 80, 81, 108, 109, 110,
        132, 133, 134, 135,
    ];
    assert_eq!(rt; layout.offsets.as_slice(), offsets.as_slice());
    assert_eq!(rt; layout.len, 160);
    Ok(())
}

#[test]
fn long_loads(rt: HostRuntime) -> Result<(), Fail> {
    let alloc = rt.alloc();
    // The integer n has the number n + 1, and 300 comes to stand behind the 299 others.
    let mut pool = integers(alloc, 300)?;
    for (value, len) in [(254, 2), (255, 3), (299, 3), (300, 3)] {
        let found = length(alloc, load(alloc, 0x12, value)?, &mut pool)?;
        assert!(rt; matches!(found, Ok(found) if found == len));
    }
    Ok(())
}

#[test]
fn limits(rt: HostRuntime) -> Result<(), Fail> {
    let alloc = rt.alloc();
    let mut pool = integers(alloc, 0)?;
    for (count, large) in [(65535, false), (65536, true)] {
        let mut insns = Items::new(alloc);
        push_nops(&mut insns, count)?;
        let found = length(alloc, insns, &mut pool)?;
        assert_eq!(rt; matches!(found, Err(LimitFault::CodeLarge)), large);
    }
    // A jump of three bytes over so many others.
    for (op, nops, far) in [
        (0xa7, 32764, false),
        (0xa7, 32765, true),
        (0xc8, 32765, false),
    ] {
        let mut insns = Items::new(alloc);
        let to = nops as u32 + 1;
        insns.push(Insn::Branch { op, to })?;
        push_nops(&mut insns, nops + 1)?;
        let found = length(alloc, insns, &mut pool)?;
        assert_eq!(rt; matches!(found, Err(LimitFault::BranchFar)), far);
    }
    // A jump back over so many bytes.
    for (nops, far) in [(32768, false), (32769, true)] {
        let mut insns = Items::new(alloc);
        push_nops(&mut insns, nops)?;
        insns.push(Insn::Branch { op: 0xa7, to: 0 })?;
        let found = length(alloc, insns, &mut pool)?;
        assert_eq!(rt; matches!(found, Err(LimitFault::BranchFar)), far);
    }
    Ok(())
}

#[test]
fn a_full_pool(rt: HostRuntime) -> Result<(), Fail> {
    let alloc = rt.alloc();
    // The last number is 65,534.
    let mut pool = integers(alloc, 65534)?;
    for (value, full) in [(65533, false), (65534, true)] {
        for op in [0x12, 0x13] {
            let found = length(alloc, load(alloc, op, value)?, &mut pool)?;
            // ldc_w needs no number here.
            assert_eq!(rt;
                matches!(found, Err(LimitFault::PoolLarge)),
                full && op == 0x12
            );
        }
    }
    Ok(())
}

#[test]
fn bytes_of_code(rt: HostRuntime) -> Result<(), Fail> {
    let alloc = rt.alloc();
    let mut pool = integers(alloc, 300)?;
    let mut insns = Items::new(alloc);
    insns.push(Insn::Branch { op: 0xa7, to: 2 })?;
    insns.push(Insn::Plain { op: 0 })?;
    let value = Const::Integer(299);
    insns.push(Insn::Load { op: 0x12, value })?;
    insns.push(Insn::Table {
        low: 5,
        other: 0,
        targets: Items::from_slice(alloc, &[3, 1])?,
    })?;
    // goto 4, nop, ldc_w 300, and at 7 a tableswitch of 5 and 6 without pad bytes, which leads to 7, 3 and
    // else to 0.
    let code = [
        0xa7, 0, 4, 0, 0x13, 1, 44, 0xaa, 0xff, 0xff, 0xff, 0xf9, 0, 0, 0, 5, 0, 0, 0, 6, 0, 0, 0,
        0, 0xff, 0xff, 0xff, 0xfc,
    ];
    assert_eq!(rt;
        written(alloc, insns, &mut pool)?.as_slice(),
        code.as_slice()
    );
    Ok(())
}

/// How many instructions there are, or where none goes on.
fn split(alloc: Global, code: &[u8]) -> Result<usize, ClassFault> {
    if code.len() > 65535 {
        return Err(ClassFault::Memory);
    }
    Ok(split_code(alloc, code)?.raws.len())
}

#[test]
fn code_cut_at_each_byte(rt: HostRuntime) {
    let alloc = rt.alloc();
    // iconst_0, goto -1, a tableswitch at 4 with three pad bytes, and return behind it.
    let code = [
        3, 0xa7, 0xff, 0xff, 0xaa, 0, 0, 0, 0, 0, 0, 20, 0, 0, 0, 1, 0, 0, 0, 1, 0, 0, 0, 20, 0xb1,
    ];
    let starts = [0, 1, 4, 24, 25];
    for len in 0..=code.len() {
        match split(alloc, &code[..len]) {
            Ok(count) => assert_eq!(rt; starts.get(count), Some(&len)),
            Err(ClassFault::Layout { at }) => {
                assert!(rt; at == len && !starts.contains(&len));
            }
            Err(_) => assert!(rt; false),
        }
    }
    // A reserved opcode, and `wide` before one that it doesn't change.
    assert!(rt;
        matches!(
            split(alloc, &[0, 0xca, 0]),
            Err(ClassFault::Layout { at: 1 })
        )
    );
    assert!(rt;
        matches!(
            split(alloc, &[0, 0xc4, 0]),
            Err(ClassFault::Layout { at: 2 })
        )
    );
}

#[test]
fn each_size_again(rt: HostRuntime) -> Result<(), Fail> {
    let alloc = rt.alloc();
    let mut pool = integers(alloc, 0)?;
    let code = written(alloc, each_size(alloc)?, &mut pool)?;
    assert_eq!(rt; (code.len(), split(alloc, code.as_slice())?), (160, 27));
    Ok(())
}
