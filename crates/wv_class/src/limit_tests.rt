//! Limits of the class file format, each at the greatest class that keeps it and at the next.

use super::*;
use crate::reading_tests::SMALLEST;
use crate::writing_tests::{body, member, note};
use std::alloc::Global;
use std::process::Abort;
use std::test::*;
use wv_base::{Attribute, Bytes, ClassFile, Const, Insn, Items, LimitFault, Name, PoolEntry};

/// What writing answers.
#[derive(Clone, Copy, Debug, PartialEq, Eq)]
enum Answer {
    Written,
    PoolLarge,
    CodeLarge,
    BranchFar,
}

fn writing(alloc: Global, class: &ClassFile) -> Result<Answer, Fail> {
    if !is_formed(alloc, class)? {
        return Err("no class file has the class".into());
    }
    match write_class(alloc, class) {
        Ok(_) => Ok(Answer::Written),
        Err(LimitFault::PoolLarge) => Ok(Answer::PoolLarge),
        Err(LimitFault::CodeLarge) => Ok(Answer::CodeLarge),
        Err(LimitFault::BranchFar) => Ok(Answer::BranchFar),
        Err(LimitFault::Memory) => Err("out of memory".into()),
    }
}

fn push_interfaces(alloc: Global, class: &mut ClassFile, count: u32) -> Result<(), Fail> {
    let name = Name::from_ascii(alloc, "app/E")?;
    for _ in 0..count {
        class.interfaces.push(name.copy()?)?;
    }
    Ok(())
}

/// A method whose code is these instructions, so many nops and a return.
fn push_method(
    alloc: Global,
    class: &mut ClassFile,
    name: &str,
    mut insns: Items<Insn>,
    nops: u32,
) -> Result<(), Fail> {
    for _ in 0..nops {
        insns.push(Insn::Plain { op: 0 })?;
    }
    insns.push(Insn::Plain { op: 0xb1 })?;
    let mut method = member(alloc, 0, name, "()V")?;
    method.body = Some(body(alloc, insns));
    class.methods.push(method)?;
    Ok(())
}

/// A method with a goto over so many nops.
fn push_goto(alloc: Global, class: &mut ClassFile, nops: u32) -> Result<(), Fail> {
    let mut insns = Items::new(alloc);
    insns.push(Insn::Branch {
        op: 0xa7,
        to: nops.saturating_add(1),
    })?;
    push_method(alloc, class, "far", insns, nops)
}

/// Interfaces, and attributes of the class: a table of annotations counts as one of them.
#[test]
fn long_lists(rt: HostRuntime) -> Result<(), Fail> {
    let alloc = rt.alloc();
    for (interfaces, kept, noted, want) in [
        (65_535, 0, false, Answer::Written),
        (65_536, 0, false, Answer::PoolLarge),
        (0, 65_534, true, Answer::Written),
        (0, 65_535, true, Answer::PoolLarge),
    ] {
        let mut class = read_class(alloc, &SMALLEST)?;
        push_interfaces(alloc, &mut class, interfaces)?;
        for _ in 0..kept {
            let content = Bytes::new(alloc);
            class.kept.push(Attribute { name: 0, content })?;
        }
        if noted {
            class.notes.push(note(alloc, true, None)?)?;
            class.notes.push(note(alloc, true, None)?)?;
        }
        let found = writing(alloc, &class)?;
        assert_eq!(rt; found, want, "{interfaces} {kept}");
    }
    Ok(())
}

/// A class with the texts of a field and of a method in its pool, longs up to so many entries, and a
/// field whose value isn't among them.
fn filled(alloc: Global, entries: usize) -> Result<ClassFile, Fail> {
    let mut class = read_class(alloc, &SMALLEST)?;
    for name in ["f", "I", "ConstantValue", "large", "()V", "Code"] {
        let name = Name::from_ascii(alloc, name)?;
        class.pool.push(PoolEntry::Utf8(name))?;
    }
    for value in 0..32_768i64 {
        if class.pool.len() < entries.saturating_sub(1) {
            class.pool.push(PoolEntry::Long(value))?;
            class.pool.push(PoolEntry::Unusable)?;
        }
    }
    if class.pool.len() < entries {
        class.pool.push(PoolEntry::Integer(0))?;
    }
    let mut field = member(alloc, 0, "f", "I")?;
    field.value = Some(Const::Integer(-1));
    class.fields.push(field)?;
    Ok(class)
}

/// A pool has room for 65,534 entries.
#[test]
fn the_last_entry(rt: HostRuntime) -> Result<(), Fail> {
    let alloc = rt.alloc();
    let class = filled(alloc, 65_533)?;
    assert_eq!(rt; class.pool.len(), 65_533);
    assert_eq!(rt; writing(alloc, &class)?, Answer::Written);
    Ok(())
}

/// It comes before code.
#[test]
fn an_entry_too_many(rt: HostRuntime) -> Result<(), Fail> {
    let alloc = rt.alloc();
    let mut class = filled(alloc, 65_534)?;
    assert_eq!(rt; class.pool.len(), 65_534);
    push_method(alloc, &mut class, "large", Items::new(alloc), 65_535)?;
    assert_eq!(rt; writing(alloc, &class)?, Answer::PoolLarge);
    Ok(())
}

/// Code has 65,535 bytes at most, and a goto leads over 32,767 at most, of which three are its own.
#[test]
fn code(rt: HostRuntime) -> Result<(), Fail> {
    let alloc = rt.alloc();
    for (far, nops, want) in [
        (false, 65_534, Answer::Written),
        (false, 65_535, Answer::CodeLarge),
        (true, 32_764, Answer::Written),
        (true, 32_765, Answer::BranchFar),
    ] {
        let mut class = read_class(alloc, &SMALLEST)?;
        if far {
            push_goto(alloc, &mut class, nops)?;
        } else {
            push_method(alloc, &mut class, "large", Items::new(alloc), nops)?;
        }
        let found = writing(alloc, &class)?;
        assert_eq!(rt; found, want, "{far} {nops}");
    }
    Ok(())
}

/// The first method that passes a limit tells which, and lists come before code.
#[test]
fn which_comes_first(rt: HostRuntime) -> Result<(), Fail> {
    let alloc = rt.alloc();
    for (far_first, interfaces, want) in [
        (true, 0, Answer::BranchFar),
        (false, 0, Answer::CodeLarge),
        (false, 65_536, Answer::PoolLarge),
    ] {
        let mut class = read_class(alloc, &SMALLEST)?;
        push_interfaces(alloc, &mut class, interfaces)?;
        if far_first {
            push_goto(alloc, &mut class, 32_765)?;
        }
        push_method(alloc, &mut class, "large", Items::new(alloc), 65_535)?;
        if !far_first {
            push_goto(alloc, &mut class, 32_765)?;
        }
        let found = writing(alloc, &class)?;
        assert_eq!(rt; found, want, "{far_first} {interfaces}");
    }
    Ok(())
}

/// How often a text, a string and a long, which has two numbers, follow each other in a large pool.
const TURNS: u16 = 14_999;

/// A class file with 60,000 entries in its pool.
fn large_file(alloc: Global) -> Result<Vec<u8>, Fail> {
    let mut bytes = SMALLEST[..8].to_vec(alloc)?;
    bytes.extend_from_slice(&60_001u16.to_be_bytes())?;
    bytes.extend_from_slice(&SMALLEST[10..43])?;
    for turn in 0..TURNS {
        let units = [(turn / 120 + 1) as u8, (turn % 120 + 1) as u8];
        bytes.extend_from_slice(&[1, 0, 2])?;
        bytes.extend_from_slice(&units)?;
        bytes.push(8)?;
        bytes.extend_from_slice(&(4 * turn + 5).to_be_bytes())?;
        bytes.extend_from_slice(&[5, 0, 0, 0, 0, 0, 0])?;
        bytes.extend_from_slice(&turn.to_be_bytes())?;
    }
    bytes.extend_from_slice(&SMALLEST[43..])?;
    Ok(bytes)
}

#[test]
fn a_large_pool_is_read(rt: HostRuntime) -> Result<(), Fail> {
    let class = read_class(rt.alloc(), &large_file(rt.alloc())?)?;
    assert_eq!(rt; class.pool.len(), 60_000);
    assert!(rt;
        matches!(
            class.pool.get(59_997),
            Some(PoolEntry::String { text: 59_997 })
        )
    );
    assert!(rt; matches!(class.pool.get(59_998), Some(PoolEntry::Long(14_998))));
    Ok(())
}

#[test]
fn a_large_pool_is_written(rt: HostRuntime) -> Result<(), Fail> {
    let alloc = rt.alloc();
    let mut class = read_class(alloc, &SMALLEST)?;
    for turn in 0..TURNS {
        let text = Name::from_slice(alloc, &[turn / 120 + 1, turn % 120 + 1])?;
        class.pool.push(PoolEntry::Utf8(text))?;
        class.pool.push(PoolEntry::String { text: 4 * turn + 5 })?;
        class.pool.push(PoolEntry::Long(turn as i64))?;
        class.pool.push(PoolEntry::Unusable)?;
    }
    if !is_formed(alloc, &class)? {
        return Err("no class file has the class".into());
    }
    let bytes = write_class(alloc, &class)?;
    assert!(rt; bytes.as_slice() == large_file(alloc)?.as_slice());
    Ok(())
}
