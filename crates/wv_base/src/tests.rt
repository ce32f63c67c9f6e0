//! With ample memory, each call that makes or copies a value succeeds.

use super::*;
use std::alloc::Global;
use std::test::Fail;

fn reference(alloc: Global) -> Result<MemberReference, Memory> {
    Ok(MemberReference {
        owner: Name::from_ascii(alloc, "app/Main")?,
        name: Name::from_ascii(alloc, "f")?,
        descriptor: Name::from_ascii(alloc, "()V")?,
    })
}

#[test]
fn bytes_and_texts(rt: HostRuntime) -> Result<(), Fail> {
    let alloc = rt.alloc();
    let mut bytes = Bytes::from_slice(alloc, b"ab")?;
    bytes.push(b'c')?;
    bytes.extend(b"de")?;
    assert_eq!(rt; bytes.copy(alloc)?.as_slice(), b"abcde".as_slice());
    let text = Text::from_str(alloc, "game/app/Main.class")?;
    assert!(rt; text.copy(alloc)?.is(&text) && text.len() == 19);
    Ok(())
}

#[test]
fn names(rt: HostRuntime) -> Result<(), Fail> {
    let alloc = rt.alloc();
    let name = Name::from_slice(alloc, &[0x61, 0xd83d, 0xde00, 0xd83d])?;
    assert!(rt; name.copy()?.is(&name) && !name.is_ascii("a"));
    // U+1F600, and `?` for the surrogate that stands alone.
    assert_eq!(rt; shown(alloc, &name)?.as_str(), "a\u{1f600}?");
    let letters = Name::from_vec(alloc, [0x61, 0x62].to_vec(alloc)?)?;
    assert!(rt; letters.is_ascii("ab") && name < Name::from_ascii(alloc, "b")?);
    Ok(())
}

#[test]
fn constants(rt: HostRuntime) -> Result<(), Fail> {
    let alloc = rt.alloc();
    let constants = [
        Const::Utf8(Name::from_ascii(alloc, "a")?),
        Const::Long(-1),
        Const::Field(reference(alloc)?),
        Const::MethodHandle {
            kind: 6,
            reference: reference(alloc)?,
            interface: false,
        },
    ];
    let mut copies = Items::new(alloc);
    for constant in &constants {
        copies.push(constant.copy()?)?;
    }
    assert_eq!(rt; copies.len(), constants.len());
    Ok(())
}

#[test]
fn instructions_and_types(rt: HostRuntime) -> Result<(), Fail> {
    let alloc = rt.alloc();
    let insns = [
        Insn::Plain { op: 0xb1 },
        Insn::Table {
            low: 0,
            other: 1,
            targets: Items::from_slice(alloc, &[1, 2])?,
        },
        Insn::Lookup {
            other: 1,
            cases: Items::from_slice(alloc, &[Case { key: -1, to: 2 }])?,
        },
        Insn::Load {
            op: 0x12,
            value: Const::Integer(7),
        },
    ];
    let mut copies = Items::new(alloc);
    for insn in &insns {
        copies.push(insn.copy(alloc)?)?;
    }
    assert_eq!(rt; copies.len(), insns.len());
    let kind = VType::Class(Name::from_ascii(alloc, "app/Main")?);
    assert!(rt; matches!(kind.copy()?, VType::Class(name) if name.is_ascii("app/Main")));
    Ok(())
}
