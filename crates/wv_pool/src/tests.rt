use super::*;
use std::alloc::Global;
use std::test::*;
use wv_base::{ClassFault, Const, MemberReference, Memory, Name, PoolEntry};

/// The pool of the smallest class, and the flags behind it.
const SMALLEST: [u8; 40] = [
    0x00, 0x05, 0x07, 0x00, 0x02, 0x01, 0x00, 0x05, 0x61, 0x70, 0x70, 0x2F, 0x45, 0x07, 0x00, 0x04,
    0x01, 0x00, 0x10, 0x6A, 0x61, 0x76, 0x61, 0x2F, 0x6C, 0x61, 0x6E, 0x67, 0x2F, 0x4F, 0x62, 0x6A,
    0x65, 0x63, 0x74, 0x00, 0x21, 0x00, 0x01, 0x00,
];

/// A pool with each tag once: 1 m, 2 ()V, 3 Class 1, 4 NameAndType 1 2, 5 Method 3 4, 6 Integer,
/// 7 Float, 8 Long, 10 Double, 12 String 1, 13 InterfaceMethod 3 4, 14 MethodHandle 6 5,
/// 15 MethodType 2, 16 InvokeDynamic 7 4, 17 I, 18 NameAndType 1 17, 19 Field 3 18.
const EACH: [u8; 97] = [
    0, 20, 1, 0, 1, 0x6D, 1, 0, 3, 0x28, 0x29, 0x56, 7, 0, 1, 12, 0, 1, 0, 2, 10, 0, 3, 0, 4, 3,
    0xFF, 0xFF, 0xFF, 0xFE, 4, 0x7F, 0xC0, 0, 0, 5, 0x80, 0, 0, 0, 0, 0, 0, 0, 6, 0, 0, 0, 0, 0, 0,
    0, 1, 8, 0, 1, 11, 0, 3, 0, 4, 15, 6, 0, 5, 16, 0, 2, 18, 0, 7, 0, 4, 1, 0, 1, 0x49, 12, 0, 1,
    0, 17, 9, 0, 3, 0, 18, 0, 0, 0, 0, 0, 0, 0, 0, 0, 0,
];

/// Where reading the bytes fails: `Ok` for a layout, `Err` for a reference.
fn fault(alloc: Global, bytes: &[u8]) -> Option<Result<usize, usize>> {
    match read_pool(alloc, bytes) {
        Err(ClassFault::Layout { at }) => Some(Ok(at)),
        Err(ClassFault::Reference { at }) => Some(Err(at)),
        _ => None,
    }
}

#[test]
fn the_smallest_pool(rt: HostRuntime) -> Result<(), Fail> {
    let (pool, len) = read_pool(rt.alloc(), &SMALLEST)?;
    assert_eq!(rt; len, 35);
    assert_eq!(rt; pool.entries().len(), 4);
    assert!(rt;
        pool.class_name(1)
            .is_some_and(|name| name.is_ascii("app/E"))
    );
    assert!(rt;
        pool.class_name(3)
            .is_some_and(|name| name.is_ascii("java/lang/Object"))
    );
    assert!(rt; pool.class_name(2).is_none() && pool.class_name(0).is_none());
    assert_eq!(rt; pool.write(rt.alloc())?.as_slice(), &SMALLEST[..35]);
    for end in 0..35 {
        assert_eq!(rt;
            fault(rt.alloc(), &SMALLEST[..end]),
            Some(Ok(end)),
            "cut at {end}"
        );
    }
    Ok(())
}

#[test]
fn each_tag(rt: HostRuntime) -> Result<(), Fail> {
    let (pool, len) = read_pool(rt.alloc(), &EACH)?;
    assert_eq!(rt; pool.entries().len(), 19);
    assert_eq!(rt; Some(pool.write(rt.alloc())?.as_slice()), EACH.get(..len));
    assert!(rt; matches!(pool.entry(6), Some(PoolEntry::Integer(-2))));
    assert!(rt; matches!(pool.entry(8), Some(PoolEntry::Long(i64::MIN))));
    assert!(rt; matches!(pool.entry(9), Some(PoolEntry::Unusable)));
    assert!(rt; matches!(pool.entry(10), Some(PoolEntry::Double(1))));
    assert!(rt; matches!(pool.entry(12), Some(PoolEntry::String { text: 1 })));
    assert!(rt;
        pool.name_and_type(18)
            .is_some_and(|(_, descriptor)| descriptor.is_ascii("I"))
    );
    for end in 0..len.min(EACH.len()) {
        assert_eq!(rt;
            fault(rt.alloc(), &EACH[..end]),
            Some(Ok(end)),
            "cut at {end}"
        );
    }
    Ok(())
}

#[test]
fn faults(rt: HostRuntime) {
    let cases: [(&[u8], Result<usize, usize>); 21] = [
        // No count, or a count of 0.
        (&[0], Ok(1)),
        (&[0, 0, 1], Ok(1)),
        // Tags that aren't any.
        (&[0, 2, 2, 0], Ok(2)),
        (&[0, 2, 17, 0], Ok(2)),
        (&[0, 2, 19, 0], Ok(2)),
        // A long whose second number isn't one of the pool's.
        (&[0, 2, 5, 0, 0, 0, 0, 0, 0, 0, 0], Ok(2)),
        // Modified UTF-8: a zero, an overlong spelling, and units that have no room.
        (&[0, 2, 1, 0, 1, 0], Ok(5)),
        (&[0, 2, 1, 0, 2, 0xC1, 0x80], Ok(5)),
        (&[0, 2, 1, 0, 3, 0xE0, 0x80, 0x80], Ok(6)),
        (&[0, 2, 1, 0, 1, 0xC3], Ok(5)),
        (&[0, 2, 1, 0, 2, 0xE1, 0x80], Ok(5)),
        (&[0, 2, 1, 0, 3, 0x61, 0xE1, 0x80], Ok(6)),
        (&[0, 2, 1, 0, 4, 0x61, 0xE1, 0x80], Ok(8)),
        // Numbers that name nothing that fits, 0 and the second of a long among them.
        (&[0, 2, 7, 0, 0], Err(3)),
        (&[0, 2, 7, 0, 1], Err(3)),
        (&[0, 4, 8, 0, 3, 5, 0, 0, 0, 0, 0, 0, 0, 0], Err(3)),
        // A class's name, a field's pair that has a method's descriptor, a method's name with `<`.
        (&[0, 3, 7, 0, 2, 1, 0, 1, 0x2E], Err(3)),
        (
            &[
                0, 6, 9, 0, 2, 0, 4, 7, 0, 3, 1, 0, 1, 0x6D, 12, 0, 3, 0, 5, 1, 0, 3, 0x28, 0x29,
                0x56,
            ],
            Err(5),
        ),
        (
            &[
                0, 7, 10, 0, 2, 0, 4, 7, 0, 3, 1, 0, 1, 0x6D, 12, 0, 6, 0, 5, 1, 0, 3, 0x28, 0x29,
                0x56, 1, 0, 1, 0x3C,
            ],
            Err(5),
        ),
        // A handle's kind, and a handle of no member.
        (&[0, 3, 15, 0, 0, 2, 1, 0, 0], Err(3)),
        (&[0, 3, 15, 1, 0, 2, 1, 0, 0], Err(4)),
    ];
    for (bytes, want) in cases {
        assert_eq!(rt; fault(rt.alloc(), bytes), Some(want), "{bytes:?}");
    }
}

/// The pool that the constants of `constants_in_order` fill.
const ADDED: [u8; 87] = [
    0, 20, 1, 0, 1, 109, 7, 0, 1, 1, 0, 3, 40, 41, 86, 12, 0, 1, 0, 3, 10, 0, 2, 0, 4, 15, 6, 0, 5,
    5, 255, 255, 255, 255, 255, 255, 255, 255, 6, 0, 0, 0, 0, 0, 0, 0, 1, 3, 0, 0, 0, 7, 4, 127,
    192, 0, 0, 8, 0, 1, 16, 0, 3, 18, 0, 7, 0, 4, 1, 0, 1, 73, 12, 0, 1, 0, 16, 9, 0, 2, 0, 17, 11,
    0, 2, 0, 4,
];

fn member(alloc: Global, descriptor: &str) -> Result<MemberReference, Memory> {
    Ok(MemberReference {
        owner: Name::from_ascii(alloc, "m")?,
        name: Name::from_ascii(alloc, "m")?,
        descriptor: Name::from_ascii(alloc, descriptor)?,
    })
}

/// A constant of each kind and its number in the pool that they fill.
fn constants_in_order(alloc: Global) -> Result<Vec<(Const, u16)>, Memory> {
    let name = Name::from_ascii(alloc, "m")?;
    let descriptor = Name::from_ascii(alloc, "()V")?;
    let reference = member(alloc, "()V")?;
    let mut all = vec![in alloc]?;
    all.push((
        Const::MethodHandle {
            kind: 6,
            reference: reference.copy()?,
            interface: false,
        },
        6,
    ))?;
    all.push((
        Const::Method {
            reference: reference.copy()?,
            interface: false,
        },
        5,
    ))?;
    all.push((
        Const::NameAndType {
            name: name.copy()?,
            descriptor: descriptor.copy()?,
        },
        4,
    ))?;
    all.push((Const::Utf8(descriptor.copy()?), 3))?;
    all.push((Const::Class(name.copy()?), 2))?;
    all.push((Const::Utf8(name.copy()?), 1))?;
    all.push((Const::Long(-1), 7))?;
    all.push((Const::Double(1), 9))?;
    all.push((Const::Integer(7), 11))?;
    all.push((Const::Float(0x7FC0_0000), 12))?;
    all.push((Const::String(name.copy()?), 13))?;
    all.push((Const::MethodType(descriptor.copy()?), 14))?;
    all.push((
        Const::InvokeDynamic {
            bootstrap: 7,
            name,
            descriptor,
        },
        15,
    ))?;
    all.push((Const::Field(member(alloc, "I")?), 18))?;
    all.push((
        Const::Method {
            reference,
            interface: true,
        },
        19,
    ))?;
    Ok(all)
}

#[test]
fn each_constant_is_added_once(rt: HostRuntime) -> Result<(), Fail> {
    let (mut pool, _) = read_pool(rt.alloc(), &[0, 1])?;
    for _ in 0..2 {
        for (constant, number) in &constants_in_order(rt.alloc())? {
            assert!(rt; is_allowed(constant));
            assert_eq!(rt; pool.add(constant)?, *number);
        }
    }
    let bytes = pool.write(rt.alloc())?;
    assert_eq!(rt; bytes.as_slice(), ADDED.as_slice());
    let (again, _) = read_pool(rt.alloc(), bytes.as_slice())?;
    for (constant, number) in &constants_in_order(rt.alloc())? {
        assert_eq!(rt; again.number_of(constant), Some(*number));
    }
    Ok(())
}

#[test]
fn a_full_pool(rt: HostRuntime) -> Result<(), Fail> {
    // A count of 65,534, and integers that name one constant.
    let mut bytes = vec![in rt.alloc(); 0xFF, 0xFE]?;
    for _ in 0..65533 {
        bytes.extend_from_slice(&[3, 0, 0, 0, 9])?;
    }
    let (mut pool, _) = read_pool(rt.alloc(), &bytes)?;
    assert_eq!(rt; pool.number_of(&Const::Integer(9)), Some(1));
    assert!(rt; matches!(pool.add(&Const::Long(0)), Err(PoolFault::Full)));
    let text = Const::Utf8(Name::from_ascii(rt.alloc(), "a")?);
    let other = Const::Utf8(Name::from_ascii(rt.alloc(), "b")?);
    assert!(rt; is_allowed(&text) && is_allowed(&other));
    assert_eq!(rt; pool.add(&text)?, 65534);
    assert!(rt; matches!(pool.add(&other), Err(PoolFault::Full)));
    assert_eq!(rt; pool.add(&text)?, 65534);
    assert_eq!(rt; pool.entries().len(), 65534);
    Ok(())
}
