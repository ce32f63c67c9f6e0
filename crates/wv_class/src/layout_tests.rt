//! The layout of a class file, cut short and spoilt.

use crate::layout::read_layout;
use crate::raw_class::Content;
use std::alloc::Global;
use std::test::*;
use wv_base::ClassFault;

/// The class app/E: the version 52, four constants, and neither members nor attributes.
const SMALLEST: [u8; 57] = [
    0xCA, 0xFE, 0xBA, 0xBE, 0, 0, 0, 0x34, 0, 5, 7, 0, 2, 1, 0, 5, 0x61, 0x70, 0x70, 0x2F, 0x45, 7,
    0, 4, 1, 0, 16, 0x6A, 0x61, 0x76, 0x61, 0x2F, 0x6C, 0x61, 0x6E, 0x67, 0x2F, 0x4F, 0x62, 0x6A,
    0x65, 0x63, 0x74, 0, 0x21, 0, 1, 0, 3, 0, 0, 0, 0, 0, 0, 0, 0,
];

/// A pool of one text, and behind it no interface.
fn begun(alloc: Global, text: &str) -> Result<Vec<u8>, Fail> {
    let mut class = Vec::from_slice(alloc, &SMALLEST[..8])?;
    class.extend_from_slice(&[0, 2, 1, 0, text.len().min(255) as u8])?;
    class.extend_from_slice(text.as_bytes())?;
    class.extend_from_slice(&[0, 0x21, 0, 1, 0, 1, 0, 0])?;
    Ok(class)
}

/// The place of the fault; none of a class.
fn fault(alloc: Global, bytes: &[u8]) -> Result<Option<usize>, Fail> {
    match read_layout(alloc, bytes) {
        Ok(_) => Ok(None),
        Err(ClassFault::Layout { at }) => Ok(Some(at)),
        Err(fault) => Err(fault.into()),
    }
}

#[test]
fn the_smallest_class(rt: HostRuntime) -> Result<(), Fail> {
    let (class, behind) = read_layout(rt.alloc(), &SMALLEST)?;
    assert_eq!(rt; behind, 43);
    assert_eq!(rt; (class.version.major, class.version.minor), (52, 0));
    assert_eq!(rt; class.pool.len(), 4);
    assert_eq!(rt; (class.rest.class, class.rest.superclass), (1, 3));
    Ok(())
}

/// Where the input ends, the class goes on.
#[test]
fn cut_short(rt: HostRuntime) -> Result<(), Fail> {
    for len in 0..SMALLEST.len() {
        assert_eq!(rt; fault(rt.alloc(), &SMALLEST[..len])?, Some(len), "{len}");
    }
    Ok(())
}

#[test]
fn spoilt(rt: HostRuntime) -> Result<(), Fail> {
    let mut longer = Vec::from_slice(rt.alloc(), &SMALLEST)?;
    longer.push(0)?;
    assert_eq!(rt; fault(rt.alloc(), &longer)?, Some(57));
    for place in 0..4usize {
        let mut other = SMALLEST;
        other[place] = 0;
        assert_eq!(rt; fault(rt.alloc(), &other)?, Some(place), "{place}");
    }
    // The last unit of the name is spelled with two bytes where one is enough.
    let mut overlong = Vec::from_slice(rt.alloc(), &SMALLEST[..20])?;
    overlong.extend_from_slice(&[0xC1, 0x85])?;
    overlong.extend_from_slice(&SMALLEST[21..])?;
    overlong[15] = 6;
    assert_eq!(rt; fault(rt.alloc(), &overlong)?, Some(20));
    Ok(())
}

/// Attributes of the first field and their faults, counted from the attribute's length on.
#[test]
fn attributes_of_a_field(rt: HostRuntime) -> Result<(), Fail> {
    let table: [(&str, &[u8], Option<usize>); 8] = [
        ("ConstantValue", &[0, 0, 0, 2, 0, 9], None),
        ("ConstantValue", &[0, 0, 0, 3, 0, 9, 9], Some(3)),
        ("ConstantValue", &[0, 1, 0, 2, 0, 9], Some(1)),
        ("Constant", &[0, 0, 0, 3, 0, 9, 9], None),
        ("RuntimeVisibleAnnotations", &[0, 0, 0, 2, 0, 0], None),
        ("RuntimeVisibleAnnotations", &[0, 0, 0, 3, 0, 0, 0], Some(3)),
        (
            "RuntimeInvisibleAnnotations",
            &[0, 0, 0, 6, 0, 1, 0, 1, 0, 1],
            Some(9),
        ),
        (
            "RuntimeInvisibleAnnotations",
            &[0, 0, 0, 6, 0, 1, 0, 1, 0, 0],
            None,
        ),
    ];
    for (name, attribute, want) in table {
        let mut class = begun(rt.alloc(), name)?;
        class.extend_from_slice(&[0, 1, 0, 0, 0, 1, 0, 1, 0, 1, 0, 1])?;
        let from = class.len();
        class.extend_from_slice(attribute)?;
        class.extend_from_slice(&[0, 0, 0, 0])?;
        let place = want.map(|at| at.saturating_add(from));
        assert_eq!(rt; fault(rt.alloc(), &class)?, place, "{name} {attribute:?}");
    }
    Ok(())
}

/// Attributes of the first method and their faults, counted from the attribute's length on.
#[test]
fn attributes_of_a_method(rt: HostRuntime) -> Result<(), Fail> {
    let table: [(&str, &[u8], Option<usize>); 9] = [
        ("Exceptions", &[0, 0, 0, 6, 0, 2, 0, 1, 0, 2], None),
        ("Exceptions", &[0, 0, 0, 6, 0, 1, 0, 1, 0, 2], Some(5)),
        ("Exceptions", &[0, 0, 0, 5, 0, 2, 0, 1, 0], Some(3)),
        ("Exceptions", &[0, 2, 0, 2, 0, 2, 0, 1, 0], Some(3)),
        (
            "Code",
            &[0, 0, 0, 11, 0, 0, 0, 0, 0, 0, 0, 0, 0, 0, 0],
            Some(3),
        ),
        (
            "Code",
            &[0, 0, 0, 12, 0, 0, 0, 0, 0, 0, 0, 0, 0, 0, 0, 0],
            None,
        ),
        (
            "RuntimeVisibleParameterAnnotations",
            &[0, 0, 0, 10, 1],
            Some(3),
        ),
        (
            "RuntimeVisibleParameterAnnotations",
            &[0, 0, 0, 3, 1, 0, 0],
            None,
        ),
        (
            "RuntimeInvisibleParameterAnnotations",
            &[0, 0, 0, 3, 2, 0, 0],
            Some(4),
        ),
    ];
    for (name, attribute, want) in table {
        let mut class = begun(rt.alloc(), name)?;
        class.extend_from_slice(&[0, 0, 0, 1, 0, 0, 0, 1, 0, 1, 0, 1, 0, 1])?;
        let from = class.len();
        class.extend_from_slice(attribute)?;
        class.extend_from_slice(&[0, 0])?;
        let place = want.map(|at| at.saturating_add(from));
        assert_eq!(rt; fault(rt.alloc(), &class)?, place, "{name} {attribute:?}");
    }
    Ok(())
}
