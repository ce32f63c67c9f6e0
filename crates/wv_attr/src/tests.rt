use super::*;
use std::alloc::Global;
use std::test::*;
use wv_base::{ClassFault, Element};
use wv_pool::{Pool, read_pool};

/// A pool: 1 La; 2 n, 3 Integer, 4 Double, 6 Float, 7 Long, 9 I, 10 V.
const POOL: [u8; 48] = [
    0, 11, 1, 0, 3, 76, 97, 59, 1, 0, 1, 110, 3, 0, 0, 0, 1, 6, 0, 0, 0, 0, 0, 0, 0, 1, 4, 0, 0, 0,
    1, 5, 0, 0, 0, 0, 0, 0, 0, 1, 1, 0, 1, 73, 1, 0, 1, 86,
];

/// An annotation with an element of each kind.
const KINDS: [u8; 84] = [
    0, 1, 0, 1, 0, 13, 0, 2, 66, 0, 3, 0, 2, 67, 0, 3, 0, 2, 68, 0, 4, 0, 2, 70, 0, 6, 0, 2, 73, 0,
    3, 0, 2, 74, 0, 7, 0, 2, 83, 0, 3, 0, 2, 90, 0, 3, 0, 2, 115, 0, 2, 0, 2, 101, 0, 9, 0, 2, 0,
    2, 99, 0, 10, 0, 2, 64, 0, 1, 0, 0, 0, 2, 91, 0, 2, 91, 0, 1, 99, 0, 9, 91, 0, 0,
];

/// The parts of it.
const PARTS: [Mark; 32] = [
    Mark::List { count: 1 },
    Mark::Annotation {
        class: 1,
        count: 13,
    },
    Mark::Name { name: 2 },
    Mark::Constant {
        tag: b'B',
        value: 3,
    },
    Mark::Name { name: 2 },
    Mark::Constant {
        tag: b'C',
        value: 3,
    },
    Mark::Name { name: 2 },
    Mark::Constant {
        tag: b'D',
        value: 4,
    },
    Mark::Name { name: 2 },
    Mark::Constant {
        tag: b'F',
        value: 6,
    },
    Mark::Name { name: 2 },
    Mark::Constant {
        tag: b'I',
        value: 3,
    },
    Mark::Name { name: 2 },
    Mark::Constant {
        tag: b'J',
        value: 7,
    },
    Mark::Name { name: 2 },
    Mark::Constant {
        tag: b'S',
        value: 3,
    },
    Mark::Name { name: 2 },
    Mark::Constant {
        tag: b'Z',
        value: 3,
    },
    Mark::Name { name: 2 },
    Mark::Constant {
        tag: b's',
        value: 2,
    },
    Mark::Name { name: 2 },
    Mark::Enum {
        descriptor: 9,
        name: 2,
    },
    Mark::Name { name: 2 },
    Mark::Class { descriptor: 10 },
    Mark::Name { name: 2 },
    Mark::Nested,
    Mark::Annotation { class: 1, count: 0 },
    Mark::Name { name: 2 },
    Mark::Array { count: 2 },
    Mark::Array { count: 1 },
    Mark::Class { descriptor: 9 },
    Mark::Array { count: 0 },
];

/// Where the bytes, behind which so many are missing, first break the layout.
fn fault(alloc: Global, bytes: &[u8], missing: u16) -> Option<usize> {
    if bytes.len() > 0xFFFF {
        return None;
    }
    match read_layout(alloc, bytes, u32::from(missing)) {
        Err(ClassFault::Layout { at }) => Some(at),
        _ => None,
    }
}

/// The same of a table of parameters.
fn lists_fault(alloc: Global, bytes: &[u8], missing: u16) -> Option<usize> {
    if bytes.len() > 0xFFFF {
        return None;
    }
    match read_parameter_layout(alloc, bytes, u32::from(missing)) {
        Err(ClassFault::Layout { at }) => Some(at),
        _ => None,
    }
}

/// Where the numbers of parts with these bytes first break what they must meet.
fn broken(alloc: Global, pool: &Pool, bytes: &[u8]) -> Result<Option<usize>, ClassFault> {
    if bytes.len() > 0xFFFF {
        return Ok(None);
    }
    let types = Types::of(alloc, pool)?;
    let parts = read_layout(alloc, bytes, 0)?;
    Ok(first_break(pool, &types, &parts))
}

#[test]
fn each_kind_of_element(rt: HostRuntime) -> Result<(), Fail> {
    let parts = read_layout(rt.alloc(), &KINDS, 0)?;
    assert!(rt; parts.as_slice() == PARTS.as_slice());
    for end in 0..KINDS.len() {
        let at = fault(rt.alloc(), &KINDS[..end], 0);
        assert!(rt; at.is_some_and(|at| at <= end), "cut at {end}");
    }
    Ok(())
}

#[test]
fn layouts(rt: HostRuntime) {
    let cases: [(&[u8], Option<usize>); 24] = [
        (&[], Some(0)),
        (&[0], Some(0)),
        // No annotations.
        (&[0, 0], None),
        (&[0, 1], Some(1)),
        (&[1, 0], Some(0)),
        // Nothing has three bytes.
        (&[0, 0, 0], Some(0)),
        // An annotation with no elements.
        (&[0, 1, 9, 9, 0, 0], None),
        (&[0, 1, 9, 9, 0, 1], Some(5)),
        (&[0, 1, 9, 9, 1, 0], Some(4)),
        (&[0, 2, 9, 9, 0, 0], Some(1)),
        // One with an element of three bytes.
        (&[0, 1, 0, 1, 0, 1, 0, 2, b'B', 0, 3], None),
        (&[0, 1, 0, 1, 0, 1, 0, 2, b'A', 0, 3], Some(8)),
        (&[0, 1, 0, 1, 0, 1, 0, 2, b'e', 0, 3], Some(8)),
        (&[0, 1, 0, 1, 0, 1, 0, 2, b'@', 0, 3], Some(8)),
        (&[0, 1, 0, 1, 0, 1, 0, 2, b'[', 0, 0], None),
        (&[0, 1, 0, 1, 0, 1, 0, 2, b'[', 0, 1], Some(10)),
        (&[0, 1, 0, 1, 0, 1, 0, 2, b'[', 1, 0], Some(9)),
        // One with an element of five bytes: an enum's, or an annotation.
        (&[0, 1, 0, 1, 0, 1, 0, 2, b'e', 0, 9, 0, 2], None),
        (&[0, 1, 0, 1, 0, 1, 0, 2, b'@', 0, 1, 0, 0], None),
        (&[0, 1, 0, 1, 0, 1, 0, 2, b'[', 0, 0, 0, 0], Some(8)),
        (&[0, 1, 0, 1, 0, 1, 0, 2, b's', 0, 2, 0, 0], Some(8)),
        // No element has four bytes.
        (&[0, 1, 0, 1, 0, 1, 0, 2, b'e', 0, 9, 0], Some(0)),
        // An array of one array of one text.
        (
            &[0, 1, 0, 1, 0, 1, 0, 2, b'[', 0, 1, b'[', 0, 1, b's', 0, 2],
            None,
        ),
        (
            &[0, 1, 0, 1, 0, 1, 0, 2, b'[', 0, 1, b'[', 0, 2, b's', 0, 2],
            Some(13),
        ),
    ];
    for (bytes, want) in cases {
        assert_eq!(rt; fault(rt.alloc(), bytes, 0), want, "{bytes:?}");
    }
}

#[test]
fn bytes_that_are_missing(rt: HostRuntime) {
    // What is there of one annotation with one text is right up to its end, wherever it ends.
    let bytes = [0, 1, 0, 1, 0, 1, 0, 2, b's', 0, 2];
    for end in 0..bytes.len() {
        let missing = (bytes.len() - end) as u16;
        assert_eq!(rt;
            fault(rt.alloc(), &bytes[..end], missing),
            Some(end),
            "cut at {end}"
        );
    }
    let cases: [(&[u8], u16, Option<usize>); 9] = [
        // No table has three bytes.
        (&[0, 0], 1, Some(0)),
        // Two annotations have ten bytes or more.
        (&[0, 2], 4, Some(1)),
        (&[0, 2], 8, Some(2)),
        (&[0, 1, 9, 9, 0], 1, Some(5)),
        (&[0, 1, 9, 9, 1], 1, Some(4)),
        // An enum's value has five bytes.
        (&[0, 1, 0, 1, 0, 1, 0, 2, b'e'], 2, Some(8)),
        (&[0, 1, 0, 1, 0, 1, 0, 2, b'e'], 4, Some(9)),
        (&[0, 1, 0, 1, 0, 1, 0, 2, b'[', 0], 1, Some(10)),
        (&[0, 1, 0, 1, 0, 1, 0, 2, b'[', 1], 1, Some(9)),
    ];
    for (bytes, missing, want) in cases {
        assert_eq!(rt;
            fault(rt.alloc(), bytes, missing),
            want,
            "{bytes:?} {missing}"
        );
    }
    assert_eq!(rt; lists_fault(rt.alloc(), &[], 1), Some(0));
    assert_eq!(rt; lists_fault(rt.alloc(), &[1], 2), Some(1));
    assert_eq!(rt; lists_fault(rt.alloc(), &[1], 1), Some(0));
    assert_eq!(rt; lists_fault(rt.alloc(), &[2, 0, 0, 0], 1), Some(4));
    assert_eq!(rt; lists_fault(rt.alloc(), &[2, 0, 1, 0], 1), Some(2));
}

/// A table with arrays so many deep, the innermost of them empty.
fn nest(alloc: Global, depth: usize) -> Result<Vec<u8>, Fail> {
    let mut bytes = Vec::new(alloc);
    bytes.extend_from_slice(&[0, 1, 0, 1, 0, 1, 0, 2])?;
    for _ in 1..depth {
        bytes.extend_from_slice(&[b'[', 0, 1])?;
    }
    bytes.extend_from_slice(&[b'[', 0, 0])?;
    Ok(bytes)
}

#[test]
fn values_nest_255_deep(rt: HostRuntime) -> Result<(), Fail> {
    for (depth, want) in [
        (1, None),
        (254, None),
        (255, None),
        (256, Some(773)),
        (257, Some(773)),
    ] {
        let bytes = nest(rt.alloc(), depth)?;
        assert_eq!(rt; fault(rt.alloc(), &bytes, 0), want, "{depth} deep");
    }
    Ok(())
}

/// A table with annotations so many deep as values, the innermost of them without elements.
fn nested(alloc: Global, depth: usize) -> Result<Vec<u8>, Fail> {
    let mut bytes = Vec::new(alloc);
    bytes.extend_from_slice(&[0, 1, 0, 1, 0, 1, 0, 2])?;
    for _ in 1..depth {
        bytes.extend_from_slice(&[b'@', 0, 1, 0, 1, 0, 2])?;
    }
    bytes.extend_from_slice(&[b'@', 0, 1, 0, 0])?;
    Ok(bytes)
}

#[test]
fn annotations_nest_255_deep(rt: HostRuntime) -> Result<(), Fail> {
    for (depth, want) in [(1, None), (255, None), (256, Some(1793)), (257, Some(1793))] {
        let bytes = nested(rt.alloc(), depth)?;
        assert_eq!(rt; fault(rt.alloc(), &bytes, 0), want, "{depth} deep");
    }
    Ok(())
}

#[test]
fn tables_of_parameters(rt: HostRuntime) -> Result<(), Fail> {
    let cases: [(&[u8], Option<usize>); 7] = [
        (&[], Some(0)),
        (&[0], None),
        (&[1], Some(0)),
        (&[2, 0, 0, 0, 0], None),
        (&[2, 0, 1, 0, 1, 0, 0, 0, 0], None),
        (&[2, 0, 0, 0, 2, 0, 0, 0, 0], Some(4)),
        (&[1, 0, 0, 0, 0], Some(0)),
    ];
    for (bytes, want) in cases {
        assert_eq!(rt; lists_fault(rt.alloc(), bytes, 0), want, "{bytes:?}");
    }
    let parts = read_parameter_layout(rt.alloc(), &[2, 0, 0, 0, 1, 0, 1, 0, 0], 0)?;
    let want = [
        Mark::List { count: 0 },
        Mark::List { count: 1 },
        Mark::Annotation { class: 1, count: 0 },
    ];
    assert!(rt; parts.as_slice() == want.as_slice());
    Ok(())
}

#[test]
fn references(rt: HostRuntime) -> Result<(), Fail> {
    let (pool, _) = read_pool(rt.alloc(), &POOL)?;
    assert_eq!(rt; broken(rt.alloc(), &pool, &KINDS)?, None);
    // The low byte of a number, and another number there that names something else or nothing.
    let cases: [(usize, u8); 24] = [
        (3, 9),
        (3, 10),
        (3, 0),
        (3, 11),
        (7, 3),
        (10, 2),
        (15, 2),
        (20, 2),
        (25, 2),
        (30, 2),
        (35, 2),
        (40, 2),
        (45, 2),
        (50, 3),
        (20, 7),
        (25, 3),
        (35, 4),
        (30, 6),
        (35, 8),
        (55, 10),
        (57, 3),
        (62, 2),
        (67, 2),
        (80, 3),
    ];
    for (low, number) in cases {
        let mut bytes = KINDS;
        if let Some(byte) = bytes.get_mut(low) {
            *byte = number;
        }
        assert_eq!(rt;
            broken(rt.alloc(), &pool, &bytes)?,
            low.checked_sub(1),
            "{number} at {low}"
        );
    }
    Ok(())
}

#[test]
fn annotations_with_their_names(rt: HostRuntime) -> Result<(), Fail> {
    let (pool, _) = read_pool(rt.alloc(), &POOL)?;
    let notes = read_notes(rt.alloc(), &KINDS, &pool, true)?;
    let [note] = notes.as_slice() else {
        return Err("there isn't one annotation")?;
    };
    assert!(rt; note.visible && note.parameter.is_none());
    assert!(rt; note.annotation.class.is_ascii("a"));
    assert_eq!(rt; note.annotation.elements.len(), 13);
    let Some(last) = note.annotation.elements.get(12) else {
        return Err("there is no last element")?;
    };
    assert!(rt; last.name.is_ascii("n"));
    match &last.value {
        Element::Array(values) => assert_eq!(rt; values.len(), 2),
        _ => return Err("the last element is no array")?,
    }
    let mut bytes = KINDS;
    bytes[3] = 9;
    assert!(rt;
        matches!(
            read_notes(rt.alloc(), &bytes, &pool, true),
            Err(ClassFault::Reference { at: 2 })
        )
    );
    Ok(())
}
