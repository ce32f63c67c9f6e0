//! The layout of a content, cut short and spoilt.

use super::*;
use std::alloc::Global;
use std::process::Abort;
use std::test::*;
use wv_base::ClassFault;
use wv_pool::read_pool;

/// The pool 1 StackMapTable.
const POOL: [u8; 18] = [
    0, 2, 1, 0, 13, 83, 116, 97, 99, 107, 77, 97, 112, 84, 97, 98, 108, 101,
];

/// A content with a nop and a new, one range, an attribute that is kept and a StackMapTable of one
/// frame. The code begins at 8, its length at 4, the ranges' count stands at 12, the attributes' at
/// 22, their names at 24 and 33, and their lengths at 26 and 35.
const CONTENT: [u8; 42] = [
    0, 1, 0, 2, 0, 0, 0, 4, 0, 0xbb, 0, 9, 0, 1, 0, 0, 0, 1, 0, 1, 0, 0, 0, 2, 0, 5, 0, 0, 0, 3, 7,
    7, 7, 0, 1, 0, 0, 0, 3, 0, 1, 0,
];

/// The place of the fault of the layout, behind which so many bytes are missing; none of a content.
fn fault(alloc: Global, content: &[u8], missing: u32) -> Result<Option<usize>, Fail> {
    if content.len() > 100 || missing > 100 {
        return Err("the content is long".into());
    }
    let (pool, _len) = read_pool(alloc, &POOL)?;
    match read_layout(alloc, content, pool.entries(), missing) {
        Ok(_) => Ok(None),
        Err(ClassFault::Layout { at }) => Ok(Some(at)),
        Err(fault) => Err(fault.into()),
    }
}

#[test]
fn a_content(rt: HostRuntime) -> Result<(), Fail> {
    let (pool, _len) = read_pool(rt.alloc(), &POOL)?;
    let raw = read_layout(rt.alloc(), &CONTENT, pool.entries(), 0)?;
    assert_eq!(rt; (raw.max_stack, raw.max_locals, raw.len), (1, 2, 4));
    assert_eq!(rt; raw.code.offsets.as_slice(), [0, 1].as_slice());
    assert_eq!(rt; raw.ranges.len(), 1);
    assert!(rt;
        matches!(
            raw.attributes.as_slice(),
            [RawAttribute::Kept(_), RawAttribute::Frames { name: 1, .. }]
        )
    );
    Ok(())
}

/// Where the input ends, the content goes on.
#[test]
fn missing_bytes(rt: HostRuntime) -> Result<(), Fail> {
    for cut in 0..CONTENT.len() {
        let missing = (CONTENT.len() - cut) as u32;
        assert_eq!(rt;
            fault(rt.alloc(), &CONTENT[..cut], missing)?,
            Some(cut),
            "{cut}"
        );
    }
    Ok(())
}

/// What no content of fewer bytes has: the code's length, a count, a length or a name behind which
/// the rest doesn't fit.
#[test]
fn cut_at_every_byte(rt: HostRuntime) -> Result<(), Fail> {
    for (first, end, want) in [
        // twelve bytes are the least
        (0, 12, 0),
        // the tables need four bytes, or ten
        (12, 16, 7),
        (16, 17, 13),
        (17, 22, 7),
        // a range of eight bytes leaves too few for attributes, or a number of them
        (22, 24, 13),
        (24, 25, 23),
        (25, 30, 13),
        // two attributes need twelve bytes
        (30, 36, 23),
        // the first leaves six bytes to the second
        (36, 39, 29),
        // a StackMapTable needs two bytes
        (39, 41, 34),
        (41, 42, 38),
    ] {
        for size in first..end {
            if size > CONTENT.len() {
                return Err("the content is shorter".into());
            }
            assert_eq!(rt;
                fault(rt.alloc(), &CONTENT[..size], 0)?,
                Some(want),
                "{size}"
            );
        }
    }
    assert_eq!(rt; fault(rt.alloc(), &CONTENT, 0)?, None);
    Ok(())
}

/// One byte in another's place.
#[test]
fn another_byte(rt: HostRuntime) -> Result<(), Fail> {
    for (place, byte, want) in [
        // a byte of code more, behind which there would be 256 ranges; one less than the new takes
        (7, 5, Some(13)),
        (7, 3, Some(9)),
        // no instruction, another number, and a new before an lconst_0
        (8, 0xff, Some(8)),
        (10, 0xbb, None),
        (8, 0xbb, None),
        // no range, and then no attribute in the place of many; two ranges, and too many attributes
        (13, 0, Some(15)),
        (13, 2, Some(30)),
        // a shorter first content, and a second that is too long by far; a second of four bytes
        (29, 2, Some(34)),
        (38, 4, Some(38)),
        // what is kept is named like the frames, and the frames otherwise
        (25, 1, Some(30)),
        (34, 2, None),
        // two frames, and a tag that is none
        (40, 2, Some(40)),
        (41, 128, Some(41)),
    ] {
        let mut content = CONTENT;
        if let Some(there) = content.get_mut(place) {
            *there = byte;
        }
        assert_eq!(rt; fault(rt.alloc(), &content, 0)?, want, "{place} {byte}");
    }
    Ok(())
}
