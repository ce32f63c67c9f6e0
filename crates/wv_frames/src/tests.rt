use super::*;
use std::alloc::Global;
use std::test::*;
use wv_base::{ClassFault, Frame, FrameAt, FrameList, Items, Memory, Name, VType};
use wv_pool::{Pool, read_pool};

/// The pool 1 A, 2 Class 1, 3 [I, 4 Class 3.
const POOL: [u8; 17] = [0, 5, 1, 0, 1, 0x41, 7, 0, 1, 1, 0, 2, 0x5B, 0x49, 7, 0, 3];

/// A table with each kind of frame, behind a frame of two locals.
const EACH: [u8; 38] = [
    0, 8, 3, 65, 1, 247, 1, 0, 7, 0, 4, 251, 0, 9, 254, 0, 0, 4, 8, 0, 5, 0, 249, 0, 1, 255, 0, 2,
    0, 2, 6, 3, 0, 1, 2, 250, 0, 0,
];

/// Where each front of the table fails as a table of its own.
const CUTS: [usize; 38] = [
    0, 0, 1, 1, 1, 1, 1, 1, 1, 1, 3, 5, 5, 5, 8, 8, 11, 11, 14, 14, 14, 14, 14, 18, 18, 22, 22, 25,
    25, 25, 25, 25, 25, 29, 29, 33, 35, 35,
];

fn pool(alloc: Global) -> Result<Pool, Fail> {
    let (pool, _) = read_pool(alloc, &POOL)?;
    Ok(pool)
}

/// A start frame of an `A` and an int.
fn first(alloc: Global) -> Result<Frame, Memory> {
    let mut locals = Items::new(alloc);
    locals.push(VType::Class(Name::from_ascii(alloc, "A")?))?;
    locals.push(VType::Int)?;
    Ok(Frame {
        locals,
        stack: Items::new(alloc),
        this_uninitialized: false,
    })
}

/// Reads the content of an attribute that isn't long.
fn read(alloc: Global, bytes: &[u8], pool: &Pool, first: &Frame) -> Result<FrameList, ClassFault> {
    if bytes.len() > 0xFFFF {
        return Err(ClassFault::Memory);
    }
    read_frames(alloc, bytes, pool, first)
}

/// Where reading the bytes fails: `Ok` for a layout, `Err` for a reference.
fn fault(alloc: Global, bytes: &[u8]) -> Result<Option<Result<usize, usize>>, Fail> {
    Ok(match read(alloc, bytes, &pool(alloc)?, &first(alloc)?) {
        Err(ClassFault::Layout { at }) => Some(Ok(at)),
        Err(ClassFault::Reference { at }) => Some(Err(at)),
        _ => None,
    })
}

/// Where the layout of a front of a table fails that isn't long and has so many bytes more.
fn front_fault(alloc: Global, bytes: &[u8], missing: u32) -> Option<usize> {
    if bytes.len() > 0xFFFF || missing > 0xFFFF {
        return None;
    }
    match read_layout(alloc, bytes, missing) {
        Err(ClassFault::Layout { at }) => Some(at),
        _ => None,
    }
}

/// How many frames the layout of a whole table has that isn't long.
fn frame_count(alloc: Global, bytes: &[u8]) -> Result<usize, ClassFault> {
    if bytes.len() > 0xFFFF {
        return Err(ClassFault::Memory);
    }
    Ok(read_layout(alloc, bytes, 0)?.len())
}

/// Where reading the table fails with another byte at a place.
fn changed(alloc: Global, at: usize, byte: u8) -> Result<Option<Result<usize, usize>>, Fail> {
    let mut bytes = EACH;
    if let Some(place) = bytes.get_mut(at) {
        *place = byte;
    }
    fault(alloc, &bytes)
}

/// A type as a letter.
fn letter(kind: &VType) -> char {
    match kind {
        VType::Top => 't',
        VType::Int => 'i',
        VType::Float => 'f',
        VType::Long => 'l',
        VType::Double => 'd',
        VType::Null => 'n',
        VType::UninitializedThis => 'u',
        VType::Uninitialized(_) => 'o',
        VType::Class(name) => { if name.is_ascii("A") { 'a' } else { 'c' } }
    }
}

/// The offset, the locals, the stack and the flag of each frame in one text.
fn shown(alloc: Global, frames: &FrameList) -> Result<String, Fail> {
    let mut text = String::new(alloc);
    for one in frames.as_slice() {
        let at = format!(in alloc; "{} ", one.at)?;
        text.push_str(at.as_str())?;
        for local in one.frame.locals.as_slice() {
            text.push(letter(local))?;
        }
        text.push(' ')?;
        for item in one.frame.stack.as_slice() {
            text.push(letter(item))?;
        }
        if one.frame.this_uninitialized {
            text.push('!')?;
        }
        text.push(';')?;
    }
    Ok(text)
}

/// The frames of the table.
const SHOWN: &str = "3 ai ;5 ai i;262 ai c;272 ai ;273 ailot ;275 ail ;278 ud f!;279 u !;";

#[test]
fn each_kind(rt: HostRuntime) -> Result<(), Fail> {
    let alloc = rt.alloc();
    let frames = read_frames(alloc, &EACH, &pool(alloc)?, &first(alloc)?)?;
    assert_eq!(rt; shown(alloc, &frames)?.as_str(), SHOWN);
    Ok(())
}

#[test]
fn cut_at_every_byte(rt: HostRuntime) -> Result<(), Fail> {
    for (end, want) in CUTS.iter().enumerate() {
        assert_eq!(rt;
            fault(rt.alloc(), &EACH[..end])?,
            Some(Ok(*want)),
            "cut at {end}"
        );
    }
    Ok(())
}

/// Where the table's last frame begins, a chop of three bytes.
const LAST: usize = 35;

#[test]
fn fronts_of_a_table(rt: HostRuntime) -> Result<(), Fail> {
    for end in 0..EACH.len() {
        let front = &EACH[..end];
        let missing = (EACH.len() - end) as u32;
        let found = front_fault(rt.alloc(), front, missing);
        assert_eq!(rt; found, Some(end), "cut at {end}");
        // In a table with a byte fewer or more the last frame is of another kind.
        let want = Some(end.min(LAST));
        let less = front_fault(rt.alloc(), front, missing - 1);
        assert_eq!(rt; less, want, "a byte fewer, cut at {end}");
        let more = front_fault(rt.alloc(), front, missing + 1);
        assert_eq!(rt; more, want, "a byte more, cut at {end}");
    }
    assert_eq!(rt; frame_count(rt.alloc(), &EACH)?, 8);
    assert_eq!(rt; front_fault(rt.alloc(), &EACH, 1), Some(LAST));
    Ok(())
}

#[test]
fn what_fills_the_missing_bytes(rt: HostRuntime) -> Result<(), Fail> {
    let alloc = rt.alloc();
    // no table has less than its count
    for (front, missing) in [(&[][..], 0), (&[][..], 1), (&[][..], 2), (&[0][..], 0)] {
        assert_eq!(rt; front_fault(alloc, front, missing), Some(0));
    }
    // 256 frames or more, of which the first byte is there
    assert_eq!(rt; front_fault(alloc, &[1], 256), Some(0));
    assert_eq!(rt; front_fault(alloc, &[1], 257), Some(1));
    // five frames, and none
    assert_eq!(rt; front_fault(alloc, &[0, 5], 4), Some(1));
    assert_eq!(rt; front_fault(alloc, &[0, 5], 5), Some(2));
    assert_eq!(rt; front_fault(alloc, &[0, 0], 1), Some(1));
    // a full frame: five locals, then 256 or more, and a stack of two types
    let five = [0, 1, 255, 0, 0, 0, 5];
    assert_eq!(rt; front_fault(alloc, &five, 6), Some(6));
    assert_eq!(rt; front_fault(alloc, &five, 7), Some(7));
    let many = [0, 1, 255, 0, 0, 1];
    assert_eq!(rt; front_fault(alloc, &many, 258), Some(5));
    assert_eq!(rt; front_fault(alloc, &many, 259), Some(6));
    let stack = [0, 1, 255, 0, 0, 0, 0, 0, 2];
    assert_eq!(rt; front_fault(alloc, &stack, 3), Some(8));
    assert_eq!(rt; front_fault(alloc, &stack, 4), Some(9));
    // a number and a type, which has one byte or three
    assert_eq!(rt; front_fault(alloc, &[0, 1, 247], 4), Some(2));
    assert_eq!(rt; front_fault(alloc, &[0, 1, 247], 5), Some(3));
    Ok(())
}

#[test]
fn changed_bytes(rt: HostRuntime) -> Result<(), Fail> {
    let alloc = rt.alloc();
    for (at, byte, want) in [
        (2, 128, 2),
        (2, 246, 2),
        (4, 9, 4),
        (8, 9, 8),
        (14, 255, 17),
        (25, 254, 31),
        (29, 3, 33),
        (29, 1, 31),
        (33, 2, 35),
        (33, 0, 34),
        (0, 1, 0),
        (1, 9, 35),
        (1, 7, 33),
    ] {
        assert_eq!(rt; changed(alloc, at, byte)?, Some(Ok(want)), "{byte} at {at}");
    }
    for (at, byte, want) in [(10, 3, 9), (10, 9, 9), (35, 248, 35)] {
        assert_eq!(rt;
            changed(alloc, at, byte)?,
            Some(Err(want)),
            "{byte} at {at}"
        );
    }
    assert_eq!(rt; changed(alloc, 22, 248)?, None);
    // a chop of three of two locals, and the second of two types
    assert_eq!(rt; fault(alloc, &[0, 1, 248, 0, 0])?, Some(Err(2)));
    assert_eq!(rt;
        fault(alloc, &[0, 1, 253, 0, 0, 7, 0, 2, 7, 0, 1])?,
        Some(Err(9))
    );
    // a fault of the layout behind a number that names no class comes first
    assert_eq!(rt;
        fault(alloc, &[0, 2, 253, 0, 0, 7, 0, 1, 7, 0, 1, 128])?,
        Some(Ok(11))
    );
    // a number of the stack
    assert_eq!(rt;
        fault(alloc, &[0, 1, 255, 0, 0, 0, 1, 7, 0, 2, 0, 1, 7, 0, 6])?,
        Some(Err(13))
    );
    Ok(())
}

#[test]
fn written_and_read_again(rt: HostRuntime) -> Result<(), Fail> {
    let alloc = rt.alloc();
    let frames = read_frames(alloc, &EACH, &pool(alloc)?, &first(alloc)?)?;
    if !is_writable(&frames)? {
        return Err("frames that were read can't be written")?;
    }
    let (mut empty, _) = read_pool(alloc, &[0, 1])?;
    let bytes = write_frames(alloc, &frames, &mut empty)?;
    assert_eq!(rt; empty.entries().len(), 4);
    let other = Frame {
        locals: Items::new(alloc),
        stack: Items::new(alloc),
        this_uninitialized: false,
    };
    let found = read(alloc, bytes.as_slice(), &empty, &other)?;
    assert_eq!(rt; shown(alloc, &found)?.as_str(), SHOWN);
    let again = write_frames(alloc, &frames, &mut empty)?;
    assert_eq!(rt; again.as_slice(), bytes.as_slice());
    assert_eq!(rt; empty.entries().len(), 4);
    Ok(())
}

#[test]
fn what_can_be_written(rt: HostRuntime) -> Result<(), Fail> {
    let alloc = rt.alloc();
    let frames = read_frames(alloc, &EACH, &pool(alloc)?, &first(alloc)?)?;
    assert!(rt; is_writable(&frames)?);
    for (at, flag, name, want) in [
        (0, false, "A", true),
        (65536, false, "A", false),
        (0, true, "A", false),
        (0, false, "a.b", false),
    ] {
        let mut locals = Items::new(alloc);
        locals.push(VType::Class(Name::from_ascii(alloc, name)?))?;
        let frame = Frame {
            locals,
            stack: Items::new(alloc),
            this_uninitialized: flag,
        };
        let mut list = Items::new(alloc);
        list.push(FrameAt { at, frame })?;
        assert_eq!(rt; is_writable(&list)?, want, "{at} {flag} {name}");
    }
    let mut twice = read_frames(alloc, &EACH, &pool(alloc)?, &first(alloc)?)?;
    twice.append(frames)?;
    assert!(rt; !is_writable(&twice)?);
    Ok(())
}
