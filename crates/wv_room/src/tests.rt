use super::*;
use std::alloc::Global;
use std::test::*;

const LIMIT: u32 = 20;

/// Keeps what is to come for the search, unless it is too long in its least form.
fn keep(
    todo: &mut Vec<Elements>,
    bytes: u32,
    values: u32,
    annotations: u32,
    parameters: u32,
) -> Result<(), Fail> {
    let e = Elements {
        bytes,
        values,
        annotations,
        parameters,
    };
    if e.least() < u64::from(LIMIT) {
        todo.push(e)?;
    }
    Ok(())
}

/// Puts each form of one item in its place (JVM Specification 4.7.16 to 4.7.18).
fn expand(todo: &mut Vec<Elements>, e: Elements) -> Result<(), Fail> {
    let Elements {
        bytes: b,
        values: v,
        annotations: a,
        parameters: p,
    } = e;
    if v > 0 {
        keep(todo, b.saturating_add(3), v - 1, a, p)?;
        keep(todo, b.saturating_add(5), v - 1, a, p)?;
        keep(todo, b.saturating_add(1), v - 1, a.saturating_add(1), p)?;
        for count in 0..LIMIT {
            keep(
                todo,
                b.saturating_add(3),
                (v - 1).saturating_add(count),
                a,
                p,
            )?;
        }
    } else if a > 0 {
        for count in 0..LIMIT {
            keep(todo, b.saturating_add(4 + 2 * count), count, a - 1, p)?;
        }
    } else if p > 0 {
        for count in 0..LIMIT {
            keep(todo, b.saturating_add(2), v, count, p - 1)?;
        }
    }
    Ok(())
}

/// Which sizes the items can have, by a search over all their forms.
fn sizes(alloc: Global, start: Elements) -> Result<[bool; 20], Fail> {
    let mut found = [false; 20];
    let mut todo = vec![in alloc; start]?;
    for _ in 0..1_000_000_000u32 {
        let Some(e) = todo.pop() else {
            return Ok(found);
        };
        if e.values == 0 && e.annotations == 0 && e.parameters == 0 {
            if (e.bytes as usize) < found.len() {
                found[e.bytes as usize] = true;
            }
        }
        expand(&mut todo, e)?;
    }
    Err("the search doesn't end")?
}

#[test]
fn fits_as_a_search_finds(rt: HostRuntime) -> Result<(), Fail> {
    for code in 0..54u32 {
        let e = Elements {
            bytes: code % 2,
            values: code / 2 % 3,
            annotations: code / 6 % 3,
            parameters: code / 18 % 3,
        };
        let found = sizes(rt.alloc(), e)?;
        for room in 0..LIMIT {
            assert_eq!(rt; e.fits(room), found[room as usize], "{e:?} in {room}");
        }
    }
    Ok(())
}

#[test]
fn frames_and_tables_fit(rt: HostRuntime) {
    let type_of_three = Frames {
        bytes: 0,
        types: 3,
        lists: 0,
        frames: 0,
    };
    for (room, want) in [
        (2, false),
        (3, true),
        (4, false),
        (5, true),
        (9, true),
        (11, false),
    ] {
        assert_eq!(rt; type_of_three.fits(room), want, "types in {room}");
    }
    let frame = Frames {
        bytes: 0,
        types: 0,
        lists: 0,
        frames: 1,
    };
    for (room, want) in [
        (0, false),
        (1, true),
        (393215, true),
        (393216, false),
        (393217, true),
        (393218, false),
    ] {
        assert_eq!(rt; frame.fits(room), want, "a frame in {room}");
    }
    let behind_code = Tables {
        bytes: 0,
        attributes: 0,
        attribute_tables: 1,
        range_tables: 1,
    };
    for (room, want) in [(3, false), (4, true), (9, false), (10, true), (11, true)] {
        assert_eq!(rt; behind_code.fits(room), want, "tables in {room}");
    }
}

#[test]
fn numbers_fail_at_the_first_byte(rt: HostRuntime) {
    let nothing = Elements {
        bytes: 0,
        values: 0,
        annotations: 0,
        parameters: 0,
    };
    let nine = ElementCount {
        kind: ElementKind::Value,
        besides: nothing,
        room: 9,
    };
    for (bytes, want) in [
        ([0, 3], Ok(3)),
        ([0, 1], Ok(1)),
        ([0, 4], Err(1)),
        ([0, 0], Err(1)),
        ([1, 0], Err(0)),
    ] {
        assert_eq!(rt; read_number(&bytes, 2, &nine), want, "{bytes:?}");
    }
    assert_eq!(rt; read_number(&[0], 2, &nine), Err(1));
    let one_type = FrameCount {
        kind: FrameKind::Type,
        besides: Frames {
            bytes: 0,
            types: 0,
            lists: 0,
            frames: 0,
        },
        room: 3,
    };
    for (count, want) in [(1u8, Ok(1)), (2, Err(1)), (3, Ok(3)), (4, Err(1))] {
        assert_eq!(rt;
            read_number(&[0, count], 2, &one_type),
            want,
            "{count} types"
        );
    }
    let code = TableCount {
        kind: TableKind::Byte,
        besides: Tables {
            bytes: 0,
            attributes: 0,
            attribute_tables: 1,
            range_tables: 1,
        },
        room: 0x0102_0304,
    };
    assert_eq!(rt; read_number(&[1, 2, 3, 0], 4, &code), Ok(0x0102_0300));
    assert_eq!(rt; read_number(&[1, 2, 3, 1], 4, &code), Err(3));
    assert_eq!(rt; read_number(&[1, 3, 0, 0], 4, &code), Err(1));
    assert_eq!(rt; read_number(&[2, 0, 0, 0], 4, &code), Err(0));
}
