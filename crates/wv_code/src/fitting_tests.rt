use crate::fitting::insn_at;
use crate::stop::Stop;
use std::alloc::Global;
use std::test::*;

/// A place of the code: where the instruction ends, or where none goes on.
#[derive(Clone, Copy, Debug, PartialEq, Eq)]
enum Place {
    End(usize),
    Stop(usize),
}

/// What is read at the offset, where so many bytes stand behind the code and so many are missing.
fn read(alloc: Global, code: &[u8], at: usize, tail: usize, missing: usize) -> Option<Place> {
    let len = code.len();
    if at > len || len > 1000 || tail > 1000 || missing > 1000 {
        return None;
    }
    match insn_at(alloc, code, at, tail, missing) {
        Ok((_raw, rest)) => Some(Place::End(len.checked_sub(rest.len())?)),
        Err(Stop::Left(left)) => Some(Place::Stop(len.checked_sub(left)?)),
        Err(Stop::Memory) => None,
    }
}

/// What is read at the offset where so many bytes from there on belong to the code.
fn read_within(alloc: Global, code: &[u8], at: usize, room: usize) -> Option<Place> {
    let tail = code.len().checked_sub(at)?.checked_sub(room)?;
    read(alloc, code, at, tail, 0)
}

/// A switch at the code's start, with the two numbers behind its default.
fn switch(op: u8, first: i32, second: i32) -> [u8; 40] {
    let first = first.to_be_bytes();
    let second = second.to_be_bytes();
    let mut code = [0; 40];
    code[0] = op;
    for i in 0..4 {
        code[8 + i] = first[i];
        code[12 + i] = second[i];
    }
    code
}

/// An opcode of each form, and how long its least instruction is at the code's start.
const LEAST: [(u8, usize); 16] = [
    (0x00, 1),
    (0x10, 2),
    (0x11, 3),
    (0x12, 2),
    (0x13, 3),
    (0x15, 2),
    (0x84, 3),
    (0xa7, 3),
    (0xab, 12),
    (0xb2, 3),
    (0xb9, 5),
    (0xba, 5),
    (0xbb, 3),
    (0xbc, 2),
    (0xc5, 4),
    (0xc8, 5),
];

#[test]
fn each_form_in_its_least_room(rt: HostRuntime) {
    let alloc = rt.alloc();
    for (op, len) in LEAST {
        let mut code = [0; 16];
        code[0] = op;
        assert_eq!(rt; read_within(alloc, &code, 0, len), Some(Place::End(len)));
        assert_eq!(rt;
            read_within(alloc, &code, 0, len.saturating_sub(1)),
            Some(Place::Stop(0))
        );
    }
    // No instruction has a reserved opcode, in whatever room.
    assert_eq!(rt; read_within(alloc, &[0xca, 0], 0, 1), Some(Place::Stop(0)));
}

#[test]
fn opcodes_behind_wide(rt: HostRuntime) {
    let alloc = rt.alloc();
    for (op, room, place) in [
        (0x15, 4, Place::End(4)),
        (0x15, 3, Place::Stop(0)),
        (0x84, 6, Place::End(6)),
        (0x84, 5, Place::Stop(1)),
        (0x84, 4, Place::Stop(1)),
        (0x84, 3, Place::Stop(0)),
        (0x00, 4, Place::Stop(1)),
    ] {
        let code = [0xc4, op, 0, 0, 0, 0, 0, 0];
        assert_eq!(rt; read_within(alloc, &code, 0, room), Some(place));
    }
}

/// `low` and `high`, the room of the code, and where reading ends or stops.
const TABLES: [(i32, i32, usize, Place); 18] = [
    (1, 0, 15, Place::Stop(0)),
    (1, 0, 16, Place::End(16)),
    (0, 0, 20, Place::End(20)),
    (0, 0, 19, Place::Stop(12)),
    (0, 1, 23, Place::Stop(15)),
    (0, 1, 24, Place::End(24)),
    (0, 0x100, 20, Place::Stop(14)),
    (0, 0x1_0000, 20, Place::Stop(13)),
    (0, 0x100_0000, 20, Place::Stop(12)),
    (-1, 0, 20, Place::Stop(12)),
    (-3, -1, 24, Place::Stop(15)),
    (5, i32::MIN, 16, Place::End(16)),
    (i32::MIN, 0, 16, Place::Stop(11)),
    (i32::MIN, i32::MIN, 19, Place::Stop(11)),
    (i32::MIN, i32::MIN, 20, Place::End(20)),
    (i32::MIN, i32::MIN + 1, 20, Place::Stop(15)),
    (i32::MAX, i32::MAX, 16, Place::Stop(15)),
    (i32::MAX, i32::MAX, 20, Place::End(20)),
];

#[test]
fn keys_of_a_tableswitch(rt: HostRuntime) {
    let alloc = rt.alloc();
    for (low, high, room, place) in TABLES {
        let code = switch(0xaa, low, high);
        assert_eq!(rt; read_within(alloc, &code, 0, room), Some(place));
    }
}

#[test]
fn cases_of_a_lookupswitch(rt: HostRuntime) {
    let alloc = rt.alloc();
    for (count, room, place) in [
        (0, 12, Place::End(12)),
        (1, 12, Place::Stop(11)),
        (1, 19, Place::Stop(11)),
        (1, 20, Place::End(20)),
        (2, 27, Place::Stop(11)),
        (0x100, 20, Place::Stop(10)),
        (0x1_0000, 20, Place::Stop(9)),
        (0x100_0000, 20, Place::Stop(8)),
        (-1, 36, Place::Stop(8)),
    ] {
        let code = switch(0xab, count, 0);
        assert_eq!(rt; read_within(alloc, &code, 0, room), Some(place));
    }
}

#[test]
fn padding_counts_from_the_start(rt: HostRuntime) {
    let alloc = rt.alloc();
    let mut code = [0; 24];
    code[1] = 0xaa;
    for (room, place) in [
        (14, Place::Stop(1)),
        (15, Place::Stop(12)),
        (19, Place::End(20)),
    ] {
        assert_eq!(rt; read_within(alloc, &code, 1, room), Some(place));
    }
}

#[test]
fn the_input_ends(rt: HostRuntime) {
    let alloc = rt.alloc();
    let code = switch(0xaa, 0, 0);
    for len in 0..20 {
        let (front, _) = code.split_at(len);
        assert_eq!(rt; read(alloc, front, 0, 2, 22 - len), Some(Place::Stop(len)));
    }
    // A number that is already too great stops the reading before the end does.
    let code = switch(0xaa, 0, 0x100_0000);
    let (front, _) = code.split_at(13);
    assert_eq!(rt; read(alloc, front, 0, 0, 7), Some(Place::Stop(12)));
    assert_eq!(rt; read(alloc, &[0x11], 0, 0, 1), Some(Place::Stop(0)));
    assert_eq!(rt; read(alloc, &[0x11], 0, 0, 2), Some(Place::Stop(1)));
}
