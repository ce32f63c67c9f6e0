use super::*;
use std::alloc::Global;
use std::test::*;
use wv_base::Bytes;

const TABLE: [u8; 20] = [
    0xaa, 0, 0, 0, 0, 0, 0, 0x14, 0, 0, 0, 1, 0, 0, 0, 1, 0, 0, 0, 0x14,
];

/// Each opcode of an instruction once: the first and the last of a family, and the operands that
/// are put behind each.
const FAMILIES: [(u8, u8, &[u8]); 27] = [
    (0x00, 0x0f, &[]),
    (0x10, 0x10, &[0xff]),
    (0x11, 0x11, &[0xff, 0xfe]),
    (0x12, 0x12, &[9]),
    (0x13, 0x14, &[1, 9]),
    (0x15, 0x19, &[4]),
    (0x1a, 0x35, &[]),
    (0x36, 0x3a, &[4]),
    (0x3b, 0x83, &[]),
    (0x84, 0x84, &[4, 0xff]),
    (0x85, 0x98, &[]),
    (0x99, 0xa7, &[0xff, 0xfd]),
    (
        0xaa,
        0xaa,
        &[
            0, 0, 0, 0, 0, 0, 9, 255, 255, 255, 255, 0, 0, 0, 0, 0, 0, 0, 7, 0, 0, 0, 8,
        ],
    ),
    (
        0xab,
        0xab,
        &[
            0, 0, 0, 0, 0, 0, 9, 0, 0, 0, 1, 255, 255, 255, 255, 0, 0, 0, 8,
        ],
    ),
    (0xac, 0xb1, &[]),
    (0xb2, 0xb8, &[1, 2]),
    (0xb9, 0xb9, &[1, 2, 3, 4]),
    (0xba, 0xba, &[1, 2, 0, 0]),
    (0xbb, 0xbb, &[1, 2]),
    (0xbc, 0xbc, &[10]),
    (0xbd, 0xbd, &[1, 2]),
    (0xbe, 0xbf, &[]),
    (0xc0, 0xc1, &[1, 2]),
    (0xc2, 0xc3, &[]),
    (0xc5, 0xc5, &[1, 2, 3]),
    (0xc6, 0xc7, &[0, 6]),
    (0xc8, 0xc8, &[0xff, 0xff, 0xff, 0xfd]),
];

/// The opcodes that `wide` changes, and the operands behind them.
const WIDENED: [(u8, u8, &[u8]); 3] = [
    (0x15, 0x19, &[1, 4]),
    (0x36, 0x3a, &[1, 4]),
    (0x84, 0x84, &[1, 4, 0xff, 0xfe]),
];

fn fault_at(alloc: Global, code: &[u8], at: usize) -> Option<usize> {
    match decode(alloc, code, at) {
        Err(InsnFault::Fault { at }) => Some(at),
        _ => None,
    }
}

fn length_at(alloc: Global, code: &[u8], at: usize) -> Option<usize> {
    match decode(alloc, code, at) {
        Ok((_, len)) => Some(len),
        Err(_) => None,
    }
}

/// The bytes of the instruction that stands at the front of `code`.
fn again(alloc: Global, code: &[u8]) -> Option<Bytes> {
    let (raw, _) = decode(alloc, code, 0).ok()?;
    if !raw.is_encodable() {
        return None;
    }
    let mut out = Bytes::new(alloc);
    encode(&raw, 0, &mut out).ok()?;
    Some(out)
}

#[test]
fn a_table_switch(rt: HostRuntime) -> Result<(), Fail> {
    let alloc = rt.alloc();
    assert_eq!(rt; length_at(alloc, &TABLE, 0), Some(20));
    assert_eq!(rt; fault_at(alloc, &TABLE[..19], 0), Some(19));
    Ok(())
}

#[test]
fn each_opcode_once(rt: HostRuntime) -> Result<(), Fail> {
    let alloc = rt.alloc();
    for (first, last, operands) in &FAMILIES {
        for op in *first..=*last {
            let mut code = Vec::new(alloc);
            code.push(op)?;
            code.extend_from_slice(operands)?;
            assert_eq!(rt;
                length_at(alloc, code.as_slice(), 0),
                Some(code.len()),
                "{op:x}"
            );
            let bytes = again(alloc, code.as_slice()).ok_or("it can be written")?;
            assert_eq!(rt; bytes.as_slice(), code.as_slice(), "{op:x}");
            for cut in 0..code.len() {
                assert_eq!(rt; fault_at(alloc, &code[..cut], 0), Some(cut), "{op:x}");
            }
        }
    }
    Ok(())
}

#[test]
fn each_widened_opcode_once(rt: HostRuntime) -> Result<(), Fail> {
    let alloc = rt.alloc();
    for (first, last, operands) in &WIDENED {
        for op in *first..=*last {
            let mut code = Vec::new(alloc);
            code.push(0xc4)?;
            code.push(op)?;
            code.extend_from_slice(operands)?;
            assert_eq!(rt;
                length_at(alloc, code.as_slice(), 0),
                Some(code.len()),
                "{op:x}"
            );
            let bytes = again(alloc, code.as_slice()).ok_or("it can be written")?;
            assert_eq!(rt; bytes.as_slice(), code.as_slice(), "{op:x}");
            for cut in 0..code.len() {
                assert_eq!(rt; fault_at(alloc, &code[..cut], 0), Some(cut), "{op:x}");
            }
        }
    }
    Ok(())
}

#[test]
fn reserved_opcodes(rt: HostRuntime) {
    let alloc = rt.alloc();
    for op in 0u8..=255 {
        let reserved = matches!(op, 0xa8 | 0xa9 | 0xc9..=0xff);
        let widened = matches!(op, 0x15..=0x19 | 0x36..=0x3a | 0x84);
        let code = [
            0, op, 0, 0, 0, 0, 0, 0, 0, 0, 0, 0, 0, 0, 0, 0, 0, 0, 0, 0, 0,
        ];
        assert_eq!(rt; fault_at(alloc, &code, 1) == Some(1), reserved, "{op:x}");
        let wide = [0, 0xc4, op, 0, 0, 0, 0];
        assert_eq!(rt; fault_at(alloc, &wide, 1) == Some(2), !widened, "{op:x}");
    }
}

#[test]
fn first_faults(rt: HostRuntime) {
    let alloc = rt.alloc();
    // A negative count of pairs, at its first byte, even where the code ends behind it.
    assert_eq!(rt;
        fault_at(alloc, &[0xab, 0, 0, 0, 0, 0, 0, 9, 0x80], 0),
        Some(8)
    );
    // The last two bytes of invokedynamic.
    assert_eq!(rt; fault_at(alloc, &[0xba, 0, 1, 1], 0), Some(3));
    assert_eq!(rt; fault_at(alloc, &[0xba, 0, 1, 0, 1, 0], 0), Some(4));
    // Behind the code's end.
    assert_eq!(rt; fault_at(alloc, &[0], 1), Some(1));
    assert_eq!(rt; fault_at(alloc, &[0], 7), Some(7));
    // A count of keys that no code holds.
    let code = [
        0xaa, 1, 2, 3, 0, 0, 0, 0, 0x80, 0, 0, 0, 0x7f, 0xff, 0xff, 0xff, 0, 0, 0, 0,
    ];
    assert_eq!(rt; fault_at(alloc, &code, 0), Some(20));
    // No keys at all, and any pad bytes.
    let code = [0, 0xaa, 1, 2, 0, 0, 0, 0, 0, 0, 0, 1, 0, 0, 0, 0];
    assert_eq!(rt; length_at(alloc, &code, 1), Some(15));
}

#[test]
fn signed_operands(rt: HostRuntime) {
    let alloc = rt.alloc();
    assert!(rt;
        matches!(
            decode(alloc, &[0x10, 0xff], 0),
            Ok((
                Raw::Push {
                    op: 0x10,
                    value: -1
                },
                2
            ))
        )
    );
    assert!(rt;
        matches!(
            decode(alloc, &[0x84, 0xff, 0xff], 0),
            Ok((
                Raw::Inc {
                    slot: 255,
                    by: -1,
                    wide: false
                },
                3
            ))
        )
    );
    assert!(rt;
        matches!(
            decode(alloc, &[0xa7, 0xff, 0xfd], 0),
            Ok((
                Raw::Branch {
                    op: 0xa7,
                    offset: -3
                },
                3
            ))
        )
    );
    let goto_w = [0xc8, 0, 1, 0, 0];
    assert!(rt;
        matches!(
            decode(alloc, &goto_w, 0),
            Ok((
                Raw::Branch {
                    op: 0xc8,
                    offset: 65536
                },
                5
            ))
        )
    );
    let iinc = [0xc4, 0x84, 1, 0, 0x80, 0];
    assert!(rt;
        matches!(
            decode(alloc, &iinc, 0),
            Ok((
                Raw::Inc {
                    slot: 256,
                    by: -32768,
                    wide: true
                },
                6
            ))
        )
    );
}
