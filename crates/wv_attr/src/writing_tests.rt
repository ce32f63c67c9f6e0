use super::*;
use std::alloc::Global;
use std::test::*;
use wv_base::{
    Annotation, Bytes, ClassFault, Const, Element, Items, Memory, Name, NamedElement, Note,
};
use wv_pool::{Pool, PoolFault, read_pool};

/// A pool: 1 La; 2 n, 3 Integer, 4 Double, 6 Float, 7 Long, 9 I, 10 V.
const POOL: [u8; 48] = [
    0, 11, 1, 0, 3, 76, 97, 59, 1, 0, 1, 110, 3, 0, 0, 0, 1, 6, 0, 0, 0, 0, 0, 0, 0, 1, 4, 0, 0, 0,
    1, 5, 0, 0, 0, 0, 0, 0, 0, 1, 1, 0, 1, 73, 1, 0, 1, 86,
];

/// An annotation with an element of each kind, whose constants stand in the order of the pool.
const KINDS: [u8; 84] = [
    0, 1, 0, 1, 0, 13, 0, 2, 66, 0, 3, 0, 2, 67, 0, 3, 0, 2, 68, 0, 4, 0, 2, 70, 0, 6, 0, 2, 73, 0,
    3, 0, 2, 74, 0, 7, 0, 2, 83, 0, 3, 0, 2, 90, 0, 3, 0, 2, 115, 0, 2, 0, 2, 101, 0, 9, 0, 2, 0,
    2, 99, 0, 10, 0, 2, 64, 0, 1, 0, 0, 0, 2, 91, 0, 2, 91, 0, 1, 99, 0, 9, 91, 0, 0,
];

/// Lists of three parameters: one annotation, none and two.
const LISTS: [u8; 19] = [3, 0, 1, 0, 1, 0, 0, 0, 0, 0, 2, 0, 1, 0, 0, 0, 1, 0, 0];

/// The table of the annotations, if one can have them.
fn written(alloc: Global, notes: &[Note], pool: &mut Pool) -> Result<Option<Bytes>, PoolFault> {
    if !are_writable(alloc, notes)? {
        return Ok(None);
    }
    Ok(Some(write_notes(alloc, notes, pool)?))
}

/// The table of parameters of the annotations, if one can have them.
fn lists_written(
    alloc: Global,
    notes: &[Note],
    count: u8,
    pool: &mut Pool,
) -> Result<Option<Bytes>, PoolFault> {
    if !are_parameters_writable(alloc, notes, count)? {
        return Ok(None);
    }
    Ok(Some(write_parameter_notes(alloc, notes, count, pool)?))
}

/// Whether the table was written, and as these bytes.
fn is_table(table: &Option<Bytes>, bytes: &[u8]) -> bool {
    match table {
        Some(table) => table.as_slice() == bytes,
        None => false,
    }
}

/// An annotation of the class, of a parameter or none, without elements.
fn plain(alloc: Global, class: &str, parameter: Option<u8>) -> Result<Note, Memory> {
    Ok(Note {
        visible: true,
        parameter,
        annotation: Annotation {
            class: Name::from_ascii(alloc, class)?,
            elements: Items::new(alloc),
        },
    })
}

/// A pool with this count of texts, of which the first is La; and the others are empty.
fn texts(alloc: Global, count: u16) -> Result<Pool, Fail> {
    let mut bytes = Vec::new(alloc);
    bytes.extend_from_slice(&count.to_be_bytes())?;
    bytes.extend_from_slice(&[1, 0, 3, 76, 97, 59])?;
    for _ in 2..count {
        bytes.extend_from_slice(&[1, 0, 0])?;
    }
    let (pool, _) = read_pool(alloc, &bytes)?;
    Ok(pool)
}

#[test]
fn each_kind_is_written(rt: HostRuntime) -> Result<(), Fail> {
    let (full, _) = read_pool(rt.alloc(), &POOL)?;
    let notes = read_notes(rt.alloc(), &KINDS, &full, true)?;
    let (mut pool, _) = read_pool(rt.alloc(), &[0, 1])?;
    let table = written(rt.alloc(), notes.as_slice(), &mut pool)?;
    assert!(rt; is_table(&table, &KINDS));
    assert!(rt; pool.write(rt.alloc())?.as_slice() == POOL.as_slice());
    Ok(())
}

#[test]
fn lists_are_read_and_written(rt: HostRuntime) -> Result<(), Fail> {
    let (mut pool, _) = read_pool(rt.alloc(), &POOL)?;
    let notes = read_parameter_notes(rt.alloc(), &LISTS, &pool, false)?;
    let [first, second, third] = notes.as_slice() else {
        return Err("there aren't three annotations")?;
    };
    assert!(rt; !first.visible && first.annotation.class.is_ascii("a"));
    assert_eq!(rt; first.parameter, Some(0));
    assert_eq!(rt; second.parameter, Some(2));
    assert_eq!(rt; third.parameter, Some(2));
    let table = lists_written(rt.alloc(), notes.as_slice(), 3, &mut pool)?;
    assert!(rt; is_table(&table, &LISTS));
    assert!(rt; lists_written(rt.alloc(), notes.as_slice(), 2, &mut pool)?.is_none());
    Ok(())
}

#[test]
fn a_break_in_a_list(rt: HostRuntime) -> Result<(), Fail> {
    let (pool, _) = read_pool(rt.alloc(), &POOL)?;
    let mut bytes = LISTS;
    bytes[12] = 9;
    assert!(rt;
        matches!(
            read_parameter_notes(rt.alloc(), &bytes, &pool, true),
            Err(ClassFault::Reference { at: 11 })
        )
    );
    // An annotation without elements leaves seven bytes, which no annotations have.
    assert!(rt;
        matches!(
            read_parameter_notes(rt.alloc(), &LISTS[..18], &pool, true),
            Err(ClassFault::Layout { at: 6 })
        )
    );
    Ok(())
}

#[test]
fn the_order_of_parameters(rt: HostRuntime) -> Result<(), Fail> {
    let (mut pool, _) = read_pool(rt.alloc(), &POOL)?;
    let mut notes = Vec::new(rt.alloc());
    notes.push(plain(rt.alloc(), "a", Some(1))?)?;
    notes.push(plain(rt.alloc(), "a", Some(0))?)?;
    assert!(rt; lists_written(rt.alloc(), &notes, 2, &mut pool)?.is_none());
    notes.push(plain(rt.alloc(), "a", None)?)?;
    notes.swap(0, 1);
    assert!(rt; lists_written(rt.alloc(), &notes, 2, &mut pool)?.is_none());
    let table = lists_written(rt.alloc(), &notes[..2], 2, &mut pool)?;
    assert!(rt; is_table(&table, &[2, 0, 1, 0, 1, 0, 0, 0, 1, 0, 1, 0, 0]));
    Ok(())
}

#[test]
fn cut_tables(rt: HostRuntime) -> Result<(), Fail> {
    // One annotation with one text. Where the bytes end after the list's count can't be filled by so
    // many annotations, the count is wrong; after six bytes it is the count of elements.
    let bytes = [0, 1, 0, 1, 0, 1, 0, 2, b's', 0, 2];
    let places = [0, 0, 1, 0, 0, 0, 5, 0, 0, 0, 1];
    for (end, place) in places.iter().enumerate() {
        let at = match read_layout(rt.alloc(), &bytes[..end], 0) {
            Err(ClassFault::Layout { at }) => Some(at),
            _ => None,
        };
        assert_eq!(rt; at, Some(*place), "cut at {end}");
    }
    Ok(())
}

#[test]
fn full_pools(rt: HostRuntime) -> Result<(), Fail> {
    let known = plain(rt.alloc(), "a", None)?;
    let other = plain(rt.alloc(), "b", None)?;
    let mut pool = texts(rt.alloc(), 65534)?;
    let notes = [other];
    let table = written(rt.alloc(), &notes, &mut pool)?;
    assert!(rt; is_table(&table, &[0, 1, 255, 254, 0, 0]));
    let mut pool = texts(rt.alloc(), 65535)?;
    assert!(rt; matches!(written(rt.alloc(), &notes, &mut pool), Err(PoolFault::Full)));
    assert!(rt; matches!(lists_written(rt.alloc(), &notes, 1, &mut pool), Ok(None)));
    let table = written(rt.alloc(), &[known], &mut pool)?;
    assert!(rt; is_table(&table, &[0, 1, 0, 1, 0, 0]));
    Ok(())
}

/// Arrays so many deep, the innermost of them empty.
fn arrays(alloc: Global, depth: usize) -> Result<Element, Fail> {
    let mut value = Element::Array(Items::new(alloc));
    for _ in 1..depth {
        let mut values = Items::new(alloc);
        values.push(value)?;
        value = Element::Array(values);
    }
    Ok(value)
}

/// Whether a table can have an annotation of the class with the value.
fn can_have(alloc: Global, class: &str, value: Element) -> Result<bool, Fail> {
    let mut elements = Items::new(alloc);
    elements.push(NamedElement {
        name: Name::from_ascii(alloc, "n")?,
        value,
    })?;
    let annotation = Annotation {
        class: Name::from_ascii(alloc, class)?,
        elements,
    };
    let note = Note {
        visible: true,
        parameter: None,
        annotation,
    };
    Ok(are_writable(alloc, &[note])?)
}

#[test]
fn what_a_table_can_have(rt: HostRuntime) -> Result<(), Fail> {
    let alloc = rt.alloc();
    assert!(rt; can_have(alloc, "a", arrays(alloc, 255)?)?);
    assert!(rt; !can_have(alloc, "a", arrays(alloc, 256)?)?);
    assert!(rt; !can_have(alloc, "[a", arrays(alloc, 1)?)?);
    let value = Const::Integer(1);
    assert!(rt; can_have(alloc, "a", Element::Constant { tag: b'Z', value })?);
    let value = Const::Integer(1);
    assert!(rt; !can_have(alloc, "a", Element::Constant { tag: b'J', value })?);
    assert!(rt; can_have(alloc, "a", Element::Class(Name::from_ascii(alloc, "V")?))?);
    assert!(rt; !can_have(alloc, "a", Element::Class(Name::from_ascii(alloc, "W")?))?);
    let descriptor = Name::from_ascii(alloc, "V")?;
    let name = Name::from_ascii(alloc, "n")?;
    assert!(rt; !can_have(alloc, "a", Element::Enum { descriptor, name })?);
    Ok(())
}
