use crate::{
    Field, JsonError, field_bool, field_list, field_number, field_object, field_text, field_texts,
    has_field, read_object, read_text_members, read_text_or_texts, read_text_tables, read_texts,
    read_texts_members,
};
use std::test::Fail;

/// What a field shows, for tables.
fn shown<T: Drop>(field: Field<T>) -> &'static str {
    match field {
        Field::Absent => "absent",
        Field::Is(_) => "is",
        Field::Other => "other",
    }
}

#[test]
fn reads_objects(rt: HostRuntime) -> Result<(), Fail> {
    let alloc = rt.alloc();
    for bytes in [
        b"".as_slice(),
        b"[]",
        b"null",
        b"{",
        b"{} x",
        b"\"\xff\"",
        b"{\"a\":\"\xc3\"}",
    ] {
        let error = read_object(alloc, bytes).err();
        assert_eq!(rt; error, Some(JsonError::Wrong));
    }
    assert!(rt; read_object(alloc, b" {\"id\": \"a\"} ").is_ok());
    for (lists, read) in [(126usize, true), (127, false)] {
        let mut text = String::from_str(alloc, "{\"a\":")?;
        for _ in 0..lists {
            text.push('[')?;
        }
        for _ in 0..lists {
            text.push(']')?;
        }
        text.push('}')?;
        assert_eq!(rt;
            read_object(alloc, text.as_bytes()).is_ok(),
            read,
            "{lists} lists"
        );
    }
    Ok(())
}

#[test]
fn fields_have_kinds(rt: HostRuntime) -> Result<(), Fail> {
    let alloc = rt.alloc();
    let value = read_object(
        alloc,
        br#"{"text":"t","number":-7,"bool":true,"list":["a","b"],"object":{"defaultRequire":1},
            "null":null,"one":1.0,"exponent":1e0,"minus":-0,"wide":2147483648,"mixed":["a",1]}"#,
    )
    .map_err(|_| "no object")?;
    let table = [
        ("text", "is", "other", "other", "other", "other", "other"),
        ("number", "other", "is", "other", "other", "other", "other"),
        ("bool", "other", "other", "is", "other", "other", "other"),
        ("list", "other", "other", "other", "is", "is", "other"),
        ("mixed", "other", "other", "other", "is", "other", "other"),
        ("object", "other", "other", "other", "other", "other", "is"),
        ("null", "other", "other", "other", "other", "other", "other"),
        ("one", "other", "other", "other", "other", "other", "other"),
        (
            "exponent", "other", "other", "other", "other", "other", "other",
        ),
        (
            "minus", "other", "other", "other", "other", "other", "other",
        ),
        ("wide", "other", "other", "other", "other", "other", "other"),
        (
            "Text", "absent", "absent", "absent", "absent", "absent", "absent",
        ),
    ];
    for (key, text, number, boolean, list, texts, object) in table {
        assert_eq!(rt; shown(field_text(alloc, &value, key)?), text, "{key}");
        assert_eq!(rt; shown(field_number(&value, key)), number, "{key}");
        assert_eq!(rt; shown(field_bool(&value, key)), boolean, "{key}");
        assert_eq!(rt; shown(field_list(&value, key)), list, "{key}");
        assert_eq!(rt; shown(field_texts(alloc, &value, key)?), texts, "{key}");
        assert_eq!(rt; shown(field_object(&value, key)), object, "{key}");
    }
    assert!(rt; has_field(&value, "null"));
    assert!(rt; !has_field(&value, "Text"));
    Ok(())
}

#[test]
fn values_are_kept(rt: HostRuntime) -> Result<(), Fail> {
    let alloc = rt.alloc();
    let value = read_object(
        alloc,
        br#"{"text":"\u00e9","inner":{"defaultRequire":-2147483648},"list":["a","b"],
            "depends":{"b":"*","a":["1.x",">=2"]},"mappings":{"y":"1","x":"2"}}"#,
    )
    .map_err(|_| "no object")?;
    let Field::Is(text) = field_text(alloc, &value, "text")? else {
        return Err(Fail::from("text"));
    };
    assert_eq!(rt; text.as_str(), "é");
    let Field::Is(inner) = field_object(&value, "inner") else {
        return Err(Fail::from("inner"));
    };
    let Field::Is(number) = field_number(inner, "defaultRequire") else {
        return Err(Fail::from("defaultRequire"));
    };
    assert_eq!(rt; number, i32::MIN);
    let list = value.get("list").ok_or("list")?;
    let texts = read_texts(alloc, list)?.ok_or("texts")?;
    assert_eq!(rt; texts.len(), 2);
    let depends = value.get("depends").ok_or("depends")?;
    let entries = read_texts_members(alloc, depends)?.ok_or("depends")?;
    let lens = [("a", 2), ("b", 1)];
    for ((key, texts), (wanted, len)) in entries.as_slice().iter().zip(&lens) {
        assert_eq!(rt; key.as_str(), *wanted);
        assert_eq!(rt; texts.len(), *len);
    }
    let mappings = value.get("mappings").ok_or("mappings")?;
    let mapped = read_text_members(alloc, mappings)?.ok_or("mappings")?;
    for ((key, text), (wanted, of)) in mapped.as_slice().iter().zip(&[("x", "2"), ("y", "1")]) {
        assert_eq!(rt; (key.as_str(), text.as_str()), (*wanted, *of));
    }
    let tables = read_text_tables(alloc, &value)?;
    assert!(rt; tables.is_none());
    let refmap = read_object(alloc, br#"{"a/B":{"y":"1","x":"2"},"a/C":{}}"#).map_err(
        |_| "refmap",
    )?;
    let tables = read_text_tables(alloc, &refmap)?.ok_or("refmap")?;
    for ((class, table), (wanted, len)) in tables
        .as_slice()
        .iter()
        .zip(&[("a/B", 2usize), ("a/C", 0)])
    {
        assert_eq!(rt; (class.as_str(), table.len()), (*wanted, *len));
    }
    assert!(rt; read_text_members(alloc, depends)?.is_none());
    assert!(rt; read_text_or_texts(alloc, depends)?.is_none());
    Ok(())
}
