//! Descriptors of the platform's methods, and units that are none.

use super::*;
use std::alloc::{AllocError, Global};
use std::test::Fail;
use wv_base::Name;

/// Adds the type as Java spells it, as `int[]`.
fn print_field(text: &mut String, field: &FieldType) -> Result<(), AllocError> {
    match &field.element {
        ElementType::Primitive(primitive) => text.push_str(keyword(*primitive))?,
        ElementType::Class(name) => {
            for unit in name.units() {
                text.push(char::from(u8::try_from(*unit).unwrap_or(b'?')))?;
            }
        }
    }
    for _ in 0..field.dimensions {
        text.push_str("[]")?;
    }
    Ok(())
}

fn keyword(primitive: Primitive) -> &'static str {
    match primitive {
        Primitive::Boolean => "boolean",
        Primitive::Byte => "byte",
        Primitive::Char => "char",
        Primitive::Short => "short",
        Primitive::Int => "int",
        Primitive::Long => "long",
        Primitive::Float => "float",
        Primitive::Double => "double",
    }
}

/// The result, and behind it each parameter after a space.
fn print_method(alloc: Global, method: &MethodType) -> Result<String, AllocError> {
    let mut text = String::new(alloc);
    match &method.result {
        Some(field) => print_field(&mut text, field)?,
        None => text.push_str("void")?,
    }
    for field in method.parameters.as_slice() {
        text.push(' ')?;
        print_field(&mut text, field)?;
    }
    Ok(text)
}

fn words_of(method: &MethodType) -> Option<u32> {
    if method.parameters.len() < 1 << 31 {
        Some(words(method))
    } else {
        None
    }
}

#[test]
fn platform_methods(rt: HostRuntime) -> Result<(), Fail> {
    for (descriptor, printed, count) in [
        ("()V", "void", 0),
        ("()I", "int", 0),
        ("()Z", "boolean", 0),
        ("()B", "byte", 0),
        ("()S", "short", 0),
        ("()C", "char", 0),
        ("()J", "long", 0),
        ("()F", "float", 0),
        ("()D", "double", 0),
        ("()Ljava/lang/Object;", "java/lang/Object", 0),
        ("()Ljava/lang/String;", "java/lang/String", 0),
        ("(Ljava/lang/Object;)Z", "boolean java/lang/Object", 1),
        ("(I)C", "char int", 1),
        ("(II)Ljava/lang/String;", "java/lang/String int int", 2),
        (
            "(Ljava/lang/String;)Ljava/lang/String;",
            "java/lang/String java/lang/String",
            1,
        ),
        ("(J)Ljava/lang/String;", "java/lang/String long", 2),
        (
            "(Z)Ljava/lang/StringBuilder;",
            "java/lang/StringBuilder boolean",
            1,
        ),
        (
            "(C)Ljava/lang/StringBuilder;",
            "java/lang/StringBuilder char",
            1,
        ),
        ("(J)V", "void long", 2),
        ("(Ljava/lang/String;)V", "void java/lang/String", 1),
        ("(Ljava/lang/String;I)V", "void java/lang/String int", 2),
        ("(S)Ljava/lang/Short;", "java/lang/Short short", 1),
        ("(B)Ljava/lang/Byte;", "java/lang/Byte byte", 1),
        ("(F)Ljava/lang/Float;", "java/lang/Float float", 1),
        ("(D)Ljava/lang/Double;", "java/lang/Double double", 2),
        ("(F)I", "int float", 1),
        ("(I)F", "float int", 1),
        ("(D)J", "long double", 2),
        ("(J)D", "double long", 2),
        ("(Ljava/lang/String;Z)V", "void java/lang/String boolean", 2),
        (
            "(Ljava/lang/String;ZI)V",
            "void java/lang/String boolean int",
            3,
        ),
        (
            "(Ljava/lang/String;ZJ)V",
            "void java/lang/String boolean long",
            4,
        ),
        (
            "(Ljava/lang/String;ZD)V",
            "void java/lang/String boolean double",
            4,
        ),
        (
            "(Ljava/lang/String;ZLjava/lang/Object;)V",
            "void java/lang/String boolean java/lang/Object",
            3,
        ),
        ("([Ljava/lang/String;)V", "void java/lang/String[]", 1),
        ("([J[[DJ)[I", "int[] long[] double[][] long", 4),
    ] {
        let name = Name::from_ascii(rt.alloc(), descriptor)?;
        let Some(method) = method_type(rt.alloc(), &name)? else {
            panic!(rt; "{descriptor}");
        };
        let text = print_method(rt.alloc(), &method)?;
        assert_eq!(rt; text.as_str(), printed, "{descriptor}");
        assert_eq!(rt; words_of(&method), Some(count), "{descriptor}");
    }
    Ok(())
}

#[test]
fn cut_descriptors(rt: HostRuntime) -> Result<(), Fail> {
    let whole = Name::from_ascii(rt.alloc(), "(La/b;[J[[Lc;Z)[I")?;
    assert!(rt; method_type(rt.alloc(), &whole)?.is_some());
    for end in 0..whole.len() {
        let cut = Name::from_slice(rt.alloc(), &whole.units()[..end])?;
        assert!(rt; method_type(rt.alloc(), &cut)?.is_none(), "{end}");
    }
    Ok(())
}

#[test]
fn other_names(rt: HostRuntime) -> Result<(), Fail> {
    for text in [
        "(V)V", "()VV", "()La//b;", "([)V", "([V)V", "I", "(I", "()[V", "(La.b;)V",
    ] {
        let name = Name::from_ascii(rt.alloc(), text)?;
        assert!(rt; method_type(rt.alloc(), &name)?.is_none(), "{text}");
    }
    for text in ["", "V", "II", "La", "L;", "La;;", "()V", "["] {
        let name = Name::from_ascii(rt.alloc(), text)?;
        assert!(rt; field_type(rt.alloc(), &name)?.is_none(), "{text}");
    }
    Ok(())
}

#[test]
fn dimensions(rt: HostRuntime) -> Result<(), Fail> {
    for (count, read) in [(0, Some(0)), (1, Some(1)), (255, Some(255)), (256, None)] {
        let mut units = vec![in rt.alloc(); b'[' as u16; count]?;
        units.push(b'J' as u16)?;
        let name = Name::from_vec(rt.alloc(), units)?;
        let field = field_type(rt.alloc(), &name)?;
        assert_eq!(rt; field.map(|field| field.dimensions), read, "{count}");
    }
    Ok(())
}
