//! The constants that the parts of a class name.
ghost use Rattle.std.specs.Prelude.{◌≡◌, ◌++◌, map, codes, IfOk, OnOk};
ghost use Rattle.wv_base.specs.declared.constant.Const.TheVariants as constants;
ghost use Rattle.wv_class.specs.Enterable.{IsWritableBody};
ghost use Rattle.wv_class.specs.Needs.{value_constants, code_constants, exceptions_constants, member_constants, head_constants};
ghost use Rattle.wv_class.specs.Tables.{table_name};

use std::alloc::Global;
use wv_base::{Body, ClassFile, Const, Items, Member, Memory, Name, Note};
use wv_code::push_body_constants;

fn text(alloc: Global, ascii: &str) -> Result<Const, Memory>
    ensures { IfOk result (λ constant. constant ≡ constants.Utf8 ascii.now) }
{
    Ok(Const::Utf8(Name::from_ascii(alloc, ascii)?))
}

fn push_classes(names: &[Name], out: &mut Items<Const>) -> Result<(), Memory>
    ensures { OnOk result (out.new ≡ out.old ++ map (λ n. constants.Class n) names.now) }
{
    for name in names {
        out.push(Const::Class(name.copy()?))?;
    }
    Ok(())
}

fn push_value(alloc: Global, value: &Option<Const>, out: &mut Items<Const>) -> Result<(), Memory>
    ensures { OnOk result (out.new ≡ out.old ++ value_constants value.now) }
{
    if let Some(value) = value {
        out.push(text(alloc, "ConstantValue")?)?;
        out.push(value.copy()?)?;
    }
    Ok(())
}

fn push_code(alloc: Global, body: &Option<Body>, out: &mut Items<Const>) -> Result<(), Memory>
    requires { IsWritableBody body.now }
    ensures { OnOk result (out.new ≡ out.old ++ code_constants body.now) }
{
    if let Some(body) = body {
        out.push(text(alloc, "Code")?)?;
        push_body_constants(alloc, body, out)?;
    }
    Ok(())
}

fn push_exceptions(alloc: Global, names: &[Name], out: &mut Items<Const>) -> Result<(), Memory>
    ensures { OnOk result (out.new ≡ out.old ++ exceptions_constants names.now) }
{
    if names.is_empty() {
        return Ok(());
    }
    out.push(text(alloc, "Exceptions")?)?;
    push_classes(names, out)
}

/// The constants that a field or a method names, without those of its annotations.
pub(crate) fn member_constants(alloc: Global, member: &Member) -> Result<Items<Const>, Memory>
    requires { IsWritableBody member.now.body }
    ensures { IfOk result (λ found. found ≡ member_constants member.now) }
{
    let mut found = Items::new(alloc);
    found.push(Const::Utf8(member.name.copy()?))?;
    found.push(Const::Utf8(member.descriptor.copy()?))?;
    push_value(alloc, &member.value, &mut found)?;
    push_code(alloc, &member.body, &mut found)?;
    push_exceptions(alloc, member.throws.as_slice(), &mut found)?;
    Ok(found)
}

/// The constants of a class's own name, of its superclass and of its interfaces.
pub(crate) fn head_constants(alloc: Global, class: &ClassFile) -> Result<Items<Const>, Memory>
    ensures { IfOk result (λ found. found ≡ head_constants class.now) }
{
    let mut found = Items::new(alloc);
    found.push(Const::Class(class.name.copy()?))?;
    found.push(Const::Class(class.superclass.copy()?))?;
    push_classes(class.interfaces.as_slice(), &mut found)?;
    Ok(found)
}

/// The name of the attribute in which an annotation stands (JVM Specification 4.7.16 to 4.7.19).
pub(crate) fn table_name(alloc: Global, note: &Note) -> Result<Name, Memory>
    ensures { IfOk result (λ name. name ≡ table_name note.now) }
{
    Name::from_ascii(
        alloc,
        match (note.visible, note.parameter) {
            (true, None) => "RuntimeVisibleAnnotations",
            (false, None) => "RuntimeInvisibleAnnotations",
            (true, Some(_)) => "RuntimeVisibleParameterAnnotations",
            (false, Some(_)) => "RuntimeInvisibleParameterAnnotations",
        },
    )
}
