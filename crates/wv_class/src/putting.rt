//! Numbers and the names that they stand for, at the end of bytes.
ghost use Rattle.std.specs.Prelude.{◌≡◌, ◌++◌, ◌<◌, ◌^◌, length, Some, OnOk};
ghost use Rattle.std.specs.List.{AllByRecursion};
ghost use Rattle.wv_base.specs.declared.constant.Const.TheVariants as constants;
ghost use Rattle.wv_pool.specs.Constants.{constant_of};
ghost use Rattle.wv_pool.specs.Entries.{number_bytes};
ghost use Rattle.wv_pool.specs.Numbers.{Named};
ghost use Rattle.wv_code.specs.Content.{length_bytes};
ghost use Rattle.wv_class.specs.Appending.{Appends, class_constants, WritesEach, WritesText, WritesClassName, WritesConstant, WritesClasses};

use wv_base::{Bytes, Const, Memory, Name};
use wv_pool::Pool;

pub(crate) fn put_number(out: &mut Bytes, number: u16) -> Result<(), Memory>
    ensures { OnOk result (out.new ≡ out.old ++ number_bytes number) }
{
    out.extend(&number.to_be_bytes())
}

pub(crate) fn put_length(out: &mut Bytes, len: u32) -> Result<(), Memory>
    ensures { OnOk result (out.new ≡ out.old ++ length_bytes len) }
{
    out.extend(&len.to_be_bytes())
}

/// Puts the least number of the constant.
pub(crate) fn put_constant(pool: &Pool, constant: &Const, out: &mut Bytes) -> Result<(), Memory>
    requires { Named pool.now constant.now }
    ensures { OnOk result (Appends (WritesConstant pool.now constant.now) out.old out.new) }
{
    match pool.number_of(constant) {
        Some(number) => put_number(out, number),
        None => unreachable!(),
    }
}

/// Puts the number of the text.
pub(crate) fn put_text(pool: &Pool, text: Name, out: &mut Bytes) -> Result<(), Memory>
    requires { Named pool.now (constants.Utf8 text) }
    ensures { OnOk result (Appends (WritesText pool.now text) out.old out.new) }
{
    put_constant(pool, &Const::Utf8(text), out)
}

/// Puts the number of the class with the name.
pub(crate) fn put_class(pool: &Pool, name: &Name, out: &mut Bytes) -> Result<(), Memory>
    requires { Named pool.now (constants.Class name.now) }
    ensures { OnOk result (Appends (WritesClassName pool.now name.now) out.old out.new) }
{
    put_constant(pool, &Const::Class(name.copy()?), out)
}

fn put_each_class(pool: &Pool, names: &[Name], out: &mut Bytes) -> Result<(), Memory>
    requires { AllByRecursion (Named pool.now) (class_constants names.now) }
    ensures { OnOk result (Appends (WritesEach (WritesClassName pool.now) names.now) out.old out.new) }
{
    for name in names {
        put_class(pool, name, out)?;
    }
    Ok(())
}

/// Puts the numbers of the classes with these names, with their count.
pub(crate) fn put_classes(pool: &Pool, names: &[Name], out: &mut Bytes) -> Result<(), Memory>
    requires few { length names.now < 2 ^ 16 }
    requires named { AllByRecursion (Named pool.now) (class_constants names.now) }
    ensures { OnOk result (Appends (WritesClasses pool.now names.now) out.old out.new) }
{
    put_number(out, names.len() as u16)?;
    put_each_class(pool, names, out)
}
