//! The grammar of names in class files (JVM Specification 4.2).
ghost use Rattle.std.specs.Prelude.{◌≡◌, not};
ghost use Rattle.std.specs.List.{list_all};
ghost use Rattle.wv_base.specs.Names.{is_name_unit, is_unqualified, is_class_name, is_angle, is_method_name};

use crate::name::Name;

const DOT: u16 = b'.' as u16;

const SLASH: u16 = b'/' as u16;

pub(crate) const SEMICOLON: u16 = b';' as u16;

pub(crate) const BRACKET: u16 = b'[' as u16;

const LESS: u16 = b'<' as u16;

const GREATER: u16 = b'>' as u16;

const INIT: [u16; 6] = [
    LESS,
    b'i' as u16,
    b'n' as u16,
    b'i' as u16,
    b't' as u16,
    GREATER,
];

const CLINIT: [u16; 8] = [
    LESS,
    b'c' as u16,
    b'l' as u16,
    b'i' as u16,
    b'n' as u16,
    b'i' as u16,
    b't' as u16,
    GREATER,
];

fn is_name_unit(unit: u16) -> bool
    ensures { result ≡ is_name_unit unit }
{
    !matches!(unit, DOT | SEMICOLON | BRACKET | SLASH)
}

fn are_name_units(units: &[u16]) -> bool
    ensures { result ≡ list_all is_name_unit units.now }
{
    units.iter().all(|unit| is_name_unit(*unit))
}

fn is_unqualified(units: &[u16]) -> bool
    ensures { result ≡ is_unqualified units.now }
{
    !units.is_empty() && are_name_units(units)
}

/// Whether the units are the name of a class, as `is_class_name` says of a name.
pub fn is_class(units: &[u16]) -> bool
    ensures { result ≡ is_class_name units.now }
{
    units.split(|unit| *unit == SLASH).all(is_unqualified)
}

/// Whether this is the name of a class or an interface in internal form (JVM Specification 4.2.1):
/// parts with slashes between them, each an unqualified name.
pub fn is_class_name(name: &Name) -> bool
    ensures { result ≡ is_class_name name.now }
{
    is_class(name.units())
}

/// Whether a field or a local variable may have this name (JVM Specification 4.2.2).
pub fn is_field_name(name: &Name) -> bool
    ensures { result ≡ is_unqualified name.now }
{
    is_unqualified(name.units())
}

fn is_angle(unit: u16) -> bool
    ensures { result ≡ is_angle unit }
{
    matches!(unit, LESS | GREATER)
}

fn have_no_angles(units: &[u16]) -> bool
    ensures { result ≡ list_all (λ unit. not (is_angle unit)) units.now }
{
    units.iter().all(|unit| !is_angle(*unit))
}

/// Whether a method may have this name (JVM Specification 4.2.2).
pub fn is_method_name(name: &Name) -> bool
    ensures { result ≡ is_method_name name.now }
{
    let units = name.units();
    units == INIT.as_slice()
        || units == CLINIT.as_slice()
        || (is_unqualified(units) && have_no_angles(units))
}

#[cfg(test)]
mod tests {
    use super::*;
    use std::test::Fail;

    #[test]
    fn names(rt: HostRuntime) -> Result<(), Fail> {
        for (text, class, field, method) in [
            ("Object", true, true, true),
            ("java/lang/Object", true, false, false),
            ("a-b c$1", true, true, true),
            ("<init>", true, true, true),
            ("<clinit>", true, true, true),
            ("<init", true, true, false),
            ("a>", true, true, false),
            ("a<b/c", true, false, false),
            ("", false, false, false),
            ("/a", false, false, false),
            ("a/", false, false, false),
            ("a//b", false, false, false),
            ("a.b", false, false, false),
            ("a;", false, false, false),
            ("[I", false, false, false),
        ] {
            let name = Name::from_ascii(rt.alloc(), text)?;
            assert_eq!(rt; is_class_name(&name), class, "{text}");
            assert_eq!(rt; is_field_name(&name), field, "{text}");
            assert_eq!(rt; is_method_name(&name), method, "{text}");
        }
        Ok(())
    }
}
