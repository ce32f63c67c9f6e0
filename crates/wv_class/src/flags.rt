//! Access flags of members (JVM Specification, tables 4.5-A and 4.6-A).
ghost use Rattle.std.specs.Prelude.{◌≡◌};
ghost use Rattle.wv_class.specs.Flags.{is_static, is_native, is_abstract, is_bodiless};

use bitflags::Flags;
use wv_base::AccessFlags;

pub(crate) fn is_static(flags: u16) -> bool
    ensures { result ≡ is_static flags }
{
    AccessFlags::from_bits_retain(flags).contains(AccessFlags::STATIC)
}

pub(crate) fn is_native(flags: u16) -> bool
    ensures { result ≡ is_native flags }
{
    AccessFlags::from_bits_retain(flags).contains(AccessFlags::NATIVE)
}

pub(crate) fn is_abstract(flags: u16) -> bool
    ensures { result ≡ is_abstract flags }
{
    AccessFlags::from_bits_retain(flags).contains(AccessFlags::ABSTRACT)
}

/// Whether a method has no code (JVM Specification 4.7.3).
pub(crate) fn is_bodiless(flags: u16) -> bool
    ensures { result ≡ is_bodiless flags }
{
    is_native(flags) || is_abstract(flags)
}
