//! The parts of annotations with constants in place of their numbers.
ghost use Rattle.std.specs.Prelude.{◌≡◌, ◌↔◌, IsTrue, IfOk};
ghost use Rattle.wv_base.specs.Descriptor.{IsFieldDescriptor};
ghost use Rattle.wv_pool.specs.Allowed.{IsShort};
ghost use Rattle.wv_attr.specs.References.{IsClassValue};
ghost use Rattle.wv_attr.specs.Meanings.{class_descriptor};
ghost use Rattle.wv_attr.specs.Pieces.{piece_size};
ghost use Rattle.wv_attr.specs.Writing.{fits_tag, IsFormed};

use std::alloc::Global;
use wv_base::{Const, Memory, Name, is_class_name, is_field_descriptor};
use wv_pool::is_allowed;

/// A part of a table of annotations, with what its numbers name in place of these (JVM Specification
/// 4.7.16 and 4.7.16.1). What a part counts or opens follows it.
#[derive(Debug, Drop)]
pub enum Piece {
    /// How many annotations a class, a member or a parameter has.
    List { count: usize },
    /// An annotation's class, and how many elements it has.
    Annotation { class: Name, count: usize },
    /// The name of an annotation's element.
    Name(Name),
    /// A constant of the kind `B`, `C`, `D`, `F`, `I`, `J`, `S`, `Z` or `s`, which `tag` gives.
    Constant { tag: u8, value: Const },
    Enum { descriptor: Name, name: Name },
    Class(Name),
    /// An annotation as a value.
    Nested,
    Array { count: usize },
}

/// The greatest number that has room in two bytes.
const MOST: usize = 0xFFFF;

/// The descriptor of a class.
pub(crate) fn class_descriptor(alloc: Global, class: &Name) -> Result<Name, Memory>
    ensures { IfOk result (λ descriptor. descriptor ≡ class_descriptor class.now) }
{
    let mut units = Vec::new(alloc);
    units.push(u16::from(b'L'))?;
    units.extend_from_slice(class.units())?;
    units.push(u16::from(b';'))?;
    Name::from_vec(alloc, units)
}

/// Whether the constant may stand under the tag.
fn fits_tag(value: &Const, tag: u8) -> bool
    ensures { result ≡ fits_tag value.now tag }
{
    match value {
        Const::Integer(_) => matches!(tag, b'B' | b'C' | b'I' | b'S' | b'Z'),
        Const::Float(_) => tag == b'F',
        Const::Long(_) => tag == b'J',
        Const::Double(_) => tag == b'D',
        Const::Utf8(_) => tag == b's',
        _ => false,
    }
}

/// Whether one entry of a pool has room for the text.
fn is_short(text: &Name) -> Result<bool, Memory>
    ensures { IfOk result (λ short. IsTrue short ↔ IsShort text.now) }
{
    let constant = Const::Utf8(text.copy()?);
    Ok(is_allowed(&constant))
}

/// Whether the text is a class as a value.
fn is_class_value(text: &Name) -> bool
    ensures { IsTrue result ↔ IsClassValue text.now }
{
    is_field_descriptor(text) || text.is_ascii("V")
}

impl Piece {
    /// How many bytes the part has.
    pub(crate) fn size(&self) -> u32
        ensures { result ≡ piece_size self.now }
    {
        match self {
            Piece::Nested => 1,
            Piece::List { .. } | Piece::Name(_) => 2,
            Piece::Constant { .. } | Piece::Class(_) | Piece::Array { .. } => 3,
            Piece::Annotation { .. } => 4,
            Piece::Enum { .. } => 5,
        }
    }

    /// Whether the part's counts have room, its names and descriptors are such, and a pool may hold its
    /// constants.
    pub(crate) fn is_formed(&self, alloc: Global) -> Result<bool, Memory>
        ensures { IfOk result (λ formed. IsTrue formed ↔ IsFormed self.now) }
    {
        Ok(match self {
            Piece::List { count } | Piece::Array { count } => *count <= MOST,
            Piece::Annotation { class, count } => {
                let short = is_short(&class_descriptor(alloc, class)?)?;
                is_class_name(class) && short && *count <= MOST
            }
            Piece::Name(name) => is_short(name)?,
            Piece::Constant { tag, value } => fits_tag(value, *tag) && is_allowed(value),
            Piece::Enum { descriptor, name } => {
                let short = is_short(descriptor)? && is_short(name)?;
                short && is_field_descriptor(descriptor)
            }
            Piece::Class(descriptor) => is_short(descriptor)? && is_class_value(descriptor),
            Piece::Nested => true,
        })
    }
}
