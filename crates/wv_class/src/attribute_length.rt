//! The lengths that an attribute's content can have.
ghost use Rattle.std.specs.Prelude.{◌↔◌, IsTrue};
ghost use Rattle.wv_class.specs.Lengths.{AllowsLength, IsListLength};
ghost use Rattle.wv_class.specs.Reading.{Reads};
ghost use Rattle.wv_class.specs.Numbers.{SpellsAllowed};

use crate::number::number_at;
use crate::raw_class::Kind;
use crate::stop::Stop;
use wv_room::{Allows, Elements};

/// One list of annotations.
const LIST: Elements = Elements {
    bytes: 0,
    values: 0,
    annotations: 0,
    parameters: 1,
};

/// Whether a list of annotations can have so many bytes.
fn is_list_length(len: u32) -> bool
    ensures { IsTrue result ↔ IsListLength len }
{
    LIST.fits(len)
}

/// The lengths of a content of this kind (JVM Specification 4.7).
impl Allows for Kind {
    ghost use Rattle.wv_class.specs.Lengths.{AllowsLength};

    ghost allows = { AllowsLength };

    fn allows_value(&self, value: u32) -> bool {
        match self {
            Kind::Code => value >= 12,
            Kind::ConstantValue => value == 2,
            Kind::Exceptions => value % 2 == 0 && 2 <= value && value <= 131072,
            Kind::Annotations { .. } => is_list_length(value),
            // A count of one byte, and so many lists of two bytes and more.
            Kind::ParameterAnnotations { .. } => value % 2 == 1 || value >= 11,
            Kind::Other => true,
        }
    }

    fn is_past(&self, value: u32) -> bool {
        match self {
            Kind::ConstantValue => value > 2,
            Kind::Exceptions => value > 131072,
            _ => false,
        }
    }
}

/// The length of a content of this kind, and the bytes behind it. It stops at the first byte with
/// which no such length goes on.
pub(crate) fn length_at(kind: Kind, bytes: &[u8]) -> Result<(u32, &[u8]), Stop>
    ensures { Reads (λ x. (x.0, x.1.now)) (SpellsAllowed 4 (AllowsLength kind)) bytes.now result }
{
    number_at(4, &kind, bytes)
}
