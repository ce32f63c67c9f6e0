//! The tags of types and of frames (JVM Specification 4.7.4).
ghost use Rattle.std.specs.Prelude.{◌≡◌};
ghost use Rattle.wv_frames.specs.Reading.{type_tag, frame_tag, behind_type_tag, behind_frame_tag};

use crate::raw::RawType;
use wv_room::Frames;

/// What the tag of a type says: the type, or what number stands behind it.
#[derive(Clone, Copy, Debug, PartialEq, Eq)]
pub(crate) enum TypeTag {
    Plain(RawType),
    Object,
    Uninitialized,
}

/// What the tag of a frame says.
#[derive(Clone, Copy, Debug, PartialEq, Eq)]
pub(crate) enum FrameTag {
    Same { delta: u8 },
    SameWithOne { delta: u8 },
    SameWithOneExtended,
    Chop { count: u8 },
    SameExtended,
    Append { count: u8 },
    Full,
}

#[tactic(auto, unfolding(crate::specs::Reading::type_tag))]
pub(crate) fn type_tag(tag: u8) -> Option<TypeTag>
    ensures { result ≡ type_tag tag }
{
    match tag {
        0 => Some(TypeTag::Plain(RawType::Top)),
        1 => Some(TypeTag::Plain(RawType::Int)),
        2 => Some(TypeTag::Plain(RawType::Float)),
        3 => Some(TypeTag::Plain(RawType::Double)),
        4 => Some(TypeTag::Plain(RawType::Long)),
        5 => Some(TypeTag::Plain(RawType::Null)),
        6 => Some(TypeTag::Plain(RawType::UninitializedThis)),
        7 => Some(TypeTag::Object),
        8 => Some(TypeTag::Uninitialized),
        _ => None,
    }
}

#[tactic(auto, unfolding(crate::specs::Reading::frame_tag))]
pub(crate) fn frame_tag(tag: u8) -> Option<FrameTag>
    ensures { result ≡ frame_tag tag }
{
    match tag {
        0..64 => Some(FrameTag::Same { delta: tag }),
        64..128 => Some(FrameTag::SameWithOne { delta: tag - 64 }),
        128..247 => None,
        247 => Some(FrameTag::SameWithOneExtended),
        248..251 => Some(FrameTag::Chop { count: 251 - tag }),
        251 => Some(FrameTag::SameExtended),
        252..255 => Some(FrameTag::Append { count: tag - 251 }),
        255 => Some(FrameTag::Full),
    }
}

/// What is to come behind the tag, where so much is to come behind the type.
pub(crate) fn behind_type_tag(behind: Frames, tag: TypeTag) -> Frames
    ensures { result ≡ behind_type_tag behind tag }
{
    match tag {
        TypeTag::Plain(_) => behind,
        TypeTag::Object | TypeTag::Uninitialized => {
            let mut to_come = behind;
            to_come.bytes = 2;
            to_come
        }
    }
}

/// What is to come behind the tag, with so many more frames behind this one.
pub(crate) fn behind_frame_tag(left: u16, tag: FrameTag) -> Frames
    ensures { result ≡ behind_frame_tag left tag }
{
    let (bytes, types, lists) = match tag {
        FrameTag::Same { .. } => (0, 0, 0),
        FrameTag::SameWithOne { .. } => (0, 1, 0),
        FrameTag::SameWithOneExtended => (2, 1, 0),
        FrameTag::Chop { .. } | FrameTag::SameExtended => (2, 0, 0),
        FrameTag::Append { count } => (2, u32::from(count), 0),
        FrameTag::Full => (2, 0, 2),
    };
    Frames {
        bytes,
        types,
        lists,
        frames: u32::from(left),
    }
}
