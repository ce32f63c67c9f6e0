//! Items that are still to come.
ghost use Rattle.std.specs.Prelude.{◌≡◌, ◌+◌, ◌*◌, ◌^◌, ◌<◌, ◌≤◌};
ghost use Rattle.wv_room.specs.declared.elements.Elements.{Elements};
ghost use Rattle.wv_room.specs.Counts.{elements_with};

use wv_room::{ElementKind, Elements};

/// So many items of a kind that stand next to each other. Element values of the group, or of its
/// annotations, are so many values deep; those of an annotation of the table have depth 1.
#[derive(Clone, Copy, Debug, PartialEq, Eq)]
pub struct Group {
    pub kind: ElementKind,
    pub depth: u16,
    pub count: u16,
}

/// What is to come, with so many items of the kind more.
pub(crate) fn with(mut pending: Elements, kind: ElementKind, count: u16) -> Elements
    requires bytes { pending.bytes + 2 * count < 2 ^ 32 }
    requires values { pending.values + count < 2 ^ 32 }
    requires annotations { pending.annotations + count < 2 ^ 32 }
    requires parameters { pending.parameters + count < 2 ^ 32 }
    ensures { result ≡ elements_with kind count pending }
{
    let count = u32::from(count);
    match kind {
        ElementKind::Value => pending.values += count,
        ElementKind::Pair => {
            pending.bytes += 2 * count;
            pending.values += count;
        }
        ElementKind::Annotation => pending.annotations += count,
        ElementKind::Parameter => pending.parameters += count,
    }
    pending
}

/// What is to come, with an item of the kind less.
pub(crate) fn without(mut pending: Elements, kind: ElementKind) -> Elements
    requires { (besides : Elements) × (pending ≡ elements_with kind 1 besides) }
    ensures { (besides : Elements) → pending ≡ elements_with kind 1 besides → result ≡ besides }
{
    match kind {
        ElementKind::Value => pending.values -= 1,
        ElementKind::Pair => {
            pending.bytes -= 2;
            pending.values -= 1;
        }
        ElementKind::Annotation => pending.annotations -= 1,
        ElementKind::Parameter => pending.parameters -= 1,
    }
    pending
}
