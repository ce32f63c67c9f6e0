//! The annotation `@Mixin` (Mixin 0.8.5).
ghost use Rattle.std.specs.Prelude.{◌≡◌, option_copied};
ghost use Rattle.std.specs.List.{find};
ghost use Rattle.wv_front.specs.Marks.{is_mixin_note, is_priority, int_of, stated_priority};

use wv_base::{ClassFile, Const, Element, NamedElement, Note};

const MIXIN: &str = "org/spongepowered/asm/mixin/Mixin";

pub(crate) fn is_mixin(note: &Note) -> bool
    ensures { result ≡ is_mixin_note note.now }
{
    note.annotation.class.is_ascii(MIXIN)
}

fn is_priority(element: &NamedElement) -> bool
    ensures { result ≡ is_priority element.now }
{
    element.name.is_ascii("priority")
}

fn first_mixin(notes: &[Note]) -> Option<&Note>
    ensures { option_copied result ≡ find is_mixin_note notes.now }
{
    notes.iter().find(|note| is_mixin(note))
}

fn first_priority(elements: &[NamedElement]) -> Option<&NamedElement>
    ensures { option_copied result ≡ find is_priority elements.now }
{
    elements.iter().find(|element| is_priority(element))
}

/// The priority that the first `@Mixin` of a class states.
pub(crate) fn stated_priority(class: &ClassFile) -> Option<i32>
    ensures { result ≡ stated_priority class.now }
{
    let note = first_mixin(class.notes.as_slice())?;
    let element = first_priority(note.annotation.elements.as_slice())?;
    int(&element.value)
}

/// The number that the value is, where it is of the kind `I`.
fn int(value: &Element) -> Option<i32>
    ensures { result ≡ int_of value.now }
{
    match value {
        Element::Constant {
            tag: b'I',
            value: Const::Integer(number),
        } => Some(*number),
        _ => None,
    }
}
