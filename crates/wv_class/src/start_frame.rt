//! The frame with which a method starts.
ghost use Rattle.std.specs.Prelude.{◌≡◌, [], ◌∷◌, ◌++◌, map, bytes_eq, codes, Some, IfOk, IfSome, OnOk};
ghost use Rattle.wv_base.specs.declared.frame.Frame.{Frame};
ghost use Rattle.wv_code.specs.Body.{IsStart};
ghost use Rattle.wv_class.specs.StartFrame.{verification_type, this_type, this_locals, start_frame};
ghost use Rattle.wv_class.specs.Breaks.{StartsWith};

use crate::flags::is_static;
use crate::raw_class::RawMember;
use crate::verification_type::verification_type;
use std::alloc::Global;
use wv_base::{FieldType, Frame, Items, Memory, MethodType, Name, VType};
use wv_desc::method_type;
use wv_pool::Pool;

/// Whether this is the name of an instance initializer.
fn is_init(name: &Name) -> bool
    ensures { result ≡ bytes_eq name.now (codes "<init>") }
{
    name.is_ascii("<init>")
}

/// The type of `this`: in `<init>` it isn't initialized yet.
fn this_type(class: &Name, name: &Name) -> Result<VType, Memory>
    ensures { IfOk result (λ kind. kind ≡ this_type class.now name.now) }
{
    if is_init(name) {
        Ok(VType::UninitializedThis)
    } else {
        Ok(VType::Class(class.copy()?))
    }
}

/// `this`, which a static method doesn't have.
fn this_locals(
    alloc: Global,
    without: bool,
    class: &Name,
    name: &Name,
) -> Result<Items<VType>, Memory>
    ensures { IfOk result (λ locals. locals ≡ this_locals without class.now name.now) }
{
    let mut locals = Items::new(alloc);
    if !without {
        locals.push(this_type(class, name)?)?;
    }
    Ok(locals)
}

/// Adds the types of parameters.
fn push_parameters(
    alloc: Global,
    locals: &mut Items<VType>,
    parameters: &[FieldType],
) -> Result<(), Memory>
    ensures { OnOk result (locals.new ≡ locals.old ++ map verification_type parameters.now) }
{
    for parameter in parameters {
        locals.push(verification_type(alloc, parameter)?)?;
    }
    Ok(())
}

/// The frame of a method of the class, static or not, with this name and type.
fn start_frame(
    alloc: Global,
    without: bool,
    class: &Name,
    name: &Name,
    method: &MethodType,
) -> Result<Frame, Memory>
    ensures { IfOk result (λ frame. frame ≡ start_frame without class.now name.now method.now) }
{
    let mut locals = this_locals(alloc, without, class, name)?;
    push_parameters(alloc, &mut locals, method.parameters.as_slice())?;
    Ok(Frame {
        locals,
        stack: Items::new(alloc),
        this_uninitialized: !without && is_init(name),
    })
}

/// The frame with which a method of the class with this number starts (JVM Specification 4.10.1.6).
/// None where a number names nothing that has such a frame.
pub(crate) fn start_of(
    alloc: Global,
    pool: &Pool,
    class: u16,
    method: &RawMember,
) -> Result<Option<Frame>, Memory>
    ensures found { IfOk result (λ found. IfSome found (StartsWith pool.now class method.now)) }
    ensures start { IfOk result (λ found. IfSome found IsStart) }
    // No other frame is.
    ensures only { IfOk result (λ found. (frame : Frame) → StartsWith pool.now class method.now frame → found ≡ Some frame) }
{
    let Some(owner) = pool.class_name(class) else {
        return Ok(None);
    };
    let Some(name) = pool.text(method.name) else {
        return Ok(None);
    };
    let Some(descriptor) = pool.text(method.descriptor) else {
        return Ok(None);
    };
    let Some(kind) = method_type(alloc, descriptor)? else {
        return Ok(None);
    };
    let without = is_static(method.flags);
    Ok(Some(start_frame(alloc, without, owner, name, &kind)?))
}
