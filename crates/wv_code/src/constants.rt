//! The constants that instructions name.
ghost use Rattle.std.specs.Prelude.{◌≡◌, [], ◌∷◌, IfOk, MatchOption};
ghost use Rattle.wv_code.specs.Constants.{member_constant, constants_in};

use crate::opcode::PUTFIELD;
use wv_base::{Const, Insn, MemberReference, Memory};

/// The member that the opcode names: a field, or else a method.
fn member_constant(op: u8, reference: MemberReference, interface: bool) -> Const
    ensures { result ≡ member_constant op reference interface }
{
    if op <= PUTFIELD {
        Const::Field(reference)
    } else {
        Const::Method {
            reference,
            interface,
        }
    }
}

/// The constant that the instruction names, where it names one.
pub(crate) fn constant_of(insn: &Insn) -> Result<Option<Const>, Memory>
    ensures { IfOk result (λ found. MatchOption found (constants_in insn.now ≡ []) (λ c. constants_in insn.now ≡ c ∷ [])) }
{
    Ok(Some(match insn {
        Insn::Load { value, .. } => value.copy()?,
        Insn::Reference {
            op,
            owner,
            name,
            descriptor,
            interface,
        } => {
            let reference = MemberReference {
                owner: owner.copy()?,
                name: name.copy()?,
                descriptor: descriptor.copy()?,
            };
            member_constant(*op, reference, *interface)
        }
        Insn::Site {
            bootstrap,
            name,
            descriptor,
        } => Const::InvokeDynamic {
            bootstrap: *bootstrap,
            name: name.copy()?,
            descriptor: descriptor.copy()?,
        },
        Insn::Class { class, .. } => Const::Class(class.copy()?),
        Insn::MultiArray { class, .. } => Const::Class(class.copy()?),
        _ => return Ok(None),
    }))
}
