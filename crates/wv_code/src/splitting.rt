//! The instructions of a code array, as its bytes have them.
ghost use Rattle.std.specs.Prelude.{◌<◌, ◌^◌, ℕ, List, length, IfOk, IfErr};
ghost use Rattle.wv_insn.specs.declared.raw.Raw.{Raw};
ghost use Rattle.wv_code.specs.Code.{Follow};
ghost use Rattle.wv_code.specs.Splitting.{GivesRaws, StopsIn};

use crate::code_layout::Offsets;
use std::alloc::Global;
use wv_base::{ClassFault, Items};
use wv_insn::{InsnFault, Raw, decode};

/// Instructions as bytes have them, one behind the other, and the offset of each.
#[derive(Debug, Drop)]
pub struct RawCode {
    pub raws: Items<Raw>,
    pub offsets: Offsets,
}

/// The instructions that the bytes of a code array are, one behind the other from its start to its end
/// (JVM Specification 4.7.3). `Layout` comes where no instruction goes on, whatever bytes may follow.
pub fn split_code(alloc: Global, code: &[u8]) -> Result<RawCode, ClassFault>
    requires { length code.now < 2 ^ 32 }
    ensures found { IfOk result (λ found. Follow code.now 0 found.raws found.offsets (length code.now)) }
    // What the code is, is found, unless memory runs out.
    ensures only { (raws : List Raw) (offsets : List ℕ) → Follow code.now 0 raws offsets (length code.now) → GivesRaws result raws offsets }
    ensures fault { IfErr result (StopsIn code.now) }
{
    let mut raws = Items::new(alloc);
    let mut offsets = Items::new(alloc);
    let mut at = 0;
    while at < code.len() {
        let (raw, len) = match decode(alloc, code, at) {
            Ok(found) => found,
            Err(InsnFault::Fault { at }) => return Err(ClassFault::Layout { at }),
            Err(InsnFault::Memory) => return Err(ClassFault::Memory),
        };
        raws.push(raw)?;
        offsets.push(at as u32)?;
        at += len;
    }
    Ok(RawCode { raws, offsets })
}
