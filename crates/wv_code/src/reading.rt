//! Reading the content of a Code attribute.
ghost use Rattle.std.specs.Prelude.{◌<◌, ◌^◌, length, IfOk, IfErr};
ghost use Rattle.wv_base.specs.declared.class_file.Body.{Body};
ghost use Rattle.wv_code.specs.Formed.{AreFormed};
ghost use Rattle.wv_code.specs.Body.{Spells, IsStart, GivesBody, BodyBreaks};

use crate::body::body_of;
use crate::content::read_layout;
use crate::reference::first_break;
use std::alloc::Global;
use wv_base::{Body, ClassFault, Frame};
use wv_pool::Pool;

/// The body that the content of a Code attribute spells in a method with this start frame (JVM
/// Specification 4.7.3 and 4.7.4). The place of a fault counts from the content's start on: `Layout`
/// comes where the bytes are no such content, and else `Reference` at the first item that breaks what
/// it must meet.
pub fn read_code(
    alloc: Global,
    bytes: &[u8],
    pool: &Pool,
    first: &Frame,
) -> Result<Body, ClassFault>
    requires few { length bytes.now < 2 ^ 32 }
    // `is_start` tests it.
    requires start { IsStart first.now }
    ensures found { IfOk result (Spells pool.now first.now bytes.now) }
    // What the bytes spell is found, unless memory runs out.
    ensures only { (body : Body) → Spells pool.now first.now bytes.now body → GivesBody result body }
    // So `layout` and `write_insns` take them.
    ensures formed { IfOk result (λ body. AreFormed body.insns) }
    ensures fault { IfErr result (BodyBreaks pool.now first.now bytes.now) }
{
    let raw = read_layout(alloc, bytes, pool.entries(), 0)?;
    if let Some(at) = first_break(alloc, pool, first, &raw)? {
        return Err(ClassFault::Reference { at });
    }
    Ok(body_of(alloc, pool, first, raw)?)
}
