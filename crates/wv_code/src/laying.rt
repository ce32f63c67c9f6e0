//! Laying out code.
ghost use Rattle.std.specs.Prelude.{◌≡◌, ◌↔◌, ℕ, ◌≤◌, Some, false, IsTrue, IfOk, OnOk, IfErr, slice_index};
ghost use Rattle.std.specs.List.{AllByRecursion};
ghost use Rattle.wv_base.specs.declared.constant.Const.{Const};
ghost use Rattle.wv_base.specs.declared.fault.LimitFault.TheVariants as limits;
ghost use Rattle.wv_pool.specs.Adding.{Keeps};
ghost use Rattle.wv_pool.specs.Constants.{constant_of};
ghost use Rattle.wv_pool.specs.Numbers.{Named};
ghost use Rattle.wv_code.specs.Formed.{IsFormed, AreFormed};
ghost use Rattle.wv_code.specs.Entering.{short_constants, Enters};
ghost use Rattle.wv_code.specs.Laying.{Stand, Reaches, AllReach, IsFar, IsLayout, IsLarge, IsCause, limit_of};

use crate::code_layout::CodeLayout;
use crate::entering::enter_constants;
use crate::opcode::GOTO_W;
use crate::size::size;
use std::alloc::Global;
use wv_base::{Body, Insn, Items, LimitFault};
use wv_pool::{Pool, PoolFault};

/// The greatest length of a method's code.
const MOST: u64 = 65535;

/// The instructions one behind the other, whatever their jumps reach.
fn stand(alloc: Global, insns: &[Insn], pool: &Pool) -> Result<CodeLayout, LimitFault>
    requires { (count : ℕ) × AllByRecursion (IsFormed count) insns.now }
    ensures stand { IfOk result (λ layout. Stand pool.now 0 insns.now layout.offsets layout.len) }
    ensures small { IfOk result (λ layout. layout.len ≤ 65535) }
    ensures not_full { IfErr result (λ e. e ≡ limits.PoolLarge → ⊥) }
    ensures not_far { IfErr result (λ e. e ≡ limits.BranchFar → ⊥) }
    ensures large { IfErr result (λ e. e ≡ limits.CodeLarge → IsLarge pool.now insns.now) }
{
    let mut offsets = Items::new(alloc);
    let mut at: u64 = 0;
    for insn in insns {
        offsets.push(at as u32)?;
        at += size(insn, at, pool);
        if at > MOST {
            return Err(LimitFault::CodeLarge);
        }
    }
    let len = at as u32;
    Ok(CodeLayout { offsets, len })
}

/// The offset of the instruction with the index, or 0 where there is none.
pub(crate) fn offset_at(offsets: &[u32], index: usize) -> u32
    ensures { result ≡ slice_index offsets.now index }
{
    offsets.get(index).copied().unwrap_or(0)
}

/// Whether the instruction, if it is a jump, reaches its target.
fn reaches(insn: &Insn, at: u32, offsets: &[u32]) -> bool
    ensures { IsTrue result ↔ Reaches offsets.now at insn.now }
{
    match insn {
        Insn::Branch { op, to } => {
            let distance = i64::from(offset_at(offsets, *to as usize)) - i64::from(at);
            *op == GOTO_W || i16::try_from(distance).is_ok()
        }
        _ => true,
    }
}

/// Whether each jump reaches its target.
fn all_reach(insns: &[Insn], offsets: &[u32]) -> bool
    ensures all { IsTrue result → AllReach insns.now offsets.now }
    ensures far { result ≡ false → IsFar insns.now offsets.now }
{
    for (index, insn) in insns.iter().enumerate() {
        if !reaches(insn, offset_at(offsets, index), offsets) {
            return false;
        }
    }
    true
}

fn limit(fault: PoolFault) -> LimitFault
    ensures { result ≡ limit_of fault }
{
    match fault {
        PoolFault::Full => LimitFault::PoolLarge,
        PoolFault::Memory => LimitFault::Memory,
    }
}

/// Where the instructions of the body stand in its code (JVM Specification 4.7.3), with ldc_w in place of
/// each ldc whose constant has no number of one byte. The constants of the ldc instructions are put into
/// the pool, in which older numbers name what they named; after an error those before it may be there.
pub fn layout(alloc: Global, body: &Body, pool: &mut Pool) -> Result<CodeLayout, LimitFault>
    // What it calls for can be asked with `are_formed`.
    requires { AreFormed body.now.insns }
    ensures laid { IfOk result (IsLayout pool.new body.now.insns) }
    ensures older { (n : ℕ) (c : Const) → constant_of pool.old n ≡ Some c → constant_of pool.new n ≡ Some c }
    ensures kept { Keeps pool.old pool.new }
    ensures entered { OnOk result (Enters pool.old (short_constants body.now.insns) pool.new) }
    ensures named { OnOk result (AllByRecursion (Named pool.new) (short_constants body.now.insns)) }
    // Else it is the first cause that holds.
    ensures cause { IfErr result (IsCause pool.old pool.new body.now.insns) }
{
    let insns = body.insns.as_slice();
    enter_constants(insns, pool).map_err(limit)?;
    let layout = stand(alloc, insns, pool)?;
    if !all_reach(insns, layout.offsets.as_slice()) {
        return Err(LimitFault::BranchFar);
    }
    Ok(layout)
}
