//! The constants that ldc instructions name.
ghost use Rattle.std.specs.Prelude.{◌≡◌, ℕ, Some, None, [], ◌∷◌, OnOk, IfErr, MatchOption};
ghost use Rattle.std.specs.List.{AllByRecursion};
ghost use Rattle.wv_base.specs.declared.constant.Const.{Const};
ghost use Rattle.wv_pool.specs.declared.add.PoolFault.TheVariants as faults;
ghost use Rattle.wv_pool.specs.Adding.{Keeps};
ghost use Rattle.wv_pool.specs.Constants.{constant_of};
ghost use Rattle.wv_pool.specs.Numbers.{Named};
ghost use Rattle.wv_code.specs.Formed.{IsFormed};
ghost use Rattle.wv_code.specs.Entering.{short_constant, short_constants, Enters, MeetsFull};

use crate::opcode::LDC;
use wv_base::{Const, Insn};
use wv_pool::{Pool, PoolFault};

/// The constant that the instruction names, if it is an ldc.
fn short_constant(insn: &Insn) -> Option<&Const>
    ensures { MatchOption result (short_constant insn.now ≡ []) (λ c. short_constant insn.now ≡ c.now ∷ []) }
{
    match insn {
        Insn::Load { op, value } if *op == LDC => Some(value),
        _ => None,
    }
}

/// Puts the constants of the ldc instructions into the pool.
pub(crate) fn enter_constants(insns: &[Insn], pool: &mut Pool) -> Result<(), PoolFault>
    requires { (count : ℕ) × AllByRecursion (IsFormed count) insns.now }
    ensures older { (n : ℕ) (c : Const) → constant_of pool.old n ≡ Some c → constant_of pool.new n ≡ Some c }
    ensures kept { Keeps pool.old pool.new }
    ensures entered { OnOk result (Enters pool.old (short_constants insns.now) pool.new) }
    ensures named { OnOk result (AllByRecursion (Named pool.new) (short_constants insns.now)) }
    ensures full { IfErr result (λ e. e ≡ faults.Full → MeetsFull pool.old (short_constants insns.now)) }
{
    for insn in insns {
        if let Some(constant) = short_constant(insn) {
            pool.add(constant)?;
        }
    }
    Ok(())
}
