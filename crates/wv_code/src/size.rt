//! The sizes of instructions.
ghost use Rattle.std.specs.Prelude.{◌≡◌, ℕ, ◌+◌, ◌<◌, ◌^◌};
ghost use Rattle.wv_insn.specs.Spelling.{padding};
ghost use Rattle.wv_code.specs.Formed.{IsShaped};
ghost use Rattle.wv_code.specs.Size.{size};
ghost use Rattle.wv_code.specs.Laying.{IsLong, IsWidened, Takes};

use crate::opcode::{BIPUSH, GOTO_W, INVOKEINTERFACE, LDC};
use wv_base::{Const, Insn};
use wv_pool::Pool;

/// Whether an ldc of the constant is written as ldc_w.
fn is_long(constant: &Const, pool: &Pool) -> bool
    ensures { IsLong pool.now constant.now result }
{
    match pool.number_of(constant) {
        Some(number) => number > 255,
        None => true,
    }
}

/// How many bytes a switch at the offset takes up to its targets.
fn switch_len(at: u64, fixed: u64) -> u64
    requires { fixed < 16 }
    ensures { result ≡ 1 + padding at + fixed }
{
    4 - at % 4 + fixed
}

/// How many bytes the instruction takes at the offset.
pub(crate) fn size(insn: &Insn, at: u64, pool: &Pool) -> u64
    requires { (count : ℕ) × IsShaped count insn.now }
    ensures taken { Takes pool.now at insn.now result }
    ensures some { result < 2 ^ 40 }
{
    match insn {
        Insn::Plain { .. } => 1,
        Insn::NewArray { .. } => 2,
        Insn::Class { .. } => 3,
        Insn::MultiArray { .. } => 4,
        Insn::Site { .. } => 5,
        Insn::Push { op, .. } => if *op == BIPUSH { 2 } else { 3 },
        Insn::Load { op, value } => if *op == LDC && !is_long(value, pool) {
            2
        } else {
            3
        },
        Insn::Local { wide, .. } => if *wide { 4 } else { 2 },
        Insn::Inc { wide, .. } => if *wide { 6 } else { 3 },
        Insn::Branch { op, .. } => if *op == GOTO_W { 5 } else { 3 },
        Insn::Reference { op, .. } => if *op == INVOKEINTERFACE { 5 } else { 3 },
        Insn::Table { targets, .. } => switch_len(at, 12) + 4 * targets.len() as u64,
        Insn::Lookup { cases, .. } => switch_len(at, 8) + 8 * cases.len() as u64,
    }
}
