//! Whether instructions are formed.
ghost use Rattle.std.specs.Prelude.{◌≡◌, ◌↔◌, ◌<◌, ◌≤◌, ◌<ℤ◌, length, FitsSigned, IsTrue, IfOk};
ghost use Rattle.std.specs.Int.{w32};
ghost use Rattle.std.specs.List.{AllByRecursion};
ghost use Rattle.wv_pool.specs.Allowed.{IsAllowed};
ghost use Rattle.wv_code.specs.Constants.{constants_in};
ghost use Rattle.wv_code.specs.Formed.{loaded_words, LoadsWords, IsCounted, TakesMember, dimensions_of, KeysAscend, last_key, IsShaped, IsFormed, AreFormed};

use crate::constants::constant_of;
use crate::opcode::{GETSTATIC, INVOKEINTERFACE, INVOKESTATIC, INVOKEVIRTUAL, LDC, LDC_W, LDC2_W};
use wv_base::{Case, Const, Insn, Memory, Name, parameter_words};
use wv_insn::Raw;
use wv_pool::is_allowed;

/// How many words of the operand stack the constant takes where it is loaded; 0 where none can be.
pub(crate) fn loaded_words(constant: &Const) -> u8
    ensures { result ≡ loaded_words constant.now }
{
    match constant {
        Const::Long(_) | Const::Double(_) => 2,
        Const::Integer(_)
        | Const::Float(_)
        | Const::Class(_)
        | Const::String(_)
        | Const::MethodHandle { .. }
        | Const::MethodType(_) => 1,
        _ => 0,
    }
}

/// Whether the opcode loads constants of so many words.
pub(crate) fn loads(op: u8, words: u8) -> bool
    ensures { IsTrue result ↔ LoadsWords op words }
{
    words == 1 && (op == LDC || op == LDC_W) || words == 2 && op == LDC2_W
}

fn is_counted(descriptor: &Name) -> bool
    ensures { IsTrue result ↔ IsCounted descriptor.now }
{
    match parameter_words(descriptor) {
        Some(words) => words < 255,
        None => false,
    }
}

/// Whether the opcode takes a member of an interface, or one of a class.
pub(crate) fn takes_member(op: u8, descriptor: &Name, interface: bool) -> bool
    ensures { IsTrue result ↔ TakesMember op descriptor.now interface }
{
    if op <= INVOKEVIRTUAL {
        GETSTATIC <= op && !interface
    } else if op <= INVOKESTATIC {
        true
    } else {
        op == INVOKEINTERFACE && interface && is_counted(descriptor)
    }
}

/// How many dimensions the type of an array's descriptor has.
pub(crate) fn dimensions_of(class: &[u16]) -> usize
    ensures { result ≡ dimensions_of class.now }
{
    let mut count = 0;
    for unit in class {
        if *unit != b'[' as u16 {
            return count;
        }
        count += 1;
    }
    count
}

fn all_below(targets: &[u32], count: usize) -> bool
    ensures { IsTrue result ↔ AllByRecursion (λ to. to < count) targets.now }
{
    for to in targets {
        if *to as usize >= count {
            return false;
        }
    }
    true
}

fn all_cases_below(cases: &[Case], count: usize) -> bool
    ensures { IsTrue result ↔ AllByRecursion (λ c. c.to < count) cases.now }
{
    for case in cases {
        if case.to as usize >= count {
            return false;
        }
    }
    true
}

fn is_key_below(before: Case, case: Case) -> bool
    ensures { IsTrue result ↔ (before.key <ℤ case.key) }
{
    before.key < case.key
}

fn keys_ascend(cases: &[Case]) -> bool
    ensures { IsTrue result ↔ KeysAscend cases.now }
{
    for place in 1..cases.len() {
        if !is_key_below(cases[place - 1], cases[place]) {
            return false;
        }
    }
    true
}

/// Whether the numbers from the key on, one for each target, are numbers of 32 bits.
fn keys_fit(low: i32, targets: usize) -> bool
    requires { 1 ≤ targets }
    ensures { IsTrue result ↔ FitsSigned w32 (last_key low targets) }
{
    targets <= 0x1_0000_0000 && i32::try_from(i64::from(low) + targets as i64 - 1).is_ok()
}

fn is_table(low: i32, other: u32, targets: &[u32], count: usize) -> bool
    ensures { IsTrue result ↔ ((other < count) × AllByRecursion (λ to. to < count) targets.now × (1 ≤ length targets.now) × FitsSigned w32 low × FitsSigned w32 (last_key low (length targets.now))) }
{
    (other as usize) < count
        && all_below(targets, count)
        && !targets.is_empty()
        && keys_fit(low, targets.len())
}

/// Whether the instruction, among so many, is one of its kind and leads to instructions.
fn is_shaped(insn: &Insn, count: usize) -> bool
    ensures { IsTrue result ↔ IsShaped count insn.now }
{
    match insn {
        Insn::Plain { op } => Raw::Plain { op: *op }.is_encodable(),
        Insn::Push { op, value } => {
            let (op, value) = (*op, *value);
            Raw::Push { op, value }.is_encodable()
        }
        Insn::Load { op, value } => loads(*op, loaded_words(value)),
        Insn::Local { op, slot, wide } => {
            let (op, slot, wide) = (*op, *slot, *wide);
            Raw::Local { op, slot, wide }.is_encodable()
        }
        Insn::Inc { slot, by, wide } => {
            let (slot, by, wide) = (*slot, *by, *wide);
            Raw::Inc { slot, by, wide }.is_encodable()
        }
        Insn::Branch { op, to } => {
            Raw::Branch { op: *op, offset: 0 }.is_encodable() && (*to as usize) < count
        }
        Insn::Table {
            low,
            other,
            targets,
        } => is_table(*low, *other, targets.as_slice(), count),
        Insn::Lookup { other, cases } => {
            (*other as usize) < count
                && all_cases_below(cases.as_slice(), count)
                && cases.len() < 0x8000_0000
                && keys_ascend(cases.as_slice())
        }
        Insn::Reference {
            op,
            descriptor,
            interface,
            ..
        } => takes_member(*op, descriptor, *interface),
        Insn::Site { .. } => true,
        Insn::Class { op, .. } => Raw::Class { op: *op, number: 0 }.is_encodable(),
        Insn::NewArray { kind } => 4 <= *kind && *kind <= 11,
        Insn::MultiArray { class, dimensions } => {
            1 <= *dimensions && *dimensions as usize <= dimensions_of(class.units())
        }
    }
}

fn is_formed(insn: &Insn, count: usize) -> Result<bool, Memory>
    ensures { IfOk result (λ is. IsTrue is ↔ IsFormed count insn.now) }
{
    if let Some(constant) = constant_of(insn)? {
        if !is_allowed(&constant) {
            return Ok(false);
        }
    }
    Ok(is_shaped(insn, count))
}

/// Whether each instruction of a method's code is as a class file may have it (JVM Specification 4.9.1):
/// its opcode is one of its kind, its numbers fit their places, its constants are ones that a pool may
/// hold, and it leads to instructions of the code.
pub fn are_formed(insns: &[Insn]) -> Result<bool, Memory>
    ensures { IfOk result (λ are. IsTrue are ↔ AreFormed insns.now) }
{
    let count = insns.len();
    for insn in insns {
        if !is_formed(insn, count)? {
            return Ok(false);
        }
    }
    Ok(true)
}
