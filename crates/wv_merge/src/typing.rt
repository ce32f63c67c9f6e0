//! Type checking of plain code (JVM Specification 4.10.1).
ghost use Rattle.std.specs.Prelude.{◌≡◌, ◌↔◌, [], ◌∷◌, length, IsTrue, MatchBool, IfOk, OnOk, Some, None};
ghost use Rattle.wv_model.specs.PlainTyping.{HasTyping};
ghost use Rattle.wv_merge.specs.Checking.{Answers, checks, type_of, taken, added, dropped, printed, next_plain, next_push, next_reference, next, IsNext};

use crate::fault::{TypingFault, typed};
use crate::opcode::{
    BIPUSH, GETSTATIC, IADD, ICONST_0, ICONST_5, IMUL, INVOKESTATIC, INVOKEVIRTUAL, POP, RETURN,
};
use std::alloc::Global;
use std::marker::Model;
use wv_base::{Insn, Memory};

/// The types that stand on the stack of plain code: an int, or the print stream.
#[derive(Clone, Copy, Debug, PartialEq, Eq)]
enum Kind {
    Int,
    Stream,
}

/// The operand stack, the top last. Contracts see its types, the top first.
#[derive(Drop)]
struct Stack {
    kinds: Vec<Kind>,
}

impl Model for Stack {
    ghost use Rattle.std.specs.Prelude.{List, map, reverse};
    ghost use Rattle.wv_base.specs.declared.frame.VType.{VType};
    ghost use Rattle.wv_merge.specs.Checking.{type_of};

    ghost Value = { List VType };

    ghost view = { λ s. map type_of (reverse s.kinds.items) };
}

impl Stack {
    fn new(alloc: Global) -> Stack
        ensures { result ≡ [] }
    {
        Stack {
            kinds: Vec::new(alloc),
        }
    }

    fn len(&self) -> usize
        ensures { result ≡ length self.now }
    {
        self.kinds.len()
    }

    fn push(&mut self, kind: Kind) -> Result<(), Memory>
        ensures { OnOk result (self.new ≡ type_of kind ∷ self.old) }
    {
        self.kinds.push(kind)?;
        Ok(())
    }

    /// Takes the top off, and says whether it is of this kind.
    fn take(&mut self, kind: Kind) -> bool
        ensures { MatchBool result (taken kind self.old ≡ Some self.new) (taken kind self.old ≡ None) }
    {
        match self.kinds.pop() {
            Some(top) => top == kind,
            None => false,
        }
    }

    /// Takes the top off, whatever it is, and says whether there is one.
    fn drop_top(&mut self) -> bool
        ensures { MatchBool result (dropped self.old ≡ Some self.new) (dropped self.old ≡ None) }
    {
        self.kinds.pop().is_some()
    }

    fn add(&mut self) -> Result<(), TypingFault>
        ensures { IsNext result (added self.old) self.new }
    {
        typed(self.take(Kind::Int))?;
        typed(self.take(Kind::Int))?;
        self.push(Kind::Int)?;
        Ok(())
    }

    fn print(&mut self) -> Result<(), TypingFault>
        ensures { IsNext result (printed self.old) self.new }
    {
        typed(self.take(Kind::Int))?;
        typed(self.take(Kind::Stream))
    }

    fn apply_plain(&mut self, op: u8) -> Result<(), TypingFault>
        ensures { IsNext result (next_plain op self.old) self.new }
    {
        match op {
            ICONST_0..=ICONST_5 => Ok(self.push(Kind::Int)?),
            IADD | IMUL => self.add(),
            POP => typed(self.drop_top()),
            RETURN => Ok(()),
            _ => Err(TypingFault::Untyped),
        }
    }

    fn apply_push(&mut self, op: u8) -> Result<(), TypingFault>
        ensures { IsNext result (next_push op self.old) self.new }
    {
        typed(op == BIPUSH)?;
        Ok(self.push(Kind::Int)?)
    }

    fn apply_reference(&mut self, op: u8) -> Result<(), TypingFault>
        ensures { IsNext result (next_reference op self.old) self.new }
    {
        match op {
            GETSTATIC => Ok(self.push(Kind::Stream)?),
            INVOKEVIRTUAL => self.print(),
            INVOKESTATIC => Ok(()),
            _ => Err(TypingFault::Untyped),
        }
    }

    /// The row of an instruction. One that plain code doesn't have has none.
    fn apply(&mut self, insn: &Insn) -> Result<(), TypingFault>
        ensures { IsNext result (next insn.now self.old) self.new }
    {
        match insn {
            Insn::Plain { op } => self.apply_plain(*op),
            Insn::Push { op, .. } => self.apply_push(*op),
            Insn::Reference { op, .. } => self.apply_reference(*op),
            _ => Err(TypingFault::Untyped),
        }
    }
}

/// That plain code has a typing within the declared stack.
fn check_typing(alloc: Global, max_stack: u16, insns: &[Insn]) -> Result<(), TypingFault>
    ensures { Answers result (checks max_stack [] insns.now) }
{
    let mut stack = Stack::new(alloc);
    for insn in insns {
        stack.apply(insn)?;
        typed(stack.len() <= max_stack as usize)?;
    }
    Ok(())
}

/// Whether plain code has a typing within the declared stack.
pub(crate) fn has_typing(alloc: Global, max_stack: u16, insns: &[Insn]) -> Result<bool, Memory>
    ensures { IfOk result (λ typed. IsTrue typed ↔ HasTyping max_stack insns.now) }
{
    match check_typing(alloc, max_stack, insns) {
        Ok(()) => Ok(true),
        Err(TypingFault::Untyped) => Ok(false),
        Err(TypingFault::Memory) => Err(Memory),
    }
}
