//! What layouts and code mean together.
ghost use Rattle.std.specs.Prelude.{◌≡◌, ℕ, Bool, List, length};
ghost use Rattle.wv_base.specs.declared.class_file.PoolEntry.{PoolEntry};
ghost use Rattle.wv_base.specs.declared.class_file.Body.{Body};
ghost use Rattle.wv_base.specs.declared.insn.Insn.{Insn};
ghost use Rattle.wv_insn.specs.declared.raw.Raw.{Raw};
ghost use Rattle.wv_insn.specs.Spelling.{IsInstruction, plain_spelling};
ghost use Rattle.wv_pool.specs.Adding.{Keeps};
ghost use Rattle.wv_code.specs.FormedBody.{IsFormedBody};
ghost use Rattle.wv_code.specs.Size.{size};
ghost use Rattle.wv_code.specs.Laying.{Stand};
ghost use Rattle.wv_code.specs.Meaning.{Means, widened};

/// The size of an instruction is the number of bytes that spell it.
pub fn size_of_what_is_spelled()
    ensures { (pool : List PoolEntry) (offsets : List ℕ) (at : ℕ) (r : Raw) (long : Bool) (i : Insn) → IsInstruction r → Means pool offsets at r (widened long i) → length (plain_spelling at r) ≡ size long at i }
{}

/// Instructions stand at one list of offsets and have one end, by the numbers of a pool.
pub fn one_layout()
    ensures { (pool : List PoolEntry) (insns : List Insn) (offsets places : List ℕ) (end last : ℕ) → Stand pool 0 insns offsets end → Stand pool 0 insns places last → (offsets ≡ places) × (end ≡ last) }
{}

/// A body that can be written can still be where the pool has grown.
pub fn formed_stays()
    ensures { (old new : List PoolEntry) (body : Body) → Keeps old new → IsFormedBody old body → IsFormedBody new body }
{}
