//! What the bytes of a class file determine.
ghost use Rattle.std.specs.Prelude.{◌≡◌, ◌^◌, ◌<◌, ℕ, List, length};
ghost use Rattle.wv_base.specs.declared.class_file.ClassFile.{ClassFile};
ghost use Rattle.wv_class.specs.Formed.{IsFormedClass};
ghost use Rattle.wv_class.specs.Layout.{IsLayoutFault};
ghost use Rattle.wv_class.specs.Meaning.{Spells, IsReferenceFault};
ghost use Rattle.wv_class.specs.Sizes.{HaveNoFrames, HaveNoRanges, IsSmall};

/// Bytes spell at most one class.
pub fn one_class()
    ensures { (bytes : List ℕ) (c d : ClassFile) → Spells bytes c → Spells bytes d → c ≡ d }
{}

/// Bytes that spell no class have at most one fault, and those that spell one have none.
pub fn one_fault()
    ensures layout { (bytes : List ℕ) (a b : ℕ) → IsLayoutFault bytes a → IsLayoutFault bytes b → a ≡ b }
    ensures reference { (bytes : List ℕ) (a b : ℕ) → IsReferenceFault bytes a → IsReferenceFault bytes b → a ≡ b }
    ensures not_both { (bytes : List ℕ) (a b : ℕ) → IsLayoutFault bytes a → IsReferenceFault bytes b → ⊥ }
    ensures no_layout_fault { (bytes : List ℕ) (c : ClassFile) (at : ℕ) → Spells bytes c → IsLayoutFault bytes at → ⊥ }
    ensures no_reference_fault { (bytes : List ℕ) (c : ClassFile) (at : ℕ) → Spells bytes c → IsReferenceFault bytes at → ⊥ }
{}

/// A class that fewer than 65,536 bytes spell can be written, if its code has neither frames nor
/// exception ranges; and it is no larger than its bytes: a frame of one byte can stand for many types,
/// so there are none.
pub fn few_bytes()
    ensures formed { (bytes : List ℕ) (c : ClassFile) → Spells bytes c → length bytes < 2 ^ 16 → HaveNoFrames c → HaveNoRanges c → IsFormedClass c }
    ensures small { (bytes : List ℕ) (c : ClassFile) → Spells bytes c → HaveNoFrames c → IsSmall (length bytes) c }
{}
