//! What the two directions and the faults mean together.
ghost use Rattle.std.specs.Prelude.{◌≡◌, ◌↔◌, ℕ, ◌+◌, ◌-◌, ◌≤◌, ◌<◌, List, ◌++◌, length, take, drop};
ghost use Rattle.wv_insn.specs.declared.raw.Raw.{Raw};
ghost use Rattle.wv_insn.specs.Spelling.{IsTyped, IsInstruction, Spells, plain_spelling};
ghost use Rattle.wv_insn.specs.Standing.{Stands, Begins, IsFirstFault, IsSameButPadding};

/// Decoding gives what was encoded, wherever its bytes stand and whatever follows them.
pub fn decode_after_encode()
    ensures { (before after : List ℕ) (r : Raw) → IsTyped r → IsInstruction r
        → Stands (before ++ plain_spelling (length before) r ++ after) (length before) r (length (plain_spelling (length before) r)) }
{}

/// Encoding gives the bytes that were decoded, but for the pad bytes of a switch.
pub fn encode_after_decode()
    ensures { (at : ℕ) (r : Raw) (bytes : List ℕ) → Spells at r bytes → IsSameButPadding at bytes (plain_spelling at r) }
{}

/// Just what bytes can spell can be encoded, at whatever offset.
pub fn what_is_encodable()
    ensures { (at : ℕ) (r : Raw) → IsTyped r → IsInstruction r ↔ ((bytes : List ℕ) × Spells at r bytes) }
{}

/// No instruction begins another: bytes spell one at most, of one length.
pub fn one_instruction()
    ensures { (at : ℕ) (r q : Raw) (a b x y : List ℕ) → Spells at r a → Spells at q b → a ++ x ≡ b ++ y → (r ≡ q) × (a ≡ b) }
{}

/// A fault is the first one: an instruction begins with each front of the code that ends before it,
/// and none with any that has one byte more.
pub fn what_a_first_fault_is()
    ensures before { (code : List ℕ) (at p n : ℕ) → IsFirstFault code at p → at + n ≤ p → Begins at (take n (drop at code)) }
    ensures behind { (code : List ℕ) (at p n : ℕ) → IsFirstFault code at p → p < at + n → at + n ≤ length code → Begins at (take n (drop at code)) → ⊥ }
{}
