//! The instruction that starts at an offset.
ghost use Rattle.std.specs.Prelude.{◌≡◌, slice_get, Some, IfSome, IfNone};
ghost use Rattle.std.specs.List.Sorted.{IsStrictlyIncreasing};
ghost use Rattle.wv_code.specs.Breaks.{Starts};

/// The index of the instruction that starts at the offset, in code whose instructions start at these
/// (JVM Specification 4.9.1).
pub(crate) fn index_at(offsets: &[u32], at: u32) -> Option<usize>
    requires { IsStrictlyIncreasing offsets.now }
    ensures found { IfSome result (λ index. slice_get offsets.now index ≡ Some at) }
    ensures none { IfNone result (Starts offsets.now at → ⊥) }
{
    match offsets.binary_search(&at) {
        Ok(index) => Some(index),
        Err(_) => None,
    }
}
