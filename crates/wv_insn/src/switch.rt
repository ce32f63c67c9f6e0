//! The sizes of switches.
ghost use Rattle.std.specs.Prelude.{◌≡◌};
ghost use Rattle.wv_insn.specs.Spelling.{targets, padding};

/// How many pad bytes stand behind the opcode of a switch at this offset.
pub(crate) fn padding(at: usize) -> usize
    ensures { result ≡ padding at }
{
    3 - at % 4
}

/// How many keys there are from `low` to `high`: none where `low` is above `high`.
#[tactic(auto, unfolding(crate::specs::Spelling::targets))]
pub fn targets(low: i32, high: i32) -> u64
    ensures { result ≡ targets low high }
{
    if low <= high {
        u64::from(high.abs_diff(low)) + 1
    } else {
        0
    }
}
