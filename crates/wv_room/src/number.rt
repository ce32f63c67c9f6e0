//! Numbers of which not every value is allowed.
ghost use Rattle.std.specs.Prelude.{◌≡◌, ◌↔◌, ℕ, ◌<◌, ◌≤◌, length, take, IsTrue, IfOk, IfErr};
ghost use Rattle.wv_room.specs.Number.{AllowsSome, IsFirstFault, number_of};

/// Tells which values a number may have.
pub trait Allows {
    /// The values that are allowed.
    ghost allows: { Self → ℕ → Type 0 };

    /// Whether this value is allowed.
    fn allows_value(&self, value: u32) -> bool
        ensures { IsTrue result ↔ allows self.now value };

    /// Whether no value from this one on is allowed. A type that can't tell says no.
    fn is_past(&self, _value: u32) -> bool
        ensures { IsTrue result → (n : ℕ) → _value ≤ n → allows self.now n → ⊥ }
    {
        false
    }

    /// Whether some value between these two, both included, is allowed.
    fn allows_some(&self, least: u32, most: u32) -> bool
        requires { least ≤ most }
        ensures { IsTrue result ↔ AllowsSome (allows self.now) least most }
    {
        for value in least..most {
            if self.allows_value(value) {
                return true;
            }
            if self.is_past(value) {
                return false;
            }
        }
        self.allows_value(most)
    }
}

/// Reads the number in the first `width` bytes, of one to four, the most significant first. A fault is
/// the place of the first byte at which no allowed value is left, or at which the bytes end.
pub fn read_number<A: Allows>(bytes: &[u8], width: usize, allowed: &A) -> Result<u32, usize>
    requires some { 0 < width }
    requires few { width ≤ 4 }
    ensures within { IfOk result (λ _. width ≤ length bytes.now) }
    ensures spelled { IfOk result (λ n. n ≡ number_of (take width bytes.now)) }
    ensures allowed { IfOk result (A.allows allowed.now) }
    ensures fault { IfErr result (IsFirstFault (A.allows allowed.now) width bytes.now) }
{
    let mut least: u64 = 0;
    let mut span: u64 = 256u64.pow(width as u32);
    for place in 0..width {
        if place >= bytes.len() {
            return Err(place);
        }
        span /= 256;
        least += u64::from(bytes[place]) * span;
        if !allowed.allows_some(least as u32, (least + span - 1) as u32) {
            return Err(place);
        }
    }
    Ok(least as u32)
}
