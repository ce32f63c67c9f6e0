//! What the contract of `read_game` means: for any bytes there is one answer. Each law stands on a
//! function that does nothing.
ghost use Rattle.std.specs.Prelude.{◌≡◌, ℕ, List};
ghost use Rattle.wv_base.specs.declared.broken.Broken.{Broken};
ghost use Rattle.wv_mod.specs.declared.game_info.GameInfo.{GameInfo};
ghost use Rattle.wv_mod.specs.GameInfo.{IsGame};
ghost use Rattle.wv_mod.specs.GameFlaw.{IsGameBroken};

/// Bytes describe one game at most.
pub fn one_game()
    ensures { (bytes : List ℕ) (info other : GameInfo)
        → IsGame bytes info → IsGame bytes other → info ≡ other }
{}

/// Bytes that describe a game break no rule.
pub fn no_game_is_broken()
    ensures { (bytes : List ℕ) (info : GameInfo) (broken : Broken)
        → IsGame bytes info → IsGameBroken bytes broken → ⊥ }
{}

/// Bytes that describe no game are refused in one way.
pub fn one_game_refusal()
    ensures { (bytes : List ℕ) (broken other : Broken)
        → IsGameBroken bytes broken → IsGameBroken bytes other → broken ≡ other }
{}
