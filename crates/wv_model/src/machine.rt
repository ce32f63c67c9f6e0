//! Runs of one machine.

ghost use Rattle.std.specs.Prelude.{◌≡◌, ℕ, ◌+◌};
ghost use Rattle.wv_model.specs.Machine.{Begins, Ended, Grows, Machine, run};

/// A machine whose steps only add to what was shown.
pub trait Growing {
    ghost State: { Type 0 };

    ghost Piece: { Type 0 };

    ghost Ending: { Type 0 };

    ghost machine: { Machine State Piece Ending };

    ghost grows: { Grows machine };
}

/// With more steps a run has shown what it had, and maybe more; a run that has ended stays as it is.
pub fn longer_run_keeps<M: Growing>()
    ensures shown { (n more : ℕ) (s : M.State) → Begins (run M.machine n s).trace (run M.machine (n + more) s).trace }
    ensures ended { (n more : ℕ) (s : M.State) (e : M.Ending) → (run M.machine n s).finish ≡ Ended e → run M.machine (n + more) s ≡ run M.machine n s }
{}
