//! The one step of every machine of frames.

ghost use Rattle.std.specs.Prelude.{◌≤◌, ℕ, length};
ghost use Rattle.wv_model.specs.Control.{Control, Rules};
ghost use Rattle.wv_model.specs.Domain.{Domain};
ghost use Rattle.wv_model.specs.Frame.{Frame};
ghost use Rattle.wv_model.specs.Machine.{Grows, after};
ghost use Rattle.wv_model.specs.Step.{frame_limit, machine, start};

/// Any control over a domain, with any rules.
pub trait Framed {
    ghost domain: { Domain };

    ghost Place: { Type 0 };

    ghost rules: { Rules domain };

    ghost control: { Control domain Place };
}

/// A step only adds to the trace.
pub fn steps_only_add<M: Framed>()
    ensures { Grows (machine M.rules M.control) }
{}

/// No state that a run reaches has more than 1,024 frames.
pub fn frames_stay_within_limit<M: Framed>()
    ensures { (frame : Frame M.domain M.Place) (shared : M.domain.Shared) (n : ℕ) → length (after (machine M.rules M.control) n (start frame shared)).frames ≤ frame_limit }
{}
