//! From typings of single frames to runs in which no step is stuck.

ghost use Rattle.std.specs.Prelude.{ℕ};
ghost use Rattle.wv_model.specs.Control.{Control, Rules};
ghost use Rattle.wv_model.specs.Domain.{Domain};
ghost use Rattle.wv_model.specs.Frame.{Frame};
ghost use Rattle.wv_model.specs.Machine.{after};
ghost use Rattle.wv_model.specs.Step.{State, machine, start};
ghost use Rattle.wv_model.specs.Typing.{FrameTyping, IsStuck, StateTyped, TypingLaws};

/// A control with a typing of single frames that its steps keep.
pub trait Typed {
    ghost domain: { Domain };

    ghost Place: { Type 0 };

    ghost rules: { Rules domain };

    ghost control: { Control domain Place };

    ghost typing: { FrameTyping domain Place };

    ghost laws: { TypingLaws rules control typing };
}

/// A start frame that is typed makes a typed state.
pub fn starts_typed<S: Typed>()
    ensures { (w : S.typing.World) (method : S.domain.Method) (frame : Frame S.domain S.Place) (shared : S.domain.Shared) → S.typing.Sound w shared → S.typing.Runs w method frame → StateTyped S.typing (start frame shared) }
{}

/// A typed state is typed after any number of steps.
pub fn stays_typed<S: Typed>()
    ensures { (state : State S.domain S.Place) (n : ℕ) → StateTyped S.typing state → StateTyped S.typing (after (machine S.rules S.control) n state) }
{}

/// From a typed state no state that a run reaches is stuck: there is a row for every step.
pub fn never_stuck<S: Typed>()
    ensures { (state : State S.domain S.Place) (n : ℕ) → StateTyped S.typing state → IsStuck S.control (after (machine S.rules S.control) n state) → ⊥ }
{}
