//! From laws on single frames to whole states and runs.

ghost use Rattle.std.specs.Prelude.{◌⊎◌, ℕ, List};
ghost use Rattle.wv_model.specs.Control.{Control, Rules};
ghost use Rattle.wv_model.specs.Corresponds.{Corresponds, steps_for_one};
ghost use Rattle.wv_model.specs.Domain.{Domain};
ghost use Rattle.wv_model.specs.Frame.{Frame};
ghost use Rattle.wv_model.specs.FrameLaws.{FrameLaws};
ghost use Rattle.wv_model.specs.FrameRelation.{FrameRelation};
ghost use Rattle.wv_model.specs.Lifted.{Lifted, QuietTurn, RelatedFrames, TurnsAgree};
ghost use Rattle.wv_model.specs.Simulates.{SimulatesWithin};
ghost use Rattle.wv_model.specs.Step.{machine, start, turn};

/// Two controls over one domain, with a relation of single frames that meets the laws on single frames.
pub trait FrameSimulation {
    ghost domain: { Domain };

    ghost FirstPlace: { Type 0 };

    ghost SecondPlace: { Type 0 };

    ghost rules: { Rules domain };

    ghost first: { Control domain FirstPlace };

    ghost second: { Control domain SecondPlace };

    ghost relation: { FrameRelation domain FirstPlace SecondPlace };

    ghost laws: { FrameLaws steps_for_one rules first second relation };
}

/// A step of a thread's frames in the first machine stands for none of the second, or for one that shows the same and
/// keeps the frames related.
pub fn turns_agree<S: FrameSimulation>()
    ensures { (w : S.relation.World) (n : ℕ) (fs : List (Frame S.domain S.FirstPlace)) (gs : List (Frame S.domain S.SecondPlace)) (h k : S.domain.Shared) → S.relation.Alike w h k → RelatedFrames S.relation w n fs gs → QuietTurn S.relation w n (turn S.rules S.first fs h) gs k ⊎ TurnsAgree S.relation w (turn S.rules S.first fs h) (turn S.rules S.second gs k) }
{}

/// Whole states whose frames are related make a simulation.
pub fn states_simulate<S: FrameSimulation>()
    ensures { SimulatesWithin steps_for_one (machine S.rules S.first) (machine S.rules S.second) (Lifted S.relation) }
{}

/// Runs from related start frames correspond.
pub fn starts_correspond<S: FrameSimulation>()
    ensures { (w : S.relation.World) (method : S.domain.Method) (n : ℕ) (f : Frame S.domain S.FirstPlace) (g : Frame S.domain S.SecondPlace) (h k : S.domain.Shared) → S.relation.Alike w h k → S.relation.Runs w method n f g → Corresponds (machine S.rules S.first) (start f h) (machine S.rules S.second) (start g k) }
{}
