//! The same for machines of threads, over every schedule.

ghost use Rattle.std.specs.Prelude.{ℕ};
ghost use Rattle.wv_model.specs.Corresponds.{steps_for_one};
ghost use Rattle.wv_model.specs.Control.{Control, Rules};
ghost use Rattle.wv_model.specs.Domain.{Domain};
ghost use Rattle.wv_model.specs.Frame.{Frame};
ghost use Rattle.wv_model.specs.FrameRelation.{FrameRelation};
ghost use Rattle.wv_model.specs.Schedules.{NumberedEach, SchedulesCorrespond, SimulatesEach, Threaded};
ghost use Rattle.wv_model.specs.Threads.{ThreadLaws, threads, threads_start};

/// Two machines of threads, the first of which follows the second thread by thread. `related numbers s t` has a number
/// below 800 for each thread: so many steps of that thread of the first may come before one of the second.
pub trait ThreadSimulation {
    ghost First: { Type 0 };

    ghost Second: { Type 0 };

    ghost Piece: { Type 0 };

    ghost Ending: { Type 0 };

    ghost first: { Threaded First Piece Ending };

    ghost second: { Threaded Second Piece Ending };

    ghost related: { NumberedEach First Second };

    ghost simulates: { SimulatesEach steps_for_one first second related };
}

/// From related states each schedule of either machine has one of the other with the same trace and the same ending of
/// each thread.
pub fn schedules_correspond<S: ThreadSimulation>()
    ensures { (numbers : ℕ → ℕ) (s : S.First) (t : S.Second) → S.related numbers s t → SchedulesCorrespond steps_for_one S.first s S.second t }
{}

/// Controls for the threads of two machines, with a relation of single frames that meets the laws for every thread.
pub trait ThreadFrames {
    ghost domain: { Domain };

    ghost FirstPlace: { Type 0 };

    ghost SecondPlace: { Type 0 };

    ghost rules: { Rules domain };

    ghost first: { ℕ → Control domain FirstPlace };

    ghost second: { ℕ → Control domain SecondPlace };

    ghost relation: { FrameRelation domain FirstPlace SecondPlace };

    ghost laws: { ThreadLaws steps_for_one rules first second relation };
}

/// From threads whose start frames are related, each schedule of either machine has one of the other.
pub fn threads_correspond<S: ThreadFrames>()
    ensures { (w : S.relation.World) (method : ℕ → S.domain.Method) (numbers : ℕ → ℕ) (f : ℕ → Frame S.domain S.FirstPlace) (g : ℕ → Frame S.domain S.SecondPlace) (h k : S.domain.Shared) → S.relation.Alike w h k → ((i : ℕ) → S.relation.Runs w (method i) (numbers i) (f i) (g i)) → SchedulesCorrespond steps_for_one (threads S.rules S.first) (threads_start f h) (threads S.rules S.second) (threads_start g k) }
{}
