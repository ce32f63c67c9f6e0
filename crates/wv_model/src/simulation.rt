//! A relation of states with a number, and what follows from it for every budget of steps.

ghost use Rattle.std.specs.Prelude.{◌≡◌, ℕ, None};
ghost use Rattle.wv_model.specs.Corresponds.{Corresponds, EndsAlike, steps_for_one};
ghost use Rattle.wv_model.specs.Machine.{Grows, Machine};
ghost use Rattle.wv_model.specs.Simulates.{Follows, Numbered, SimulatesWithin};

/// Two machines, the first of which follows the second step by step. `related n s t` says that the states belong
/// together, and that at most `n` steps of the first come before the one that stands for the second's next; `n` is
/// below 800.
pub trait Simulation {
    ghost First: { Type 0 };

    ghost Second: { Type 0 };

    ghost Piece: { Type 0 };

    ghost Ending: { Type 0 };

    ghost first: { Machine First Piece Ending };

    ghost second: { Machine Second Piece Ending };

    ghost related: { Numbered First Second };

    ghost first_grows: { Grows first };

    ghost second_grows: { Grows second };

    ghost simulates: { SimulatesWithin steps_for_one first second related };
}

/// From related states the machines correspond: for every budget they show the same and end alike, in both directions,
/// with 800 steps of the first for one of the second.
pub fn correspond<S: Simulation>()
    ensures { (n : ℕ) (s : S.First) (t : S.Second) → S.related n s t → Corresponds S.first s S.second t }
{}

/// From related states where the second goes on, the first takes 1 to 800 steps to a state related to the second's next,
/// and shows nothing until the last of them.
pub fn keeps_pace<S: Simulation>()
    ensures { (n : ℕ) (s : S.First) (t : S.Second) → S.related n s t → S.second.ending t ≡ None → Follows steps_for_one S.first S.second S.related s t }
{}

/// Machines that correspond have the same runs among those that end, so they also go on forever alike.
pub fn ends_alike<S: Simulation>()
    ensures { (s : S.First) (t : S.Second) → Corresponds S.first s S.second t → EndsAlike S.first s S.second t }
{}
