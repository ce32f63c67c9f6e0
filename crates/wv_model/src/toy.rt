//! A toy language with hooks, which shows that the laws can be met. Nothing runs it.

ghost use Rattle.std.specs.Prelude.{◌≡◌, ◌∷◌, ℕ, List, []};
ghost use Rattle.wv_model.specs.Corresponds.{Corresponds, steps_for_one};
ghost use Rattle.wv_model.specs.Machine.{Budget, Ended, after};
ghost use Rattle.wv_model.specs.Schedules.{SchedulesCorrespond};
ghost use Rattle.wv_model.specs.Step.{machine, start};
ghost use Rattle.wv_model.specs.Threads.{threads, threads_start};
ghost use Rattle.wv_model.specs.Toy.{Deep, EndsWell, Instr, Returned, Spot, Uncaught, hooked, hooked_count, hooked_example, plain, toy_rules, woven, woven_example};
ghost use Rattle.wv_model.specs.Typing.{IsStuck};

/// For every toy program, each of its methods does the same woven as under its hooks.
pub fn woven_toy_corresponds()
    ensures { (body : ℕ → List Spot) (said method : ℕ) → Corresponds (machine toy_rules (woven body)) (start ((woven body).enter method []) said) (machine toy_rules (hooked body)) (start ((hooked body).enter method []) said) }
{}

/// The same for threads that each run the method of their number: each schedule of either has one of the other.
pub fn woven_toy_threads_correspond()
    ensures { (body : ℕ → List Spot) (said : ℕ) → SchedulesCorrespond steps_for_one (threads toy_rules (λ i. woven body)) (threads_start (λ i. (woven body).enter i []) said) (threads toy_rules (λ i. hooked body)) (threads_start (λ i. (hooked body).enter i []) said) }
{}

/// For every toy program whose methods end with a return, no step of a method's run is stuck.
pub fn toy_never_stuck()
    ensures { (code : ℕ → List Instr) → ((method : ℕ) → EndsWell (code method)) → (method said n : ℕ) → IsStuck (plain code) (after (machine toy_rules (plain code)) n (start ((plain code).enter method []) said)) → ⊥ }
{}

/// What the example does: hooks come in their order, a throw takes one step for each frame that is left, a run is cut
/// off by its budget, and each frame that is left and the end of the thread count once.
pub fn toy_example_runs()
    ensures hooked_ends { hooked_example 0 9 ≡ record { trace = 1 ∷ 2 ∷ 5 ∷ []; finish = Ended Returned } }
    ensures hooked_is_cut { hooked_example 0 8 ≡ record { trace = 1 ∷ 2 ∷ 5 ∷ []; finish = Budget } }
    ensures woven_ends { woven_example 0 13 ≡ record { trace = 1 ∷ 2 ∷ 5 ∷ []; finish = Ended Returned } }
    ensures woven_is_cut { woven_example 0 12 ≡ record { trace = 1 ∷ 2 ∷ 5 ∷ []; finish = Budget } }
    ensures throw_passes { hooked_example 4 2 ≡ record { trace = []; finish = Budget } }
    ensures throw_leaves { hooked_example 4 3 ≡ record { trace = []; finish = Ended (Uncaught 7) } }
    ensures left_one { hooked_count 4 2 ≡ 1 }
    ensures left_both_and_ended { hooked_count 4 3 ≡ 3 }
    ensures left_by_return { hooked_count 1 2 ≡ 3 }
{}
