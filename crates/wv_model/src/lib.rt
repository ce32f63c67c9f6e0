//! The frame in which machines are compared: what a run is, when two machines correspond, one step for all machines of
//! frames, and the laws that lead from single frames to whole runs.
//!
//! Nothing here is called by a program. Each law stands as the contract of a function with an empty body. A trait says
//! what the law is about and what it takes for granted, so the law holds of all that could be put in.
#![tactic(auto)]

mod first_form;
mod frames;
mod machine;
mod meaning;
mod schedules;
mod simulation;
mod step;
mod toy;
mod typing;

pub use first_form::first_form_examples;
pub use frames::{FrameSimulation, starts_correspond, states_simulate, turns_agree};
pub use machine::{Growing, longer_run_keeps};
pub use meaning::{
    form_never_stuck, meaning_examples, outside_examples, overwrites_correspond, overwrites_step,
    two_classes_examples,
};
pub use schedules::{ThreadFrames, ThreadSimulation, schedules_correspond, threads_correspond};
pub use simulation::{Simulation, correspond, ends_alike, keeps_pace};
pub use step::{Framed, frames_stay_within_limit, steps_only_add};
pub use toy::{
    toy_example_runs, toy_never_stuck, woven_toy_corresponds, woven_toy_threads_correspond,
};
pub use typing::{Typed, never_stuck, starts_typed, stays_typed};
