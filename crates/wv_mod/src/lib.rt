//! Descriptions of mods, `fabric.mod.json`, schema version 1, and of the game, `game/game.json`.
#![tactic(auto)]

mod dependency;
mod environment;
mod fault;
mod field;
mod game_flaw;
mod game_info;
mod id;
mod key;
mod laws;
mod manifest;
mod mixin;
mod mod_info;
mod slashes;

pub use dependency::{Dependency, Requirement};
pub use environment::Environment;
pub use fault::{Flaw, ModFault};
pub use game_flaw::GameFlaw;
pub use game_info::{GameInfo, read_game};
pub use id::is_id;
pub use key::Key;
pub use laws::{no_game_is_broken, one_game, one_game_refusal};
pub use manifest::Manifest;
pub use mixin::MixinConfig;
pub use mod_info::{ModInfo, read_mod};

#[cfg(test)]
mod game_tests;
#[cfg(test)]
mod tests;
