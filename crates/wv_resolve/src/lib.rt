//! Mods and what they depend on: which are loaded, and whether they fit together (fabric.mod.json,
//! schema version 1).
#![tactic(auto)]

mod check;
mod discovery;
mod kind;
mod laws;
mod loaded_folder;
mod path;
mod present;
mod refusal;
mod resolution;
mod source;

pub use discovery::load_mods;
pub use laws::{
    loaded_by_mods, loaded_or_refused, mod_folder_parts, one_description, one_first_broken,
    one_folder_list, one_loading, one_refusal, one_resolution, resolved_or_refused,
};
pub use loaded_folder::loaded_folders;
pub use path::is_read;
pub use resolution::resolve;

#[cfg(test)]
mod discovery_tests;
#[cfg(test)]
mod tests;
