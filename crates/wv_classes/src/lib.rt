//! The class files of a folder, read and checked by themselves.
#![tactic(auto)]

mod checking;
mod class_read;
mod fault;
mod folder_class;
mod laws;
mod loaded_class;
mod refusal;
mod roots;

pub use checking::check_classes;
pub use class_read::ClassRead;
pub use fault::ClassesFault;
pub use folder_class::{FolderClass, read_classes};
pub use laws::{loaded_or_refused, one_loading, one_reading, one_refusal};
pub use loaded_class::{LoadedClass, load_classes};

#[cfg(test)]
mod tests;
