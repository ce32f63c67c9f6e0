//! The outside of the loader, as traits: folders that are read, the folder that is written, and
//! what is printed. Each has objects in memory, objects that never fail, and adapters of the disk
//! and of standard output.
#![tactic(auto)]

mod dir_outlet;
mod dir_tree;
mod disk;
mod fault;
mod faults;
mod mem_outlet;
mod mem_sink;
mod mem_tree;
mod out_sink;
mod outlet;
mod plan;
mod sink;
mod sure_outlet;
mod sure_sink;
mod sure_tree;
mod tree;

pub use dir_outlet::DirOutlet;
pub use dir_tree::DirTree;
pub use fault::{IoFault, SinkFault};
pub use mem_outlet::MemOutlet;
pub use mem_sink::MemSink;
pub use mem_tree::MemTree;
pub use out_sink::OutSink;
pub use outlet::{Outlet, PutFile};
pub use plan::Plan;
pub use sink::Sink;
pub use sure_outlet::SureOutlet;
pub use sure_sink::SureSink;
pub use sure_tree::SureTree;
pub use tree::Tree;

#[cfg(test)]
mod tests;
