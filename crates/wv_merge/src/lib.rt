//! One mixin merged into one class, both of any name: what of them is thin, the method that is
//! overwritten, and the bytes of the written class.
#![tactic(auto)]

mod fault;
mod note;
mod opcode;
mod overwrite;
mod overwriting;
mod plain;
mod refusal;
mod role;
mod thin;
mod typing;

pub use fault::MergeFault;
pub use overwriting::Overwriting;
pub use role::Role;
pub use thin::{is_thin, target_of};

#[cfg(test)]
mod tests;
