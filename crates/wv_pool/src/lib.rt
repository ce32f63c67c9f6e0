//! The constant pool of a class file (JVM Specification 4.4).
#![tactic(auto)]

mod add;
mod allowed;
mod building;
mod entry;
mod fact_table;
mod facts;
mod index;
mod key;
mod layout;
mod length;
mod pool;
mod reading;
mod reference;
mod soundness;
mod stop;
mod writing;

pub use add::PoolFault;
pub use allowed::is_allowed;
pub use pool::Pool;
pub use reading::{read_layout, read_pool};
pub use soundness::first_break;

#[cfg(test)]
mod tests;
