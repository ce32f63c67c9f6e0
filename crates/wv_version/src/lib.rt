//! Versions of mods, their order, and predicates on them. The grammar and the order are this
//! project's own, after Fabric Loader's.
#![tactic(auto)]

mod cut;
mod dotted;
mod identifier;
mod laws;
mod numeral;
mod predicate;
mod relation;
mod term;
mod version;

pub use dotted::Dotted;
pub use identifier::Identifier;
pub use laws::{bounds, build_parts, one_reading, pre_releases, total_preorder};
pub use predicate::Predicate;
pub use relation::Relation;
pub use term::Term;
pub use version::Version;

#[cfg(test)]
mod tests;
