//! What a folder has to meet before its classes are woven: the rules on its files, and its mixins in
//! their order.
#![tactic(auto)]

mod fault;
mod folder_rules;
mod laws;
mod limit;
mod listed;
mod marked;
mod opened;
mod opening_laws;
mod order;
mod places;
mod priority;

pub use fault::WeaveFault;
pub use laws::{
    listed_or_refused, marked_or_refused, mixin_number, one_markless, one_missing, one_order,
};
pub use limit::{Cut, Limit};
pub use listed::check_listed;
pub use marked::check_marked;
pub use opened::{opening, opening_cut};
pub use opening_laws::{files_opened_as_read, one_opening_refusal, one_passing, opened_or_refused};
pub use order::{AppliedMixin, order_mixins};
pub use places::ClassPlaces;

#[cfg(test)]
mod opening_tests;
#[cfg(test)]
mod tests;
