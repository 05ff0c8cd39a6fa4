// Fills the failures of the table memory, and finds the states of the keywords in it.
#![tactic(auto)]

mod failures;
mod keywords;

pub use failures::link_failures;
pub use keywords::{keyword_states, state_of_keyword};
