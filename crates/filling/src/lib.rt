// Fills labels and first children of the table memory: the states of some keywords get their numbers.
#![tactic(auto)]

mod keywords;
mod onward;
mod turns;

pub use keywords::Keywords;
pub use survey::KEYWORDS;
pub use turns::number_states;
