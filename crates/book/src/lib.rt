// The phrase book: judge, which says whether the lent bytes are a book within the limits or why and where they are refused.
#![tactic(auto)]

pub mod answers;
mod gaps;
pub mod judging;
mod limits;
mod phrases;
mod progress;
mod turns;

pub use answers::Accepted;
pub use judging::judge;
pub use records::{Refusal, Refused};
