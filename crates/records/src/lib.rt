// The records of a phrase book: a reader that goes from record to record in the lent bytes, what each record says, and how much a
// keyword shares with those before it.
#![tactic(auto)]

pub mod kinds;
mod prefixes;
mod reader;
pub mod records;
pub mod refusals;

pub use kinds::Kind;
pub use prefixes::most_shared;
pub use reader::{Reader, read};
pub use records::{Cursor, Found, Record};
pub use refusals::{Refusal, Refused};
