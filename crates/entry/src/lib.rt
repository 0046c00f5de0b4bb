// An entry of a DROM: its bytes to its values, or to why it is refused; and the kinds of a list of adapters.
#![tactic(auto)]

pub mod adapters;
pub mod parse;
pub mod refusal;

pub use adapters::kind_in;
pub use parse::{DromEntry, Version, decode};
pub use refusal::{Refusal, answer_number};
