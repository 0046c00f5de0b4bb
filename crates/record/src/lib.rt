// The record of an entry, written to the front of a lent buffer; and the way from one written record to the next.
#![tactic(auto)]

pub mod step;
pub mod write;

pub use step::{Head, head_of, record_length};
pub use write::{write_by_row, write_entry};
