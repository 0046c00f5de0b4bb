// A DROM that is lent whole: its report, its records, and parts of its own bytes.
#![tactic(auto)]

pub mod header;
pub mod parts;
pub mod reader;
mod walk;

pub use header::{HeaderValues, header_values};
pub use parts::{body, bytes, entry_offset, head, nth_entry};
pub use reader::{Report, read, refused_report};
