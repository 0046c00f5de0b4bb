// A DROM that comes in pieces: open, feed, finish.
#![tactic(auto)]

mod bounds;
pub mod feeding;

pub use feeding::{
    Core, Fed, FedCore, State, feed, feed_in_place, feed_parts, finish, open, record_bytes,
    record_count,
};
