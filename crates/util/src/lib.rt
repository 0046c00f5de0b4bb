// The checksums and texts of a DROM, on which all else stands: the part of the Rust's src/util.rs that is wanted.
#![tactic(auto)]

pub mod crc;
pub mod tables;
pub mod utf16;
pub mod utf8;

pub use crc::{crc8, crc32, crc32_final, crc32_more, crc32_start};
pub use utf8::is_utf8;
pub use utf16::{Utf16Error, bytes_to_utf16_ascii, utf16_ascii_count};
