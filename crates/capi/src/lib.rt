// The face to C and Rust over the proved library: the calls that the static library capi_c exports. A slice is there a pointer and a length.
#![tactic(auto)]

ghost use Rattle.std.specs.Prelude.{◌≡◌, length};
ghost use Rattle.bits.specs.Bits.{flag};
ghost use Rattle.util.specs.Crc.{over, crc_of8, crc_of32, byte_of32};
ghost use Rattle.util.specs.Utf16.{utf16_answer, utf16_leaves};
ghost use Rattle.util.specs.Utf8.{is_utf8};
ghost use Rattle.capi.specs.Numbers.{utf16_number};

use util::Utf16Error;

mod feeding;
mod listing;
mod numbers;
mod parts;
mod reading;

pub use feeding::{drom_feed, drom_finish, drom_open, drom_record_bytes, drom_record_count};
pub use listing::drom_read_listed;
pub use parts::{drom_body, drom_entry, drom_header, drom_whole};
pub use reading::drom_read;

// The answer where a report, a state or a place is lent too few bytes. A number, as the C interface has it.
const NO_ROOM: u8 = 255;

pub fn drom_crc8(bytes: &[u8]) -> u8
    ensures { result ≡ crc_of8 bytes.now }
{
    util::crc8(bytes)
}

pub fn drom_crc32(bytes: &[u8]) -> u32
    ensures { result ≡ crc_of32 bytes.now }
{
    util::crc32(bytes)
}

// The register after further bytes: starts at FFFFFFFF, and the last one's exclusive-or with FFFFFFFF is the CRC32.
pub fn drom_crc32_more(register: u32, bytes: &[u8]) -> u32
    ensures { result ≡ over byte_of32 register bytes.now }
{
    util::crc32_more(register, bytes)
}

// How many bytes of text stand at the front of out; 2^64 - 1 for an odd count of bytes, 2^64 - 2 for too little room,
// and then out is as lent. Numbers, as the C interface has them.
pub fn drom_utf16_ascii(bytes: &[u8], out: &mut [u8]) -> usize
    ensures answer { result ≡ utf16_number (utf16_answer bytes.now (length out.old)) }
    ensures buffer { out.new ≡ utf16_leaves bytes.now out.old }
{
    match util::bytes_to_utf16_ascii(bytes, out) {
        Ok(n) => n,
        Err(Utf16Error::OddLength) => 0xffff_ffff_ffff_ffff,
        Err(Utf16Error::NoRoom) => 0xffff_ffff_ffff_fffe,
    }
}

// 1 for well-formed UTF-8, else 0.
pub fn drom_is_utf8(bytes: &[u8]) -> u8
    ensures { result ≡ flag (is_utf8 bytes.now) }
{
    u8::from(util::is_utf8(bytes))
}
