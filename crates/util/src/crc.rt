// CRC8 and CRC-32C of a slice of bytes, and CRC-32C's register over bytes that come in pieces.
ghost use Rattle.std.specs.Prelude.{◌≡◌, suc, ◌+◌, ◌*◌, ◌%◌, ◌<◌, length, bit_xor};
ghost use Rattle.util.specs.Crc.{times, over, bit_of8, byte_of8, crc_of8, bit_of32, byte_of32, start32, final32, crc_of32};
ghost use Rattle.util.specs.Tables.{Stepped, Rowed};

use super::tables::{CRC32_ROWS, CRC32_TABLE};

// Twice x, with the top bit dropped.
fn doubled(x: u8) -> u8
    ensures { result ≡ x * 2 % 256 }
{
    x.wrapping_add(x)
}

#[tactic(auto, using(std::proofs::lemmas::Bool::Decides::nat_tests), unfolding(crate::specs::Crc::bit_of8))]
fn bit8(c: u8) -> u8
    ensures { result ≡ bit_of8 c }
{
    if c / 128 == 1 {
        doubled(c) ^ 7
    } else {
        doubled(c)
    }
}

#[tactic(auto, unfolding(crate::specs::Crc::byte_of8))]
fn byte8(c: u8, b: u8) -> u8
    ensures { result ≡ byte_of8 c b }
{
    let x = c ^ b;
    bit8(bit8(bit8(bit8(bit8(bit8(bit8(bit8(x))))))))
}

// The CRC8 of the bytes. As a fold, as in by_byte, it took a fifth longer.
#[tactic(auto, unfolding(crate::specs::Crc::crc_of8))]
pub fn crc8(bytes: &[u8]) -> u8
    ensures { result ≡ crc_of8 bytes.now }
{
    let mut c = 0xff;
    for b in bytes {
        c = byte8(c, *b);
    }
    c
}

#[tactic(auto, using(crate::proofs::CrcLaws::by_table), unfolding(crate::specs::Tables::Stepped))]
fn byte32(t: &[u32; 256], c: u32, b: u8) -> u32
    requires { Stepped t.now }
    ensures { result ≡ byte_of32 c b }
{
    let at = ((c ^ b as u32) % 256) as usize;
    c / 256 ^ t[at]
}

// A byte at a time, by CRC32_TABLE.
#[tactic(auto, using(crate::proofs::CrcLaws::from_fold))]
fn by_byte(t: &[u32; 256], c: u32, bytes: &[u8]) -> u32
    requires { Stepped t.now }
    ensures { result ≡ over byte_of32 c bytes.now }
{
    bytes.iter().fold(c, |x, b| byte32(t, x, *b))
}

// CRC32_ROWS, laid out.
#[derive(Clone, Copy)]
struct Rows<'a> {
    t: &'a [u32; 256],
    ghost rowed: { Rowed t.now },
}

impl Rows<'_> {
    // The steps of a byte and of k bytes after it: of its low and of its high four bits, by two rows.
    #[tactic(auto, using(crate::proofs::CrcLaws::by_rows))]
    fn byte_in_rows(self, k: usize, b: u8) -> u32
        requires { k < 8 }
        ensures { result ≡ times (suc k * 8) bit_of32 b }
    {
        let low = (b % 16) as usize;
        let high = (b / 16) as usize;
        self.t[k * 32 + high] ^ self.t[k * 32 + 16 + low]
    }

    // Eight bytes at once: each goes on by itself, and what the eight come to is one exclusive-or of all.
    fn eight_bytes(self, c: u32, bytes: &[u8; 8]) -> u32
        ensures { result ≡ over byte_of32 c bytes.now }
    {
        let [c0, c1, c2, c3] = c.to_le_bytes();
        let [b0, b1, b2, b3, b4, b5, b6, b7] = *bytes;
        self.byte_in_rows(0, b7)
            ^ self.byte_in_rows(1, b6)
            ^ self.byte_in_rows(2, b5)
            ^ self.byte_in_rows(3, b4)
            ^ self.byte_in_rows(4, c3 ^ b3)
            ^ self.byte_in_rows(5, c2 ^ b2)
            ^ self.byte_in_rows(6, c1 ^ b1)
            ^ self.byte_in_rows(7, c0 ^ b0)
    }

    fn byte_by_rows(self, c: u32, b: u8) -> u32
        ensures { result ≡ byte_of32 c b }
    {
        c / 256 ^ self.byte_in_rows(0, (c % 256) as u8 ^ b)
    }

    // What eight at a time leaves over, by the rows that are laid out already.
    #[tactic(auto, using(crate::proofs::CrcLaws::from_fold))]
    fn rest_by_rows(self, c: u32, bytes: &[u8]) -> u32
        ensures { result ≡ over byte_of32 c bytes.now }
    {
        bytes.iter().fold(c, |x, b| self.byte_by_rows(x, *b))
    }

    #[tactic(auto, using(crate::proofs::CrcLaws::parts))]
    fn by_eight(self, c: u32, bytes: &[u8]) -> u32
        ensures { result ≡ over byte_of32 c bytes.now }
    {
        let mut x = c;
        let mut rest = bytes;
        while let Some((eight, after)) = rest.split_first_chunk() {
            x = self.eight_bytes(x, eight);
            rest = after;
        }
        self.rest_by_rows(x, rest)
    }
}

// The register c after further bytes. CRC32 of bytes that come in pieces starts at FFFFFFFF, takes in the pieces
// one after the other, and is the last register's exclusive-or with FFFFFFFF: crc32_final. A table is laid out at
// each call, so a few bytes go by the one that takes a single look a byte.
pub fn crc32_more(c: u32, bytes: &[u8]) -> u32
    ensures { result ≡ over byte_of32 c bytes.now }
{
    if bytes.len() < 16 {
        let t = CRC32_TABLE;
        return by_byte(&t, c, bytes);
    }
    let t = CRC32_ROWS;
    let rows = Rows { t: &t };
    rows.by_eight(c, bytes)
}

// The register before the first byte.
pub fn crc32_start() -> u32
    ensures { result ≡ start32 }
{
    0xffff_ffff
}

// The CRC32 of all the bytes that the register c has taken in.
#[tactic(auto, unfolding(crate::specs::Crc::final32))]
pub fn crc32_final(c: u32) -> u32
    ensures { result ≡ final32 c }
{
    c ^ 0xffff_ffff
}

// The CRC32 of the bytes.
#[tactic(auto, unfolding(crate::specs::Crc::crc_of32))]
pub fn crc32(bytes: &[u8]) -> u32
    ensures { result ≡ crc_of32 bytes.now }
{
    crc32_final(crc32_more(crc32_start(), bytes))
}
