// An answer as text, in memory of a fixed size.
ghost use Rattle.std.specs.Prelude.{◌≡◌, ◌≤◌, ◌<◌, ℕ, List, [], ◌++◌, length, take, false, Some};
ghost use Rattle.std.specs.Fmt.{digit_glyph, WritesOnOk};
ghost use Rattle.std.specs.List.{flat_map};
ghost use Rattle.lines.specs.Hex.{hex_pair, hex_text};

use std::fmt::Write;
use std::marker::Model;
use std::{fmt, str};

// A text that does not fit is cut, and so differs from any whole one that was expected.
#[derive(Drop)]
pub struct Text<const N: usize> {
    bytes: [u8; N],
    len: usize,
}

// What is there of the text.
impl<const N: usize> Model for Text<N> {
    ghost Value = { List ℕ };

    ghost view = { λ text. take text.len text.bytes };

    ghost invariant = { λ text. text.len ≤ N };
}

impl<const N: usize> Text<N> {
    pub fn new() -> Text<N>
        ensures { result ≡ [] }
    {
        Text {
            bytes: [0; N],
            len: 0,
        }
    }

    pub fn as_slice(&self) -> &[u8]
        ensures bytes { result.now ≡ self.now }
        ensures fits { length result.now ≤ N }
    {
        &self.bytes[..self.len]
    }

    // Adds what a value displays. Nothing can fail, since a text that does not fit is cut. No clause says which text stands
    // there, since a value may end in an error, and `Display` promises nothing of what it wrote before.
    pub fn put<D: fmt::Display + Drop>(&mut self, value: D) {
        let _ = self.write(value);
    }
}

impl<const N: usize> fmt::Write for Text<N> {
    ghost write_str_gives = { λ old more new. new ≡ take N (old ++ more) };

    fn write_str(&mut self, s: &str) -> fmt::Result {
        let start = self.len;
        let n = s.len().min(N - start);
        let end = start + n;
        let bytes = s.as_bytes();
        let room = &mut self.bytes[..];
        // By a loop: most of what is written is a digit or a space, and for these a call of `memcpy` costs more.
        bits::put_all(&bytes[..n], &mut room[start..end]);
        self.len = end;
        Ok(())
    }
}

// Numbers, hex and a few words stand in it, which are ASCII, so that it is UTF-8 wherever it was cut.
impl<const N: usize> fmt::Display for Text<N> {
    ghost output = { λ text. Some text };

    fn fmt<W: fmt::Write>(&self, f: &mut fmt::Formatter<W>) -> fmt::Result {
        match str::from_utf8(self.as_slice()) {
            Ok(text) => f.write_str(text),
            Err(_) => Err(fmt::Error),
        }
    }
}

// Bytes as they are read: two digits each, and - for none.
#[derive(Clone, Copy)]
pub struct Hex<'a>(pub &'a [u8]);

impl fmt::Display for Hex<'_> {
    ghost output = { λ hex. Some (hex_text hex.0.now) };

    fn fmt<W: fmt::Write>(&self, f: &mut fmt::Formatter<W>) -> fmt::Result {
        if self.0.is_empty() {
            return write!(f, "-");
        }
        write_pairs(self.0, f)
    }
}

// How many bytes are written at a time.
const CHUNK: usize = 64;

// The digit of a number below 16.
fn glyph(n: u8) -> u8
    requires { n < 16 }
    ensures { result ≡ digit_glyph false n }
{
    if n < 10 { b'0' + n } else { b'a' + (n - 10) }
}

// Two digits for each byte of a chunk, at the front of the room.
fn pairs<'a>(chunk: &[u8], room: &'a mut [u8; 2 * CHUNK]) -> &'a [u8]
    requires { length chunk.now ≤ 64 }
    ensures { result.now ≡ flat_map hex_pair chunk.now }
{
    for (i, b) in chunk.iter().enumerate() {
        room[2 * i] = glyph(*b / 16);
        room[2 * i + 1] = glyph(*b % 16);
    }
    &room[..2 * chunk.len()]
}

// Two digits for each byte. A chunk is written at once, since the calls cost more than the digits.
fn write_pairs<W: fmt::Write>(bytes: &[u8], f: &mut fmt::Formatter<W>) -> fmt::Result
    ensures { WritesOnOk W.write_str_gives f.old result (flat_map hex_pair bytes.now) f.new }
{
    let mut room = [0; 2 * CHUNK];
    for chunk in bytes.chunks(CHUNK) {
        let Ok(text) = str::from_utf8(pairs(chunk, &mut room)) else {
            return Err(fmt::Error);
        };
        f.write_str(text)?;
    }
    Ok(())
}
