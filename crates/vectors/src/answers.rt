// What util answers to a vector's input, as bytes.
ghost use Rattle.std.specs.Prelude.{◌≤◌, length};

use std::fmt;
use util::Utf16Error;

// Room for the bytes of a word of a line, and for those of an answer.
pub(crate) const ROOM: usize = 256;

// What a buffer holds before it is lent, so that a byte written past a text shows.
const UNTOUCHED: u8 = 0xa5;

// Why there is no answer: what was asked cannot be read, or a text went past its end, or an answer that should have left the
// lent buffer alone did not.
#[derive(Clone, Copy, PartialEq, Eq)]
pub(crate) enum Fault {
    Malformed,
    Changed,
}

impl fmt::Display for Fault {
    fn fmt<W: fmt::Write>(&self, f: &mut fmt::Formatter<W>) -> fmt::Result {
        match self {
            Fault::Malformed => write!(f, "malformed"),
            Fault::Changed => write!(f, "the buffer was changed behind the text"),
        }
    }
}

// Bytes at the front of the room.
fn put<'a>(bytes: &[u8], room: &'a mut [u8]) -> &'a [u8]
    requires { length bytes.now ≤ length room.old }
{
    let front = &mut room[..bytes.len()];
    front.copy_from_slice(bytes);
    front
}

// CRC32 of an input that comes in pieces of 1, 2, 3, .. bytes.
fn pieces(input: &[u8]) -> u32 {
    let mut c = util::crc32_start();
    let mut rest = input;
    for size in 1..=input.len() {
        let Some((piece, behind)) = rest.split_at_checked(size) else {
            break;
        };
        c = util::crc32_more(c, piece);
        rest = behind;
    }
    util::crc32_final(util::crc32_more(c, rest))
}

// The code, which is the first byte of a vector's answer, and the n bytes of the text. No byte behind the text may have been written.
fn put_text<'a>(
    code: u8,
    lent: &[u8; ROOM],
    n: usize,
    room: &'a mut [u8; ROOM],
) -> Result<&'a [u8], Fault> {
    if ROOM <= n {
        return Err(Fault::Malformed);
    }
    if !lent[n..].iter().all(|b| *b == UNTOUCHED) {
        return Err(Fault::Changed);
    }
    room[0] = code;
    room[1..=n].copy_from_slice(&lent[..n]);
    Ok(&room[..=n])
}

// The text of an input, written to a buffer of this size.
fn utf16<'a>(input: &[u8], size: usize, room: &'a mut [u8; ROOM]) -> Result<&'a [u8], Fault> {
    if ROOM < size {
        return Err(Fault::Malformed);
    }
    let mut lent = [UNTOUCHED; ROOM];
    let (code, n) = match util::bytes_to_utf16_ascii(input, &mut lent[..size]) {
        Ok(n) => (0, n),
        Err(Utf16Error::OddLength) => (1, 0),
        Err(Utf16Error::NoRoom) => (2, 0),
    };
    put_text(code, &lent, n, room)
}

// The answer to an input, at the front of the room.
pub(crate) fn answer<'a>(
    kind: &[u8],
    input: &[u8],
    room: &'a mut [u8; ROOM],
) -> Result<&'a [u8], Fault> {
    let half = input.len() / 2;
    match kind {
        b"crc8" => Ok(put(&[util::crc8(input)], room)),
        b"crc32" => Ok(put(&util::crc32(input).to_be_bytes(), room)),
        b"pieces" => Ok(put(&pieces(input).to_be_bytes(), room)),
        b"utf8" => Ok(put(&[u8::from(util::is_utf8(input))], room)),
        b"utf16" => utf16(input, half, room),
        b"room" => utf16(input, half.checked_sub(1).ok_or(Fault::Malformed)?, room),
        _ => Err(Fault::Malformed),
    }
}
