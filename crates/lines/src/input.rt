// A test program's standard input, as one text.
ghost use Rattle.std.specs.Prelude.{◌≤◌, ◌<◌, length, IfOk};
ghost use Rattle.std.specs.Io.KnownBytes.{Consumes, IsAtEnd};

use std::io;
use std::io::{Read, Write};
use streams::read_full;

// What there is of the input, at the front of the room: its next bytes, and where they do not fill the room, nothing is left.
// A text that fills the room may have been cut, which is told.
pub fn read_text<'a, R: Read, W: Write>(
    input: &mut R,
    out: &mut W,
    what: &str,
    room: &'a mut [u8],
) -> io::Result<&'a [u8]>
    ensures fits { IfOk result (λ text. length text.now ≤ length room.old) }
    ensures bytes { IfOk result (λ text. Consumes (R.remaining input.old) (R.remaining input.new) text.now) }
    ensures end { IfOk result (λ text. length text.now < length room.old → IsAtEnd (R.remaining input.new)) }
{
    let n = read_full(input, room)?;
    if n == room.len() {
        writeln!(out, "too many {what} to read")?;
    }
    Ok(&room[..n])
}
