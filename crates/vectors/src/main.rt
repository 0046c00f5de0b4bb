// Compares the answers of util with those of the test vectors on standard input, a line for each:
//     KIND INPUT EXPECTED
// with bytes in lower-case hex, and - for no bytes. Writes each line whose answer is another, and how many there were.
#![tactic(auto)]

mod answers;

use answers::{Fault, ROOM, answer};
use lines::compare::{compare_input, malformed, wrong};
use lines::text::Hex;
use lines::words::unhex;
use std::io;
use std::io::Write;

// The most bytes of standard input. Memory is of a fixed size: no function allocates.
const INPUT: usize = 65536;

// The answer to a line, at the front of the room, and whether it is the expected one. A third space goes into the last word,
// which is then no hex.
fn answered<'a>(line: &[u8], room: &'a mut [u8; ROOM]) -> Result<(&'a [u8], bool), Fault> {
    let mut words = line.splitn(3, |b| *b == b' ');
    let kind = words.next().ok_or(Fault::Malformed)?;
    let input = words.next().ok_or(Fault::Malformed)?;
    let expected = words.next().ok_or(Fault::Malformed)?;
    // What stands behind the input would complete a character that is cut off.
    let mut input_room = [0x80; ROOM];
    let input = unhex(input, &mut input_room).ok_or(Fault::Malformed)?;
    let computed = answer(kind, input, room)?;
    let mut expected_room = [0; ROOM];
    let expected = unhex(expected, &mut expected_room).ok_or(Fault::Malformed)?;
    Ok((computed, computed == expected))
}

fn is_right<W: Write>(out: &mut W, line: &[u8]) -> io::Result<bool> {
    let mut room = [0; ROOM];
    match answered(line, &mut room) {
        Ok((_, true)) => Ok(true),
        Ok((computed, false)) => wrong(out, line, Hex(computed)),
        Err(Fault::Malformed) => malformed(out, line),
        Err(fault) => wrong(out, line, fault),
    }
}

fn main(rt: HostRuntime) -> io::Result<()> {
    let mut room = [0; INPUT];
    compare_input(
        &mut rt.stdin(),
        &mut rt.stdout(),
        "vectors",
        &mut room,
        is_right,
    )
}
