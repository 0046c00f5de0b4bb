// Cases for the reader and the answers that are expected, a line for each:
//     CASE => ANSWER
// `read LIST DROM ROOM`, and `structs LIST DROM ROOM` by the entry that takes a slice of structs, have the answer REPORT BUFFER;
// `part header DROM` (or body, or whole) and `entry LIST DROM N` have FROM TO. `feed LIST ANNOUNCED ROOM STEP ..` has an answer a
// step, set apart by `; `, and then `buffer BUFFER`; a STEP is a piece, `?` for a finish, or `@SIZE`, after which feeds are lent only
// the first SIZE bytes. Bytes are in lower-case hex, - for none. BUFFER is what is left of the buffer lent, which is filled with a5
// before, without its tail of a5.
#![tactic(auto)]

mod answers;
mod feeding;
mod reports;
mod row;

use answers::{Answer, answer};
use lines::compare::{malformed, wrong};
use std::io;
use std::io::{Read, Write};

// The most bytes of standard input.
const INPUT: usize = 262144;

// A case and the answer that is expected. The arrow between them has the line's first =.
fn case_and_answer(line: &[u8]) -> Option<(&[u8], &[u8])> {
    let end = line.iter().position(|b| *b == b'=')?.checked_sub(1)?;
    let (case, rest) = line.split_at_checked(end)?;
    Some((case, rest.strip_prefix(b" => ")?))
}

fn is_right<W: Write>(out: &mut W, line: &[u8]) -> io::Result<bool> {
    let Some((case, expected)) = case_and_answer(line) else {
        return malformed(out, line);
    };
    let mut computed = Answer::new();
    if answer(case, expected, &mut computed).is_none() {
        return malformed(out, line);
    }
    if computed.as_slice() == expected {
        return Ok(true);
    }
    wrong(out, line, &computed)
}

// Reads the cases, writes each line whose answer is another, and then how many lines there were and how many were wrong.
pub fn compare_input<R: Read, W: Write>(input: &mut R, out: &mut W) -> io::Result<()> {
    let mut room = [0; INPUT];
    lines::compare::compare_input(input, out, "cases", &mut room, is_right)
}
