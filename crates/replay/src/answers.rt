// What the library answers to a case, as text, which is put into an answer that is lent. There is none to a case that cannot
// be read.
use super::feeding::answer_feed;
use super::reports::{Fields, LENT, left};
use drom::Report;
use lines::text::{Hex, Text};
use lines::words::{number, unhex, word};

// The most bytes of a case's list, DROM and buffer. Memory is of a fixed size: no function allocates.
pub(crate) const LIST: usize = 256;

pub(crate) const DROM: usize = 4200;

pub(crate) const ROOM: usize = 16400;

// The most bytes of an answer.
const ANSWER: usize = 40000;

pub(crate) type Answer = Text<ANSWER>;

// The answer to a case that asks for a reading of a whole DROM, by one of the two entries.
fn answer_read<F: FnOnce(&[u8], &[u8], &mut [u8]) -> Option<Report>>(
    case: &[u8],
    read: F,
    answer: &mut Answer,
) -> Option<()>
    requires { F.IsAlwaysCallable read }
{
    let mut list = [0; LIST];
    let mut drom = [0; DROM];
    let mut lent = [LENT; ROOM];
    let list = unhex(word(case, 1), &mut list)?;
    let drom = unhex(word(case, 2), &mut drom)?;
    let buffer = lent.get_mut(..number(word(case, 3))?)?;
    let report = read(list, drom, buffer)?;
    answer.put(format_args!("{} {}", Fields(report), left(buffer)));
    Some(())
}

// A list of odd length is no list of structs.
fn read_structs(list: &[u8], drom: &[u8], buffer: &mut [u8]) -> Option<Report> {
    if list.len() % 2 == 1 {
        return None;
    }
    Some(structs::read_structs(list, drom, buffer))
}

// A part of a DROM, as the place where it is expected if those are its bytes, and else as its bytes.
fn put_part(part: &[u8], drom: &[u8], expected: &[u8], answer: &mut Answer) {
    match number(word(expected, 0)) {
        _ if part.is_empty() => answer.put("0 0"),
        Some(from) if from <= drom.len() && drom[from..].starts_with(part) => {
            answer.put(format_args!("{from} {}", from + part.len()));
        }
        _ => answer.put(Hex(part)),
    }
}

fn answer_entry(case: &[u8], expected: &[u8], answer: &mut Answer) -> Option<()> {
    let mut list = [0; LIST];
    let mut drom = [0; DROM];
    let list = unhex(word(case, 1), &mut list)?;
    let drom = unhex(word(case, 2), &mut drom)?;
    let entry = drom::nth_entry(list, drom, number(word(case, 3))?);
    put_part(entry, drom, expected, answer);
    Some(())
}

fn answer_part(case: &[u8], expected: &[u8], answer: &mut Answer) -> Option<()> {
    let mut drom = [0; DROM];
    let drom = unhex(word(case, 2), &mut drom)?;
    let part = match word(case, 1) {
        b"header" => drom::head(drom),
        b"body" => drom::body(drom),
        b"whole" => drom::bytes(drom),
        _ => return None,
    };
    put_part(part, drom, expected, answer);
    Some(())
}

// The answer to a case. A part's place is looked for where the expected answer has it.
pub(crate) fn answer(case: &[u8], expected: &[u8], answer: &mut Answer) -> Option<()> {
    match word(case, 0) {
        b"read" => answer_read(
            case,
            |list, drom, buffer| Some(drom::read(list, drom, buffer)),
            answer,
        ),
        b"structs" => answer_read(case, read_structs, answer),
        b"feed" => answer_feed(case, answer),
        b"part" => answer_part(case, expected, answer),
        b"entry" => answer_entry(case, expected, answer),
        _ => None,
    }
}
