// The answer to a case of feeding: what each step answers, set apart by `; `, and then the buffer.
use super::answers::{Answer, DROM, LIST, ROOM};
use super::reports::{Fields, LENT, left};
use feed::State;
use lines::words::{large_number, number, unhex, word};

// Between two steps: the state, and how much of the buffer the next feeds are lent.
#[derive(Clone, Copy)]
struct Turn {
    state: State,
    lent: usize,
}

// Feeds the piece that a word stands for. The room is for its bytes: all steps share it, so that it is not made anew for each.
fn fed(
    turn: &mut Turn,
    word: &[u8],
    room: &mut [u8],
    records: &mut [u8],
    answer: &mut Answer,
) -> Option<()> {
    let piece = unhex(word, room)?;
    let fed = feed::feed(turn.state, piece, records.get_mut(..turn.lent)?);
    turn.state = fed.state;
    let count = feed::record_count(fed.state);
    let bytes = feed::record_bytes(fed.state);
    answer.put(format_args!("fed {} {count} {bytes}; ", fed.number));
    Some(())
}

// Takes a step, whose answer is added. There is none where the step cannot be read. All of the buffer is lent where a size is
// larger.
fn step(
    turn: &mut Turn,
    word: &[u8],
    room: &mut [u8],
    records: &mut [u8],
    answer: &mut Answer,
) -> Option<()> {
    match word {
        b"?" => {
            let report = feed::finish(turn.state);
            answer.put(format_args!("finish {}; ", Fields(report)));
        }
        [b'@', size @ ..] => turn.lent = number(size)?.min(records.len()),
        _ => fed(turn, word, room, records, answer)?,
    }
    Some(())
}

// The answer to the steps, which begin at the fifth word, over the buffer that is lent.
fn answer_steps(case: &[u8], opened: State, records: &mut [u8], answer: &mut Answer) -> Option<()> {
    let mut room = [0; DROM];
    let mut turn = Turn {
        state: opened,
        lent: records.len(),
    };
    for word in case.split_inclusive(|b| *b == b' ').skip(4) {
        let word = word.strip_suffix(b" ").unwrap_or(word);
        step(&mut turn, word, &mut room, records, answer)?;
    }
    answer.put(format_args!("buffer {}", left(records)));
    Some(())
}

pub(crate) fn answer_feed(case: &[u8], answer: &mut Answer) -> Option<()> {
    let mut list = [0; LIST];
    let mut lent = [LENT; ROOM];
    let list = unhex(word(case, 1), &mut list)?;
    let announced = large_number(word(case, 2))?;
    let records = lent.get_mut(..number(word(case, 3))?)?;
    let opened = feed::open(list, announced, records);
    answer_steps(case, opened, records, answer)
}
