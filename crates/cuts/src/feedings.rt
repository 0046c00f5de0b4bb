// Ways to feed a DROM that is there whole. Each opens for its size, feeds it and finishes.
ghost use Rattle.std.specs.Prelude.{◌≤◌, ◌<◌, length};

use drom::Report;
use feed::State;

pub(crate) fn in_two(list: &[u8], drom: &[u8], cut: usize, records: &mut [u8]) -> Report
    requires { cut ≤ length drom.now }
{
    let (front, back) = drom.split_at(cut);
    let opened = feed::open(list, drom.len(), records);
    let first = feed::feed(opened, front, records);
    let second = feed::feed(first.state, back, records);
    feed::finish(second.state)
}

fn fed(state: State, piece: &[u8], records: &mut [u8]) -> State {
    let fed = feed::feed(state, piece, records);
    fed.state
}

pub(crate) fn in_pieces(list: &[u8], drom: &[u8], size: usize, records: &mut [u8]) -> Report
    requires { 1 ≤ size }
{
    let mut state = feed::open(list, drom.len(), records);
    for piece in drom.chunks(size) {
        state = fed(state, piece, records);
    }
    feed::finish(state)
}

// Byte by byte, each among two empty pieces.
pub(crate) fn among_empty(list: &[u8], drom: &[u8], records: &mut [u8]) -> Report {
    let mut state = feed::open(list, drom.len(), records);
    for piece in drom.chunks(1) {
        let before = fed(state, b"", records);
        let after = fed(before, piece, records);
        state = fed(after, b"", records);
    }
    feed::finish(state)
}
