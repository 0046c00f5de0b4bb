// Feeding a DROM in pieces, the state in bytes that C and Rust lend.
ghost use Rattle.std.specs.Prelude.{◌≡◌, cond, ◌+◌, ◌++◌, ◌≤◌, length};
ghost use Rattle.bits.specs.Front.{onto, Wrote};
ghost use Rattle.feed.specs.Feed.{state_of};
ghost use Rattle.capi.specs.Bytes.{part, number_at};
ghost use Rattle.capi.specs.State.{state_size, core_bytes, state_bytes, core_in, state_in};
ghost use Rattle.capi.specs.Calls.{no_state, open_answer, open_state, open_next, feed_answer, feed_state, feed_records, feed_next, finish_answer, finish_report, count_answer, bytes_answer};

use super::NO_ROOM;
use super::numbers::{eight_at, four_at, part_at, put_numbers};
use super::reading::{REPORT_SIZE, put_report};
use feed::{Core, State};

// Where a state's parts stand in its bytes: six numbers of eight bytes each, and then these.
const REGISTER: usize = 48;

const REFUSAL: usize = 52;

const HEADER: usize = 53;

const PENDING: usize = 69;

const KINDS: usize = 324;

const STATE_SIZE: usize = 388;

fn put_core(c: Core, out: &mut [u8]) -> usize
    requires { 53 ≤ length out.old }
    ensures { Wrote (core_bytes c) out.old out.new result }
{
    let numbers = [
        c.announced as u64,
        c.taken as u64,
        c.offset as u64,
        c.fill as u64,
        c.count as u64,
        c.written as u64,
    ];
    put_numbers(&numbers, out);
    bits::put_all(&c.register.to_le_bytes(), &mut out[REGISTER..]);
    REFUSAL + bits::put([c.refusal], &mut out[REFUSAL..])
}

// The 388 bytes of a state, from which the same state is read again. Here and in the next two these bytes are asked for; the definitions
// speak of a longer slice too, so that an array is no plainer.
fn put_state(s: State, out: &mut [u8]) -> usize
    requires { state_size ≤ length out.old }
    ensures bytes { Wrote (state_bytes s) out.old out.new result }
    ensures back { state_in out.new ≡ s }
{
    put_core(s.core, out);
    bits::put_all(&s.header, &mut out[HEADER..]);
    bits::put_all(&s.pending, &mut out[PENDING..]);
    KINDS + bits::put_all(&s.kinds, &mut out[KINDS..])
}

fn core_in(bytes: &[u8]) -> Core
    requires { state_size ≤ length bytes.now }
    ensures { result ≡ core_in bytes.now }
{
    Core {
        announced: eight_at(bytes, 0),
        taken: eight_at(bytes, 8),
        refusal: bytes[REFUSAL],
        offset: eight_at(bytes, 16),
        register: four_at(bytes, REGISTER),
        fill: eight_at(bytes, 24),
        count: eight_at(bytes, 32),
        written: eight_at(bytes, 40),
    }
}

fn state_in(bytes: &[u8]) -> State
    requires { state_size ≤ length bytes.now }
    ensures { result ≡ state_in bytes.now }
{
    State {
        core: core_in(bytes),
        header: part_at(bytes, HEADER),
        pending: part_at(bytes, PENDING),
        kinds: part_at(bytes, KINDS),
    }
}

// The number of the refusal that the opened state holds, or 0; the state's 388 bytes at the front of state, where the next call
// reads it. 255 for fewer bytes, which are then as lent.
pub fn drom_open(list: &[u8], announced: usize, records: &[u8], state: &mut [u8]) -> u8
    ensures answer { result ≡ open_answer list.now announced records.now state.old }
    ensures state { state.new ≡ open_state list.now announced records.now state.old }
    ensures next { state_in state.new ≡ open_next list.now announced records.now state.old }
{
    if state.len() < STATE_SIZE {
        return NO_ROOM;
    }
    let s = feed::open(list, announced, records);
    put_state(s, state);
    s.core.refusal
}

// The feed's number; the state after it, where the next call reads it, and its records behind those before. 255 for a state of fewer
// than 388 bytes, and then both are as lent.
pub fn drom_feed(state: &mut [u8], piece: &[u8], records: &mut [u8]) -> u8
    ensures answer { result ≡ feed_answer state.old piece.now records.old }
    ensures state { state.new ≡ feed_state state.old piece.now records.old }
    ensures records { records.new ≡ feed_records state.old piece.now records.old }
    ensures next { state_in state.new ≡ feed_next state.old piece.now records.old }
{
    if state.len() < STATE_SIZE {
        return NO_ROOM;
    }
    let mut s = state_in(state);
    let fed = feed::feed_in_place(&mut s, piece, records);
    put_state(s, state);
    entry::answer_number(fed)
}

// The report's number, and its 96 bytes at the front of report. 255 for a state of fewer than 388 bytes or a report of fewer than 96,
// which is then as lent.
pub fn drom_finish(state: &[u8], report: &mut [u8]) -> u8
    ensures answer { result ≡ finish_answer state.now report.old }
    ensures report { report.new ≡ finish_report state.now report.old }
{
    if state.len() < STATE_SIZE || report.len() < REPORT_SIZE {
        return NO_ROOM;
    }
    let s = state_in(state);
    let r = feed::finish(s);
    put_report(r, report);
    r.number
}

// A number of a state, and 0 for fewer than 388 bytes, as the C interface has it.
fn state_number(state: &[u8], at: usize) -> usize
    requires { at + 8 ≤ state_size }
    ensures { result ≡ cond (no_state state.now) 0 (number_at at 8 state.now) }
{
    if state.len() < STATE_SIZE {
        return 0;
    }
    eight_at(state, at)
}

// How many records were written for a state.
pub fn drom_record_count(state: &[u8]) -> usize
    ensures { result ≡ count_answer state.now }
{
    state_number(state, 32)
}

// How many bytes they have.
pub fn drom_record_bytes(state: &[u8]) -> usize
    ensures { result ≡ bytes_answer state.now }
{
    state_number(state, 40)
}
