// A DROM that comes in pieces, cut anywhere: a state by value that takes the bytes in, and writes each record as its entry is whole.
ghost use Rattle.std.specs.Prelude.{◌≡◌, true, ◌+◌, ◌-◌, ◌%◌, ◌≤◌, ◌<◌, length, get_or, replicate, IsTrue, List, ℕ};
ghost use Rattle.bits.specs.Front.{Put};
ghost use Rattle.entry.specs.Decode.{number_of};
ghost use Rattle.entry.specs.Refusals.{refusal_number, answer_number};
ghost use Rattle.feed.specs.Kinds.{table_of};
ghost use Rattle.feed.specs.Run.{refused, ended, kept, step_of, steps};
ghost use Rattle.feed.specs.Bounds.{in_bounds};
ghost use Rattle.feed.specs.Loop.{Good, Ending, Amid, Through};
ghost use Rattle.feed.specs.Feed.{fresh, open_of, register_after, state_of, run_in, state_after, both, answer, feed_of, told, finish_of};

use drom::Report;
use drom::header::{body_start, header_number};
use entry::Refusal;

// The numbers of a state. `fill` bytes of an entry are pending; `register` is CRC32's. The small ones stand last, so that a copy has
// no gap in its middle. `refusal` stays a number, 0 for none: a state is plain data, and C lends it as bytes.
#[derive(Clone, Copy, Debug, PartialEq, Eq)]
pub struct Core {
    pub announced: usize,
    pub taken: usize,
    pub offset: usize,
    pub fill: usize,
    pub count: usize,
    pub written: usize,
    pub register: u32,
    pub refusal: u8,
}

// `fill` of `core` counts the bytes of `pending`: all of it is plain data, as C lends it.
#[derive(Clone, Copy, Debug, PartialEq, Eq)]
pub struct State {
    pub core: Core,
    pub header: [u8; 16],
    pub pending: [u8; 255],
    pub kinds: [u8; 64],
}

// A feed's number, and the state that it leaves whatever the number is: `feed_of` (specs/Feed) is told in both.
#[derive(Clone, Copy, Debug, PartialEq, Eq)]
pub struct Fed {
    pub number: u8,
    pub state: State,
}

// ---- one byte

// The kind in the table for an entry's number: that of its second byte, or 0. A byte of the state's, which may be any.
fn kind_for(kinds: &[u8; 64], entry: &[u8]) -> u8
    ensures { result ≡ get_or kinds.now (number_of entry.now) 0 }
{
    kinds[usize::from(bits::byte_at(entry, 1) % 64)]
}

impl State {
    fn refuse(&mut self, refusal: Refusal, at: usize)
        ensures { self.new ≡ state_of (refused self.old.core (refusal_number refusal) at) self.old.header self.old.pending self.old.kinds }
    {
        self.core.refusal = refusal.into();
        self.core.offset = at;
    }

    // Writes the record of the entry that is pending behind the others, or refuses it.
    fn complete(&mut self, records: &mut [u8])
        requires { Ending (run_in self.old records.old) }
        ensures { run_in self.new records.new ≡ ended (run_in self.old records.old) }
    {
        let end = self.core.fill + 1;
        let at = self.core.taken - end;
        let written = self.core.written;
        let bytes = &self.pending[..end];
        let kind = kind_for(&self.kinds, bytes);
        match record::write_by_row(bytes, kind, at, &mut records[written..]) {
            Ok(n) => {
                self.core.fill = 0;
                self.core.count += 1;
                self.core.written = written + n;
            }
            // The bounds leave room for any entry, so that this is the entry's own refusal.
            Err(refusal) => self.refuse(refusal, at),
        }
    }

    // Keeps a byte of an entry; with its last, the entry is whole.
    fn keep(&mut self, b: u8, records: &mut [u8])
        requires { Ending (run_in self.old records.old) }
        ensures { run_in self.new records.new ≡ kept (run_in self.old records.old) b }
    {
        let fill = self.core.fill;
        self.pending[fill] = b;
        let l = usize::from(self.pending[0]);
        if fill + 1 < l {
            self.core.fill = fill + 1;
        } else {
            self.complete(records);
        }
    }

    fn step(&mut self, b: u8, records: &mut [u8])
        requires { Good (run_in self.old records.old) × (self.old.core.taken < self.old.core.announced) }
        ensures { run_in self.new records.new ≡ step_of (run_in self.old records.old) b }
    {
        let at = self.core.taken;
        self.core.taken = at + 1;
        if self.core.refusal != 0 {
            return;
        }
        if at < 15 {
            self.header[at] = b;
            return;
        }
        if at == 15 {
            self.header[at] = b;
            self.core.refusal = header_number(&self.header, self.core.announced);
            self.core.offset = 0;
            return;
        }
        if at < body_start(&self.header) {
            return;
        }
        if self.core.fill != 0 {
            return self.keep(b, records);
        }
        if b == 0 {
            return self.refuse(Refusal::ZeroLength, at);
        }
        if self.core.announced - at < usize::from(b) {
            return self.refuse(Refusal::PastEnd, at);
        }
        self.keep(b, records);
    }
}

// ---- a piece

// CRC32's register after a piece: it covers the bytes from 13 on.
fn register_after(register: u32, taken: usize, piece: &[u8]) -> u32
    ensures { result ≡ register_after register taken piece.now }
{
    let skipped = 13_usize.saturating_sub(taken).min(piece.len());
    // Before its first byte CRC32 lays out a table.
    if skipped == piece.len() {
        return register;
    }
    util::crc32_more(register, &piece[skipped..])
}

// Whether a piece has all of the entry at a place. A bool: with the length as an Option, one-byte entries take a quarter longer.
fn has_whole(piece: &[u8], i: usize) -> bool
    requires { i < length piece.now }
    ensures { IsTrue result → (0 < get_or piece.now i 0) × (i + get_or piece.now i 0 ≤ length piece.now) }
{
    let l = usize::from(piece[i]);
    0 < l && l <= piece.len() - i
}

// The bytes of a whole entry, to the front of the pending ones. One of a single byte takes no call.
fn keep_whole(bytes: &[u8], pending: &mut [u8; 255]) -> usize
    ensures { Put bytes.now pending.old pending.new result }
{
    match bytes {
        [b] => bits::put([*b], pending),
        _ => bits::put_all(bytes, pending),
    }
}

impl State {
    // The entries that a piece has whole at its front, up to one that is refused, without a step for each byte: how many bytes they are.
    // The cursor moves by each entry's length.
    fn take_entries(&mut self, piece: &[u8], records: &mut [u8]) -> usize
        requires { Good (run_in self.old records.old) × (self.old.core.refusal ≡ 0) × (self.old.core.fill ≡ 0) × (length piece.now ≤ self.old.core.announced - self.old.core.taken) }
        ensures { Through (run_in self.old records.old) piece.now result (run_in self.new records.new) }
    {
        if self.core.taken < 16 || self.core.taken < body_start(&self.header) {
            return 0;
        }
        let mut i: usize = 0;
        while i < piece.len() && has_whole(piece, i) {
            let l = usize::from(piece[i]);
            let end = i + l;
            let bytes = &piece[i..end];
            let at = self.core.taken;
            let written = self.core.written;
            let kind = kind_for(&self.kinds, bytes);
            let Ok(n) = record::write_entry(bytes, kind, at, &mut records[written..]) else {
                return i;
            };
            keep_whole(bytes, &mut self.pending);
            self.core.taken = at + l;
            self.core.count += 1;
            self.core.written = written + n;
            i = end;
        }
        i
    }

    // The bytes in the middle of an entry that a piece has at its front: how many they are. The entry's last makes it whole, and is left.
    // They are taken at once: with a turn of the loop for each of them, long entries in small pieces take half as long again.
    fn keep_middle(&mut self, piece: &[u8]) -> usize
        requires { Amid self.old × (length piece.now ≤ self.old.core.announced - self.old.core.taken) }
        ensures moves { 0 < length piece.now → 0 < result }
        ensures through { (buffer : List ℕ) → Through (run_in self.old buffer) piece.now result (run_in self.new buffer) }
    {
        let fill = self.core.fill;
        let n = piece.len().min(usize::from(self.pending[0]) - (fill + 1));
        bits::put_all(&piece[..n], &mut self.pending[fill..]);
        self.core.taken += n;
        self.core.fill = fill + n;
        n
    }

    // The loop over a piece, by a cursor: a turn moves over a byte, several of an entry, whole entries or all that is left. The entries
    // that the piece has whole, and the bytes in the middle of an entry, take no step.
    fn take_in(&mut self, piece: &[u8], records: &mut [u8])
        requires { (in_bounds self.old.core self.old.header self.old.pending ≡ true) × (16368 ≤ length records.old) × (length piece.now ≤ self.old.core.announced - self.old.core.taken) }
        ensures state { self.new ≡ state_after (steps (run_in self.old records.old) piece.now) (register_after self.old.core.register self.old.core.taken piece.now) }
        ensures buffer { records.new ≡ (steps (run_in self.old records.old) piece.now).buffer }
    {
        // That these are bytes is known to the proof once one of them is read.
        let _first = self.pending[0];
        let register = register_after(self.core.register, self.core.taken, piece);
        let mut i: usize = 0;
        while i < piece.len() {
            let at = self.core.taken;
            let fill = self.core.fill;
            if self.core.refusal != 0 {
                self.core.taken = at + (piece.len() - i);
                i = piece.len();
                continue;
            }
            if fill == 0 {
                let n = self.take_entries(&piece[i..], records);
                if n != 0 {
                    i += n;
                    continue;
                }
            } else if 21 < at && fill + 1 < usize::from(self.pending[0]) {
                // Where something is pending the header is in, and a body starts at 22 or before.
                i += self.keep_middle(&piece[i..]);
                continue;
            }
            self.step(piece[i], records);
            i += 1;
        }
        self.core.register = register;
    }
}

// Takes a piece in, or refuses it, 18, 4 or 12, with everything as it was.
pub fn feed_in_place(state: &mut State, piece: &[u8], records: &mut [u8]) -> Result<(), Refusal>
    ensures { answer (answer_number result) state.new records.new ≡ feed_of state.old piece.now records.old }
{
    if !state.core.in_bounds(&state.header, &state.pending) {
        return Err(Refusal::Outside);
    }
    if records.len() < 16368 {
        return Err(Refusal::SmallBuffer);
    }
    if state.core.announced - state.core.taken < piece.len() {
        return Err(Refusal::Beyond);
    }
    state.take_in(piece, records);
    Ok(())
}

// The same for a state by value. 0 is the number of a piece that was taken in.
pub fn feed(mut state: State, piece: &[u8], records: &mut [u8]) -> Fed
    ensures { both result records.new ≡ feed_of state piece.now records.old }
{
    let number = entry::answer_number(feed_in_place(&mut state, piece, records));
    Fed { number, state }
}

// What `feed_parts` answers: a feed's number, and the numbers of the state that it leaves.
#[derive(Clone, Copy, Debug, PartialEq, Eq)]
pub struct FedCore {
    pub number: u8,
    pub core: Core,
}

// The same for a state whose parts lie apart: its kinds are only read, so that several feedings may share them.
pub fn feed_parts(
    core: Core,
    header: &mut [u8; 16],
    pending: &mut [u8; 255],
    kinds: &[u8; 64],
    piece: &[u8],
    records: &mut [u8],
) -> FedCore
    ensures { answer result.number (state_of result.core header.new pending.new kinds.now) records.new ≡ feed_of (state_of core header.old pending.old kinds.now) piece.now records.old }
{
    let mut state = State {
        core,
        header: *header,
        pending: *pending,
        kinds: *kinds,
    };
    let number = entry::answer_number(feed_in_place(&mut state, piece, records));
    *header = state.header;
    *pending = state.pending;
    FedCore {
        number,
        core: state.core,
    }
}

pub fn record_count(state: State) -> usize
    ensures { result ≡ state.core.count }
{
    state.core.count
}

pub fn record_bytes(state: State) -> usize
    ensures { result ≡ state.core.written }
{
    state.core.written
}

// ---- opening

// The kinds by number, 0 to 63. The list is taken from its end, so that the first adapter with a number counts.
fn table_of(list: &[u8]) -> [u8; 64]
    requires { length list.now % 2 ≡ 0 }
    ensures { result ≡ table_of list.now }
{
    let mut kinds = [0; 64];
    for pair in list.chunks_exact(2).rev() {
        let number = usize::from(pair[0]);
        if number < 64 {
            kinds[number] = pair[1];
        }
    }
    kinds
}

impl State {
    // A state's refusal is a number, 0 for none.
    fn fresh(announced: usize, refusal: u8, kinds: [u8; 64]) -> Self
        ensures { result ≡ fresh announced refusal kinds }
    {
        let core = Core {
            announced,
            taken: 0,
            offset: 0,
            fill: 0,
            count: 0,
            written: 0,
            register: util::crc32_start(),
            refusal,
        };
        Self {
            core,
            header: [0; 16],
            pending: [0; 255],
            kinds,
        }
    }
}

// No byte can be fed to an opening that is refused: its announced size is 0.
fn refused_opening(refusal: Refusal) -> State
    ensures { result ≡ fresh 0 (refusal_number refusal) (replicate 64 0) }
{
    State::fresh(0, refusal.into(), [0; 64])
}

// A state for a DROM of an announced size, its adapters listed as bytes: number, kind, number, kind, ..
#[tactic(auto, unfolding(crate::specs::Feed::open_of))]
pub fn open(list: &[u8], announced: usize, records: &[u8]) -> State
    ensures { result ≡ open_of list.now announced (length records.now) }
{
    if list.len() % 2 == 1 {
        return refused_opening(Refusal::OddList);
    }
    if records.len() < 16368 {
        return refused_opening(Refusal::SmallBuffer);
    }
    if announced < 16 {
        return refused_opening(Refusal::TooFew);
    }
    State::fresh(announced, 0, table_of(list))
}

// ---- finishing

// By its fields, as in `drom::read`: a function of six arguments in their place is no plainer.
fn report(core: Core, header: &[u8; 16]) -> Report
    ensures { result ≡ told core header.now }
{
    let h = drom::header_values(header);
    Report {
        number: core.refusal,
        offset: core.offset,
        version: h.version,
        length: h.length,
        start: h.start,
        crc32: h.crc32,
        crc32good: util::crc32_final(core.register) == h.crc32,
        crc8: h.crc8,
        uuid: h.uuid,
        crc8good: h.crc8good,
        records: core.count,
        bytes: core.written,
    }
}

// The report: 18 first, then 13 if bytes are missing.
#[tactic(auto, unfolding(crate::specs::Feed::finish_of))]
pub fn finish(state: State) -> Report
    ensures { result ≡ finish_of state }
{
    let core = state.core;
    if !core.in_bounds(&state.header, &state.pending) {
        return drom::refused_report(Refusal::Outside.into());
    }
    if core.taken < core.announced {
        return drom::refused_report(Refusal::Missing.into());
    }
    // By the number that the state holds.
    match core.refusal {
        1..=5 => drom::refused_report(core.refusal),
        _ => report(core, &state.header),
    }
}
