// The walk over a body: what stands at an offset, entry by entry.
ghost use Rattle.std.specs.Prelude.{◌≡◌, ◌*◌, ◌-◌, ◌≤◌, ◌<◌, MatchResult, length, drop};
ghost use Rattle.bits.specs.Front.{onto};
ghost use Rattle.entry.specs.Adapters.{kind_in};
ghost use Rattle.entry.specs.Decode.{number_of, decode_of};
ghost use Rattle.record.specs.Write.{record_bytes, answer_of};
ghost use Rattle.drom.specs.Walk.{piece_at, front_at, walk_of};
ghost use Rattle.drom.specs.Walking.{StandsAt, RefusedAt, Tells};

use entry::Refusal;

// The kind that the list has for an entry's number, where it matters: for a used adapter. A byte of the caller's list.
pub(crate) fn listed_kind(list: &[u8], bytes: &[u8]) -> u8
    ensures { decode_of result bytes.now ≡ decode_of (kind_in list.now (number_of bytes.now)) bytes.now }
{
    match bytes {
        [_, b @ 128..=191, ..] => entry::kind_in(list, *b % 64),
        _ => 0,
    }
}

// The bytes of the entry at an offset, as many as the first of them says. That the offset is within the DROM is what the test of a
// loop has just shown, here, in the next and in
// `entry_end`; a type for it would be made anew at each turn, and is no plainer.
pub(crate) fn entry_bytes<'a>(drom: &'a [u8], at: usize) -> Result<&'a [u8], Refusal>
    requires { at < length drom.now }
    ensures { MatchResult result (λ bytes. StandsAt drom.now at bytes.now) (RefusedAt drom.now at) }
{
    let n = usize::from(drom[at]);
    if n == 0 {
        return Err(Refusal::ZeroLength);
    }
    if drom.len() - at < n {
        return Err(Refusal::PastEnd);
    }
    Ok(&drom[at..at + n])
}

// The record of the entry at an offset, to the front of out.
fn entry_at(list: &[u8], drom: &[u8], at: usize, out: &mut [u8]) -> Result<usize, Refusal>
    requires { (at < length drom.now) × (4 * (length drom.now - at) ≤ length out.old) }
    ensures answer { result ≡ answer_of at (piece_at drom.now at) (front_at (kind_in list.now) drom.now at) }
    ensures buffer { out.new ≡ onto (record_bytes at (piece_at drom.now at) (front_at (kind_in list.now) drom.now at)) out.old }
{
    let bytes = entry_bytes(drom, at)?;
    record::write_entry(bytes, listed_kind(list, bytes), at, out)
}

// Where a walk stops before its end, and why.
#[derive(Clone, Copy)]
pub(crate) struct Stop {
    pub(crate) refusal: Refusal,
    pub(crate) offset: usize,
}

#[derive(Clone, Copy)]
pub(crate) struct Passed {
    pub(crate) stop: Option<Stop>,
    pub(crate) records: usize,
    pub(crate) bytes: usize,
}

// A step with a cursor, which an entry's length moves.
pub(crate) fn walk(list: &[u8], drom: &[u8], start: usize, out: &mut [u8]) -> Passed
    requires { (16 ≤ start) × (start ≤ length drom.now) × (length drom.now ≤ 4108) × (16368 ≤ length out.old) }
    ensures { Tells (walk_of (kind_in list.now) start (drop start drom.now)) out.old out.new result.stop result.records result.bytes }
{
    let mut at = start;
    let mut records = 0;
    let mut bytes = 0;
    while at < drom.len() {
        match entry_at(list, drom, at, &mut out[bytes..]) {
            Ok(n) => {
                at += usize::from(drom[at]);
                records += 1;
                bytes += n;
            }
            Err(refusal) => {
                return Passed {
                    stop: Some(Stop {
                        refusal,
                        offset: at,
                    }),
                    records,
                    bytes,
                };
            }
        }
    }
    Passed {
        stop: None,
        records,
        bytes,
    }
}
