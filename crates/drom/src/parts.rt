// Parts of the caller's own bytes: the header, the body, the whole DROM, and the n-th accepted entry. The names are the Rust's,
// where `Drom` has them; `head` is its `header`. Where there is no such part it is the empty one, as document 01 and the clauses have it:
// ours is the DROM's from 0 to 0, so that a part is always one of the DROM's own.
ghost use Rattle.std.specs.Prelude.{◌≡◌, ◌<◌, ◌≤◌, IfSome, length, drop};
ghost use Rattle.std.specs.Option.{unwrap_or};
ghost use Rattle.entry.specs.Adapters.{kind_in};
ghost use Rattle.drom.specs.Walk.{walk_of};
ghost use Rattle.drom.specs.Walking.{end_at};
ghost use Rattle.drom.specs.Parts.{header_part, body_part, whole_part, entry_part, offset_in, entry_offset};

use super::header::{body_start, is_accepted};
use super::walk::{entry_bytes, listed_kind};

// The header, bytes 0 to 15 or, for TBT3, to 21.
pub fn head<'a>(drom: &'a [u8]) -> &'a [u8]
    ensures { result.now ≡ header_part drom.now }
{
    if is_accepted(drom) {
        &drom[..body_start(drom)]
    } else {
        &drom[..0]
    }
}

pub fn body<'a>(drom: &'a [u8]) -> &'a [u8]
    ensures { result.now ≡ body_part drom.now }
{
    if is_accepted(drom) {
        &drom[body_start(drom)..]
    } else {
        &drom[..0]
    }
}

// The whole DROM.
pub fn bytes<'a>(drom: &'a [u8]) -> &'a [u8]
    ensures { result.now ≡ whole_part drom.now }
{
    if is_accepted(drom) { drom } else { &drom[..0] }
}

// Where the entry at an offset ends, if one stands there.
#[tactic(auto, using(record::proofs::Known::decode_one))]
fn entry_end(list: &[u8], drom: &[u8], at: usize) -> Option<usize>
    requires { at < length drom.now }
    ensures { result ≡ end_at (kind_in list.now) drom.now at }
{
    let bytes = entry_bytes(drom, at).ok()?;
    // One byte is an entry by itself. A body may have thousands, and here they take no further call.
    if bytes.len() == 1 {
        return Some(at + 1);
    }
    entry::decode(bytes, listed_kind(list, bytes)).ok()?;
    Some(at + bytes.len())
}

// Where the n-th entry from an offset on stands, if there are so many.
fn offset_from(list: &[u8], drom: &[u8], start: usize, n: usize) -> Option<usize>
    requires { (0 < start) × (start ≤ length drom.now) }
    ensures place { unwrap_or result 0 ≡ offset_in start (walk_of (kind_in list.now) start (drop start drom.now)).entries n }
    ensures some { IfSome result (λ at. 0 < at) }
{
    let mut at = start;
    let mut left = n;
    // The cursor moves by each entry's length, and `left` says how many entries stand before the one that is wanted.
    while at < drom.len() {
        let end = entry_end(list, drom, at)?;
        if left == 0 {
            return Some(at);
        }
        left -= 1;
        at = end;
    }
    None
}

// Where the n-th accepted entry stands, counted from 0, if there is one. List, DROM and n are what the two public calls below take: a
// type for the three would be made for each call.
fn place_of(list: &[u8], drom: &[u8], n: usize) -> Option<usize>
    ensures place { unwrap_or result 0 ≡ entry_offset list.now drom.now n }
    ensures some { IfSome result (λ at. 0 < at) }
{
    if list.len() % 2 == 1 || !is_accepted(drom) {
        return None;
    }
    offset_from(list, drom, body_start(drom), n)
}

// The same, or 0 where there is none: a number, as the C call drom_entry promises it.
pub fn entry_offset(list: &[u8], drom: &[u8], n: usize) -> usize
    ensures { result ≡ entry_offset list.now drom.now n }
{
    place_of(list, drom, n).unwrap_or(0)
}

// The n-th accepted entry, counted from 0. An entry before a refused one can be had.
pub fn nth_entry<'a>(list: &[u8], drom: &'a [u8], n: usize) -> &'a [u8]
    ensures { result.now ≡ entry_part list.now drom.now n }
{
    let Some(at) = place_of(list, drom, n) else {
        return &drom[..0];
    };
    &drom[at..at + usize::from(drom[at])]
}
