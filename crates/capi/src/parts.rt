// Parts of a lent DROM, as places in it: an offset and a count of bytes, each in eight bytes, least significant first.
ghost use Rattle.std.specs.Prelude.{◌≡◌, length};
ghost use Rattle.capi.specs.Parts.{place_of, header_place, body_place, whole_place, entry_place, place_answer, place_leaves};

use super::NO_ROOM;
use super::numbers::put_numbers;

const PLACE_SIZE: usize = 16;

// 0, and the part's place at the front of out: where it starts, and 0 for an empty one, and how many bytes it has; 255 where out has
// too few bytes, and then out is as lent.
fn put_place(start: usize, part: &[u8], out: &mut [u8]) -> u8
    ensures answer { result ≡ place_answer out.old }
    ensures place { out.new ≡ place_leaves (place_of start (length part.now)) out.old }
{
    if out.len() < PLACE_SIZE {
        return NO_ROOM;
    }
    let offset = if part.is_empty() { 0 } else { start };
    put_numbers(&[offset as u64, part.len() as u64], out);
    0
}

// Each of these four answers 0 with the part's place at the front of part, 0 and 0 for an empty one; or 255 where part has fewer than
// 16 bytes, and then it is as lent.
pub fn drom_header(drom: &[u8], part: &mut [u8]) -> u8
    ensures answer { result ≡ place_answer part.old }
    ensures place { part.new ≡ place_leaves (header_place drom.now) part.old }
{
    put_place(0, drom::head(drom), part)
}

pub fn drom_body(drom: &[u8], part: &mut [u8]) -> u8
    ensures answer { result ≡ place_answer part.old }
    ensures place { part.new ≡ place_leaves (body_place drom.now) part.old }
{
    put_place(drom::header::body_start(drom), drom::body(drom), part)
}

pub fn drom_whole(drom: &[u8], part: &mut [u8]) -> u8
    ensures answer { result ≡ place_answer part.old }
    ensures place { part.new ≡ place_leaves (whole_place drom.now) part.old }
{
    put_place(0, drom::bytes(drom), part)
}

// The n-th accepted entry, counted from 0.
pub fn drom_entry(list: &[u8], drom: &[u8], n: usize, part: &mut [u8]) -> u8
    ensures answer { result ≡ place_answer part.old }
    ensures place { part.new ≡ place_leaves (entry_place list.now drom.now n) part.old }
{
    let start = drom::entry_offset(list, drom, n);
    put_place(start, drom::nth_entry(list, drom, n), part)
}
