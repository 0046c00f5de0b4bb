// The text of little-endian UTF-16 units, in the characters that a sheet shows.
ghost use Rattle.std.specs.Prelude.{◌≡◌, ◌+◌, ◌/◌, ◌≤◌, MatchOption, length};
ghost use Rattle.bits.specs.Front.{onto};
ghost use Rattle.util.specs.Range.{range};
ghost use Rattle.util.specs.Utf16.{is_pair, alone, kept, utf16_text, utf16_answer, utf16_leaves};
ghost use Rattle.util.specs.Shown.{shown, StartsWith, Shows};

// Why a text is not written.
#[derive(Clone, Copy, Debug, PartialEq, Eq, Hash)]
pub enum Utf16Error {
    OddLength,
    NoRoom,
}

fn unit_at(bytes: &[u8], i: usize) -> Option<u16>
    requires { i ≤ length bytes.now }
    ensures { MatchOption result (length bytes.now ≤ i + 1) (StartsWith bytes.now i) }
{
    match &bytes[i..] {
        [low, high, ..] => Some(u16::from_le_bytes([*low, *high])),
        _ => None,
    }
}

#[tactic(auto, using(std::proofs::lemmas::Bool::Decides::nat_tests), unfolding(crate::specs::Utf16::is_pair))]
fn is_pair(u: u16, v: u16) -> bool
    ensures { result ≡ is_pair u v }
{
    matches!((u, v), (0xd800..=0xdbff, 0xdc00..=0xdfff))
}

// A pair begins with such a unit.
#[tactic(auto, using(std::proofs::lemmas::Bool::Decides::nat_tests), unfolding(crate::specs::Range::range))]
fn is_high(u: u16) -> bool
    ensures { result ≡ range 0xD800 0xDBFF u }
{
    matches!(u, 0xd800..=0xdbff)
}

// What is kept of a unit that is no part of a pair.
#[tactic(auto, using(std::proofs::lemmas::Bool::Decides::nat_tests), unfolding(crate::specs::Utf16::kept, crate::specs::Utf16::alone))]
fn kept_alone(u: u16) -> Option<u8>
    ensures { shown result ≡ kept (alone u) }
{
    match u {
        0x21..=0x7e => Some(u as u8),
        0xd800..=0xdfff => Some(b'.'),
        _ => None,
    }
}

// What the unit at a place shows, with the next where the two are a pair, and the place after them.
#[derive(Drop)]
struct Step {
    shown: Option<u8>,
    next: usize,
}

// The step of the unit at i, or None where fewer than two bytes are left. Most units begin no pair, and for these the next is not
// looked at: else a text takes up to half as long again.
#[tactic(auto, using(crate::proofs::Text::steps))]
fn next_shown(bytes: &[u8], i: usize) -> Option<Step>
    requires { i ≤ length bytes.now }
    ensures { MatchOption result (length bytes.now ≤ i + 1) (λ s. Shows bytes.now i s.shown s.next) }
{
    let u = unit_at(bytes, i)?;
    if is_high(u) {
        if let Some(v) = unit_at(bytes, i + 2) {
            if is_pair(u, v) {
                return Some(Step {
                    shown: None,
                    next: i + 4,
                });
            }
        }
    }
    Some(Step {
        shown: kept_alone(u),
        next: i + 2,
    })
}

// How many bytes the text of the bytes has, for who does not want it written. A last odd byte counts for nothing.
// The place moves by a step's two or four bytes. A walk shared with write_text would call a closure that changes what it
// captures, the count or the buffer, and its contract would say for both what each loop's invariant says here: no plainer.
pub fn utf16_ascii_count(bytes: &[u8]) -> usize
    ensures { result ≡ length (utf16_text bytes.now) }
{
    let mut i = 0;
    let mut n = 0;
    while let Some(step) = next_shown(bytes, i) {
        i = step.next;
        if step.shown.is_some() {
            n += 1;
        }
    }
    n
}

// The text of the units, to the front of out.
fn write_text(bytes: &[u8], out: &mut [u8]) -> usize
    requires { length bytes.now / 2 ≤ length out.old }
    ensures { (result ≡ length (utf16_text bytes.now)) × (out.new ≡ onto (utf16_text bytes.now) out.old) }
{
    let mut i = 0;
    let mut n = 0;
    while let Some(step) = next_shown(bytes, i) {
        i = step.next;
        if let Some(b) = step.shown {
            out[n] = b;
            n += 1;
        }
    }
    n
}

// The text of the bytes, to the front of out, whose other bytes stay as they are. A unit shows one byte at most.
#[tactic(auto, using(std::proofs::lemmas::Bool::Decides::nat_tests), unfolding(crate::specs::Utf16::utf16_answer, crate::specs::Utf16::utf16_leaves))]
pub fn bytes_to_utf16_ascii(bytes: &[u8], out: &mut [u8]) -> Result<usize, Utf16Error>
    ensures answer { result ≡ utf16_answer bytes.now (length out.old) }
    ensures buffer { out.new ≡ utf16_leaves bytes.now out.old }
{
    if bytes.len() % 2 == 1 {
        return Err(Utf16Error::OddLength);
    }
    if out.len() < bytes.len() / 2 {
        return Err(Utf16Error::NoRoom);
    }
    Ok(write_text(bytes, out))
}
