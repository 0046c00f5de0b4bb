// The way from one record to the next: what the head of a written record says, and how many bytes the record has.
ghost use Rattle.std.specs.Prelude.{◌≡◌, ◌-◌, ◌≤◌, ◌<◌};
ghost use Rattle.bits.specs.Bits.{byte};
ghost use Rattle.record.specs.Step.{head_length, head_in, tagged_size, record_size};

// The length is L, that of the entry.
#[derive(Clone, Copy, Default)]
pub struct Head {
    pub tag: u8,
    pub offset: usize,
    pub length: usize,
}

// `bits::byte_at`, to reckon with: written out, the widening would stand at each of the uses below.
fn at(bytes: &[u8], i: usize) -> usize
    ensures { (result ≡ byte i bytes.now) × (result < 256) }
{
    bits::byte_at(bytes, i) as usize
}

fn entry_length(bytes: &[u8]) -> usize
    ensures { (result ≡ head_length bytes.now) × (result < 256) }
{
    at(bytes, 2) % 8 * 32 + at(bytes, 3) / 8 % 32
}

// The head of the record at the front of these bytes, and zeros for fewer than four, as the clause has it.
pub fn head_of(bytes: &[u8]) -> Head
    ensures { result ≡ head_in bytes.now }
{
    if bytes.len() < 4 {
        return Head::default();
    }
    Head {
        tag: bytes[0],
        offset: at(bytes, 1) * 32 + at(bytes, 2) / 8 % 32,
        length: entry_length(bytes),
    }
}

// The size that a record of this tag has, by the bytes in which its length is told. The tag is a number and no kind: it is the record's own first
// byte, which with a caller's bytes may be any.
#[tactic(auto, unfolding(crate::specs::Step::tagged_size))]
fn tagged_size(tag: usize, bytes: &[u8]) -> usize
    requires { tag ≤ 18 }
    ensures { result ≡ tagged_size tag bytes.now }
{
    match tag {
        0 => 4,
        1 | 2 => 5,
        3..=6 => 6,
        // No entry has an L of 0.
        7 => 4 + entry_length(bytes).saturating_sub(1),
        8 | 9 | 14 | 15 => 5 + at(bytes, 4),
        10 => 6,
        11 => 17,
        12 => 7 + at(bytes, 6),
        13 => 5 + 3 * at(bytes, 4),
        16 => 5,
        17 => 7 + at(bytes, 5) / 16 % 16,
        _ => 5,
    }
}

// How many bytes the record at the front of these bytes has, and 0 where no record can stand there: so `record_size` and docs/RECORDS.md promise
// it in public, and the program dump rests on it.
pub fn record_length(bytes: &[u8]) -> usize
    ensures { result ≡ record_size bytes.now }
{
    let tag = at(bytes, 0);
    if 18 < tag {
        return 0;
    }
    let n = tagged_size(tag, bytes);
    if n <= bytes.len() { n } else { 0 }
}
