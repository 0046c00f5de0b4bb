// The header of a DROM: its values and verdicts, and the refusals before the entries.
ghost use Rattle.std.specs.Prelude.{◌≡◌, cond, eqb};
ghost use Rattle.entry.specs.Refusals.{answer_number};
ghost use Rattle.drom.specs.Header.{crc8_in, uuid_in, crc32_in, length_in, is_tbt3, body_start, crc8_right, header_number, header_refusal};
ghost use Rattle.drom.specs.Report.{refusal_of};
ghost use Rattle.drom.specs.HeaderValues.{values_in, header_values};

use entry::Refusal;

// How many bytes a header has.
const HEADER: usize = 16;

// How many one of TBT3 has.
const TBT3_HEADER: usize = 22;

// Where the version stands. The length that a header states counts from here on, and CRC32 covers the bytes from here on.
pub(crate) const VERSION: usize = 13;

// The length that a header states. Bytes that are not there count as 0, here and in the next two.
pub fn stated_length(drom: &[u8]) -> usize
    ensures { result ≡ length_in drom.now }
{
    let stated = u16::from_le_bytes([bits::byte_at(drom, 14), bits::byte_at(drom, 15)]);
    usize::from(stated % 4096)
}

pub fn is_tbt3(drom: &[u8]) -> bool
    ensures { result ≡ is_tbt3 drom.now }
{
    bits::byte_at(drom, VERSION) < 3
}

pub fn body_start(drom: &[u8]) -> usize
    ensures { result ≡ body_start drom.now }
{
    if is_tbt3(drom) { TBT3_HEADER } else { HEADER }
}

// Why the header of a DROM of this size is refused: 2, then 3. Its first 16 bytes suffice.
fn check_header(drom: &[u8], size: usize) -> Result<(), Refusal>
    ensures { answer_number result ≡ header_number size drom.now }
{
    if stated_length(drom) + VERSION != size {
        return Err(Refusal::WrongLength);
    }
    if is_tbt3(drom) && size < TBT3_HEADER {
        return Err(Refusal::ShortTbt3);
    }
    Ok(())
}

// The same as a number, or 0. Feeding holds it against the byte of a state, which is of the C interface.
pub fn header_number(drom: &[u8], size: usize) -> u8
    ensures { result ≡ header_number size drom.now }
{
    entry::answer_number(check_header(drom, size))
}

// Why the header of a whole DROM is refused: 1, then 2, then 3.
fn check_whole(drom: &[u8]) -> Result<(), Refusal>
    ensures { answer_number result ≡ header_refusal drom.now }
{
    if drom.len() < HEADER {
        return Err(Refusal::TooFew);
    }
    check_header(drom, drom.len())
}

#[tactic(auto, using(crate::proofs::HeaderLaws::ok_number))]
pub(crate) fn is_accepted(drom: &[u8]) -> bool
    ensures { result ≡ eqb (header_refusal drom.now) 0 }
{
    check_whole(drom).is_ok()
}

// Why a DROM is refused before its entries: 5, 4, then the header's 1, 2, 3.
pub(crate) fn check(list: &[u8], drom: &[u8], room: usize) -> Result<(), Refusal>
    ensures { answer_number result ≡ refusal_of list.now drom.now room }
{
    if list.len() % 2 == 1 {
        return Err(Refusal::OddList);
    }
    if room < 16368 {
        return Err(Refusal::SmallBuffer);
    }
    check_whole(drom)
}

fn stored_crc32(header: &[u8; HEADER]) -> u32
    ensures { result ≡ crc32_in header.now }
{
    u32::from_le_bytes([header[9], header[10], header[11], header[12]])
}

// CRC8 and UUID, which only TBT3 has.
fn stored_crc8(header: &[u8; HEADER]) -> u8
    ensures { result ≡ cond (is_tbt3 header.now) (crc8_in header.now) 0 }
{
    if is_tbt3(header) { header[0] } else { 0 }
}

fn stored_uuid(header: &[u8; HEADER]) -> u64
    ensures { result ≡ cond (is_tbt3 header.now) (uuid_in header.now) 0 }
{
    if is_tbt3(header) {
        u64::from_le_bytes([
            header[1], header[2], header[3], header[4], header[5], header[6], header[7], header[8],
        ])
    } else {
        0
    }
}

#[tactic(auto, unfolding(crate::specs::Header::crc8_right))]
fn is_crc8_valid(header: &[u8; HEADER]) -> bool
    ensures { result ≡ crc8_right header.now }
{
    is_tbt3(header) && util::crc8(&header[1..9]) == header[0]
}

// The values of a header: of the first 16 bytes of a DROM, or more.
#[derive(Clone, Copy, Debug, Default, PartialEq, Eq)]
pub struct HeaderValues {
    pub version: u8,
    pub length: usize,
    pub start: usize,
    pub crc32: u32,
    pub crc8: u8,
    pub uuid: u64,
    pub crc8good: bool,
}

// The values that the 16 bytes tell.
fn values_in(header: &[u8; HEADER]) -> HeaderValues
    ensures { result ≡ values_in header.now }
{
    HeaderValues {
        version: header[VERSION],
        length: stated_length(header),
        start: body_start(header),
        crc32: stored_crc32(header),
        crc8: stored_crc8(header),
        uuid: stored_uuid(header),
        crc8good: is_crc8_valid(header),
    }
}

// Zeros and no where there are fewer than 16 bytes, as the clause has it.
pub fn header_values(bytes: &[u8]) -> HeaderValues
    ensures { result ≡ header_values bytes.now }
{
    match bytes.first_chunk() {
        Some(header) => values_in(header),
        None => HeaderValues::default(),
    }
}
