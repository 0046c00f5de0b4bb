// The static library for C and Rust: each call of the crate capi under its C name, with the same promises, which capi's comments put into words.
// A slice is a pointer and a length; include/drom.h declares them.
#![tactic(auto)]

ghost use Rattle.std.specs.Prelude.{length, ◌≡◌};
ghost use Rattle.bits.specs.Bits.{flag};
ghost use Rattle.util.specs.Crc.{byte_of32, crc_of32, crc_of8, over};
ghost use Rattle.util.specs.Utf16.{utf16_answer, utf16_leaves};
ghost use Rattle.util.specs.Utf8.{is_utf8};
ghost use Rattle.capi.specs.Numbers.{utf16_number};
ghost use Rattle.capi.specs.Calls.{bytes_answer, count_answer, feed_answer, feed_next, feed_records, feed_state, finish_answer, finish_report, open_answer, open_next, open_state, read_answer, read_records, read_report};
ghost use Rattle.listed.specs.Pairs.{pairs_of};
ghost use Rattle.capi.specs.State.{state_in};
ghost use Rattle.capi.specs.Parts.{body_place, entry_place, header_place, place_answer, place_leaves, whole_place};

use listed::Adapter;

#[unsafe(no_mangle)]
pub extern "C" fn drom_crc8(bytes: &[u8]) -> u8
    ensures { result ≡ crc_of8 bytes.now }
{
    capi::drom_crc8(bytes)
}

#[unsafe(no_mangle)]
pub extern "C" fn drom_crc32(bytes: &[u8]) -> u32
    ensures { result ≡ crc_of32 bytes.now }
{
    capi::drom_crc32(bytes)
}

#[unsafe(no_mangle)]
pub extern "C" fn drom_crc32_more(register: u32, bytes: &[u8]) -> u32
    ensures { result ≡ over byte_of32 register bytes.now }
{
    capi::drom_crc32_more(register, bytes)
}

#[unsafe(no_mangle)]
pub extern "C" fn drom_utf16_ascii(bytes: &[u8], out: &mut [u8]) -> usize
    ensures answer { result ≡ utf16_number (utf16_answer bytes.now (length out.old)) }
    ensures buffer { out.new ≡ utf16_leaves bytes.now out.old }
{
    capi::drom_utf16_ascii(bytes, out)
}

#[unsafe(no_mangle)]
pub extern "C" fn drom_is_utf8(bytes: &[u8]) -> u8
    ensures { result ≡ flag (is_utf8 bytes.now) }
{
    capi::drom_is_utf8(bytes)
}

#[unsafe(no_mangle)]
pub extern "C" fn drom_read(list: &[u8], drom: &[u8], records: &mut [u8], report: &mut [u8]) -> u8
    ensures answer { result ≡ read_answer list.now drom.now records.old report.old }
    ensures records { records.new ≡ read_records list.now drom.now records.old report.old }
    ensures report { report.new ≡ read_report list.now drom.now records.old report.old }
{
    capi::drom_read(list, drom, records, report)
}

#[unsafe(no_mangle)]
pub extern "C" fn drom_read_listed(
    list: &[Adapter],
    drom: &[u8],
    records: &mut [u8],
    report: &mut [u8],
) -> u8
    ensures answer { result ≡ read_answer (pairs_of list.now) drom.now records.old report.old }
    ensures records { records.new ≡ read_records (pairs_of list.now) drom.now records.old report.old }
    ensures report { report.new ≡ read_report (pairs_of list.now) drom.now records.old report.old }
{
    capi::drom_read_listed(list, drom, records, report)
}

#[unsafe(no_mangle)]
pub extern "C" fn drom_open(list: &[u8], announced: usize, records: &[u8], state: &mut [u8]) -> u8
    ensures answer { result ≡ open_answer list.now announced records.now state.old }
    ensures state { state.new ≡ open_state list.now announced records.now state.old }
    ensures next { state_in state.new ≡ open_next list.now announced records.now state.old }
{
    capi::drom_open(list, announced, records, state)
}

#[unsafe(no_mangle)]
pub extern "C" fn drom_feed(state: &mut [u8], piece: &[u8], records: &mut [u8]) -> u8
    ensures answer { result ≡ feed_answer state.old piece.now records.old }
    ensures state { state.new ≡ feed_state state.old piece.now records.old }
    ensures records { records.new ≡ feed_records state.old piece.now records.old }
    ensures next { state_in state.new ≡ feed_next state.old piece.now records.old }
{
    capi::drom_feed(state, piece, records)
}

#[unsafe(no_mangle)]
pub extern "C" fn drom_finish(state: &[u8], report: &mut [u8]) -> u8
    ensures answer { result ≡ finish_answer state.now report.old }
    ensures report { report.new ≡ finish_report state.now report.old }
{
    capi::drom_finish(state, report)
}

#[unsafe(no_mangle)]
pub extern "C" fn drom_record_count(state: &[u8]) -> usize
    ensures { result ≡ count_answer state.now }
{
    capi::drom_record_count(state)
}

#[unsafe(no_mangle)]
pub extern "C" fn drom_record_bytes(state: &[u8]) -> usize
    ensures { result ≡ bytes_answer state.now }
{
    capi::drom_record_bytes(state)
}

#[unsafe(no_mangle)]
pub extern "C" fn drom_header(drom: &[u8], part: &mut [u8]) -> u8
    ensures answer { result ≡ place_answer part.old }
    ensures place { part.new ≡ place_leaves (header_place drom.now) part.old }
{
    capi::drom_header(drom, part)
}

#[unsafe(no_mangle)]
pub extern "C" fn drom_body(drom: &[u8], part: &mut [u8]) -> u8
    ensures answer { result ≡ place_answer part.old }
    ensures place { part.new ≡ place_leaves (body_place drom.now) part.old }
{
    capi::drom_body(drom, part)
}

#[unsafe(no_mangle)]
pub extern "C" fn drom_whole(drom: &[u8], part: &mut [u8]) -> u8
    ensures answer { result ≡ place_answer part.old }
    ensures place { part.new ≡ place_leaves (whole_place drom.now) part.old }
{
    capi::drom_whole(drom, part)
}

#[unsafe(no_mangle)]
pub extern "C" fn drom_entry(list: &[u8], drom: &[u8], n: usize, part: &mut [u8]) -> u8
    ensures answer { result ≡ place_answer part.old }
    ensures place { part.new ≡ place_leaves (entry_place list.now drom.now n) part.old }
{
    capi::drom_entry(list, drom, n, part)
}
