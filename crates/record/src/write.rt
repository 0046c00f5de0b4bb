// An entry's bytes to its record, or to why there is none. What has a fixed size is answered as an array, which `bits::put` writes where
// there is room. Behind it stands what has as many bytes as the entry's own tell.
ghost use Rattle.std.specs.Prelude.{◌≡◌, [], ◌∷◌, ◌+◌, ◌*◌, ◌%◌, ◌/◌, ◌≤◌, ◌<◌, length};
ghost use Rattle.bits.specs.Bits.{flag};
ghost use Rattle.bits.specs.Front.{Wrote};
ghost use Rattle.bits.specs.Fields.{◌∶◌, z, zz, zzz, pack};
ghost use Rattle.util.specs.Utf16.{utf16_text};
ghost use Rattle.entry.specs.Decode.{row_entry};
ghost use Rattle.record.specs.Record.{row_is, tag_of, head_of, map_fields, rank_fields, payload_of, record_of};
ghost use Rattle.record.specs.Write.{write_answer, write_leaves};

use entry::{DromEntry, Refusal, Version};

fn head(tag: u8, offset: usize, len: usize) -> [u8; 4]
    ensures { result ≡ pack (head_of tag offset len) }
{
    [
        tag,
        (offset / 32 % 256) as u8,
        (offset % 32 * 8 + len / 32 % 8) as u8,
        (len % 32 * 8) as u8,
    ]
}

fn adapter(disabled: bool, number: u8) -> [u8; 1]
    ensures { result ≡ pack (payload_of [] (DromEntry.Adapter disabled number)) }
{
    [u8::from(disabled) * 128 + number % 64]
}

// An unused adapter's number, and a generic kind.
fn six_bits(number: u8) -> [u8; 1]
    ensures { result ≡ pack (zz ∷ number ∶ 6 ∷ []) }
{
    [number % 64]
}

fn display_port(number: u8, valid: bool, preferred: u8) -> [u8; 2]
    ensures { result ≡ pack (payload_of [] (DromEntry.DisplayPortAdapter number valid preferred)) }
{
    [number % 64, u8::from(valid) * 128 + preferred % 64]
}

fn lane(first: bool, dual: bool, number: u8, other: u8) -> [u8; 2]
    ensures { result ≡ pack (payload_of [] (DromEntry.LaneAdapter first dual number other)) }
{
    [
        u8::from(first) * 128 + u8::from(dual) * 64 + number % 64,
        other % 64,
    ]
}

// PCIe up and down.
fn pcie(number: u8, function: u8, device: u8) -> [u8; 2]
    ensures { result ≡ pack (payload_of [] (DromEntry.PcieUpAdapter number function device)) }
{
    [
        number % 64 * 4 + function % 8 / 2,
        function % 2 * 128 + device % 32 * 4,
    ]
}

fn tmu(mode: i8, rate: u8) -> [u8; 2]
    ensures { result ≡ pack (payload_of [] (DromEntry.Tmu mode rate)) }
{
    [mode.cast_unsigned(), rate]
}

fn product_descriptor(
    usb4: Version,
    vendor: u16,
    product: u16,
    fw: Version,
    test: u32,
    revision: u8,
) -> [u8; 13]
    ensures { result ≡ pack (payload_of [] (DromEntry.ProductDescriptor usb4 vendor product fw test revision)) }
{
    let v = vendor.to_be_bytes();
    let p = product.to_be_bytes();
    let t = test.to_be_bytes();
    [
        usb4.major, usb4.minor, v[0], v[1], p[0], p[1], fw.major, fw.minor, t[0], t[1], t[2], t[3],
        revision,
    ]
}

fn data_path(preference: u8) -> [u8; 1]
    ensures { result ≡ pack (payload_of [] (DromEntry.SingleDataPath preference)) }
{
    [preference]
}

fn embedded_link(link: u8) -> [u8; 1]
    ensures { result ≡ pack (payload_of [] (DromEntry.EmbeddedLink link)) }
{
    [link % 32]
}

// The count in front of a name, a UTF-16 name and USB3 maps.
fn counted(n: usize) -> [u8; 1]
    ensures { result ≡ pack (n ∶ 8 ∷ []) }
{
    [(n % 256) as u8]
}

// In front of its text.
fn serial(language: u16, n: usize) -> [u8; 3]
    ensures { result ≡ pack (language ∶ 16 ∷ n ∶ 8 ∷ []) }
{
    let l = language.to_be_bytes();
    [l[0], l[1], (n % 256) as u8]
}

// In front of its ranks.
fn dptx(number: u8, mh: bool, n: u8, order: u8, mu: u8) -> [u8; 3]
    ensures { result ≡ pack (number ∶ 5 ∷ flag mh ∶ 1 ∷ zz ∷ n ∶ 4 ∷ order ∶ 3 ∷ z ∷ zzz ∷ mu ∶ 5 ∷ []) }
{
    [
        number % 32 * 8 + u8::from(mh) * 4,
        n % 16 * 16 + order % 8 * 2,
        mu % 32,
    ]
}

// The text and the two lists are written piece by piece. Each asks for its own room: half of the text's bytes, and all of a list's.

// A text has a byte for each unit at most, so that the two refusals do not come.
fn put_utf16(text: &[u8], out: &mut [u8]) -> usize
    requires { (length text.now % 2 ≡ 0) × (length text.now / 2 ≤ length out.old) }
    ensures { Wrote (utf16_text text.now) out.old out.new result }
{
    util::bytes_to_utf16_ascii(text, out).unwrap()
}

// A map of three bytes.
fn map(m0: u8, m1: u8, m2: u8) -> [u8; 3]
    ensures { result ≡ pack (map_fields (m0 ∷ m1 ∷ m2 ∷ [])) }
{
    let a = m0 % 16 * 16 + m1 % 32 / 2;
    let b = m1 % 2 * 128 + m1 / 32 % 4 * 32 + m1 / 128 * 16 + m2 % 64 / 4;
    let c = m2 % 4 * 64 + m2 / 128 * 32;
    [a, b, c]
}

fn put_maps(maps: &[u8], out: &mut [u8]) -> usize
    requires { length maps.now ≤ length out.old }
    ensures { Wrote (pack (map_fields maps.now)) out.old out.new result }
{
    let mut n = 0;
    for m in maps.chunks_exact(3) {
        n += bits::put(map(m[0], m[1], m[2]), &mut out[n..]);
    }
    n
}

fn put_ranks(ranks: &[u8], out: &mut [u8]) -> usize
    requires { length ranks.now ≤ length out.old }
    ensures { Wrote (pack (rank_fields ranks.now)) out.old out.new result }
{
    for (i, r) in ranks.iter().enumerate() {
        out[i] = *r % 32 * 8 + *r / 32;
    }
    ranks.len()
}

// A number, since it is the record's first byte.
fn tag(e: DromEntry) -> u8
    ensures { result ≡ tag_of e }
{
    match e {
        DromEntry::Unknown => 0,
        DromEntry::Adapter { .. } => 1,
        DromEntry::UnusedAdapter { .. } => 2,
        DromEntry::DisplayPortAdapter { .. } => 3,
        DromEntry::LaneAdapter { .. } => 4,
        DromEntry::PcieUpAdapter { .. } => 5,
        DromEntry::PcieDownAdapter { .. } => 6,
        DromEntry::Generic { .. } => 7,
        DromEntry::AsciiVendorName { .. } => 8,
        DromEntry::AsciiModelName { .. } => 9,
        DromEntry::Tmu { .. } => 10,
        DromEntry::ProductDescriptor { .. } => 11,
        DromEntry::SerialNumber { .. } => 12,
        DromEntry::Usb3PortMapping { .. } => 13,
        DromEntry::Utf16VendorName { .. } => 14,
        DromEntry::Utf16ModelName { .. } => 15,
        DromEntry::SingleDataPath { .. } => 16,
        DromEntry::DptxRanking { .. } => 17,
        DromEntry::EmbeddedLink { .. } => 18,
    }
}

// The payload of what the bytes decode to: the array of its row, and what stands behind it.
fn put_payload(e: DromEntry, bytes: &[u8], out: &mut [u8]) -> usize
    requires decodes { row_entry (row_is e) bytes.now ≡ Ok e }
    requires room { 4 * length bytes.now ≤ length out.old + 4 }
    ensures { Wrote (pack (payload_of bytes.now e)) out.old out.new result }
{
    match e {
        DromEntry::Unknown => 0,
        DromEntry::Adapter {
            disabled,
            adapter_num,
        } => bits::put(adapter(disabled, adapter_num), out),
        DromEntry::UnusedAdapter { adapter_num } => bits::put(six_bits(adapter_num), out),
        DromEntry::DisplayPortAdapter {
            adapter_num,
            preference_valid,
            preferred_lane_adapter_num,
        } => bits::put(
            display_port(adapter_num, preference_valid, preferred_lane_adapter_num),
            out,
        ),
        DromEntry::LaneAdapter {
            lane_1_adapter,
            dual_lane_adapter,
            adapter_num,
            dual_lane_adapter_num,
        } => bits::put(
            lane(
                lane_1_adapter,
                dual_lane_adapter,
                adapter_num,
                dual_lane_adapter_num,
            ),
            out,
        ),
        DromEntry::PcieUpAdapter {
            adapter_num,
            function_num,
            device_num,
        }
        | DromEntry::PcieDownAdapter {
            adapter_num,
            function_num,
            device_num,
        } => bits::put(pcie(adapter_num, function_num, device_num), out),
        DromEntry::Generic { kind } => {
            bits::put(six_bits(kind), out) + bits::put_all(&bytes[2..], &mut out[1..])
        }
        DromEntry::AsciiVendorName { length } | DromEntry::AsciiModelName { length } => {
            bits::put(counted(length), out) + bits::put_all(&bytes[2..2 + length], &mut out[1..])
        }
        DromEntry::Tmu { mode, rate } => bits::put(tmu(mode, rate), out),
        DromEntry::ProductDescriptor {
            usb4_version,
            vendor,
            product,
            fw_version,
            test_id,
            hw_revision,
        } => bits::put(
            product_descriptor(
                usb4_version,
                vendor,
                product,
                fw_version,
                test_id,
                hw_revision,
            ),
            out,
        ),
        DromEntry::SerialNumber { lang_id, length } => {
            bits::put(serial(lang_id, length), out) + put_utf16(&bytes[4..], &mut out[3..])
        }
        DromEntry::Usb3PortMapping { count } => {
            bits::put(counted(count), out) + put_maps(&bytes[2..], &mut out[1..])
        }
        DromEntry::Utf16VendorName { length } | DromEntry::Utf16ModelName { length } => {
            bits::put(counted(length), out) + put_utf16(&bytes[2..], &mut out[1..])
        }
        DromEntry::SingleDataPath { preference } => bits::put(data_path(preference), out),
        DromEntry::DptxRanking {
            adapter_num,
            mh,
            nrr,
            preferred_order,
            mu,
        } => {
            let front = dptx(adapter_num, mh, nrr, preferred_order, mu);
            let end = 5 + nrr as usize;
            bits::put(front, out) + put_ranks(&bytes[5..end], &mut out[3..])
        }
        DromEntry::EmbeddedLink { link } => bits::put(embedded_link(link), out),
    }
}

// The record of what the bytes decode to.
fn put_record(e: DromEntry, offset: usize, bytes: &[u8], out: &mut [u8]) -> usize
    requires decodes { row_entry (row_is e) bytes.now ≡ Ok e }
    requires room { 4 * length bytes.now ≤ length out.old }
    ensures { Wrote (record_of offset bytes.now e) out.old out.new result }
{
    // With the two counts added, as in `put_payload`, a read of one-byte entries takes a twelfth longer.
    bits::put(head(tag(e), offset, bytes.len()), out);
    4 + put_payload(e, bytes, &mut out[4..])
}

// An entry's record, for the kind that is listed for its number and where it stands in the DROM: how many bytes it has. No record
// exceeds four times its entry, and a buffer below that is refused first.
pub fn write_by_row(bytes: &[u8], kind: u8, offset: usize, out: &mut [u8]) -> Result<usize, Refusal>
    ensures answer { result ≡ write_answer bytes.now kind offset (length out.old) }
    ensures buffer { out.new ≡ write_leaves bytes.now kind offset out.old }
{
    if out.len() / 4 < bytes.len() {
        return Err(Refusal::SmallBuffer);
    }
    // With `?` the entry is copied, and a read of mixed entries takes a twentieth longer.
    match entry::decode(bytes, kind) {
        Ok(e) => Ok(put_record(e, offset, bytes, out)),
        Err(r) => Err(r),
    }
}

// The same. An entry of one byte is a head alone; a body may have thousands, and in the loops over entries they take no further call.
pub fn write_entry(bytes: &[u8], kind: u8, offset: usize, out: &mut [u8]) -> Result<usize, Refusal>
    ensures answer { result ≡ write_answer bytes.now kind offset (length out.old) }
    ensures buffer { out.new ≡ write_leaves bytes.now kind offset out.old }
{
    if bytes.len() != 1 {
        return write_by_row(bytes, kind, offset, out);
    }
    if out.len() < 4 {
        return Err(Refusal::SmallBuffer);
    }
    Ok(bits::put(head(0, offset, 1), out))
}
