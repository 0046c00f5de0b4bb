// An entry's bytes to its values: `DromEntry::parse` of the Rust, with a refusal where that panics.
ghost use Rattle.std.specs.Prelude.{◌≡◌, ◌==◌, cond, [], ◌≤◌, ◌<◌, ltb, length, position};
ghost use Rattle.bits.specs.Bits.{byte, bits};
ghost use Rattle.util.specs.Utf16.{utf16_text};
ghost use Rattle.entry.specs.Rows.{least, generic_row, adapter_row, display_port, lane, dptx};
ghost use Rattle.entry.specs.Rows as row;
ghost use Rattle.entry.specs.Decode.{mode_of, rate_of, name_of, number_of, device_of, values_of, name_refusal, utf16_refusal, unless_refused, row_entry, decode_of};

use super::refusal::Refusal;

#[derive(Clone, Copy, Debug, PartialEq, Eq)]
pub struct Version {
    pub major: u8,
    pub minor: u8,
}

// The values of an entry, by the rows of document 01's table, which has it as an enum of numbers: a kind, a rate and a preference
// are the table's numbers too. Texts and lists are counted, and their bytes stay in the entry.
#[derive(Clone, Copy, Debug, PartialEq, Eq)]
pub enum DromEntry {
    Unknown,
    // An adapter that is other or not listed.
    Adapter {
        disabled: bool,
        adapter_num: u8,
    },
    UnusedAdapter {
        adapter_num: u8,
    },
    DisplayPortAdapter {
        adapter_num: u8,
        preference_valid: bool,
        preferred_lane_adapter_num: u8,
    },
    LaneAdapter {
        lane_1_adapter: bool,
        dual_lane_adapter: bool,
        adapter_num: u8,
        dual_lane_adapter_num: u8,
    },
    PcieUpAdapter {
        adapter_num: u8,
        function_num: u8,
        device_num: u8,
    },
    PcieDownAdapter {
        adapter_num: u8,
        function_num: u8,
        device_num: u8,
    },
    // A generic entry of any other kind.
    Generic {
        kind: u8,
    },
    AsciiVendorName {
        length: usize,
    },
    AsciiModelName {
        length: usize,
    },
    // The mode is -1 for the bit pattern 3. The rate is 1 HiFi, 2 LowRes, else 0.
    Tmu {
        mode: i8,
        rate: u8,
    },
    ProductDescriptor {
        usb4_version: Version,
        vendor: u16,
        product: u16,
        fw_version: Version,
        test_id: u32,
        hw_revision: u8,
    },
    SerialNumber {
        lang_id: u16,
        length: usize,
    },
    Usb3PortMapping {
        count: usize,
    },
    Utf16VendorName {
        length: usize,
    },
    Utf16ModelName {
        length: usize,
    },
    // 0 PCIe, 1 USB3 Gen T, else reserved.
    SingleDataPath {
        preference: u8,
    },
    DptxRanking {
        adapter_num: u8,
        mh: bool,
        nrr: u8,
        preferred_order: u8,
        mu: u8,
    },
    EmbeddedLink {
        link: u8,
    },
}

// The least L by generic kind, 00 to 10, where DPTX asks for more by its own byte 3.
const LEAST: [usize; 17] = [2, 3, 3, 2, 2, 2, 2, 2, 3, 14, 4, 2, 2, 2, 4, 5, 3];

fn least_length(kind: u8) -> usize
    ensures { result ≡ least (generic_row kind) [] }
{
    if kind < 17 {
        let k = kind as usize;
        LEAST[k]
    } else {
        2
    }
}

fn device_num(b: u8) -> u8
    ensures { result ≡ device_of b }
{
    b / 8 % 4 * 8 + b / 32
}

fn first_zero(bytes: &[u8]) -> Option<usize>
    ensures { result ≡ position (λ b. b == 0) bytes.now }
{
    bytes.iter().position(|b| *b == 0)
}

fn mode(pattern: u8) -> i8
    requires { pattern < 4 }
    ensures { result ≡ mode_of pattern }
{
    if pattern == 3 { -1 } else { pattern as i8 }
}

fn rate(pattern: u8) -> u8
    ensures { result ≡ rate_of pattern }
{
    if pattern == 3 { 0 } else { pattern }
}

// How many bytes a UTF-16 text becomes.
fn read_utf16(text: &[u8]) -> Result<usize, Refusal>
    ensures { result ≡ unless_refused (utf16_refusal text.now) (length (utf16_text text.now)) }
{
    if text.len() % 2 == 1 {
        return Err(Refusal::OddUtf16);
    }
    Ok(util::utf16_ascii_count(text))
}

// The MST upstream adapter counts only for an MST hub.
fn mu(mh: bool, b: u8) -> u8
    ensures { result ≡ cond mh (bits 4 0 b) 0 }
{
    if mh { b % 32 } else { 0 }
}

// The bytes of an entry that has a kind byte: L, that byte, and what follows.
#[derive(Clone, Copy)]
struct Headed<'a> {
    bytes: &'a [u8],
    ghost headed: { 2 ≤ length bytes.now },
}

impl Headed<'_> {
    fn other_adapter(self) -> DromEntry
        ensures { result ≡ values_of row.adapter self.entry.bytes.now }
    {
        let b = self.bytes[1];
        DromEntry::Adapter {
            disabled: b / 64 % 2 == 1,
            adapter_num: b % 64,
        }
    }

    fn unused_adapter(self) -> DromEntry
        ensures { result ≡ values_of row.unused self.entry.bytes.now }
    {
        DromEntry::UnusedAdapter {
            adapter_num: self.bytes[1] % 64,
        }
    }

    fn display_port_adapter(self) -> Result<DromEntry, Refusal>
        ensures { result ≡ row_entry display_port self.entry.bytes.now }
    {
        if self.bytes.len() < 5 {
            return Err(Refusal::TooShort);
        }
        let b = self.bytes[4];
        Ok(DromEntry::DisplayPortAdapter {
            adapter_num: self.bytes[1] % 64,
            preference_valid: b / 64 % 2 == 1,
            preferred_lane_adapter_num: b % 64,
        })
    }

    fn lane_adapter(self) -> Result<DromEntry, Refusal>
        ensures { result ≡ row_entry lane self.entry.bytes.now }
    {
        if self.bytes.len() < 4 {
            return Err(Refusal::TooShort);
        }
        let b = self.bytes[2];
        Ok(DromEntry::LaneAdapter {
            lane_1_adapter: b / 16 % 2 == 1,
            dual_lane_adapter: b / 128 % 2 == 1,
            adapter_num: self.bytes[1] % 64,
            dual_lane_adapter_num: self.bytes[3] % 64,
        })
    }

    // The number, function and device of a PCIe adapter, up or down.
    fn pcie_numbers(self) -> Result<(u8, u8, u8), Refusal>
        ensures { result ≡ cond (ltb (length self.entry.bytes.now) 3) (Err Refusal.TooShort) (Ok (record { 0 = number_of self.entry.bytes.now; 1 = bits 2 0 (byte 2 self.entry.bytes.now); 2 = device_of (byte 2 self.entry.bytes.now) })) }
    {
        if self.bytes.len() < 3 {
            return Err(Refusal::TooShort);
        }
        let b = self.bytes[2];
        Ok((self.bytes[1] % 64, b % 8, device_num(b)))
    }

    // A used adapter, by its listed kind: a byte of the caller's list, and this match is document 01's table of kinds.
    fn adapter_entry(self, kind: u8) -> Result<DromEntry, Refusal>
        ensures { result ≡ row_entry (adapter_row kind) self.entry.bytes.now }
    {
        match kind {
            1 => self.lane_adapter(),
            2 | 3 => self.display_port_adapter(),
            4 => {
                let (adapter_num, function_num, device_num) = self.pcie_numbers()?;
                Ok(DromEntry::PcieUpAdapter {
                    adapter_num,
                    function_num,
                    device_num,
                })
            }
            5 => {
                let (adapter_num, function_num, device_num) = self.pcie_numbers()?;
                Ok(DromEntry::PcieDownAdapter {
                    adapter_num,
                    function_num,
                    device_num,
                })
            }
            _ => Ok(self.other_adapter()),
        }
    }

    fn other_generic(self) -> DromEntry
        ensures { result ≡ values_of row.generic self.entry.bytes.now }
    {
        DromEntry::Generic {
            kind: self.bytes[1] % 64,
        }
    }

    // A name's length.
    fn read_name(self) -> Result<usize, Refusal>
        ensures { result ≡ unless_refused (name_refusal self.entry.bytes.now) (length (name_of self.entry.bytes.now)) }
    {
        let text = &self.bytes[2..];
        match first_zero(text) {
            None => Err(Refusal::NoZero),
            Some(n) if util::is_utf8(&text[..n]) => Ok(n),
            Some(_) => Err(Refusal::NotUtf8),
        }
    }

    fn tmu(self) -> DromEntry
        requires { 3 ≤ length self.bytes.now }
        ensures { result ≡ values_of row.tmu self.entry.bytes.now }
    {
        let b = self.bytes[2];
        DromEntry::Tmu {
            mode: mode(b % 4),
            rate: rate(b / 4 % 4),
        }
    }

    fn product_descriptor(self) -> DromEntry
        requires { 14 ≤ length self.bytes.now }
        ensures { result ≡ values_of row.product self.entry.bytes.now }
    {
        DromEntry::ProductDescriptor {
            usb4_version: Version {
                major: self.bytes[3],
                minor: self.bytes[2],
            },
            vendor: u16::from_le_bytes([self.bytes[4], self.bytes[5]]),
            product: u16::from_le_bytes([self.bytes[6], self.bytes[7]]),
            fw_version: Version {
                major: self.bytes[9],
                minor: self.bytes[8],
            },
            test_id: u32::from_le_bytes([
                self.bytes[10],
                self.bytes[11],
                self.bytes[12],
                self.bytes[13],
            ]),
            hw_revision: self.bytes[10],
        }
    }

    fn usb3_port_mapping(self) -> DromEntry
        ensures { result ≡ values_of row.usb3_map self.entry.bytes.now }
    {
        DromEntry::Usb3PortMapping {
            count: (self.bytes.len() - 2) / 3,
        }
    }

    fn single_data_path(self) -> DromEntry
        requires { 4 ≤ length self.bytes.now }
        ensures { result ≡ values_of row.data_path self.entry.bytes.now }
    {
        DromEntry::SingleDataPath {
            preference: self.bytes[3] % 4,
        }
    }

    fn dptx_ranking(self) -> Result<DromEntry, Refusal>
        requires { 5 ≤ length self.bytes.now }
        ensures { result ≡ row_entry dptx self.entry.bytes.now }
    {
        let b = self.bytes[3];
        let nrr = b % 16;
        if self.bytes.len() < 5 + nrr as usize {
            return Err(Refusal::TooShort);
        }
        let mh = b / 16 % 2 == 1;
        Ok(DromEntry::DptxRanking {
            adapter_num: self.bytes[2] % 32,
            mh,
            nrr,
            preferred_order: b / 32,
            mu: mu(mh, self.bytes[4]),
        })
    }

    fn embedded_link(self) -> DromEntry
        requires { 3 ≤ length self.bytes.now }
        ensures { result ≡ values_of row.embedded_link self.entry.bytes.now }
    {
        DromEntry::EmbeddedLink {
            link: self.bytes[2] % 32,
        }
    }

    // A generic entry, by its kind: the kind byte's own numbers, as document 01's table has them. The least length is read before any
    // payload byte.
    fn generic_entry(self, kind: u8) -> Result<DromEntry, Refusal>
        ensures { result ≡ row_entry (generic_row kind) self.entry.bytes.now }
    {
        if self.bytes.len() < least_length(kind) {
            return Err(Refusal::TooShort);
        }
        match kind {
            1 => Ok(DromEntry::AsciiVendorName {
                length: self.read_name()?,
            }),
            2 => Ok(DromEntry::AsciiModelName {
                length: self.read_name()?,
            }),
            8 => Ok(self.tmu()),
            9 => Ok(self.product_descriptor()),
            10 => Ok(DromEntry::SerialNumber {
                lang_id: u16::from_le_bytes([self.bytes[2], self.bytes[3]]),
                length: read_utf16(&self.bytes[4..])?,
            }),
            11 => Ok(self.usb3_port_mapping()),
            12 => Ok(DromEntry::Utf16VendorName {
                length: read_utf16(&self.bytes[2..])?,
            }),
            13 => Ok(DromEntry::Utf16ModelName {
                length: read_utf16(&self.bytes[2..])?,
            }),
            14 => Ok(self.single_data_path()),
            15 => self.dptx_ranking(),
            16 => Ok(self.embedded_link()),
            _ => Ok(self.other_generic()),
        }
    }
}

// The entry of which these are the bytes, by the kind that is listed for its number, a byte of the caller's. L is how many they are.
pub fn decode(bytes: &[u8], kind: u8) -> Result<DromEntry, Refusal>
    ensures { result ≡ decode_of kind bytes.now }
{
    match bytes {
        [] => Err(Refusal::TooShort),
        [_] => Ok(DromEntry::Unknown),
        [_, b, ..] => {
            let entry = Headed { bytes };
            match *b {
                0..=127 => entry.generic_entry(*b % 64),
                128..=191 => entry.adapter_entry(kind),
                192..=255 => Ok(entry.unused_adapter()),
            }
        }
    }
}
