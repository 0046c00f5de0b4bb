// A report and a lent buffer as text.
use super::row::Row;
use drom::Report;
use lines::text::Hex;
use std::fmt;

// What a buffer holds before it is lent, so that every byte that was written shows.
pub(crate) const LENT: u8 = 0xa5;

// A report's fields in order: the sums and the UUID in hex, all else in decimal, and a verdict as 1 or 0.
#[derive(Clone, Copy)]
pub(crate) struct Fields(pub Report);

impl fmt::Display for Fields {
    fn fmt<W: fmt::Write>(&self, f: &mut fmt::Formatter<W>) -> fmt::Result {
        let Fields(r) = self;
        // A row is written from its last field to its first.
        let mut row = Row::new();
        row.put_decimal(r.bytes as u64);
        row.put_decimal(r.records as u64);
        row.put_decimal(u64::from(r.crc8good));
        row.put_hex(&r.uuid.to_be_bytes());
        row.put_hex(&r.crc8.to_be_bytes());
        row.put_decimal(u64::from(r.crc32good));
        row.put_hex(&r.crc32.to_be_bytes());
        row.put_decimal(r.start as u64);
        row.put_decimal(r.length as u64);
        row.put_decimal(u64::from(r.version));
        row.put_decimal(r.offset as u64);
        row.put_decimal(u64::from(r.number));
        row.fmt(f)
    }
}

// What is left of a lent buffer, without its tail of untouched bytes.
pub(crate) fn left(buffer: &[u8]) -> Hex<'_> {
    match buffer.iter().rposition(|b| *b != LENT) {
        Some(last) => Hex(&buffer[..=last]),
        None => Hex(b""),
    }
}
