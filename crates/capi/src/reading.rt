// Reading a whole DROM, the report in bytes that C and Rust lend.
ghost use Rattle.std.specs.Prelude.{◌≡◌, ◌≤◌, length};
ghost use Rattle.bits.specs.Front.{Wrote};
ghost use Rattle.capi.specs.Report.{report_size, report_bytes};
ghost use Rattle.capi.specs.Calls.{read_answer, read_records, read_report};

use super::NO_ROOM;
use super::numbers::put_numbers;
use drom::Report;

pub(crate) const REPORT_SIZE: usize = 96;

// The 96 bytes of a report.
pub(crate) fn put_report(r: Report, out: &mut [u8]) -> usize
    requires { report_size ≤ length out.old }
    ensures { Wrote (report_bytes r) out.old out.new result }
{
    let numbers = [
        u64::from(r.number),
        r.offset as u64,
        u64::from(r.version),
        r.length as u64,
        r.start as u64,
        u64::from(r.crc32),
        u64::from(r.crc32good),
        u64::from(r.crc8),
        r.uuid,
        u64::from(r.crc8good),
        r.records as u64,
        r.bytes as u64,
    ];
    put_numbers(&numbers, out)
}

// The number of the report of a DROM; its 96 bytes at the front of report, and its records at the front of records. 255 for a report
// of fewer bytes, and then both are as lent.
pub fn drom_read(list: &[u8], drom: &[u8], records: &mut [u8], report: &mut [u8]) -> u8
    ensures answer { result ≡ read_answer list.now drom.now records.old report.old }
    ensures records { records.new ≡ read_records list.now drom.now records.old report.old }
    ensures report { report.new ≡ read_report list.now drom.now records.old report.old }
{
    if report.len() < REPORT_SIZE {
        return NO_ROOM;
    }
    let r = drom::read(list, drom, records);
    put_report(r, report);
    r.number
}
