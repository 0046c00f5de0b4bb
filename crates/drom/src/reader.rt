// Reading a whole DROM: the tests in document 01's order, the header's values and verdicts, and the walk.
ghost use Rattle.std.specs.Prelude.{◌≡◌, length};
ghost use Rattle.drom.specs.Report.{refused_report, report_of, leaves_of};
ghost use Rattle.drom.specs.Walking.{stop_number, stop_offset};

use super::header::{VERSION, check, header_values};
use super::walk::{Stop, walk};

// What is told of a DROM: a refusal's number and offset, or 0 and 0; the header's values and verdicts; how many records were
// written, and how many bytes they have. `number` is no Refusal, as `refused_report` says.
#[derive(Clone, Copy, Debug, Default, PartialEq, Eq)]
pub struct Report {
    pub number: u8,
    pub offset: usize,
    pub version: u8,
    pub length: usize,
    pub start: usize,
    pub crc32: u32,
    pub crc32good: bool,
    pub crc8: u8,
    pub uuid: u64,
    pub crc8good: bool,
    pub records: usize,
    pub bytes: usize,
}

// The report of a refusal that tells nothing but its number: 1 to 5, and feeding's 13 and 18. A number, not a Refusal, since its promise
// holds for every number, and a state in feeding holds one as a byte.
pub fn refused_report(number: u8) -> Report
    ensures { result ≡ refused_report number }
{
    Report {
        number,
        ..Report::default()
    }
}

// What a report tells of a walk's stop: its number and offset, or 0 and 0, as a report has them.
fn told(stop: Option<Stop>) -> (u8, usize)
    ensures { (result.0 ≡ stop_number stop) × (result.1 ≡ stop_offset stop) }
{
    match stop {
        Some(s) => (s.refusal.into(), s.offset),
        None => (0, 0),
    }
}

// The report of a DROM, its adapters listed as bytes: number, kind, number, kind, .. Its records are written to the front of out.
pub fn read(list: &[u8], drom: &[u8], out: &mut [u8]) -> Report
    ensures report { result ≡ report_of list.now drom.now (length out.old) }
    ensures buffer { out.new ≡ leaves_of list.now drom.now out.old }
{
    if let Err(r) = check(list, drom, out.len()) {
        return refused_report(r.into());
    }
    let h = header_values(drom);
    let w = walk(list, drom, h.start, out);
    let (number, offset) = told(w.stop);
    Report {
        number,
        offset,
        version: h.version,
        length: h.length,
        start: h.start,
        crc32: h.crc32,
        crc32good: util::crc32(&drom[VERSION..]) == h.crc32,
        crc8: h.crc8,
        uuid: h.uuid,
        crc8good: h.crc8good,
        records: w.records,
        bytes: w.bytes,
    }
}
