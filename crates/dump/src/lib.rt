// Reads a DROM and writes what the reader says of it: a line with the refusal and the record count, and then a line a record.
// There is no list of adapters.
#![tactic(auto)]

ghost use Rattle.std.specs.Prelude.{◌≡◌, drop, IfSome, OnOk};
ghost use Rattle.std.specs.Io.KnownBytes.{Appends};
ghost use Rattle.record.specs.Step.{head_in, record_size};
ghost use Rattle.dump.specs.Lines.{verdict_line, head_line, head_lines, report_lines, input_lines};

use drom::Report;
use record::Head;
use std::io;
use std::io::{Read, Write};

// The largest DROM has 4,108 bytes. One more is read, so that longer input is not taken for one. Memory is of a fixed size, and
// `read_full` tells how much of it is read.
const MOST: usize = 4109;
// Room for the records of any DROM.
const ROOM: usize = 16368;

fn print_verdict<W: Write>(out: &mut W, number: u8, offset: usize, records: usize) -> io::Result<()>
    ensures { OnOk result (Appends (W.contents out.old) (W.contents out.new) (verdict_line number offset records)) }
{
    writeln!(out, "refusal {number} at {offset} records {records}")
}

fn print_head<W: Write>(out: &mut W, bytes: &[u8]) -> io::Result<()>
    ensures { OnOk result (Appends (W.contents out.old) (W.contents out.new) (head_line (head_in bytes.now))) }
{
    let Head {
        tag,
        offset,
        length,
    } = record::head_of(bytes);
    writeln!(out, "{tag} {offset} {length}")
}

// What stands behind the first record. Where no record can stand at the front, these are all the bytes.
#[tactic(auto, using(record::proofs::StepLaws::size_within))]
fn after_record(bytes: &[u8]) -> &[u8]
    ensures { result.now ≡ drop (record_size bytes.now) bytes.now }
{
    &bytes[record::record_length(bytes)..]
}

fn print_records<W: Write>(out: &mut W, bytes: &[u8], count: usize) -> io::Result<()>
    ensures { OnOk result (Appends (W.contents out.old) (W.contents out.new) (head_lines count bytes.now)) }
{
    let mut rest = bytes;
    for _ in 0..count {
        print_head(out, rest)?;
        rest = after_record(rest);
    }
    Ok(())
}

fn print_report<W: Write>(out: &mut W, report: &Report, records: &[u8]) -> io::Result<()>
    ensures { OnOk result (Appends (W.contents out.old) (W.contents out.new) (report_lines report.now records.now)) }
{
    print_verdict(out, report.number, report.offset, report.records)?;
    print_records(out, records, report.records)
}

// At most 4,109 bytes are read. The clause speaks of a reader and a writer whose bytes are known. Those of standard input, of
// standard output and of a file are the operating system's to say.
pub fn dump<R: Read, W: Write>(input: &mut R, out: &mut W) -> io::Result<()>
    ensures { OnOk result (IfSome (R.remaining input.old)
        (λ bs. Appends (W.contents out.old) (W.contents out.new) (input_lines bs))) }
{
    let mut bytes = [0u8; MOST];
    let n = streams::read_full(input, &mut bytes)?;
    let mut records = [0u8; ROOM];
    let report = drom::read(b"", &bytes[..n], &mut records);
    print_report(out, &report, &records)
}
