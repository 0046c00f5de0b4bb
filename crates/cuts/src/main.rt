// Reads each DROM of standard input whole, and then in pieces, and compares what each leaves: the report, and a buffer of 16,368
// bytes that is filled with a5 before. A line is
//     LIST DROM
// in lower-case hex, - for none. A DROM is cut in two at every place, and fed byte by byte, byte by byte among empty pieces, and
// in pieces of 64; where LIST is of even length it is also read over a slice of structs. `differs LIST DROM OTHER` reads DROM
// and feeds OTHER. Writes each difference, and how many there were.
#![tactic(auto)]

mod feedings;
mod whole;

ghost use Rattle.std.specs.Prelude.{◌+◌, ◌++◌, ◌≤◌, length, IfOk, OnOk};
ghost use Rattle.std.specs.Fmt.{decimal};
ghost use Rattle.std.specs.Io.KnownBytes.{Appends};
ghost use Rattle.cuts.specs.Counts.{OfOneLine};

use feedings::{among_empty, in_pieces, in_two};
use lines::input::read_text;
use lines::words::{is_comment, unhex, word};
use std::io;
use std::io::{Read, Write};
use std::ops::AddAssign;
use streams::print_decimal;
use whole::{Case, ENOUGH, LENT};

// The most bytes of standard input, of a list and of a DROM. Memory is of a fixed size: no function allocates.
const INPUT: usize = 262144;

const LIST: usize = 256;

const DROM: usize = 4200;

// How many DROMs, feedings and readings over structs were compared, and how many of these differed.
#[derive(Clone, Copy, Default)]
struct Tally {
    droms: u64,
    feedings: u64,
    readings: u64,
    differ: u64,
}

// No text has so many lines that a count stops at its type's end. Plain sums would need a bound that lasts over the loop below, and
// the check takes no invariant at a loop over `split_inclusive` in a generic function.
impl AddAssign for Tally {
    fn add_assign(&mut self, other: Tally) {
        self.droms = self.droms.saturating_add(other.droms);
        self.feedings = self.feedings.saturating_add(other.feedings);
        self.readings = self.readings.saturating_add(other.readings);
        self.differ = self.differ.saturating_add(other.differ);
    }
}

// Writes a number and the words after it.
fn put<W: Write>(out: &mut W, n: u64, words: &[u8]) -> io::Result<()>
    ensures { OnOk result (Appends (W.contents out.old) (W.contents out.new) (decimal n ++ words.now)) }
{
    print_decimal(out, n)?;
    out.write_all(words)
}

// Writes a difference, of the feeding that `what` and `n` name, and counts it.
fn counted<W: Write>(out: &mut W, line: u64, what: &[u8], n: usize, agrees: bool) -> io::Result<u64>
    ensures { IfOk result (λ count. count ≤ 1) }
{
    if agrees {
        return Ok(0);
    }
    out.write_all(b"line ")?;
    put(out, line, what)?;
    put(out, n as u64, b" differs\n")?;
    Ok(1)
}

// How many cuts in two differ.
fn cuts<W: Write>(out: &mut W, case: &Case) -> io::Result<u64>
    ensures { IfOk result (λ differ. differ ≤ length case.now.fed.now + 1) }
{
    let list = case.list;
    let fed = case.fed;
    let mut differ: u64 = 0;
    for cut in 0..=fed.len() {
        let agrees = case.is_left_by(|records| in_two(list, fed, cut, records));
        differ += counted(out, case.line, b": cut at ", cut, agrees)?;
    }
    Ok(differ)
}

// How many of the three feedings in pieces differ.
fn pieces<W: Write>(out: &mut W, case: &Case) -> io::Result<u64>
    ensures { IfOk result (λ differ. differ ≤ 3) }
{
    let list = case.list;
    let fed = case.fed;
    let line = case.line;
    let bytes = case.is_left_by(|records| in_pieces(list, fed, 1, records));
    let among = case.is_left_by(|records| among_empty(list, fed, records));
    let larger = case.is_left_by(|records| in_pieces(list, fed, 64, records));
    let first = counted(out, line, b": pieces of ", 1, bytes)?;
    let second = counted(out, line, b": among empty pieces, pieces of ", 1, among)?;
    let third = counted(out, line, b": pieces of ", 64, larger)?;
    Ok(first + second + third)
}

// A list of odd length is no list of structs.
fn is_of_structs(list: &[u8]) -> bool {
    list.len() % 2 == 0
}

// How many readings over structs differ.
fn over_structs<W: Write>(out: &mut W, case: &Case) -> io::Result<u64>
    ensures { IfOk result (λ differ. differ ≤ 1) }
{
    let list = case.list;
    let fed = case.fed;
    if !is_of_structs(list) {
        return Ok(0);
    }
    let agrees = case.is_left_by(|records| structs::read_structs(list, fed, records));
    let count = list.len() / 2;
    counted(
        out,
        case.line,
        b": structs, of which there are ",
        count,
        agrees,
    )
}

// What the other ways leave, against what the reading of the whole does. Its buffer is made here, so that a line that cannot be
// read goes without.
fn compare<W: Write>(
    out: &mut W,
    line: u64,
    list: &[u8],
    drom: &[u8],
    fed: &[u8],
) -> io::Result<Tally>
    requires { length fed.now ≤ 4200 }
    ensures { IfOk result (λ t. OfOneLine t) }
{
    let mut buffer = [LENT; ENOUGH];
    let report = drom::read(list, drom, &mut buffer);
    let case = Case {
        line,
        list,
        fed,
        report,
        buffer: &buffer,
    };
    let in_two = cuts(out, &case)?;
    let in_pieces = pieces(out, &case)?;
    let structs = over_structs(out, &case)?;
    Ok(Tally {
        droms: 1,
        feedings: fed.len() as u64 + 4,
        readings: u64::from(is_of_structs(list)),
        differ: in_two + in_pieces + structs,
    })
}

// A line that cannot be read differs. What a line adds is bounded here and in two more; the sum over lines is not, so that the bound is
// no invariant of the type.
fn malformed<W: Write>(out: &mut W, line: u64) -> io::Result<Tally>
    ensures { IfOk result (λ t. OfOneLine t) }
{
    out.write_all(b"line ")?;
    put(out, line, b": malformed\n")?;
    Ok(Tally {
        differ: 1,
        ..Tally::default()
    })
}

// The words of a line that stand for the list, the DROM that is read and the one that is fed.
fn words(text: &[u8]) -> (&[u8], &[u8], &[u8]) {
    match word(text, 0) {
        b"differs" => (word(text, 1), word(text, 2), word(text, 3)),
        list => (list, word(text, 1), word(text, 1)),
    }
}

fn compare_line<W: Write>(out: &mut W, line: u64, text: &[u8]) -> io::Result<Tally>
    ensures { IfOk result (λ t. OfOneLine t) }
{
    if is_comment(text) {
        return Ok(Tally::default());
    }
    let mut list = [0; LIST];
    let mut drom = [0; DROM];
    let mut fed = [0; DROM];
    let (list_word, drom_word, fed_word) = words(text);
    let list = unhex(list_word, &mut list);
    let drom = unhex(drom_word, &mut drom);
    let fed = unhex(fed_word, &mut fed);
    let (Some(list), Some(drom), Some(fed)) = (list, drom, fed) else {
        return malformed(out, line);
    };
    compare(out, line, list, drom, fed)
}

// Not by lines' comparison, which counts right and wrong: here lines have numbers, and four counts are added up.
fn compare_lines<W: Write>(out: &mut W, text: &[u8]) -> io::Result<Tally> {
    let mut tally = Tally::default();
    for (text, line) in text.split_inclusive(|b| *b == b'\n').zip(1..) {
        let text = text.strip_suffix(b"\n").unwrap_or(text);
        tally += compare_line(out, line, text)?;
    }
    Ok(tally)
}

fn compare_input<R: Read, W: Write>(input: &mut R, out: &mut W) -> io::Result<()> {
    let mut room = [0; INPUT];
    let text = read_text(input, out, "lines", &mut room)?;
    let t = compare_lines(out, text)?;
    put(out, t.droms, b" DROMs, ")?;
    put(out, t.feedings, b" feedings, ")?;
    put(out, t.readings, b" readings over structs, ")?;
    put(out, t.differ, b" differ\n")
}

fn main(rt: HostRuntime) -> io::Result<()> {
    compare_input(&mut rt.stdin(), &mut rt.stdout())
}
