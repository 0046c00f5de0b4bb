// The lines of a text compared with what they should be, and how many were right.
ghost use Rattle.std.specs.Prelude.{◌≡◌, ◌∷◌, [], ◌++◌, false, codes, IfOk, IfSome, OnOk};
ghost use Rattle.std.specs.Fmt.{decimal};
ghost use Rattle.std.specs.Io.KnownBytes.{Appends};

use super::input::read_text;
use super::words::is_comment;
use std::fmt::Display;
use std::io;
use std::io::{Read, Write};
use streams::print_decimal;

// How many lines were compared, and how many of these were wrong.
#[derive(Clone, Copy, Default)]
struct Tally {
    compared: u64,
    wrong: u64,
}

impl Tally {
    // A line more. No text has so many that a count stops at its type's end. Plain sums would need a bound that lasts over the
    // loop below, and the check takes no invariant at a loop over `split_inclusive` in a generic function.
    fn count(&mut self, is_right: bool) {
        self.compared = self.compared.saturating_add(1);
        self.wrong = self.wrong.saturating_add(u64::from(!is_right));
    }
}

// Writes a wrong line and what was found in place of its answer, and says that it is wrong.
pub fn wrong<W: Write, D: Display + Drop>(out: &mut W, line: &[u8], found: D) -> io::Result<bool>
    ensures answer { IfOk result (λ right. right ≡ false) }
    ensures line { OnOk result (IfSome (D.output found)
        (λ text. Appends (W.contents out.old) (W.contents out.new) (line.now ++ (codes " -> " ++ (text ++ (10 ∷ [])))))) }
{
    out.write_all(line)?;
    writeln!(out, " -> {found}")?;
    Ok(false)
}

// Writes a line that cannot be read, and says that it is wrong.
pub fn malformed<W: Write>(out: &mut W, line: &[u8]) -> io::Result<bool>
    ensures answer { IfOk result (λ right. right ≡ false) }
    ensures line { OnOk result (Appends (W.contents out.old) (W.contents out.new) (line.now ++ codes " -> malformed\n")) }
{
    out.write_all(line)?;
    out.write_all(b" -> malformed\n").map(|()| false)
}

fn compare_lines<W: Write, F: FnMut(&mut W, &[u8]) -> io::Result<bool>>(
    out: &mut W,
    text: &[u8],
    mut is_right: F,
) -> io::Result<Tally>
    requires { F.IsAlwaysCallable is_right }
{
    let mut tally = Tally::default();
    for line in text.split_inclusive(|b| *b == b'\n') {
        let line = line.strip_suffix(b"\n").unwrap_or(line);
        if !is_comment(line) {
            tally.count(is_right(out, line)?);
        }
    }
    Ok(tally)
}

// Writes how many lines there were, and how many were wrong.
fn print_tally<W: Write>(out: &mut W, tally: Tally) -> io::Result<()>
    ensures { OnOk result (Appends (W.contents out.old) (W.contents out.new)
        (decimal tally.compared ++ (codes " compared, " ++ (decimal tally.wrong ++ codes " wrong\n")))) }
{
    print_decimal(out, tally.compared)?;
    write!(out, " compared, {} wrong\n", tally.wrong)
}

// Reads lines, of which `is_right` writes those that are wrong, and then writes how many there were and how many were wrong.
// The room is the memory for the text, and `what` names the lines. No clause says what was written: `is_right` may do what it
// likes with the output, so that even known bytes need not be known behind it.
pub fn compare_input<R: Read, W: Write, F: FnMut(&mut W, &[u8]) -> io::Result<bool>>(
    input: &mut R,
    out: &mut W,
    what: &str,
    room: &mut [u8],
    is_right: F,
) -> io::Result<()>
    requires { F.IsAlwaysCallable is_right }
{
    let text = read_text(input, out, what, room)?;
    let tally = compare_lines(out, text, is_right)?;
    print_tally(out, tally)
}
