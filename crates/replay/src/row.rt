// A row of numbers as text, set apart by spaces.
ghost use Rattle.std.specs.Prelude.{◌≡◌, ◌≤◌, ◌<◌, ◌+◌, ◌*◌, ◌∷◌, ◌++◌, ℕ, List, drop, length};
ghost use Rattle.std.specs.Fmt.{decimal};
ghost use Rattle.hex.specs.Hex.{encode_lower};

use std::marker::Model;
use std::{fmt, str};

// A report's twelve fields, each with a space before it, take 146 bytes at most.
const ROW: usize = 192;

// A row is written from its last field to its first, since a number's digits come out from the last to the first, and then shown
// by one write: with each number by std's formatter, a program that shows little else takes nearly twice as long. A field is left
// out, or its space, where the row may not hold it; no report comes near.
#[derive(Drop)]
pub(crate) struct Row {
    bytes: [u8; ROW],
    start: usize,
}

// What is there of the row.
impl Model for Row {
    ghost Value = { List ℕ };

    ghost view = { λ row. drop row.start row.bytes };

    ghost invariant = { λ row. row.start ≤ 192 };
}

impl Row {
    pub(crate) fn new() -> Row {
        Row {
            bytes: [0; ROW],
            start: ROW,
        }
    }

    fn put_space(&mut self)
        ensures { length self.old < 192 → self.new ≡ 32 ∷ self.old }
    {
        if 0 < self.start {
            self.start -= 1;
            self.bytes[self.start] = b' ';
        }
    }

    // A space and a number in decimal, which has at most twenty digits.
    #[tactic(auto, using(crate::proofs::Digits::at_most_twenty))]
    pub(crate) fn put_decimal(&mut self, n: u64)
        ensures { length self.old ≤ 171 → self.new ≡ 32 ∷ (decimal n ++ self.old) }
    {
        if 20 < self.start {
            self.start = itoa::write_digits(n, &mut self.bytes, self.start);
            self.put_space();
        }
    }

    // A space and bytes in hex.
    pub(crate) fn put_hex(&mut self, bytes: &[u8])
        ensures { length self.old + (2 * length bytes.now + 1) ≤ 192 → self.new ≡ 32 ∷ (encode_lower bytes.now ++ self.old) }
    {
        if let Some(start) = self.start.checked_sub(2 * bytes.len()) {
            let _ = hex::encode_to_slice(bytes, &mut self.bytes[start..self.start]);
            self.start = start;
            self.put_space();
        }
    }
}

// Without the space before the first number.
impl fmt::Display for Row {
    fn fmt<W: fmt::Write>(&self, f: &mut fmt::Formatter<W>) -> fmt::Result {
        match str::from_utf8(&self.bytes[self.start..]) {
            Ok(text) => f.write_str(text.strip_prefix(' ').unwrap_or(text)),
            Err(_) => Err(fmt::Error),
        }
    }
}
