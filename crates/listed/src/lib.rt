// Reading a DROM whose adapters come as a lent slice of records, two bytes each: number and kind.
#![tactic(auto)]

ghost use Rattle.std.specs.Prelude.{◌≡◌, length, replicate};
ghost use Rattle.drom.specs.Report.{report_of, leaves_of};
ghost use Rattle.feed.specs.Kinds.{table_of};
ghost use Rattle.listed.specs.Pairs.{pairs_of, pairs_from, with_kind};

use drom::Report;

// Two bytes, as C lends them: any byte can be a kind.
#[repr(C)]
#[derive(Clone, Copy, Debug, Default, PartialEq, Eq)]
pub struct Adapter {
    pub number: u8,
    pub kind: u8,
}

// The kind of each number below 64.
#[derive(Clone, Copy)]
pub struct Kinds {
    of: [u8; 64],
}

impl Kinds {
    fn none() -> Self
        ensures { result.of ≡ replicate 64 0 }
    {
        Self { of: [0; 64] }
    }

    // A number of 64 and more counts for nothing.
    fn set(&mut self, adapter: Adapter)
        ensures { self.new.of ≡ with_kind self.old.of adapter.number adapter.kind }
    {
        if adapter.number < 64 {
            self.of[adapter.number as usize] = adapter.kind;
        }
    }
}

// From the last adapter to the first, so that the first of a number stays.
pub fn kinds_of(list: &[Adapter]) -> Kinds
    ensures { result.of ≡ table_of (pairs_of list.now) }
{
    let mut kinds = Kinds::none();
    for adapter in list.iter().rev() {
        kinds.set(*adapter);
    }
    kinds
}

// The kinds as a list of bytes: 0, its kind, 1, its kind, .. 63, its kind.
pub fn pairs_of(kinds: Kinds) -> [u8; 128]
    ensures { result ≡ pairs_from 0 kinds.of }
{
    let mut pairs = [0; 128];
    for (i, kind) in kinds.of.iter().enumerate() {
        pairs[2 * i] = i as u8;
        pairs[2 * i + 1] = *kind;
    }
    pairs
}

// The report of a DROM, and its records at the front of out: what `drom::read` gives for the adapters' bytes.
pub fn read_listed(list: &[Adapter], drom: &[u8], out: &mut [u8]) -> Report
    ensures report { result ≡ report_of (pairs_of list.now) drom.now (length out.old) }
    ensures buffer { out.new ≡ leaves_of (pairs_of list.now) drom.now out.old }
{
    let pairs = pairs_of(kinds_of(list));
    drom::read(&pairs, drom, out)
}
