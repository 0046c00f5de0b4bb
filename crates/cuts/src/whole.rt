// Whether a feeding, or a reading over structs, leaves what the reading of the whole left.
use drom::Report;

// The size of a buffer that is enough for any DROM, and what it holds before it is lent.
pub(crate) const ENOUGH: usize = 16368;

pub(crate) const LENT: u8 = 0xa5;

// A line's number, its list, the DROM that is fed or read over structs, and what the reading of the whole left.
#[derive(Clone, Copy)]
pub(crate) struct Case<'a> {
    pub line: u64,
    pub list: &'a [u8],
    pub fed: &'a [u8],
    pub report: Report,
    pub buffer: &'a [u8],
}

impl Case<'_> {
    // Whether another way leaves the same: every field of the report, and every byte of the buffer.
    pub(crate) fn is_left_by<F: FnOnce(&mut [u8]) -> Report>(&self, way: F) -> bool
        requires { F.IsAlwaysCallable way }
    {
        let mut buffer = [LENT; ENOUGH];
        let report = way(&mut buffer);
        report == self.report && buffer.as_slice() == self.buffer
    }
}
