// The bounds of a state: what openings and feeds can have left, as far as its numbers, its header and its first pending byte tell.
ghost use Rattle.std.specs.Prelude.{◌≡◌, ◌||◌, ◌≤◌, ltb};
ghost use Rattle.feed.specs.Bounds.{header_passes, records_fit, pending_fits, nothing_refused, nothing_read, opening_refused, header_refused, entry_refused, in_bounds};

use super::feeding::Core;
use drom::header::{body_start, header_number};

fn records_fit(past: usize, count: usize, written: usize) -> bool
    requires { past ≤ 4108 }
    ensures { result ≡ records_fit past count written }
{
    count <= past && 4 * count <= written && written <= 4 * past
}

// Three of these ask that no more bytes are taken than announced, which `in_bounds` tests before it calls them. A type that says so
// would be made for that one call, and is no plainer.
impl Core {
    fn header_fits(&self, header: &[u8]) -> bool
        ensures { result ≡ (ltb self.now.taken 16 || header_passes self.now header.now) }
    {
        self.taken < 16 || header_number(header, self.announced) == 0
    }

    fn pending_fits(&self, pending: &[u8]) -> bool
        requires { (self.now.taken ≤ self.now.announced) × (self.now.fill ≤ self.now.taken) }
        ensures { result ≡ pending_fits self.now pending.now }
    {
        let length = usize::from(bits::byte_at(pending, 0));
        self.fill == 0 || self.fill < length && length <= self.announced - (self.taken - self.fill)
    }

    #[tactic(auto, unfolding(crate::specs::Bounds::nothing_refused))]
    fn nothing_refused(&self, header: &[u8], pending: &[u8]) -> bool
        requires { self.now.taken ≤ self.now.announced }
        ensures { result ≡ nothing_refused self.now header.now pending.now }
    {
        let body = self.taken.saturating_sub(body_start(header));
        16 <= self.announced
            && self.header_fits(header)
            && self.offset == 0
            && self.fill <= body
            && self.pending_fits(pending)
            && records_fit(body - self.fill, self.count, self.written)
    }

    fn nothing_read(&self) -> bool
        ensures { result ≡ nothing_read self.now }
    {
        self.offset == 0 && self.fill == 0 && self.count == 0 && self.written == 0
    }

    #[tactic(auto, unfolding(crate::specs::Bounds::opening_refused))]
    fn opening_refused(&self) -> bool
        ensures { result ≡ opening_refused self.now }
    {
        self.announced == 0 && self.nothing_read()
    }

    #[tactic(auto, unfolding(crate::specs::Bounds::header_refused))]
    fn header_refused(&self, header: &[u8]) -> bool
        ensures { result ≡ header_refused self.now header.now }
    {
        16 <= self.taken
            && header_number(header, self.announced) == self.refusal
            && self.nothing_read()
    }

    #[tactic(auto, unfolding(crate::specs::Bounds::entry_refused))]
    fn entry_refused(&self, header: &[u8]) -> bool
        requires { self.now.taken ≤ self.now.announced }
        ensures { result ≡ entry_refused self.now header.now }
    {
        let start = body_start(header);
        self.refusal <= 11
            && header_number(header, self.announced) == 0
            && start <= self.offset
            && self.fill < self.taken.saturating_sub(self.offset)
            && records_fit(self.offset - start, self.count, self.written)
    }

    // Whether a state is within the bounds, by the refusal that it holds: a number, as the state does.
    #[tactic(auto, unfolding(crate::specs::Bounds::in_bounds))]
    pub(crate) fn in_bounds(&self, header: &[u8], pending: &[u8]) -> bool
        ensures { result ≡ in_bounds self.now header.now pending.now }
    {
        if self.announced < self.taken {
            return false;
        }
        match self.refusal {
            0 => self.nothing_refused(header, pending),
            1 | 4 | 5 => self.opening_refused(),
            2 | 3 => self.header_refused(header),
            _ => self.entry_refused(header),
        }
    }
}
