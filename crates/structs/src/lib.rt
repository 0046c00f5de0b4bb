// The reader's entry over a slice of structs, for callers that have a list as bytes: test programs, which are asked in bytes.
#![tactic(auto)]

use drom::Report;
use listed::Adapter;

// The most adapters of a list, in memory of a fixed size.
const MOST: usize = 128;

// The adapters of a list of bytes, number then kind, with none behind them. An odd byte at the end is no adapter.
fn adapters_of(list: &[u8]) -> [Adapter; MOST] {
    let mut adapters = [Adapter::default(); MOST];
    for (adapter, pair) in adapters.iter_mut().zip(list.chunks_exact(2)) {
        *adapter = Adapter {
            number: pair[0],
            kind: pair[1],
        };
    }
    adapters
}

// What the entry gives for the adapters of a list of bytes, the first 128 of them.
pub fn read_structs(list: &[u8], drom: &[u8], out: &mut [u8]) -> Report {
    let n = (list.len() / 2).min(MOST);
    let adapters = adapters_of(list);
    listed::read_listed(&adapters[..n], drom, out)
}
