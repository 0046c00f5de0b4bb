// Replays the answers of the customer's Rust on standard input (see the crate replay), which `beside/sample` wrote.
#![tactic(auto)]

use std::io;

fn main(rt: HostRuntime) -> io::Result<()> {
    replay::compare_input(&mut rt.stdin(), &mut rt.stdout())
}
