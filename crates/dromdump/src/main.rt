// What the reader says of the DROM on standard input.
#![tactic(auto)]

use std::io;

fn main(rt: HostRuntime) -> io::Result<()> {
    dump::dump(&mut rt.stdin(), &mut rt.stdout())
}
