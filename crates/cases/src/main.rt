// Asks the reader the cases on standard input (see the crate replay): document 01's examples and the borders of each rule. The
// expected answers are samples/model.py's. The lines that are wrong on purpose have to be reported.
#![tactic(auto)]

use std::io;

fn main(rt: HostRuntime) -> io::Result<()> {
    replay::compare_input(&mut rt.stdin(), &mut rt.stdout())
}
