// dromdump's output on one dump after the other, each under its name: document 01's example, every refusal of a whole DROM, the sizes
// around the largest, and the sample dumps. data/ has the dumps.
#![tactic(auto)]

use std::io::Write;
use std::rt::Files;
use std::{fs, io};

// A file that cannot be opened is told to standard error, and the next one has its turn.
fn show(rt: &(impl Files + Print + Eprint), name: &str) -> io::Result<()> {
    let mut out = io::writer(rt);
    writeln!(out, "{name}:")?;
    match fs::open(rt, name) {
        Ok(mut file) => dump::dump(&mut file, &mut out),
        Err(e) => eprintln!(rt; "{name}: {e}"),
    }
}

fn main(rt: HostRuntime) -> io::Result<()> {
    let names = [
        "example",
        "no-body",
        "empty",
        "refusal-1",
        "refusal-2",
        "refusal-3",
        "refusal-6",
        "refusal-7",
        "refusal-8",
        "refusal-9",
        "refusal-10",
        "refusal-11",
        "largest",
        "one-too-long",
        "much-too-long",
        "usb4-dock.bin",
        "thunderbolt3-dock.bin",
        "odd-serial.bin",
        "zero-length.bin",
        "stale-crc32.bin",
    ];
    for name in names {
        show(&rt, name)?;
    }
    Ok(())
}
