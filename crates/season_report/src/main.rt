// Reads a season and its sheet on standard input, and prints their report.

#![tactic(auto)]

use std::io;

fn main(rt: HostRuntime) -> io::Result<()> {
    let mut input = [0u8; report::MOST_BYTES];
    let n = input::read_full(&mut rt.reader(), &mut input)?;
    printing::print(&rt, &input[..n])
}
