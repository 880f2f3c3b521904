// Reads a list of inputs on standard input, each one as two bytes of length, lowest first, and its bytes, and prints
// the report of each one as `season-report` would.
// A line is printed by a function: a type with `Display` would be made for it alone.

#![tactic(auto)]

use std::io;
use std::io::Read;

// Prints the report of the next input. One longer than the program's own buffer is cut there.
fn print_case(rt: &impl Print, input: &mut impl Read, length: u16) -> io::Result<()> {
    let mut space = [0u8; 65536];
    let n = input::read_full(input, &mut space[..usize::from(length)])?;
    printing::print(rt, &space[..n.min(report::MOST_BYTES)])
}

fn main(rt: HostRuntime) -> io::Result<()> {
    let mut input = rt.reader();
    // a `for`, and no `while let`: what is read may never end, and a loop has to
    for k in 0..1000 {
        let Some(header) = input::read_array(&mut input)? else {
            break;
        };
        println!(rt; "case {k}")?;
        print_case(&rt, &mut input, u16::from_le_bytes(header))?;
    }
    Ok(())
}
