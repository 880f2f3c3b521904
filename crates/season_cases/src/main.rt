// Reads test seasons on standard input, each after its length in two bytes, and prints for each the number of the refusal, or 0 and
// the number of deviations. cases.md says what each of them is.
// A line is printed by a function: a type with `Display` would be made for it alone.

#![tactic(auto)]

ghost use Rattle.std.specs.Prelude.{length};
ghost use Rattle.std.specs.Iterator.{at_most};

use std::io;

// The most bytes of standard input that are read.
const MOST_BYTES: usize = 65536;

// The seasons of the bytes that are left. One that is cut off is the last, and left out. No `iter::from_fn`: of that nothing says that it ends.
#[derive(Drop)]
struct Seasons<'a>(&'a [u8]);

impl<'a> Iterator for Seasons<'a> {
    type Item = &'a [u8];

    ghost remaining = { λ s. at_most (length s.0.now) };

    fn next(&mut self) -> Option<&'a [u8]> {
        let (length, after) = self.0.split_first_chunk()?;
        let (season, others) = after.split_at_checked(usize::from(u16::from_le_bytes(*length)))?;
        self.0 = others;
        Some(season)
    }
}

fn print_case(rt: &impl Print, season: &[u8]) -> io::Result<()> {
    match season::examine(season) {
        Ok(found) => println!(rt; "0 {}", found.entries),
        Err(refusal) => println!(rt; "{}", u8::from(refusal)),
    }
}

fn main(rt: HostRuntime) -> io::Result<()> {
    let mut input = [0u8; MOST_BYTES];
    let n = input::read_full(&mut rt.reader(), &mut input)?;
    for season in Seasons(&input[..n]) {
        print_case(&rt, season)?;
    }
    Ok(())
}
