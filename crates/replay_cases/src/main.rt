// Replays season A: reads its 114 bytes, its sheet (both as in examples/season-a.bin) and then calls of three words each, eight bytes a
// word, lowest first (examples/season-a.moves; 0 for set, 1 for exchange). For the opening alone, for the first call, the first two and
// so on it opens anew, makes these calls, and prints the last answer, each sum with the last change, the sheet and the tally.
// A line is printed by a function: a type with `Display` would be made for it alone.

#![tactic(auto)]

ghost use Rattle.std.specs.Prelude.{◌≤◌, length, IfOk};

use std::fmt::Display;
use std::io;

// Reads words as far as there is room, and gives those that were read.
fn read_words<'a>(input: &mut impl io::Read, words: &'a mut [u64]) -> io::Result<&'a [u64]>
    ensures { IfOk result (λ read. length read.now ≤ length words.old) }
{
    for (n, place) in words.iter_mut().enumerate() {
        let Some(bytes) = input::read_array(input)? else {
            return Ok(&words[..n]);
        };
        *place = u64::from_le_bytes(bytes);
    }
    Ok(words)
}

fn print_items<T: Display>(rt: &impl Print, items: &[T]) -> io::Result<()> {
    for item in items {
        print!(rt; " {item}")?;
    }
    Ok(())
}

// A sum with the last change, which is signed.
fn print_sum(rt: &impl Print, name: &str, sum: u64, last: u64) -> io::Result<()> {
    print!(rt; ", {name} {sum} ({:+})", last.cast_signed())
}

// Plays a list of calls on buffers of its own.
fn print_after(
    rt: &impl Print,
    season: &[u8],
    mut sheet: [u8; 6],
    calls: &[u64],
) -> io::Result<()> {
    let mut ledger = [0u32; 12];
    let mut tally = [0u64; 6];
    let p = replay::play(season, &mut sheet, &mut ledger, &mut tally, calls);
    match p.answer {
        Ok(accepted) => print!(rt; "verdict {}", u8::from(accepted.verdict))?,
        Err(refusal) => print!(rt; "refused {}", u8::from(refusal))?,
    }
    let last = played::changes_of(p.answer);
    print_sum(rt, "infeasibility", p.sums.hard, last.hard)?;
    print_sum(rt, "objective", p.sums.soft, last.soft)?;
    print!(rt; ", sheet")?;
    print_items(rt, &sheet)?;
    print!(rt; ", tally")?;
    print_items(rt, &tally)?;
    println!(rt)
}

fn main(rt: HostRuntime) -> io::Result<()> {
    let mut input = rt.reader();
    // of a short input what is not there is 0
    let mut season = [0u8; 114];
    input::read_full(&mut input, &mut season)?;
    let mut sheet = [0u8; 6];
    input::read_full(&mut input, &mut sheet)?;
    let mut words = [0u64; 192];
    let calls = read_words(&mut input, &mut words)?;
    for end in (0..=calls.len()).step_by(3) {
        print_after(&rt, &season, sheet, &calls[..end])?;
    }
    Ok(())
}
