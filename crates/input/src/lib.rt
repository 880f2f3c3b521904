// Reads into a space of fixed size.

#![tactic(auto)]

ghost use Rattle.std.specs.Prelude.{IfOk, MatchOption, take, length, ◌<◌};
ghost use Rattle.std.specs.Io.{ReadsAtMost};
ghost use Rattle.std.specs.Io.KnownBytes.{Consumes, IsAtEnd};

use std::io;
use std::io::Read;

// Reads until the space is full or the input ends, and gives the number of bytes that were read.
pub fn read_full<R: Read>(input: &mut R, space: &mut [u8]) -> io::Result<usize>
    ensures bound { ReadsAtMost result space.new }
    ensures bytes { IfOk result (λ n. Consumes (R.remaining input.old) (R.remaining input.new) (take n space.new)) }
    ensures end { IfOk result (λ n. n < length space.new → IsAtEnd (R.remaining input.new)) }
{
    // no method of std does this: `read_exact` gives no count where the input ends, `read_to_end` needs the heap; and over a space that shrinks
    // the invariant has no name for what was read, so that proof did not close
    let mut n = 0;
    while n < space.len() {
        let more = input.read(&mut space[n..])?;
        if more == 0 {
            break;
        }
        n += more;
    }
    Ok(n)
}

// Reads an array of bytes, if the input has that many left.
pub fn read_array<const N: usize, R: Read>(input: &mut R) -> io::Result<Option<[u8; N]>>
    ensures { IfOk result (λ found. MatchOption found (IsAtEnd (R.remaining input.new))
        (λ bytes. Consumes (R.remaining input.old) (R.remaining input.new) bytes)) }
{
    let mut bytes = [0u8; N];
    let n = read_full(input, &mut bytes)?;
    Ok((n == N).then_some(bytes))
}
