// Rows of bytes, a place for each slot: marks and running counts of slot masks, and what is read off them.

#![tactic(auto)]

ghost use Rattle.std.specs.Prelude.{◌≡◌, ◌+◌, ◌-◌, ◌<◌, ◌≤◌, length, slice_index};
ghost use Rattle.robinx.specs.Season.{most_slots};
ghost use Rattle.robinx.specs.Sums.{list_to};
ghost use Rattle.robinx.specs.Groups.{bit};
ghost use Rattle.rows.specs.Rows.{marked, up_to, packed, farthest_to, off_run, runs_to, off_in_runs};

use robinx::range::CountRange;
use robinx::{Season, Slots};

// A row has a place for each slot.
pub type SlotRow = [u8; Season::SLOTS];

// The row of the mask's marks: 255 for each of its slots, 0 for the others.
pub fn spread(s: Slots) -> SlotRow
    ensures { result ≡ list_to (marked s) most_slots }
{
    std::array::from_fn(|k| masks::bit_at(s, k) * 255)
}

// The running counts of a byte's slots, a byte for each.
fn eight(byte: u8) -> u64
    ensures { result ≡ packed (up_to byte) 8 }
{
    // byte j has bit j at its own place, then as 0 or 1; then each byte is the sum of the two, four and eight bytes up to it
    let own = (u64::from(byte) * 0x0101010101010101) & 0x8040201008040201;
    let one = ((own + 0x00406070787c7e7f) >> 7) & 0x0101010101010101;
    let two = one + (one << 8);
    let four = two + (two << 16);
    four + (four << 32)
}

// `copy_from_slice` of a word's bytes, which the compiler makes one store. std's takes half as much again, as it asks whether the two overlap.
fn copy_eight(bytes: [u8; 8], part: &mut [u8])
    requires { length part.old ≡ 8 }
    ensures { part.new ≡ bytes }
{
    // by index: of what a zip of `iter_mut` wrote, the library says nothing once the loop is over
    for (j, place) in part.iter_mut().enumerate() {
        *place = bytes[j];
    }
}

// The row of the mask's counts: how many slots of v there are up to each slot. Eight at a time, with the count before them added to each.
pub fn lay(v: Slots, row: &mut [u8])
    requires { length row.old ≡ most_slots }
    ensures { row.new ≡ list_to (up_to v) most_slots }
{
    let mut before: u64 = 0;
    for (at, &byte) in masks::bytes(v).iter().enumerate() {
        let counts = eight(byte) + before * 0x0101010101010101;
        // by index: of chunks that are written through, the library says nothing once the loop is over
        copy_eight(counts.to_le_bytes(), &mut row[8 * at..8 * at + 8]);
        before = counts >> 56;
    }
}

// The largest distance of two rows at the slots that the row of marks has. The smaller of mark and distance takes no branch.
pub fn farthest(a: &SlotRow, b: &SlotRow, marks: &SlotRow) -> u8
    ensures { result ≡ farthest_to marks.now (slice_index a.now) (slice_index b.now) most_slots }
{
    a.iter().zip(b).zip(marks).fold(0, |far, ((&x, &y), &mark)| far.max(mark.min(x.abs_diff(y))))
}

// How far the count of the run of w slots from slot k on is outside the range. Place k of the row has the count before slot k.
fn off_run(row: &[u8], w: usize, range: CountRange, k: usize) -> u32
    requires { k + w < length row.now }
    ensures { result ≡ off_run row.now w range.low range.high k }
{
    u32::from(range.outside_byte(row[k + w].saturating_sub(row[k])))
}

// How far the counts of the first n runs of w slots are outside the range, summed.
pub fn runs(row: &[u8], w: usize, range: CountRange, n: usize) -> u32
    requires long { most_slots + 1 ≤ length row.now }
    requires whole { n ≤ most_slots + 1 - w }
    ensures { result ≡ runs_to row.now w range.low range.high n }
{
    // by place: in a loop, a zip of the row and its part from w on took a fifth more instructions than places
    (0..n).map(|k| off_run(row, w, range, k)).sum()
}

// The same of the mask's slots: how far their counts in the first n runs of w slots are outside the range, summed.
pub fn mask_runs(v: Slots, w: usize, range: CountRange, n: usize) -> u32
    requires { n ≤ most_slots + 1 - w }
    ensures { result ≡ off_in_runs (bit v) w range.low range.high n }
{
    let mut row = [0; Season::SLOTS + 1];
    lay(v, &mut row[1..]);
    runs(&row, w, range, n)
}
