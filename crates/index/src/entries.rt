// The walk over the entries of an index, four positions at a time: files hold long runs of zeros, and
// long runs of numbers, and four 16-bit positions are one load.
ghost use Rattle.std.specs.Prelude.{◌≡◌, ◌+◌, ◌*◌, ◌≤◌, length};
ghost use Rattle.index.specs.Bytes.{index_bytes, most_records};
ghost use Rattle.index.specs.Index.{entries_pass, rest_empty};
ghost use Rattle.index.specs.Inside.{four_positions, FourAt, Skipped, NextEntry, Walked, PastRecords};

use crate::bytes::{LAST, nth};
use crate::marks;
use crate::marks::{Four, MARKS};

// Positions n to n + 3 as one number, which is 0 exactly if all four are.
fn four_positions(file: &[u8], n: usize) -> u64
    requires { (1 ≤ n) × (2 * n + 6 ≤ length file.now) }
    ensures { result ≡ four_positions file.now n }
{
    0x1_0000_0000_0000 * u64::from(nth(file, n))
        + 0x1_0000_0000 * u64::from(nth(file, n + 1))
        + 0x1_0000 * u64::from(nth(file, n + 2))
        + u64::from(nth(file, n + 3))
}

// A position r such that all from `from` to before r hold 0, found four at a time: either fewer than
// four are left before the end, or one of the next four is not 0. The index stays counted by hand: the place
// where it stops is what comes back.
fn past_fours(file: &[u8], from: usize, end: usize) -> usize
    requires { (1 ≤ from) × ((from ≤ end) × ((4 ≤ end) × (2 * end ≤ length file.now))) }
    ensures { Skipped file.now from end result }
{
    let last = end - 4;
    let mut n = from;
    while n <= last {
        if four_positions(file, n) != 0 {
            break;
        }
        n += 4;
    }
    n
}

// The first position from `from` to before the end that does not hold 0, or the end.
fn next_entry(file: &[u8], from: usize, end: usize) -> usize
    requires { (1 ≤ from) × ((from ≤ end) × ((4 ≤ end) × (2 * end ≤ length file.now))) }
    ensures { NextEntry file.now from end result }
{
    for n in past_fours(file, from, end)..end {
        if nth(file, n) != 0 {
            return n;
        }
    }
    end
}

// The numbers in positions n to n + 3.
fn four_at(file: &[u8], n: usize) -> Four
    requires { (1 ≤ n) × (2 * n + 6 ≤ length file.now) }
    ensures { FourAt file.now n result }
{
    Four {
        first: usize::from(nth(file, n)),
        second: usize::from(nth(file, n + 1)),
        third: usize::from(nth(file, n + 2)),
        fourth: usize::from(nth(file, n + 3)),
    }
}

// Marks the numbers in the positions from `from` on, four at a time, as long as all four are from 7 to
// M. Comes back with the position after them, by which it is counted by hand; or with none, where a number
// had a mark.
fn past_records(
    file: &[u8],
    highest: usize,
    from: usize,
    end: usize,
    marks: &mut [bool; MARKS],
) -> Option<usize>
    requires { Walked file.now highest marks.old from × ((from ≤ end) × ((4 ≤ end) × ((2 * end ≤ length file.now) × (6 ≤ highest)))) }
    ensures { PastRecords file.now highest from end marks.new result }
{
    let last = end - 4;
    let mut n = from;
    while n <= last {
        let four = four_at(file, n);
        if !marks::are_records(four, highest) {
            break;
        }
        if !marks::mark_four(four, marks) {
            return None;
        }
        n += 4;
    }
    Some(n)
}

// Whether each position from 1 to before the end holds 0, or a number from 7 to M that no position
// before it holds. Runs of such numbers are passed by fours; then one position is tried, and the zeros
// after it are passed by fours: no range has the places that the walk comes to.
pub(crate) fn all_pass(file: &[u8], highest: usize, end: usize) -> bool
    requires { (4 ≤ end) × ((2 * end ≤ length file.now) × ((6 ≤ highest) × (highest ≤ most_records))) }
    ensures { result ≡ entries_pass file.now highest end }
{
    let mut marks = [false; MARKS];
    let last = end - 4;
    let mut n = 1;
    while n <= last {
        let Some(next) = past_records(file, highest, n, end, &mut marks) else {
            return false;
        };
        n = next;
        if n <= last {
            if !marks::mark_one(usize::from(nth(file, n)), highest, &mut marks) {
                return false;
            }
            n = past_fours(file, n + 1, end);
        }
    }
    for n in n..end {
        if !marks::mark_one(usize::from(nth(file, n)), highest, &mut marks) {
            return false;
        }
    }
    true
}

// Whether each position from `from` to 3071 holds 0.
pub(crate) fn rest_is_empty(file: &[u8], from: usize) -> bool
    requires { (1 ≤ from) × ((from ≤ 3072) × (index_bytes ≤ length file.now)) }
    ensures { result ≡ rest_empty file.now from }
{
    next_entry(file, from, LAST) == LAST
}
