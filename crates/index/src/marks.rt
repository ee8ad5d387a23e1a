// The marks of an index: one for each record number, set where the number was met. They are lent beside M, which the
// walk over the index needs without them too.
ghost use Rattle.std.specs.Prelude.{◌≤◌};
ghost use Rattle.index.specs.Bytes.{most_records};
ghost use Rattle.index.specs.Inside.{FourAre, Marking, RecordAt, FourRecords, NumberAt};

use crate::bytes::{INDEX, MOST_RECORDS, is_record};
use std::mem;

// A mark for each number from 0 to the most records that a file may have; those below 7 are never
// set.
pub(crate) const MARKS: usize = MOST_RECORDS + 1;

// The numbers in four positions, one after the other.
#[derive(Clone, Copy)]
pub(crate) struct Four {
    pub first: usize,
    pub second: usize,
    pub third: usize,
    pub fourth: usize,
}

// Whether all four are from 7 to M.
pub(crate) fn are_records(four: Four, highest: usize) -> bool
    requires { (6 ≤ highest) × (highest ≤ most_records) }
    ensures { FourAre four highest result }
{
    let past = highest - INDEX;
    is_record(four.first, past)
        & is_record(four.second, past)
        & is_record(four.third, past)
        & is_record(four.fourth, past)
}

// Marks the number, and tells whether it had no mark.
fn mark(number: usize, marks: &mut [bool; MARKS]) -> bool
    requires { number ≤ most_records }
    ensures { Marking 1 (RecordAt number) marks.old marks.new result }
{
    !mem::replace(&mut marks[number], true)
}

// Marks the four numbers one after the other, and tells whether none had a mark.
pub(crate) fn mark_four(four: Four, marks: &mut [bool; MARKS]) -> bool
    requires { ((four.first ≤ most_records) × (four.second ≤ most_records)) × ((four.third ≤ most_records) × (four.fourth ≤ most_records)) }
    ensures { Marking 4 (FourRecords four) marks.old marks.new result }
{
    let first = mark(four.first, marks);
    let second = mark(four.second, marks);
    let third = mark(four.third, marks);
    let fourth = mark(four.fourth, marks);
    first & second & third & fourth
}

// Whether the number is 0, or from 7 to M and without a mark. A number from 7 to M is marked.
pub(crate) fn mark_one(number: usize, highest: usize, marks: &mut [bool; MARKS]) -> bool
    requires { (6 ≤ highest) × (highest ≤ most_records) }
    ensures { Marking 1 (NumberAt number highest) marks.old marks.new result }
{
    if is_record(number, highest - INDEX) {
        return mark(number, marks);
    }
    number == 0
}
