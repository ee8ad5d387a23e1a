// P11 and P12: the masts of paths that lead east from the corner of rectangle 50.
use crate::file::{File, Record};
use crate::point::past_corner;
use std::io;

// The limit of each mast, in metres.
const LIMIT: u32 = 100;

// How far the path over a hill leads, in metres.
const OVER: u16 = 1000;

// Prints the masts of the path that leads `east` metres to the east, or the refusal.
fn masts(rt: &impl Print, file: &File, east: u16) -> io::Result<()> {
    let answer = file.plan(past_corner(0, 0), past_corner(east, 0), LIMIT);
    if answer.refusal == 0 {
        print!(rt; ": masts {} and {}", answer.first, answer.second)
    } else {
        print!(rt; ": refusal {}", answer.refusal)
    }
}

// A file at 0 m with a hill of `metres` at the second corner, the middle of the path over it.
fn hill(metres: u16) -> File {
    let mut file = File::level();
    file.set(Record::First, 2, metres);
    file
}

// Prints the metres of a hill, and the masts of the path over it.
fn over(rt: &impl Print, metres: u16) -> io::Result<()> {
    print!(rt; "middle {metres} m")?;
    masts(rt, &hill(metres), OVER)
}

// Prints P11: the masts of two paths over flat ground.
pub(crate) fn p11(rt: &impl Print) -> io::Result<()> {
    let metres = 100;
    let mut file = File::level();
    file.flatten(Record::First, metres);
    file.flatten(Record::Second, metres);
    print!(rt; "P11: flat {metres} m ground, limits {LIMIT}, 10 km")?;
    masts(rt, &file, 10000)?;
    print!(rt; "; 1 km")?;
    masts(rt, &file, 1000)?;
    println!(rt)
}

// Prints P12: N and the masts of a path over the highest hill that masts within the limits clear, and
// what the next higher one gives.
pub(crate) fn p12(rt: &impl Print) -> io::Result<()> {
    let n = File::level()
        .profile(past_corner(0, 0), past_corner(OVER, 0))
        .n;
    print!(rt; "P12: N = {n}, dE {OVER}, limits {LIMIT}, ends at 0 m, ")?;
    over(rt, 99)?;
    print!(rt; "; ")?;
    over(rt, 100)?;
    println!(rt)
}
