// P9: N and the samples of paths that start at the corner of rectangle 50.
use crate::file::{File, Record};
use crate::point::{WEST, past_corner};
use crate::say;
use janlishuk::ProfileAnswer;
use std::io;

// What the exact height of the rising ground gains in a metre to the east.
const RISE: u32 = 500;

// A file whose ground rises along the southern edge by 1 m in 500 m, from 0 m at the corner to 3 m.
fn rising() -> File {
    let mut file = File::level();
    for (w, metres) in [(2, 1), (3, 2), (4, 3)] {
        file.set(Record::First, w, metres);
    }
    file
}

// The profile of the path from the corner to the point `east` and `north` metres past it.
fn profile(east: u16, north: u16) -> ProfileAnswer {
    rising().profile(past_corner(0, 0), past_corner(east, north))
}

// Prints dE, dN and N of the path from the corner to the point `east` and `north` metres past it.
fn steps(rt: &impl Print, east: u16, north: u16) -> io::Result<()> {
    print!(rt; "dE {east}, dN {north}: N = {}; ", profile(east, north).n)
}

// Prints the eastings of the four samples of the path that leads `east` metres to the east, where the
// rising ground has their heights.
fn samples(rt: &impl Print, east: u16) -> io::Result<()> {
    print!(rt; "from {WEST} to {}: ", WEST + u32::from(east))?;
    let heights = profile(east, 0).heights;
    let eastings = heights[..4].iter().map(|height| WEST + height / RISE);
    say::list(rt, eastings)
}

// Prints P9: N of three paths, and the samples of one.
pub(crate) fn p9(rt: &impl Print) -> io::Result<()> {
    print!(rt; "P9: ")?;
    for (east, north) in [(1000, 0), (1001, 0), (300, 400)] {
        steps(rt, east, north)?;
    }
    samples(rt, 1001)?;
    println!(rt)
}
