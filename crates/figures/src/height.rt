// P6 to P8: what is read in rectangle 50.
use crate::file::{File, Record};
use crate::point::past_corner;
use crate::say::Tenths;
use std::io;

// An exact height of one metre.
const METRE: u32 = 250000;

// An exact height of a tenth of a metre.
const TENTH: u32 = METRE / 10;

// The elevation of the south-west corner.
const SW: u16 = 100;

// The elevation of the south-east corner.
const SE: u16 = 110;

// A file with the elevations SW and SE, `nw` at the north-west corner and `ne` at the north-east one.
fn corners(nw: u16, ne: u16) -> File {
    let mut file = File::level();
    for (w, elevation) in [(1, SW), (2, SE), (17, nw), (18, ne)] {
        file.set(Record::First, w, elevation);
    }
    file
}

// Prints the elevations of the corners, and the exact height and the metres of the point fx and fy metres
// past the south-west one.
fn amid(rt: &impl Print, nw: u16, ne: u16, fx: u16, fy: u16) -> io::Result<()> {
    let file = corners(nw, ne);
    let point = past_corner(fx, fy);
    let height = file.read(point).height;
    let metres = Tenths {
        tenths: height / TENTH,
        metres: file.engine_point(point).metres,
    };
    print!(rt; "corners {SW}, {SE}, {nw}, {ne} at fx {fx}, fy {fy}: {height}, which is {metres}")
}

// Prints a word's two bytes, and the surface code and elevation that are read of them.
fn word(rt: &impl Print, high: u8, low: u8) -> io::Result<()> {
    let mut file = File::level();
    file.set(Record::First, 1, u16::from_be_bytes([high, low]));
    let answer = file.read(past_corner(0, 0));
    let elevation = answer.height / METRE;
    print!(rt;
        "bytes {high}, {low} are code {}, elevation {elevation}",
        answer.code
    )
}

// Prints P6: what a word means.
pub(crate) fn p6(rt: &impl Print) -> io::Result<()> {
    print!(rt; "P6: ")?;
    word(rt, 96, 100)?;
    println!(rt)
}

// Prints P7: the height amid four corners.
pub(crate) fn p7(rt: &impl Print) -> io::Result<()> {
    print!(rt; "P7: ")?;
    amid(rt, 120, 150, 250, 250)?;
    println!(rt)
}

// Prints P8: the height between the south corners, also where the north ones have no height.
pub(crate) fn p8(rt: &impl Print) -> io::Result<()> {
    print!(rt; "P8: ")?;
    amid(rt, 120, 150, 125, 0)?;
    print!(rt; "; ")?;
    amid(rt, 8191, 8191, 125, 0)?;
    println!(rt)
}
