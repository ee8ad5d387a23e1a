// Questions about the surface code, at points of a square whose four corners have chosen codes.
use crate::file::{BASE, CODE, File, RECORD_8, ZONE};
use crate::points::at;
use crate::say::Numbers;
use std::io;

// Which 16-bit numbers are the words of the square's corners SW, SE, NW and NE.
const CORNERS: [usize; 4] = [
    RECORD_8 + 321,
    RECORD_8 + 322,
    RECORD_8 + 337,
    RECORD_8 + 338,
];

// The points, by easting and northing: on the south-west corner; on the edges, half way and past it; in
// the middle; nearer to the south-west corner, which the other three outweigh in the first of the two; and
// nearer to the north-east one.
const POINTS: [(u32, u32); 7] = [
    (500000, 4443000),
    (500000, 4443250),
    (500300, 4443000),
    (500250, 4443250),
    (500200, 4443200),
    (500050, 4443050),
    (500450, 4443400),
];

// The codes of the corners: one; two, three to one, row by row, column by column and crosswise; three; and
// four.
const VOTES: [[u16; 4]; 7] = [
    [4, 4, 4, 4],
    [5, 2, 2, 2],
    [5, 5, 2, 2],
    [5, 2, 5, 2],
    [5, 2, 2, 5],
    [7, 3, 1, 7],
    [6, 5, 3, 1],
];

// The file with these codes at the corners of the square, at 200 m.
fn with_codes(file: &File, codes: [u16; 4]) -> File {
    let mut voted = *file;
    for (n, code) in CORNERS.into_iter().zip(codes) {
        voted.put(n, CODE * (code % 8) + 200);
    }
    voted
}

// Prints the codes of the corners, and then the code at each of the points.
fn vote(rt: &impl Print, file: &File, codes: [u16; 4]) -> io::Result<()> {
    let voted = with_codes(file, codes);
    let answers = POINTS.map(|(easting, northing)| {
        janlishuk::janlishuk_read(voted.bytes(), BASE, ZONE, at(easting, northing)).code
    });
    println!(rt; "vote{}{}", Numbers(&codes), Numbers(&answers))
}

// Prints the votes.
pub(crate) fn votes(rt: &impl Print, file: &File) -> io::Result<()> {
    for codes in VOTES {
        vote(rt, file, codes)?;
    }
    Ok(())
}
