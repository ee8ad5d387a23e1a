// Questions about points on the seams of rectangles, of the file and of the file with other entries.
use crate::file::{File, RECORD_9};
use crate::points::{ask, at};
use std::io;

// Points whose own rectangle is not covered: in column 15 of rectangle 51, to the west; in row 31 of
// rectangle 150, to the south; in the corner of rectangle 150, to the south-west; in the corner of
// rectangles 150 and 51, of which the western one is tried first; one metre past a seam; and on a western
// edge only, where the rectangle to the south-west is covered.
const POINTS: [(u32, u32); 6] = [
    (515000, 4434250),
    (500250, 4464000),
    (507500, 4464000),
    (507500, 4448500),
    (515001, 4434250),
    (507500, 4464250),
];

// The file where the word of rectangle 150 at the corner of rectangles 150 and 51 has no height.
fn lacking(file: &File) -> File {
    file.with(RECORD_9 + 16, 8191)
}

// The file where rectangles 99 and 1 are covered, in place of 51 and 150.
fn beside_rectangle_0(file: &File) -> File {
    file.with(51, 0).with(150, 0).with(99, 7).with(1, 9)
}

// Prints the answers at points on seams: of the file; at the corner of rectangles 150 and 51, where a word
// has no height; and at the corner of rectangle 100, in column 0, where no rectangle lies to the west, and
// rectangle 0, to the south, is never covered.
pub(crate) fn seams(rt: &impl Print, file: &File) -> io::Result<()> {
    for (easting, northing) in POINTS {
        ask(rt, file, at(easting, northing))?;
    }
    ask(rt, &lacking(file), at(507500, 4448500))?;
    ask(rt, &beside_rectangle_0(file), at(125000, 4448500))
}
