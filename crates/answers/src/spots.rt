// Questions about spots, each beside the reading of the same point: of the file, and of the file with
// damage that a spot sees and with damage that it does not see.
use crate::file::{BASE, File, LAST, ZONE};
use crate::points::{at, in_zone};
use janlishuk::{Point, ReadAnswer};
use std::io;

// A position of the index and the number that is put there, and the easting and northing of a point.
type Damage = ((usize, u16), (u32, u32));

// Points at which a spot of the file is the reading: covered, on each seam, not covered, without a height,
// and off the ground.
const WHOLE: [(u32, u32); 7] = [
    (500250, 4434250),
    (515000, 4434250),
    (500250, 4464000),
    (507500, 4464000),
    (499999, 4433000),
    (500001, 4438000),
    (875000, 4433000),
];

// Damage that a spot sees: M above the records, and below 6 at a point off the ground; an entry above M;
// an own entry of 6, off the seams and on two of them; and an entry of 6 to the west, to the south and to
// the south-west.
const SEEN: [Damage; 8] = [
    ((LAST, 10), (500250, 4434250)),
    ((LAST, 5), (875000, 4433000)),
    ((LAST, 8), (500000, 4448500)),
    ((50, 6), (500250, 4434250)),
    ((151, 6), (507500, 4448500)),
    ((150, 6), (507500, 4448500)),
    ((150, 6), (500250, 4464000)),
    ((150, 6), (507500, 4464000)),
];

// Damage that a spot does not see: an entry that stands twice, at both of its rectangles; one of 6
// elsewhere; one where no rectangle is; one after the first that is not 0; and one of a rectangle that the
// point may not be read from.
const NOT_SEEN: [Damage; 6] = [
    ((52, 7), (507750, 4433000)),
    ((52, 7), (515250, 4433000)),
    ((53, 6), (500250, 4434250)),
    ((2800, 9), (500250, 4434250)),
    ((51, 6), (507500, 4448500)),
    ((50, 6), (507750, 4433000)),
];

// Prints the call, and refusal, place, height and code of its answer.
fn say_answer(rt: &impl Print, call: &str, answer: ReadAnswer) -> io::Result<()> {
    println!(rt;
        "  {call} {} {} {} {}",
        answer.refusal, answer.place, answer.height, answer.code
    )
}

// Prints the base, the point's zone, easting and northing, and the answers of its reading and its spot.
fn ask(rt: &impl Print, file: &File, base: u32, point: Point) -> io::Result<()> {
    println!(rt;
        "spot {base} {} {} {}",
        point.zone, point.easting.0, point.northing.0
    )?;
    let read = janlishuk::janlishuk_read(file.bytes(), base, ZONE, point);
    let spot = janlishuk::janlishuk_spot(file.bytes(), base, ZONE, point);
    say_answer(rt, "read", read)?;
    say_answer(rt, "spot", spot)
}

// Prints the answers of a damaged file at its point.
fn damaged(rt: &impl Print, file: &File, damage: Damage) -> io::Result<()> {
    let ((position, number), (easting, northing)) = damage;
    println!(rt; "position {position} {number}")?;
    let other = file.with(position, number);
    ask(rt, &other, BASE, at(easting, northing))
}

// Prints the answers of the file: at its points, of another zone, and with a base that is not named.
fn whole(rt: &impl Print, file: &File) -> io::Result<()> {
    for (easting, northing) in WHOLE {
        ask(rt, file, BASE, at(easting, northing))?;
    }
    ask(rt, file, BASE, in_zone(18, 500250, 4434250))?;
    ask(rt, file, 42, at(500250, 4434250))
}

// Prints the answers at spots: of the file; of damage that a spot sees; at a point of another zone in a
// rectangle whose entry is 6, since its zone comes first; and of damage that a spot does not see.
pub(crate) fn spots(rt: &impl Print, file: &File) -> io::Result<()> {
    whole(rt, file)?;
    for damage in SEEN {
        damaged(rt, file, damage)?;
    }
    let other = file.with(50, 6);
    ask(rt, &other, BASE, in_zone(18, 500250, 4434250))?;
    for damage in NOT_SEEN {
        damaged(rt, file, damage)?;
    }
    Ok(())
}
