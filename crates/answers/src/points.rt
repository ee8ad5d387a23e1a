// Questions about points: the reading, the record, and the point for the engine.
use crate::file::{BASE, File, ZONE};
use crate::say::Expected;
use janlishuk::{EnginePoint, Metres, Point};
use std::io;

// Points of the file's zone, by easting and northing. Covered and with heights, at the corners of a
// record and between them; beside a corner without a height; east and north of rectangle 50; not covered;
// and off the ground.
const POINTS: [(u32, u32); 12] = [
    (500000, 4433000),
    (500250, 4434250),
    (500125, 4434000),
    (500100, 4434300),
    (500500, 4434500),
    (500000, 4438000),
    (500001, 4438000),
    (507500, 4433000),
    (500000, 4448500),
    (499999, 4433000),
    (875000, 4433000),
    (500000, 4867000),
];

// The point of this zone at this easting and northing.
pub(crate) fn in_zone(zone: u32, easting: u32, northing: u32) -> Point {
    Point {
        zone,
        easting: Metres(easting),
        northing: Metres(northing),
    }
}

// The point of the file's zone at this easting and northing.
pub(crate) fn at(easting: u32, northing: u32) -> Point {
    in_zone(ZONE, easting, northing)
}

// Prints the answers at the points, and at one of the next zone.
pub(crate) fn points(rt: &impl Print, file: &File) -> io::Result<()> {
    for (easting, northing) in POINTS {
        ask(rt, file, at(easting, northing))?;
    }
    ask(rt, file, in_zone(18, 500000, 4433000))
}

// Prints zone, easting and northing of a point, and the answers there.
pub(crate) fn ask(rt: &impl Print, file: &File, point: Point) -> io::Result<()> {
    println!(rt;
        "point {} {} {}",
        point.zone, point.easting.0, point.northing.0
    )?;
    let tenths = reading(rt, file, point)?;
    record(rt, file, point)?;
    engine(rt, file, point, tenths)?;
    structure(rt, file, point, tenths)
}

// Prints refusal, place, height and code of the reading, and gives back its height in tenths of a
// metre.
fn reading(rt: &impl Print, file: &File, point: Point) -> io::Result<u32> {
    let read = janlishuk::janlishuk_read(file.bytes(), BASE, ZONE, point);
    println!(rt;
        "  read {} {} {} {}",
        read.refusal, read.place, read.height, read.code
    )?;
    Ok(read.height / 25000)
}

// Prints how many bytes the record has that a point is read from, 1024 or none, and its first and its
// last word.
fn record(rt: &impl Print, file: &File, point: Point) -> io::Result<()> {
    let record = janlishuk::record(file.bytes(), BASE, ZONE, point);
    match record {
        [] => println!(rt; "  record 0"),
        [first_high, first_low, .., last_high, last_low] if record.len() == 1024 => {
            let first = u16::from_be_bytes([*first_high, *first_low]);
            let last = u16::from_be_bytes([*last_high, *last_low]);
            println!(rt; "  record 1024 {first} {last}")
        }
        _ => Ok(()),
    }
}

// Prints the point as an enum: tenths of a metre and code, or the refusal.
fn engine(rt: &impl Print, file: &File, point: Point, tenths: u32) -> io::Result<()> {
    match janlishuk::engine_point(file.bytes(), BASE, ZONE, point) {
        Ok(EnginePoint::Land(metres, code)) => {
            println!(rt; "  land {} {code}", Expected::tenths(metres, tenths))
        }
        Ok(EnginePoint::Water(metres, code)) => {
            println!(rt; "  water {} {code}", Expected::tenths(metres, tenths))
        }
        Err(refusal) => println!(rt; "  refused {}", refusal.number()),
    }
}

// Prints the point as a struct: refusal, place, kind, code, tenths of a metre.
fn structure(rt: &impl Print, file: &File, point: Point, tenths: u32) -> io::Result<()> {
    let answer = janlishuk::janlishuk_engine_point(file.bytes(), BASE, ZONE, point);
    println!(rt;
        "  struct {} {} {} {} {}",
        answer.refusal,
        answer.place,
        answer.kind,
        answer.code,
        Expected::tenths(answer.metres, tenths)
    )
}
