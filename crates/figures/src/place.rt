// P2 to P5: where points lie, found by trying.
ghost use Rattle.std.specs.Prelude.{◌≤◌};

use crate::file::{File, LAST, Record, Rectangle, WORDS};
use crate::{point, say};
use janlishuk::Point;
use std::io;

// Whether the point is read in a file that covers the rectangle alone.
fn lies_in(point: Point, rectangle: Rectangle) -> bool {
    File::covering(rectangle).read(point).refusal == 0
}

// The rectangle that the point lies in. A point on a seam is also read where one before its own is covered
// alone, so they are tried from the last down.
fn rectangle_of(point: Point) -> Option<Rectangle> {
    (1..LAST)
        .rev()
        .map(Rectangle::new)
        .find(|rectangle| lies_in(point, *rectangle))
}

// Whether the point is read above 0 m in a file that covers the rectangle alone, at 0 m but for word w.
fn weighs_in(point: Point, rectangle: Rectangle, w: u32) -> bool
    requires { (1 ≤ w) × (w ≤ 512) }
{
    let mut file = File::covering(rectangle);
    file.set(Record::First, w, 1);
    0 < file.read(point).height
}

// Prints the words of the rectangle that weigh in at the point.
fn words(rt: &impl Print, point: Point, rectangle: Rectangle) -> io::Result<()> {
    say::list(rt, (1..=WORDS).filter(|w| weighs_in(point, rectangle, *w)))
}

// Prints the point and the rectangle that it lies in, or a question mark, and gives the rectangle back.
fn rectangle(rt: &impl Print, point: Point) -> io::Result<Option<Rectangle>> {
    let found = rectangle_of(point);
    print!(rt; "({}, {}): rectangle ", point.easting.0, point.northing.0)?;
    match found {
        Some(rectangle) => print!(rt; "{}", rectangle.number())?,
        None => print!(rt; "?")?,
    }
    Ok(found)
}

// Prints the point, its rectangle and the words that weigh in, and gives the rectangle back.
fn place(rt: &impl Print, point: Point, between: &str) -> io::Result<Option<Rectangle>> {
    let found = rectangle(rt, point)?;
    if let Some(rectangle) = found {
        print!(rt; ", {between} ")?;
        words(rt, point, rectangle)?;
    }
    Ok(found)
}

// Prints a measure of the point, and the refusal that the point gives.
fn refusal(rt: &impl Print, measure: &str, point: Point) -> io::Result<()> {
    print!(rt;
        "; {measure}: refusal {}",
        File::empty().read(point).refusal
    )
}

// Prints P2: rectangle, word and index position of a corner of a rectangle.
pub(crate) fn p2(rt: &impl Print) -> io::Result<()> {
    print!(rt; "P2: ")?;
    if let Some(rectangle) = place(rt, point::at(500000, 4433000), "word")? {
        let byte = rectangle.byte();
        print!(rt; ", position at bytes {byte} and {}", byte + 1)?;
    }
    println!(rt)
}

// Prints P3: rectangle and words of a point amid the last corners of a rectangle.
pub(crate) fn p3(rt: &impl Print) -> io::Result<()> {
    print!(rt; "P3: ")?;
    place(rt, point::at(507250, 4448250), "words")?;
    println!(rt)
}

// Prints P4: rectangle and word of the corner of the next rectangle to the north-east.
pub(crate) fn p4(rt: &impl Print) -> io::Result<()> {
    print!(rt; "P4: ")?;
    place(rt, point::at(507500, 4448500), "word")?;
    println!(rt)
}

// Prints P5: the rectangle of the ground's last point, and the refusal of points past its edges.
pub(crate) fn p5(rt: &impl Print) -> io::Result<()> {
    print!(rt; "P5: ")?;
    rectangle(rt, point::at(874999, 4866999))?;
    refusal(rt, "easting 875000", point::at(875000, 4866999))?;
    refusal(rt, "easting 124999", point::at(124999, 4866999))?;
    refusal(rt, "northing 4867000", point::at(874999, 4867000))?;
    println!(rt)
}
