// P10: the curve G of the earth on a path of 10 km, measured by the verdict.
ghost use Rattle.std.specs.Prelude.{◌≤◌, IfSome};

use crate::file::{File, Record};
use crate::point::past_corner;
use janlishuk::Point;
use std::io;

// How far apart the ends of the path are, in metres.
const APART: u16 = 10000;

// The mast at each end, in metres.
const MAST: u32 = 1;

// A file at 0 m but for the corner south-east of each end, at 1 m. That lifts sample 1 too, to at most
// 500 mm, where G is small enough that it blocks nothing.
fn ground() -> File {
    let mut file = File::level();
    file.set(Record::First, 2, 1);
    file.set(Record::Second, 7, 1);
    file
}

// The end of the path fx metres east of a corner, half way to the corners north of it: the ground there
// is fx millimetres high.
fn end(corner: u16, fx: u16) -> Point
    requires { (corner ≤ 10000) × (fx ≤ 499) }
{
    past_corner(corner + fx, 250)
}

// Whether the path is clear where the ground at both ends is fx millimetres high.
fn is_clear(fx: u16) -> bool
    requires { fx ≤ 499 }
{
    let answer = ground().verdict(end(0, fx), end(APART, fx), MAST);
    answer.clear == 1
}

// The least fx with which the path is clear. The ends with their masts are then as high as the greatest G.
fn least_clear() -> Option<u16>
    ensures { IfSome result (λ fx. fx ≤ 499) }
{
    (0..500).find(|fx| is_clear(*fx))
}

// Prints P10: the greatest G of the path, that of its middle sample.
pub(crate) fn p10(rt: &impl Print) -> io::Result<()> {
    let n = ground().profile(end(0, 0), end(APART, 0)).n;
    let q = u32::from(APART).pow(2);
    print!(rt; "P10: Q = {q}, N = {n}, i = {}", n / 2)?;
    if let Some(fx) = least_clear() {
        print!(rt; ": G = {}", 1000 * MAST + u32::from(fx))?;
    }
    println!(rt)
}
