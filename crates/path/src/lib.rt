// The path of a link: a straight line on the grid between two points, and where its samples lie.
#![tactic(auto)]

ghost use Rattle.std.specs.Prelude.{◌≡◌, ◌≤◌};
ghost use Rattle.ground.specs.Boundary.{y_end};
ghost use Rattle.ground.specs.Refusal.{outcome_of};
ghost use Rattle.path.specs.Path.{ask_path, ask_masts, ask_sample, sample, over_asked, path_on};
ghost use Rattle.path.specs.Inside.{SoundPath};

use ground::Ground;
use ground::measure::Metres;
use ground::point::Point;
use ground::refusal::Refusal;
use line::Line;

pub mod line;
mod steps;

// The greatest Q of a path, in square metres: that of 100 km.
const FARTHEST: u64 = 10000000000;

// The tallest mast, in metres.
const TALLEST: u32 = 100;

// The room of a profile: a path of the most steps, 200, has one sample more.
pub const ROOM: usize = 201;

// A path: its ends, Q and N. The type states no bounds of them, since the definitions make a path of any two
// points, found or not.
#[derive(Clone, Copy)]
pub struct Path {
    pub first: Point,
    pub second: Point,
    pub q: u64,
    pub n: u32,
}

// What a call asks about: the ends of a path, two masts or mast limits, and a sample. What a call has
// no place for is 0.
#[derive(Clone, Copy)]
pub struct Asked {
    pub first: Point,
    pub second: Point,
    pub a: u32,
    pub b: u32,
    pub i: u32,
}

impl Asked {
    // What a call asks that has no mast and no sample.
    pub fn path(first: Point, second: Point) -> Asked
        ensures { result ≡ ask_path first second }
    {
        Asked::masts(first, second, 0, 0)
    }

    // What a call asks that has two masts, or two mast limits.
    pub fn masts(first: Point, second: Point, a: u32, b: u32) -> Asked
        ensures { result ≡ ask_masts first second a b }
    {
        Asked {
            first,
            second,
            a,
            b,
            i: 0,
        }
    }

    // What a call asks that has a sample.
    pub fn sample(first: Point, second: Point, i: u32) -> Asked
        ensures { result ≡ ask_sample first second i }
    {
        Asked {
            i,
            ..Asked::path(first, second)
        }
    }
}

impl Path {
    // The point of sample i.
    #[tactic(auto, unfolding(crate::specs::Path::sample))]
    pub fn sample(self, i: u32) -> Point
        requires { SoundPath self × (i ≤ self.n) }
        ensures { result ≡ sample self i }
    {
        let easting = Line {
            n: self.n,
            from: self.first.easting.0,
            to: self.second.easting.0,
        };
        let northing = Line {
            n: self.n,
            from: self.first.northing.0,
            to: self.second.northing.0,
        };
        Point {
            zone: self.first.zone,
            easting: Metres(easting.at(i)),
            northing: Metres(northing.at(i)),
        }
    }
}

// Whether a mast or mast limit is above 100, or the sample above N.
fn over_asked(n: u32, a: u32, b: u32, i: u32) -> bool
    ensures { result ≡ over_asked n a b i }
{
    (TALLEST < a) | (TALLEST < b) | (n < i)
}

// The path between two points of a ground, or refusal 4 for the first end, 4 for the second, 7 or 8.
pub fn find(ground: Ground, asked: Asked) -> Result<Path, Refusal>
    requires { ground.north.0 ≤ y_end }
    ensures { outcome_of result ≡ path_on ground asked }
{
    let Asked {
        first,
        second,
        a,
        b,
        i,
    } = asked;
    if !ground.holds(first) {
        return Err(Refusal::OffGround);
    }
    if !ground.holds(second) {
        return Err(Refusal::OffGround);
    }
    let q = steps::squared(first, second);
    if (q == 0) | (FARTHEST < q) {
        return Err(Refusal::NoPath);
    }
    let n = steps::steps(q);
    if over_asked(n, a, b, i) {
        return Err(Refusal::AboveLimit);
    }
    Ok(Path {
        first,
        second,
        q,
        n,
    })
}
