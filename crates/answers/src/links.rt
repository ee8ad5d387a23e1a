// Questions about paths: profiles, verdicts, plans and rows.
use crate::file::{BASE, File, ZONE};
use crate::points::at;
use crate::say::{Expected, Numbers};
use janlishuk::Point;
use std::fmt::{self, Display, Formatter};
use std::io;

// A path, by easting and northing of its first end and of its second.
#[derive(Clone, Copy)]
struct Path((u32, u32), (u32, u32));

impl Path {
    // The points that the path leads from and to.
    fn ends(self) -> (Point, Point) {
        let Path((x0, y0), (x1, y1)) = self;
        (at(x0, y0), at(x1, y1))
    }
}

impl Display for Path {
    // Writes easting and northing of both ends.
    fn fmt<W: fmt::Write>(&self, f: &mut Formatter<W>) -> fmt::Result {
        let Path((x0, y0), (x1, y1)) = *self;
        write!(f, "{x0} {y0} {x1} {y1}")
    }
}

// Paths whose profiles are asked for: along the southern edge of rectangle 50, over its square, and out of
// the file.
const PROFILES: [Path; 9] = [
    Path((500000, 4433000), (501001, 4433000)),
    Path((501001, 4433000), (500000, 4433000)),
    Path((500000, 4434500), (500000, 4434000)),
    Path((500000, 4433500), (501000, 4434500)),
    Path((500000, 4433000), (498000, 4433000)),
    Path((500000, 4433000), (500000, 4433000)),
    Path((500000, 4433000), (600001, 4433000)),
    Path((500000, 4433000), (500000, 4432999)),
    Path((500000, 4437500), (501000, 4438500)),
];

// Paths, and the two masts with which each is clear or not.
const VERDICTS: [(Path, u32, u32); 8] = [
    (Path((500015, 4433000), (501015, 4433000)), 0, 0),
    (Path((500014, 4433000), (501014, 4433000)), 0, 0),
    (Path((500015, 4433001), (501015, 4433001)), 0, 0),
    (Path((500000, 4434000), (501500, 4434000)), 66, 0),
    (Path((500000, 4434000), (501500, 4434000)), 65, 0),
    (Path((500000, 4433000), (500300, 4433000)), 0, 0),
    (Path((500000, 4433000), (500000, 4433000)), 101, 0),
    (Path((500000, 4433000), (501000, 4433000)), 0, 101),
];

// Paths, and the two limits within which each is planned.
const PLANS: [(Path, u32, u32); 5] = [
    (Path((500000, 4433500), (501000, 4433500)), 100, 100),
    (Path((500000, 4433500), (501000, 4433500)), 100, 0),
    (Path((500000, 4434000), (501000, 4434000)), 100, 100),
    (Path((500000, 4434000), (501000, 4434000)), 30, 90),
    (Path((500000, 4433500), (501000, 4433500)), 100, 101),
];

// Paths, and the sample i of n whose row is asked for, with the height that is expected there in tenths of
// a metre.
const ROWS: [(Path, u32, u32, u32); 3] = [
    (Path((500000, 4434000), (501000, 4434000)), 1, 2, 1100),
    (Path((501000, 4434000), (500000, 4434000)), 2, 2, 1000),
    (Path((500000, 4434000), (501000, 4434000)), 3, 2, 0),
];

// Prints the paths, each with the answer that is asked for.
pub(crate) fn paths(rt: &impl Print, file: &File) -> io::Result<()> {
    for path in PROFILES {
        profile(rt, file, path)?;
    }
    for (path, a, b) in VERDICTS {
        verdict(rt, file, path, a, b)?;
    }
    for (path, la, lb) in PLANS {
        plan(rt, file, path, la, lb)?;
    }
    for (path, i, n, tenths) in ROWS {
        row(rt, file, path, i, n, tenths)?;
    }
    Ok(())
}

// Prints refusal, place, N of the path's profile, and the heights and codes of its first four samples.
fn profile(rt: &impl Print, file: &File, path: Path) -> io::Result<()> {
    let (first, second) = path.ends();
    let answer = janlishuk::janlishuk_profile(file.bytes(), BASE, ZONE, first, second);
    println!(rt; "path {path}")?;
    println!(rt;
        "  profile {} {} {}",
        answer.refusal, answer.place, answer.n
    )?;
    println!(rt; "  heights{}", Numbers(&answer.heights[..4]))?;
    println!(rt; "  codes{}", Numbers(&answer.codes[..4]))
}

// Prints the masts a and b; refusal, place, and 1 where the path is clear with them.
fn verdict(rt: &impl Print, file: &File, path: Path, a: u32, b: u32) -> io::Result<()> {
    let (first, second) = path.ends();
    let answer = janlishuk::janlishuk_verdict(file.bytes(), BASE, ZONE, first, second, a, b);
    println!(rt; "path {path}")?;
    println!(rt;
        "  verdict {a} {b} {} {} {}",
        answer.refusal, answer.place, answer.clear
    )
}

// Prints the limits la and lb; refusal, place, and the masts of the plan.
fn plan(rt: &impl Print, file: &File, path: Path, la: u32, lb: u32) -> io::Result<()> {
    let (first, second) = path.ends();
    let answer = janlishuk::janlishuk_plan(file.bytes(), BASE, ZONE, first, second, la, lb);
    println!(rt; "path {path}")?;
    println!(rt;
        "  plan {la} {lb} {} {} {} {}",
        answer.refusal, answer.place, answer.first, answer.second
    )
}

// Prints the sample i of n; refusal, place, height in tenths of a metre, and n times the share.
fn row(rt: &impl Print, file: &File, path: Path, i: u32, n: u32, tenths: u32) -> io::Result<()> {
    let (first, second) = path.ends();
    let answer = janlishuk::janlishuk_engine_row(file.bytes(), BASE, ZONE, first, second, i);
    let height = Expected::tenths(answer.row.height, tenths);
    let share = Expected::sample(answer.row.share, i, n);
    println!(rt; "path {path}")?;
    println!(rt;
        "  row {i} {} {} {height} {share}",
        answer.refusal, answer.place
    )
}
