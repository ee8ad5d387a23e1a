// The calls on the path between two points of a file: its profile, whether it is clear, its masts, and
// its rows for the prediction engine.
ghost use Rattle.janlishuk.specs.Promise.{Profiles, Judges, Plans, GivesRow};

use ground::point::Point;
use link::clear::VerdictAnswer;
use plan::PlanAnswer;
use profile::ProfileAnswer;
use profile::row::RowAnswer;

// N, and the exact height and surface code of each sample from 0 to N; or refusal 1 to 7.
pub fn janlishuk_profile(
    file: &[u8],
    base: u32,
    zone: u32,
    first: Point,
    second: Point,
) -> ProfileAnswer
    ensures { Profiles file.entry.now file.exit.now base zone first second result }
{
    profile::profile(file, base, zone, first, second)
}

// Whether the path is clear with masts of a and b metres, 1 or 0; or refusal 1 to 8.
pub fn janlishuk_verdict(
    file: &[u8],
    base: u32,
    zone: u32,
    first: Point,
    second: Point,
    a: u32,
    b: u32,
) -> VerdictAnswer
    ensures { Judges file.entry.now file.exit.now base zone first second a b result }
{
    VerdictAnswer::from(link::clear::verdict(file, base, zone, first, second, a, b))
}

// The masts, of at most la and lb metres, that make the path clear, with the least sum and, of those,
// the lowest first mast; or refusal 1 to 9.
pub fn janlishuk_plan(
    file: &[u8],
    base: u32,
    zone: u32,
    first: Point,
    second: Point,
    la: u32,
    lb: u32,
) -> PlanAnswer
    ensures { Plans file.entry.now file.exit.now base zone first second la lb result }
{
    PlanAnswer::from(plan::plan(file, base, zone, first, second, la, lb))
}

// The height in metres and the share of the way of sample i of the path; or refusal 1 to 8.
pub fn janlishuk_engine_row(
    file: &[u8],
    base: u32,
    zone: u32,
    first: Point,
    second: Point,
    i: u32,
) -> RowAnswer
    ensures { GivesRow file.entry.now file.exit.now base zone first second i result }
{
    RowAnswer::from(profile::row::engine_row(file, base, zone, first, second, i))
}
