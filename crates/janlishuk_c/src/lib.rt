// The library as C links it. Each call of include/janlishuk.h is the call of `janlishuk` that has its name, with
// the same promise; a slice crosses as a pointer and a length. No call asks anything of its caller.
#![tactic(auto)]

ghost use Rattle.survey.specs.Survey.{five_lists};
ghost use Rattle.janlishuk.specs.Promise.{Checks, Names, FindsBase, Reads, Spots, Uploads, Shows, Profiles, Judges, Plans, GivesRow};

use janlishuk::{
    BaseAnswer, CheckAnswer, EngineAnswer, NameAnswer, PlanAnswer, Point, ProfileAnswer,
    ReadAnswer, RowAnswer, UploadAnswer, VerdictAnswer,
};

// M of a file that passes, or refusal 1, 2 or 3.
#[unsafe(no_mangle)]
pub extern "C" fn janlishuk_check(file: &[u8], base: u32, zone: u32) -> CheckAnswer
    ensures { Checks file.entry.now file.exit.now base zone result }
{
    janlishuk::janlishuk_check(file, base, zone)
}

// The file's name, four bytes, or refusal 2.
#[unsafe(no_mangle)]
pub extern "C" fn janlishuk_name(base: u32, zone: u32) -> NameAnswer
    ensures { Names base zone result }
{
    janlishuk::janlishuk_name(base, zone)
}

// The base of a northing in metres, or refusal 4.
#[unsafe(no_mangle)]
pub extern "C" fn janlishuk_base(northing: u32) -> BaseAnswer
    ensures { FindsBase northing result }
{
    janlishuk::janlishuk_base(northing)
}

// The exact height in 1/250,000 m and the surface code of a point, or refusal 1 to 6.
#[unsafe(no_mangle)]
pub extern "C" fn janlishuk_read(file: &[u8], base: u32, zone: u32, point: Point) -> ReadAnswer
    ensures { Reads file.entry.now file.exit.now base zone point result }
{
    janlishuk::janlishuk_read(file, base, zone, point)
}

// The exact height in 1/250,000 m and the surface code of a point, or refusal 1 to 6, as `janlishuk_read`;
// but of the index only M and the entries of the rectangles that the point may be read from, up to the
// first that is not 0, are looked at.
#[unsafe(no_mangle)]
pub extern "C" fn janlishuk_spot(file: &[u8], base: u32, zone: u32, point: Point) -> ReadAnswer
    ensures { Spots file.entry.now file.exit.now base zone point result }
{
    janlishuk::janlishuk_spot(file, base, zone, point)
}

// Reads the points of a survey in the file's zone, at most 256, each as `janlishuk_read` does, and writes
// heights, codes and refusals into the lists; or refusal 1, 2, 3 or 10, and nothing is written.
#[unsafe(no_mangle)]
pub extern "C" fn janlishuk_upload(
    file: &[u8],
    base: u32,
    zone: u32,
    eastings: &[u32],
    northings: &[u32],
    heights: &mut [u32],
    codes: &mut [u8],
    refusals: &mut [u8],
) -> UploadAnswer
    ensures { Uploads file.entry.now file.exit.now base zone
        (five_lists eastings.entry.now northings.entry.now heights.old codes.old refusals.old)
        (five_lists eastings.exit.now northings.exit.now heights.new codes.new refusals.new)
        result }
{
    janlishuk::janlishuk_upload(
        file, base, zone, eastings, northings, heights, codes, refusals,
    )
}

// The point as the engine takes it, in a struct, or refusal 1 to 6.
#[unsafe(no_mangle)]
pub extern "C" fn janlishuk_engine_point(
    file: &[u8],
    base: u32,
    zone: u32,
    point: Point,
) -> EngineAnswer
    ensures { Shows file.entry.now file.exit.now base zone point result }
{
    janlishuk::janlishuk_engine_point(file, base, zone, point)
}

// N, and the exact height and surface code of each sample from 0 to N; or refusal 1 to 7.
#[unsafe(no_mangle)]
pub extern "C" fn janlishuk_profile(
    file: &[u8],
    base: u32,
    zone: u32,
    first: Point,
    second: Point,
) -> ProfileAnswer
    ensures { Profiles file.entry.now file.exit.now base zone first second result }
{
    janlishuk::janlishuk_profile(file, base, zone, first, second)
}

// Whether the path is clear with masts of a and b metres, 1 or 0; or refusal 1 to 8.
#[unsafe(no_mangle)]
pub extern "C" fn janlishuk_verdict(
    file: &[u8],
    base: u32,
    zone: u32,
    first: Point,
    second: Point,
    a: u32,
    b: u32,
) -> VerdictAnswer
    ensures { Judges file.entry.now file.exit.now base zone first second a b result }
{
    janlishuk::janlishuk_verdict(file, base, zone, first, second, a, b)
}

// The masts, of at most la and lb metres, that make the path clear, with the least sum and, of those,
// the lowest first mast; or refusal 1 to 9.
#[unsafe(no_mangle)]
pub extern "C" fn janlishuk_plan(
    file: &[u8],
    base: u32,
    zone: u32,
    first: Point,
    second: Point,
    la: u32,
    lb: u32,
) -> PlanAnswer
    ensures { Plans file.entry.now file.exit.now base zone first second la lb result }
{
    janlishuk::janlishuk_plan(file, base, zone, first, second, la, lb)
}

// The height in metres and the share of the way of sample i of the path; or refusal 1 to 8.
#[unsafe(no_mangle)]
pub extern "C" fn janlishuk_engine_row(
    file: &[u8],
    base: u32,
    zone: u32,
    first: Point,
    second: Point,
    i: u32,
) -> RowAnswer
    ensures { GivesRow file.entry.now file.exit.now base zone first second i result }
{
    janlishuk::janlishuk_engine_row(file, base, zone, first, second, i)
}
