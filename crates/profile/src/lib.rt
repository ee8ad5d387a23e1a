// The profile of a path: what is read at each of its samples, and its rows for the prediction engine.
#![tactic(auto)]

ghost use Rattle.std.specs.Prelude.{◌≡◌};
ghost use Rattle.profile.specs.Profile.{profile, profile_answer};

use ground::point::Point;
use path::{Asked, ROOM};
use samples::Samples;

pub mod row;
pub mod samples;

// The profile: N, and the exact height and surface code of each sample; or a refusal.
#[repr(C)]
#[derive(Drop)]
pub struct ProfileAnswer {
    pub refusal: u32,
    pub place: u32,
    pub n: u32,
    pub heights: [u32; ROOM],
    pub codes: [u8; ROOM],
}

// The profile of the path between two points of a file, or refusal 1 to 7. It fills C's struct itself: a `Result`
// of a kilobyte beside that would stand on the stack twice, of which C is promised that no call takes 8 KB.
pub fn profile(file: &[u8], base: u32, zone: u32, first: Point, second: Point) -> ProfileAnswer
    ensures { result ≡ profile_answer (profile file.now base zone first second) }
{
    let mut samples = Samples::none();
    match samples::read_samples(file, base, zone, Asked::path(first, second), &mut samples) {
        Ok(path) => ProfileAnswer {
            refusal: 0,
            place: 0,
            n: path.n,
            heights: samples.heights,
            codes: samples.codes,
        },
        Err(met) => ProfileAnswer {
            refusal: met.refusal.number(),
            place: met.place,
            n: 0,
            heights: [0; ROOM],
            codes: [0; ROOM],
        },
    }
}
