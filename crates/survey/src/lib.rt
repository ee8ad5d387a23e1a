// The survey: up to 256 points of a file, read in one call into three lists that the caller lends.
#![tactic(auto)]

ghost use Rattle.std.specs.Prelude.{◌≡◌, false, set};
ghost use Rattle.ground.specs.Refusal.{outcome_of};
ghost use Rattle.terrain.specs.Check.{Gave};
ghost use Rattle.survey.specs.Survey.{five_lists, point_of, unfit_lengths, unfit, admitted, upload_answer, Uploaded};
ghost use Rattle.survey.specs.Inside.{IsPoint, HasEntry, InBytes, HasAnswers};

use ground::measure::Metres;
use ground::point::Point;
use ground::refusal::Refusal;
use reading::point::ReadAnswer;
use terrain::check;
use terrain::check::Terrain;

// Most points of a survey.
pub const MOST_POINTS: usize = 256;

// What C gets of a survey, whose readings are in the lent lists: 0 and 0, or a refusal.
#[repr(C)]
#[derive(Clone, Copy)]
pub struct UploadAnswer {
    pub refusal: u32,
    pub place: u32,
}

impl From<Result<(), Refusal>> for UploadAnswer {
    ghost from_gives = { λ uploaded answer. answer ≡ upload_answer (outcome_of uploaded) };

    fn from(uploaded: Result<(), Refusal>) -> UploadAnswer {
        match uploaded {
            Ok(()) => UploadAnswer {
                refusal: 0,
                place: 0,
            },
            Err(refusal) => UploadAnswer {
                refusal: refusal.number(),
                place: 0,
            },
        }
    }
}

// Whether lists of these lengths do not fit together: the two lists of points differ in length or hold
// over 256, or another list is shorter.
fn are_unfit(
    eastings: usize,
    northings: usize,
    heights: usize,
    codes: usize,
    refusals: usize,
) -> bool
    ensures { result ≡ unfit_lengths eastings northings heights codes refusals }
{
    (northings != eastings)
        | ((MOST_POINTS < eastings)
            | ((heights < eastings) | ((codes < eastings) | (refusals < eastings))))
}

// The file of a base and a zone, where it passes and the lists fit; or refusal 1, 2, 3 or 10, in that
// order.
fn admit(file: &[u8], base: u32, zone: u32, unfit: bool) -> Result<Terrain, Refusal>
    ensures { outcome_of result ≡ admitted file.now base zone unfit }
{
    let terrain = check::check_file(file, base, zone)?;
    if unfit {
        return Err(Refusal::UnfitLists);
    }
    Ok(terrain)
}

// Point i of a survey, of this zone.
fn point_at(eastings: &[u32], northings: &[u32], i: usize, zone: u32) -> Point
    requires { IsPoint eastings.now northings.now i }
    ensures { result ≡ point_of zone eastings.now northings.now i }
{
    Point {
        zone,
        easting: Metres(eastings[i]),
        northing: Metres(northings[i]),
    }
}

// Writes the answer to a point into entry i of the lists: its height, its code and its refusal.
fn enter(heights: &mut [u32], codes: &mut [u8], refusals: &mut [u8], i: usize, answer: ReadAnswer)
    requires { HasEntry heights.old codes.old refusals.old i × InBytes answer }
    ensures { (heights.new ≡ set heights.old i answer.height)
        × ((codes.new ≡ set codes.old i answer.code)
        × (refusals.new ≡ set refusals.old i answer.refusal)) }
{
    heights[i] = answer.height;
    codes[i] = answer.code as u8;
    refusals[i] = answer.refusal as u8;
}

// Reads each point of a survey in a checked file, in the file's zone, and enters its height, its code
// and its refusal, 0, 4, 5 or 6, into the lists. Entries after the last point stay. The number i is the entry
// of five lists that C lends, which a chain of zips would only take apart again.
fn read_each(
    file: &[u8],
    terrain: Terrain,
    eastings: &[u32],
    northings: &[u32],
    heights: &mut [u32],
    codes: &mut [u8],
    refusals: &mut [u8],
)
    requires { Gave file.now terrain × (unfit (five_lists eastings.now northings.now heights.old codes.old refusals.old) ≡ false) }
    ensures { HasAnswers file.now terrain
        (five_lists eastings.entry.now northings.entry.now heights.old codes.old refusals.old)
        (five_lists eastings.exit.now northings.exit.now heights.new codes.new refusals.new) }
{
    let ground = terrain.ground;
    for i in 0..eastings.len() {
        let point = point_at(eastings, northings, i, ground.zone);
        let read = reading::point::read_in(file, terrain, point);
        enter(heights, codes, refusals, i, ReadAnswer::from(read));
    }
}

// Reads the points of a survey into the lists; or refusal 1, 2, 3 or 10, and the lists stay as they are.
pub fn upload(
    file: &[u8],
    base: u32,
    zone: u32,
    eastings: &[u32],
    northings: &[u32],
    heights: &mut [u32],
    codes: &mut [u8],
    refusals: &mut [u8],
) -> Result<(), Refusal>
    ensures { Uploaded file.now base zone
        (five_lists eastings.entry.now northings.entry.now heights.old codes.old refusals.old)
        (five_lists eastings.exit.now northings.exit.now heights.new codes.new refusals.new)
        (upload_answer (outcome_of result)) }
{
    let unfit = are_unfit(
        eastings.len(),
        northings.len(),
        heights.len(),
        codes.len(),
        refusals.len(),
    );
    let terrain = admit(file, base, zone, unfit)?;
    read_each(file, terrain, eastings, northings, heights, codes, refusals);
    Ok(())
}
