// The reading of a point.
ghost use Rattle.std.specs.Prelude.{◌≡◌, ◌≤◌};
ghost use Rattle.ground.specs.Outcome.{refused};
ghost use Rattle.ground.specs.Refusal.{outcome_of};
ghost use Rattle.terrain.specs.Check.{Opens};
ghost use Rattle.terrain.specs.Inside.{Measured, Reaches};
ghost use Rattle.reading.specs.Reading.{read_corners, read_taken, spot_in, reading, read_answer};
ghost use Rattle.reading.specs.Inside.{corners_around, corners_along};

use crate::edge::Edge;
use crate::{edge, vote};
use ground::measure::Metres;
use ground::place::Place;
use ground::point::Point;
use ground::refusal::Refusal;
use index::bytes;
use terrain::check::Terrain;
use terrain::record::Taken;
use terrain::{check, record};

// What is read at a point: the exact height in 1/250,000 m, and the surface code.
#[derive(Clone, Copy)]
pub struct Reading {
    pub height: u32,
    pub code: u8,
}

// A reading, or a refusal, as C gets it.
#[repr(C)]
#[derive(Clone, Copy)]
pub struct ReadAnswer {
    pub refusal: u32,
    pub place: u32,
    pub height: u32,
    pub code: u32,
}

impl ReadAnswer {
    // The refusal with this number.
    pub fn refused(number: u32) -> ReadAnswer
        ensures { result ≡ read_answer (refused number 0) }
    {
        ReadAnswer {
            refusal: number,
            place: 0,
            height: 0,
            code: 0,
        }
    }
}

impl From<Result<Reading, Refusal>> for ReadAnswer {
    ghost from_gives = { λ reading answer. answer ≡ read_answer (outcome_of reading) };

    fn from(reading: Result<Reading, Refusal>) -> ReadAnswer {
        match reading {
            Ok(reading) => ReadAnswer {
                refusal: 0,
                place: 0,
                height: reading.height,
                code: u32::from(reading.code),
            },
            Err(refusal) => ReadAnswer::refused(refusal.number()),
        }
    }
}

// The reading f metres along the edge under a point of a grid line, or refusal 6.
fn read_along(edge: Edge, f: u32) -> Result<Reading, Refusal>
    requires { f ≤ 499 }
    ensures { outcome_of result ≡ read_corners (corners_along edge f) }
{
    let elevations = edge.elevations();
    if elevations.lack_height() {
        return Err(Refusal::NoHeight);
    }
    Ok(Reading {
        height: Metres::IN_A_UNIT * elevations.along(f),
        code: vote::nearer(f, edge.first_code(), edge.second_code()) as u8,
    })
}

// The reading of a point between two edges, or refusal 6. Its height lies fy metres from the height along
// the southern edge to that along the northern one.
fn read_between(south: Edge, north: Edge, place: Place) -> Result<Reading, Refusal>
    requires { Measured place }
    ensures { outcome_of result ≡ read_corners (corners_around south north place.weights) }
{
    let low = south.elevations();
    let high = north.elevations();
    if low.lack_height() | high.lack_height() {
        return Err(Refusal::NoHeight);
    }
    let fx = place.fx.0;
    Ok(Reading {
        height: edge::between(place.fy.0, low.along(fx), high.along(fx)),
        code: vote::vote(south, north, place) as u8,
    })
}

// The reading from the record taken, or refusal 6. Off the grid lines all four corners weigh in, on a
// line two at most.
fn read_taken(file: &[u8], taken: Taken) -> Result<Reading, Refusal>
    requires { Reaches file.now taken }
    ensures { outcome_of result ≡ read_taken file.now taken }
{
    let place = taken.place;
    let bytes = bytes::cut(file, taken.entry);
    if (place.fx.0 == 0) | (place.fy.0 == 0) {
        let edge = Edge::under(bytes, place);
        return read_along(edge, place.fx.0 + place.fy.0);
    }
    let words = place.words();
    let south = Edge::east_of(bytes, words.sw);
    let north = Edge::east_of(bytes, words.nw);
    read_between(south, north, place)
}

// The reading of a point in a file that was opened; or refusal 4, 3 for an entry that names no record, 5
// or 6. In a file that passes the check every entry but 0 names one, and 3 is never given.
#[tactic(auto, unfolding(crate::specs::Reading::spot_in))]
pub fn read_in(file: &[u8], terrain: Terrain, point: Point) -> Result<Reading, Refusal>
    requires { Opens file.now terrain }
    ensures { outcome_of result ≡ spot_in file.now terrain point }
{
    read_taken(file, record::seek(file, terrain, point)?)
}

// The exact height and surface code of a point, or refusal 1 to 6.
#[tactic(auto, unfolding(crate::specs::Reading::reading))]
pub fn read(file: &[u8], base: u32, zone: u32, point: Point) -> Result<Reading, Refusal>
    ensures { outcome_of result ≡ reading file.now base zone point }
{
    read_in(file, check::check_file(file, base, zone)?, point)
}
