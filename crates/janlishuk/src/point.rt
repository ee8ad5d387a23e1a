// The calls on a point of a file: its reading, with and without a check of the whole index, its record,
// and the point for the prediction engine.
ghost use Rattle.std.specs.Prelude.{◌≡◌};
ghost use Rattle.reading.specs.Engine.{engine_means};
ghost use Rattle.janlishuk.specs.Engine.{engine_answer};
ghost use Rattle.janlishuk.specs.Promise.{Reads, Spots, HandsBack, Tells, Shows};

use ground::point::Point;
use ground::refusal::Refusal;
use reading::engine::EnginePoint;
use reading::point::ReadAnswer;

// What a point is to the engine, with the number by which C knows it.
enum Kind {
    Land = 1,
    Water = 2,
}

// The point for the engine: its kind, 1 land or 2 water, its code, and its height or level in metres;
// or a refusal.
#[repr(C)]
#[derive(Clone, Copy)]
pub struct EngineAnswer {
    pub refusal: u32,
    pub place: u32,
    pub kind: u32,
    pub code: u32,
    pub metres: f64,
}

impl From<Result<EnginePoint, Refusal>> for EngineAnswer {
    ghost from_gives = { λ point answer. answer ≡ engine_answer (engine_means point) };

    fn from(point: Result<EnginePoint, Refusal>) -> EngineAnswer {
        match point {
            Ok(EnginePoint::Land(metres, code)) => EngineAnswer {
                refusal: 0,
                place: 0,
                kind: Kind::Land as u32,
                code,
                metres,
            },
            Ok(EnginePoint::Water(metres, code)) => EngineAnswer {
                refusal: 0,
                place: 0,
                kind: Kind::Water as u32,
                code,
                metres,
            },
            Err(refusal) => EngineAnswer {
                refusal: refusal.number(),
                place: 0,
                kind: 0,
                code: 0,
                metres: 0.0,
            },
        }
    }
}

// The exact height in 1/250,000 m and the surface code of a point, or refusal 1 to 6.
pub fn janlishuk_read(file: &[u8], base: u32, zone: u32, point: Point) -> ReadAnswer
    ensures { Reads file.entry.now file.exit.now base zone point result }
{
    ReadAnswer::from(reading::point::read(file, base, zone, point))
}

// The exact height in 1/250,000 m and the surface code of a point, or refusal 1 to 6, as `janlishuk_read`;
// but of the index only M and the entries of the rectangles that the point may be read from, up to the
// first that is not 0, are looked at.
pub fn janlishuk_spot(file: &[u8], base: u32, zone: u32, point: Point) -> ReadAnswer
    ensures { Spots file.entry.now file.exit.now base zone point result }
{
    ReadAnswer::from(spot::read(file, base, zone, point))
}

// The record that a point is read from, a part of the file: empty exactly where refusal 1, 2, 3 or 4
// holds or none of the rectangles that it may be read from is covered.
pub fn record(file: &[u8], base: u32, zone: u32, point: Point) -> &[u8]
    ensures { HandsBack file.entry file.exit base zone point result }
{
    terrain::record::record_at(file, base, zone, point)
}

// The point as the engine takes it, land or water; or refusal 1 to 6.
pub fn engine_point(file: &[u8], base: u32, zone: u32, point: Point) -> Result<EnginePoint, Refusal>
    ensures { Tells file.entry.now file.exit.now base zone point result }
{
    reading::engine::engine_point(file, base, zone, point)
}

// The point as the engine takes it, in a struct, or refusal 1 to 6.
pub fn janlishuk_engine_point(file: &[u8], base: u32, zone: u32, point: Point) -> EngineAnswer
    ensures { Shows file.entry.now file.exit.now base zone point result }
{
    EngineAnswer::from(engine_point(file, base, zone, point))
}
