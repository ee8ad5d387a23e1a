// The point for the prediction engine.
ghost use Rattle.std.specs.Prelude.{◌≡◌};
ghost use Rattle.reading.specs.Reading.{reading};
ghost use Rattle.reading.specs.Engine.{metres_of, is_water, engine_means, engine};

use ground::point::Point;
use ground::refusal::Refusal;

// Land with its height in metres and its code, or water with its level in metres and its code.
#[derive(Clone, Copy)]
pub enum EnginePoint {
    Land(f64, u32),
    Water(f64, u32),
}

// A height of 1/250,000 m units in metres: divided once by 250,000.
pub fn metres_of(height: u32) -> f64
    ensures { result ≡ metres_of height }
{
    height as f64 / 250000.0
}

// Whether the code is that of water: fresh 3, sea 6.
fn is_water(code: u32) -> bool
    ensures { result ≡ is_water code }
{
    matches!(code, 3 | 6)
}

// The point as the engine takes it, or refusal 1, 2, 3, 4, 5 or 6.
pub fn engine_point(file: &[u8], base: u32, zone: u32, point: Point) -> Result<EnginePoint, Refusal>
    ensures { engine_means result ≡ engine (reading file.now base zone point) }
{
    let reading = crate::point::read(file, base, zone, point)?;
    let metres = metres_of(reading.height);
    let code = u32::from(reading.code);
    Ok(if is_water(code) {
        EnginePoint::Water(metres, code)
    } else {
        EnginePoint::Land(metres, code)
    })
}
