// The ground of a terrain file: its boundaries, its name, and where a point lies on it.
#![tactic(auto)]

ghost use Rattle.std.specs.Prelude.{◌≡◌, ◌≤◌};
ghost use Rattle.ground.specs.Refusal.{outcome_of};
ghost use Rattle.ground.specs.Ground.{rows_of, opened, holds};
ghost use Rattle.ground.specs.Place.{located};

use measure::{Metres, Units};
use place::Place;
use point::Point;
use rectangle::Rectangle;
use refusal::Refusal;
use table::Span;

pub mod measure;
pub mod name;
pub mod place;
pub mod point;
pub mod rectangle;
pub mod refusal;
pub mod table;

// The ground of a file that is opened: its zone and its boundaries.
#[derive(Clone, Copy)]
pub struct Ground {
    pub zone: u32,
    pub south: Units,
    pub north: Units,
}

impl Ground {
    // The first easting of the ground, in metres.
    pub const FIRST_EASTING: u32 = 125000;

    // The last easting of the ground, in metres.
    pub const LAST_EASTING: u32 = 874999;

    // The ground of the file of a base and a zone, or refusal 2.
    pub fn open(base: u32, zone: u32) -> Result<Ground, Refusal>
        ensures { outcome_of result ≡ opened base zone }
    {
        if !table::are_named(base, zone) {
            return Err(Refusal::NotNamed);
        }
        let Span { south, north } = table::boundaries((base / 4) as usize);
        Ok(Ground { zone, south, north })
    }

    // How many rows of rectangles there are between the boundaries.
    pub fn rows(self) -> u32
        requires { self.south.0 ≤ self.north.0 }
        ensures { result ≡ rows_of self }
    {
        (self.north.0 - self.south.0) / Rectangle::NORTH
    }

    // Whether the point is of the zone and on the ground.
    pub fn holds(self, point: Point) -> bool
        ensures { result ≡ holds self point }
    {
        let easting = point.easting.0;
        let y = point.northing.in_units().0;
        (point.zone == self.zone)
            & ((Ground::FIRST_EASTING <= easting)
                & (easting <= Ground::LAST_EASTING)
                & ((self.south.0 <= y) & (y < self.north.0)))
    }

    // Where the point lies, or refusal 4 where it is of another zone or not on the ground. The first
    // easting is a whole number of units, so units and metres past them may be counted from it.
    pub fn locate(self, point: Point) -> Result<Place, Refusal>
        ensures { outcome_of result ≡ located self point }
    {
        if !self.holds(point) {
            return Err(Refusal::OffGround);
        }
        let east = Metres(point.easting.0 - Ground::FIRST_EASTING);
        let y = point.northing.in_units();
        let north = Units(y.0 - self.south.0);
        Ok(Place::at(
            east.in_units(),
            north,
            east.past_unit(),
            point.northing.past_unit(),
        ))
    }
}
