// Points of the zone that the figures are of.
use crate::file::ZONE;
use janlishuk::{Metres, Point};

// The easting of the south-west corner of rectangle 50.
pub(crate) const WEST: u32 = 500000;

// The northing of the south-west corner of rectangle 50.
const SOUTH: u32 = 4433000;

// The point at this easting and northing.
pub(crate) fn at(easting: u32, northing: u32) -> Point {
    Point {
        zone: ZONE,
        easting: Metres(easting),
        northing: Metres(northing),
    }
}

// The point `east` and `north` metres past the south-west corner of rectangle 50.
pub(crate) fn past_corner(east: u16, north: u16) -> Point {
    at(WEST + u32::from(east), SOUTH + u32::from(north))
}
