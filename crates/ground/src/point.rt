// A point of the UTM grid, with the zone that its easting and northing are of.
use crate::measure::Metres;

#[repr(C)]
#[derive(Clone, Copy)]
pub struct Point {
    pub zone: u32,
    pub easting: Metres,
    pub northing: Metres,
}
