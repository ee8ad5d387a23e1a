// Grid rectangles of a file, their sizes and numbers.
ghost use Rattle.std.specs.Prelude.{◌≡◌};
ghost use Rattle.ground.specs.Place.{rectangle, rectangle_at, number};

use crate::measure::Units;

// A grid rectangle: row Iy and column Ix, both counted from 0.
#[derive(Clone, Copy)]
pub struct Rectangle {
    pub iy: u32,
    pub ix: u32,
}

impl Rectangle {
    // Units from a rectangle's western edge to its eastern one.
    pub const EAST: u32 = 15;

    // Units from a rectangle's southern edge to its northern one.
    pub const NORTH: u32 = 31;

    // Words in a row of a rectangle.
    pub const WIDE: usize = 16;

    // Rows of words in a rectangle.
    pub const HIGH: usize = 32;

    // Rectangles in a row of a file.
    pub const IN_A_ROW: usize = 100;

    // The rectangle in row Iy and column Ix.
    pub fn new(iy: u32, ix: u32) -> Rectangle
        ensures { result ≡ rectangle iy ix }
    {
        Rectangle { iy, ix }
    }

    // The rectangle that lies these units east and north of the ground's corner.
    pub fn at(east: Units, north: Units) -> Rectangle
        ensures { result ≡ rectangle_at east north }
    {
        Rectangle::new(north.0 / Rectangle::NORTH, east.0 / Rectangle::EAST)
    }

    // Its number, n = 100 Iy + Ix.
    pub fn number(self) -> usize
        ensures { result ≡ number self }
    {
        Rectangle::IN_A_ROW * self.iy as usize + self.ix as usize
    }
}
