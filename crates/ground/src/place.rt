// Where a point lies in its file, and what the corners around it weigh.
ghost use Rattle.std.specs.Prelude.{◌≤◌, ◌<◌, ◌≡◌};
ghost use Rattle.ground.specs.Place.{weights_of, place_at, word, words_of};
ghost use Rattle.ground.specs.Seam.{west_allowed, south_allowed, moved, in_west, in_south};

use crate::measure::{Metres, Units};
use crate::rectangle::Rectangle;

// Something of each of the four corners around a point.
#[derive(Clone, Copy)]
pub struct PerCorner<T> {
    pub sw: T,
    pub se: T,
    pub nw: T,
    pub ne: T,
}

// What each corner weighs; together 250,000.
pub type Weights = PerCorner<u32>;

// The words at the corners, counted from 1.
pub type Words = PerCorner<usize>;

// Where a point lies: a rectangle, the column wx and row wy of the word at the point's south-west
// corner in it, the metres fx and fy past that corner, and the weights. The place of a refusal is
// another thing, a sample's number.
#[derive(Clone, Copy)]
pub struct Place {
    pub rectangle: Rectangle,
    pub wx: Units,
    pub wy: Units,
    pub fx: Metres,
    pub fy: Metres,
    pub weights: Weights,
}

impl PerCorner<u32> {
    // The weights fx metres east and fy metres north of the south-west corner.
    pub(crate) fn at(fx: Metres, fy: Metres) -> Weights
        requires { (fx.0 < 500) × (fy.0 < 500) }
        ensures { result ≡ weights_of fx fy }
    {
        let gx = Metres::IN_A_UNIT - fx.0;
        let gy = Metres::IN_A_UNIT - fy.0;
        PerCorner {
            sw: gx * gy,
            se: fx.0 * gy,
            nw: gx * fy.0,
            ne: fx.0 * fy.0,
        }
    }
}

impl Place {
    // The place these units east and north of the ground's corner, and fx and fy metres past that.
    pub(crate) fn at(east: Units, north: Units, fx: Metres, fy: Metres) -> Place
        requires { (fx.0 < 500) × (fy.0 < 500) }
        ensures { result ≡ place_at east north fx fy }
    {
        let rectangle = Rectangle::at(east, north);
        Place {
            rectangle,
            wx: Units(east.0 - Rectangle::EAST * rectangle.ix),
            wy: Units(north.0 - Rectangle::NORTH * rectangle.iy),
            fx,
            fy,
            weights: Weights::at(fx, fy),
        }
    }

    // The word of the south-west corner, w = 16 wy + wx + 1, for a place in a record. Row and column are put
    // together in their own 32 bits, so that one number is widened and not two.
    pub fn word(self) -> usize
        requires { word self ≤ 512 }
        ensures { result ≡ word self }
    {
        (Rectangle::WIDE as u32 * self.wy.0 + self.wx.0) as usize + 1
    }

    // The words of the corners: w, w + 1, w + 16, w + 17.
    pub fn words(self) -> Words
        requires { word self ≤ 512 }
        ensures { result ≡ words_of self }
    {
        let w = self.word();
        PerCorner {
            sw: w,
            se: w + 1,
            nw: w + Rectangle::WIDE,
            ne: w + Rectangle::WIDE + 1,
        }
    }

    // Whether the point may be read from the rectangle to the west: it lies on the western edge of its
    // own, and that is not in column 0. West and south have a function each, as each has its own promise.
    pub fn allows_west(self) -> bool
        ensures { result ≡ west_allowed self }
    {
        ((self.wx.0 == 0) & (self.fx.0 == 0)) & (1 <= self.rectangle.ix)
    }

    // Whether the point may be read from the rectangle to the south: it lies on the southern edge of
    // its own, and that is not in row 0.
    pub fn allows_south(self) -> bool
        ensures { result ≡ south_allowed self }
    {
        ((self.wy.0 == 0) & (self.fy.0 == 0)) & (1 <= self.rectangle.iy)
    }

    // The place of the same point in another rectangle, in this column and row of it. Field by field,
    // since the compiler would copy two fields as one number and take them apart again.
    fn moved(self, rectangle: Rectangle, wx: Units, wy: Units) -> Place
        ensures { result ≡ moved self rectangle wx wy }
    {
        Place {
            rectangle,
            wx,
            wy,
            fx: Metres(self.fx.0),
            fy: Metres(self.fy.0),
            weights: PerCorner {
                sw: self.weights.sw,
                se: self.weights.se,
                nw: self.weights.nw,
                ne: self.weights.ne,
            },
        }
    }

    // The place of the point in the rectangle to the west, in column 15.
    pub fn in_west(self) -> Place
        requires { 1 ≤ self.rectangle.ix }
        ensures { result ≡ in_west self }
    {
        self.moved(
            Rectangle {
                iy: self.rectangle.iy,
                ix: self.rectangle.ix - 1,
            },
            Units(Rectangle::EAST),
            Units(self.wy.0),
        )
    }

    // The place of the point in the rectangle to the south, in row 31.
    pub fn in_south(self) -> Place
        requires { 1 ≤ self.rectangle.iy }
        ensures { result ≡ in_south self }
    {
        self.moved(
            Rectangle {
                iy: self.rectangle.iy - 1,
                ix: self.rectangle.ix,
            },
            Units(self.wx.0),
            Units(Rectangle::NORTH),
        )
    }
}
