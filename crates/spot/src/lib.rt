// The reading of one spot, which vouches for one entry of the index, the first of the spot's that is not 0,
// and not for the file.
#![tactic(auto)]

ghost use Rattle.std.specs.Prelude.{◌≡◌};
ghost use Rattle.ground.specs.Refusal.{outcome_of};
ghost use Rattle.spot.specs.Spot.{spot};

use ground::point::Point;
use ground::refusal::Refusal;
use reading::point;
use reading::point::Reading;
use terrain::check;

// The exact height and surface code of a spot; or refusal 1, 2, 3 for M outside its range, 4, 3 for an entry
// that names no record, 5 or 6. Of the index only M and the entries of the rectangles that the point may
// be read from, up to the first that is not 0, are looked at.
#[tactic(auto, using(crate::proofs::Laws::Spot::spot_steps))]
pub fn read(file: &[u8], base: u32, zone: u32, point: Point) -> Result<Reading, Refusal>
    ensures { outcome_of result ≡ spot file.now base zone point }
{
    point::read_in(file, check::open_file(file, base, zone)?, point)
}
