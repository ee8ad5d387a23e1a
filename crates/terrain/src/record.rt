// The records of a file: which one a point is read from, and that record as a part of the lent bytes.
ghost use Rattle.std.specs.Prelude.{◌≡◌, true, ◌+◌, ◌-◌, ◌≤◌};
ghost use Rattle.ground.specs.Outcome.{◌and_then◌};
ghost use Rattle.ground.specs.Refusal.{outcome_of};
ghost use Rattle.ground.specs.Place.{number};
ghost use Rattle.ground.specs.Seam.{beside};
ghost use Rattle.index.specs.Bytes.{most_records};
ghost use Rattle.terrain.specs.Check.{highest_of, Opens};
ghost use Rattle.terrain.specs.Inside.{InIndex, entry_where};
ghost use Rattle.terrain.specs.Record.{entry, first_covered, taken, record_in, vouched, record_for, RecordPart};

use crate::check::Terrain;
use ground::place::Place;
use ground::point::Point;
use ground::rectangle::Rectangle;
use ground::refusal::Refusal;
use index::bytes;

// The record that the index names for a point: its number, which is the entry of a rectangle, and where
// in that rectangle the point lies.
#[derive(Clone, Copy)]
pub struct Taken {
    pub entry: usize,
    pub place: Place,
}

// What the index says of rectangle n: the number in its position, which need not be a record's; 0 where the
// rectangle is not covered, as the file has it. Of rectangle 0, which has no position, it is 0.
fn entry_of(file: &[u8], n: usize) -> usize
    requires { InIndex file.now n }
    ensures { result ≡ entry file.now n }
{
    if n == 0 {
        return 0;
    }
    usize::from(bytes::nth(file, n))
}

// What the index says of the rectangle that is `back` numbers before n, where the point may be read
// from it; else 0.
fn entry_before(file: &[u8], allowed: bool, n: usize, back: usize) -> usize
    requires { InIndex file.now n × (allowed ≡ true → back ≤ n) }
    ensures { result ≡ entry_where file.now allowed (n - back) }
{
    if allowed { entry_of(file, n - back) } else { 0 }
}

// The record that the index names for a point of rectangle n, whose own entry is 0: by the first entry
// that is not 0 of the rectangles to the west, south and south-west, of those that its place allows; or
// refusal 5. Its number is not compared with M yet.
fn take_beside(file: &[u8], place: Place, n: usize) -> Result<Taken, Refusal>
    requires { InIndex file.now n × (n ≡ number place.rectangle) }
    ensures { outcome_of result ≡ first_covered file.now (beside place) }
{
    let west = place.allows_west();
    let south = place.allows_south();
    let entry = entry_before(file, west, n, 1);
    if entry != 0 {
        return Ok(Taken {
            entry,
            place: place.in_west(),
        });
    }
    let entry = entry_before(file, south, n, Rectangle::IN_A_ROW);
    if entry != 0 {
        return Ok(Taken {
            entry,
            place: place.in_south(),
        });
    }
    let entry = entry_before(file, west & south, n, Rectangle::IN_A_ROW + 1);
    if entry != 0 {
        return Ok(Taken {
            entry,
            place: place.in_west().in_south(),
        });
    }
    Err(Refusal::NotCovered)
}

// The record that was found, if its entry is that of one of the first `past` records past the index;
// else refusal 3.
fn vouch(taken: Taken, past: usize) -> Result<Taken, Refusal>
    requires { past ≤ most_records }
    ensures { outcome_of result ≡ vouched (6 + past) taken }
{
    if !bytes::is_record(taken.entry, past) {
        return Err(Refusal::Damaged);
    }
    Ok(taken)
}

// The record that a point at this place is read from: its own rectangle's, if the entry is that of one of
// the first `past` records past the index; one beside it, if the entry is 0; or refusal 3 or 5. No entry
// after the first that is not 0 is looked at.
fn take(file: &[u8], place: Place, past: usize) -> Result<Taken, Refusal>
    requires { InIndex file.now (number place.rectangle) × (past ≤ most_records) }
    ensures { outcome_of result ≡ (taken file.now place and_then vouched (6 + past)) }
{
    let rectangle = place.rectangle;
    let n = rectangle.number();
    let entry = entry_of(file, n);
    if bytes::is_record(entry, past) {
        return Ok(Taken { entry, place });
    }
    if entry == 0 {
        return vouch(take_beside(file, place, n)?, past);
    }
    Err(Refusal::Damaged)
}

// The record that a point of a file that was opened is read from, or refusal 4, 3 or 5. In a file that
// passes every entry is 0 or from 7 to M, and 3 is never given.
#[tactic(auto, using(crate::proofs::Laws::Checked::past_most, crate::proofs::Laws::Taken::index_reaches), unfolding(crate::specs::Record::record_in))]
pub fn seek(file: &[u8], terrain: Terrain, point: Point) -> Result<Taken, Refusal>
    requires { Opens file.now terrain }
    ensures { outcome_of result ≡ (record_in file.now terrain point and_then vouched (highest_of terrain)) }
{
    let ground = terrain.ground;
    take(file, ground.locate(point)?, terrain.past as usize)
}

// The record that a point is read from, as a part of the file: empty exactly where refusal 1, 2, 3 or
// 4 holds or none of the rectangles that it may be read from is covered.
pub fn record_at(file: &[u8], base: u32, zone: u32, point: Point) -> &[u8]
    ensures { RecordPart file.entry result (record_for file.now base zone point) }
{
    let Ok(terrain) = crate::check::check_file(file, base, zone) else {
        return &file[0..0];
    };
    let Ok(taken) = seek(file, terrain, point) else {
        return &file[0..0];
    };
    bytes::cut(file, taken.entry)
}
