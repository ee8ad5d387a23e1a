// The southern boundaries of the files, and the bases and zones that a file is opened with.
ghost use Rattle.std.specs.Prelude.{◌≡◌, ◌*◌, ◌<◌, get_or};
ghost use Rattle.ground.specs.Boundary.{table1, span, is_base, is_zone, named, base_at, base_of, base_answer};
ghost use Rattle.ground.specs.Refusal.{outcome_of};

use crate::measure::{Metres, Units};
use crate::refusal::Refusal;

// yB(b) for b = 0, 4, .. 84, in units. A static, since an index into a constant has the whole table copied to
// the stack at each call.
static SOUTHERN: [u32; 22] = [
    0, 899, 1767, 2666, 3534, 4433, 5301, 6200, 7068, 7967, 8866, 9734, 10633, 11532, 12400, 13299,
    14198, 15097, 15965, 16864, 17763, END,
];

// The northern end of the last file, yB(84).
const END: u32 = 18662;

// The most units that a file spans from south to north: 29 rows of 31.
const MOST_UNITS: u32 = 899;

// A base, or a refusal, as C gets it.
#[repr(C)]
#[derive(Clone, Copy)]
pub struct BaseAnswer {
    pub refusal: u32,
    pub place: u32,
    pub base: u32,
}

impl From<Result<u32, Refusal>> for BaseAnswer {
    ghost from_gives = { λ base answer. answer ≡ base_answer (outcome_of base) };

    fn from(base: Result<u32, Refusal>) -> BaseAnswer {
        match base {
            Ok(base) => BaseAnswer {
                refusal: 0,
                place: 0,
                base,
            },
            Err(refusal) => BaseAnswer {
                refusal: refusal.number(),
                place: 0,
                base: 0,
            },
        }
    }
}

// The boundaries of one file.
#[derive(Clone, Copy)]
pub(crate) struct Span {
    pub south: Units,
    pub north: Units,
}

// Whether a file is opened with this base: 0, 4, .. 80.
pub fn is_base(base: u32) -> bool
    ensures { result ≡ is_base base }
{
    (base <= 80) & (base % 4 == 0)
}

// Whether a file is opened with this zone: 1 to 60.
pub fn is_zone(zone: u32) -> bool
    ensures { result ≡ is_zone zone }
{
    (1 <= zone) & (zone <= 60)
}

// Whether base and zone are both among those named.
pub fn are_named(base: u32, zone: u32) -> bool
    ensures { result ≡ named base zone }
{
    is_base(base) & is_zone(zone)
}

// Entry k of the table, counted from 0: yB(b) of base b = 4k.
#[tactic(auto, unfolding(crate::specs::Boundary::table1))]
fn southern(k: usize) -> u32
    requires { k < 22 }
    ensures { result ≡ get_or table1 k 0 }
{
    SOUTHERN[k]
}

// The boundaries of file k, counted from 0 at the equator: yB(b) and yB(b+4) of base b = 4k.
pub(crate) fn boundaries(k: usize) -> Span
    requires { k < 21 }
    ensures { result ≡ span (4 * k) }
{
    Span {
        south: Units(southern(k)),
        north: Units(southern(k + 1)),
    }
}

// The base of y, the b with yB(b) <= y < yB(b+4), or refusal 4 from y = 18,662. Since 899 k lies in
// file k for every k, y lies in file y / 899 or in the next one.
fn base_at(y: Units) -> Result<u32, Refusal>
    ensures { outcome_of result ≡ base_at y }
{
    if END <= y.0 {
        return Err(Refusal::OffGround);
    }
    let k = y.0 / MOST_UNITS;
    let file = boundaries(k as usize);
    Ok(if file.north.0 <= y.0 {
        4 * k + 4
    } else {
        4 * k
    })
}

// The base of a northing, or refusal 4.
pub fn base_of(northing: Metres) -> Result<u32, Refusal>
    ensures { outcome_of result ≡ base_of northing }
{
    base_at(northing.in_units())
}
