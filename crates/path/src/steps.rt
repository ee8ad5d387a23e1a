// How long a path is, and how many steps of at most 500 m it takes.
ghost use Rattle.std.specs.Prelude.{◌≡◌, ◌≤◌};
ghost use Rattle.path.specs.Path.{Q, farthest, N};
ghost use Rattle.path.specs.Inside.{Near};

use ground::measure::Metres;
use ground::point::Point;

// The square of a step's length, in square metres.
const STEP: u64 = (Metres::IN_A_UNIT * Metres::IN_A_UNIT) as u64;

// Q, the square of the path's length: dE² + dN².
#[tactic(auto, unfolding(crate::specs::Path::Q))]
pub(crate) fn squared(first: Point, second: Point) -> u64
    requires { Near first × Near second }
    ensures { result ≡ Q first second }
{
    let east = u64::from(first.easting.0.abs_diff(second.easting.0));
    let north = u64::from(first.northing.0.abs_diff(second.northing.0));
    east * east + north * north
}

// N, the least number from 1 on with (500 N)² >= Q: its square is the first above (Q-1) / 500².
#[tactic(auto, using(crate::proofs::Laws::Steps::root_found))]
pub(crate) fn steps(q: u64) -> u32
    requires { q ≤ farthest }
    ensures { result ≡ N q }
{
    u32::from(((q.saturating_sub(1) / STEP) as u16).isqrt()) + 1
}
