// The surface code of a point: the vote of its corners.
ghost use Rattle.std.specs.Prelude.{◌≡◌, [], ◌∷◌, ◌+◌, ◌≤◌};
ghost use Rattle.terrain.specs.Inside.{Measured};
ghost use Rattle.reading.specs.Inside.{joined, rank_of, Fit, Top, Decides, from_to, corners_around};
ghost use Rattle.reading.specs.Vote.{vote};

use crate::edge::Edge;
use ground::measure::Metres;
use ground::place::Place;

// Half a unit, in metres.
const HALF_WAY: u32 = Metres::IN_A_UNIT / 2;

// A surface code, and what some of the corners that have it weigh together.
#[derive(Clone, Copy)]
pub struct Sum {
    pub code: u32,
    pub weight: u32,
}

impl Sum {
    // The sum with the weight of another one of its code.
    fn with(self, other: Sum) -> Sum
        requires { self.weight + other.weight ≤ 250000 }
        ensures { result ≡ joined self other }
    {
        Sum {
            code: self.code,
            weight: self.weight + other.weight,
        }
    }

    // Code and weight as one number: the greater weight has the greater one and, where weights tie, the
    // smaller code.
    fn rank(self) -> u32
        requires { (self.code ≤ 7) × (self.weight ≤ 250000) }
        ensures { result ≡ rank_of self }
    {
        8 * self.weight + (7 - self.code)
    }
}

// The highest rank of two sums, which count as one where they have one code. Two, three and four sums have a
// function each, which joins two of them and calls the one before: over a slice the joined sum would have to be
// written back.
fn best_of_two(a: Sum, b: Sum) -> u32
    requires { Fit (a ∷ b ∷ []) }
    ensures { Top (a ∷ b ∷ []) result }
{
    if a.code == b.code {
        return a.with(b).rank();
    }
    a.rank().max(b.rank())
}

// The highest rank of three sums, of which those with one code count as one.
fn best_of_three(a: Sum, b: Sum, c: Sum) -> u32
    requires { Fit (a ∷ b ∷ c ∷ []) }
    ensures { Top (a ∷ b ∷ c ∷ []) result }
{
    if a.code == b.code {
        return best_of_two(a.with(b), c);
    }
    if a.code == c.code {
        return best_of_two(a.with(c), b);
    }
    a.rank().max(best_of_two(b, c))
}

// The highest rank of four sums, of which those with one code count as one.
fn best_of_four(a: Sum, b: Sum, c: Sum, d: Sum) -> u32
    requires { Fit (a ∷ b ∷ c ∷ d ∷ []) }
    ensures { Top (a ∷ b ∷ c ∷ d ∷ []) result }
{
    if a.code == b.code {
        return best_of_three(a.with(b), c, d);
    }
    if a.code == c.code {
        return best_of_three(a.with(c), b, d);
    }
    if a.code == d.code {
        return best_of_three(a.with(d), b, c);
    }
    a.rank().max(best_of_three(b, c, d))
}

// The surface code f metres along a unit from one code to another: the nearer one, which weighs more;
// half way the smaller.
pub(crate) fn nearer(f: u32, from: u32, to: u32) -> u32
    requires { (f ≤ 500) × ((from ≤ 7) × (to ≤ 7)) }
    ensures { Decides (from_to f from to) result }
{
    if f < HALF_WAY {
        return from;
    }
    if HALF_WAY < f {
        return to;
    }
    from.min(to)
}

// The surface code with the greatest sum of weights, ties to the smaller code, of a point between two
// edges. Where these have the same code at the same ends, or each has one code, the point lies between two
// codes, and nothing is added up; else the corners of one code are, and the highest rank tells the code.
pub(crate) fn vote(south: Edge, north: Edge, place: Place) -> u32
    requires { Measured place }
    ensures { result ≡ vote (corners_around south north place.weights) }
{
    if south.is_like(north) {
        return nearer(place.fx.0, south.first_code(), south.second_code());
    }
    if south.has_one_code() {
        if north.has_one_code() {
            return nearer(place.fy.0, south.first_code(), north.first_code());
        }
    }
    let weights = place.weights;
    let best = best_of_four(
        Sum {
            code: south.first_code(),
            weight: weights.sw,
        },
        Sum {
            code: south.second_code(),
            weight: weights.se,
        },
        Sum {
            code: north.first_code(),
            weight: weights.nw,
        },
        Sum {
            code: north.second_code(),
            weight: weights.ne,
        },
    );
    7 - best % 8
}
